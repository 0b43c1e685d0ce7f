//! A lookup that a reader makes step by step, one `read` after the other.
ghost use Rattle.std.specs.Prelude.{◌≡◌};
ghost use Rattle.mc_theory.specs.Writes.{IsAccess};

use mc_core::Lookup;
use mc_shared::{Cells, ReaderSeat, mark, read};
use mc_theory::Access;
use mc_words::Reply;

/// More steps than any lookup makes: 64 tries of 21 readings, and the mark.
const MOST_STEPS: usize = 64 * 21 + 1;

// Makes one access. A mark reads nothing.
fn make_access(cells: &Cells<1>, reader: &mut ReaderSeat, access: Access) -> u64
    requires of { reader.old.of ≡ cells.now }
    requires access { IsAccess 1 cells.now.layout.shape access }
    ensures of { reader.new.of ≡ reader.old.of }
{
    match access {
        Access::Mark(i) => {
            mark(cells, reader, i);
            0
        }
        _ => read(cells, reader, access),
    }
}

/// Looks the key up as `get` does. Condition: the seat is one of these words.
pub fn look_up(cells: &Cells<1>, reader: &mut ReaderSeat, key: u64) -> Reply<1>
    requires of { reader.old.of ≡ cells.now }
    ensures of { reader.new.of ≡ reader.old.of }
{
    let mut lookup = Lookup::<1>::begin(cells.checked(), key);
    for n in 0..MOST_STEPS {
        let _n = n;
        let Some(access) = lookup.next() else {
            break;
        };
        let word = make_access(cells, reader, access);
        lookup.after(word);
    }
    lookup.reply().unwrap_or(Reply::Busy)
}
