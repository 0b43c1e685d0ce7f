//! The writer's lookup.
ghost use Rattle.std.specs.Prelude.{ℕ, ◌≡◌, [], ◌∷◌, ◌++◌, Some, None, IfSome, IfNone};
ghost use Rattle.mc_theory.specs.Lists.{state_of};
ghost use Rattle.mc_words.specs.History.{map_value};
ghost use Rattle.mc_words.specs.Places as places;
ghost use Rattle.mc_words.specs.Standing.{Stands};
ghost use Rattle.mc_writer.specs.WriterCalls.{HasGot, IsRested};

use crate::pen::Pen;
use mc_plan::Books;
use mc_search::{Held, read};
use mc_shared::{Cells, WriterSeat, set_mark_unless_set};
use mc_words::Reply;

// The moment: how many changes of the map were made. No act is made.
fn moment<const V: usize>(cells: &Cells<V>, seat: &mut WriterSeat) -> u64
    requires of { seat.old.of ≡ cells.now }
    ensures moment { result ≡ places.moment (state_of V cells.now.layout.shape seat.old.acts).words }
    ensures seat { seat.new ≡ seat.old }
{
    let checked = cells.checked();
    let mut pen = Pen { cells, seat };
    mc_search::moment(checked, &mut pen)
}

/// What the words hold of a key, while the writer rests: its item, its value and the moment of its last put. No act is made.
pub fn look<const V: usize>(
    cells: &Cells<V>,
    seat: &mut WriterSeat,
    books: &Books,
    key: u64,
) -> Option<Held<V>>
    requires of { seat.old.of ≡ cells.now }
    requires rested { IsRested V books.now seat.old }
    ensures found { IfSome result (λ held. map_value (state_of V cells.now.layout.shape seat.old.acts).history key ≡ Some (held.value ++ held.since ∷ [])) }
    ensures item { IfSome result (λ held. (q : ℕ) × Stands V cells.now.layout.shape (state_of V cells.now.layout.shape seat.old.acts).words key q held.item) }
    ensures none { IfNone result (map_value (state_of V cells.now.layout.shape seat.old.acts).history key ≡ None) }
    ensures seat { seat.new ≡ seat.old }
{
    let _books = books;
    let checked = cells.checked();
    let mut pen = Pen { cells, seat };
    read::<V, Pen<V>>(checked, &mut pen, key)
}

/// What the map holds of the key now, never `Busy`. A hit marks the key's item.
pub fn get<const V: usize>(
    cells: &Cells<V>,
    seat: &mut WriterSeat,
    books: &Books,
    key: u64,
) -> Reply<V>
    requires of { seat.old.of ≡ cells.now }
    requires rested { IsRested V books.now seat.old }
    ensures got { HasGot V cells.now.layout.shape key seat.old seat.new result }
    ensures rested { IsRested V books.now seat.new }
{
    let found = look(cells, seat, books, key);
    let at = moment(cells, seat);
    match found {
        Some(held) => {
            let value = held.value;
            set_mark_unless_set(cells, seat, held.item);
            Reply::Found {
                value,
                at,
                since: held.since,
            }
        }
        None => Reply::Absent { at },
    }
}
