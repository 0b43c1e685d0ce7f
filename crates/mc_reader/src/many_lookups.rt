//! Lookups of many keys, whose words are touched ahead in a large table.
ghost use Rattle.std.specs.Prelude.{◌≡◌, ◌≤◌, length};
ghost use Rattle.mc_theory.specs.Lists.{state_of};
ghost use Rattle.mc_reader.specs.Records.{AreTrueAnswers, HaveLooked};

use crate::running_lookup::get;
use crate::touches::{GROUP, touch_group};
use mc_shared::{Cells, ReaderSeat};
use mc_words::Reply;

/// From this many buckets on, those of all shards together, words are touched ahead. In smaller tables most words are in the processor's caches, and touching them costs
/// more than it saves.
const LARGE: u64 = 131_072;

/// From this many keys on, a group of them is touched ahead. With fewer keys, too few loads are under way at once.
const LEAST: usize = 8;

/// What the table holds of each of the keys: a lookup for each, as by `get`, in the order of the keys. In a large table the
/// processor waits for the words of several keys at once. It takes no memory.
/// Condition: the seat is one of these words, and there are as many replies as keys.
pub fn get_many<const V: usize>(
    cells: &Cells<V>,
    seat: &mut ReaderSeat,
    keys: &[u64],
    replies: &mut [Reply<V>],
)
    requires of { seat.old.of ≡ cells.now }
    requires many { length replies.old ≡ length keys.now }
    ensures of { seat.new.of ≡ seat.old.of }
    ensures looked { HaveLooked V cells.now.layout.shape keys.now seat.old seat.new replies.new }
    ensures truth { AreTrueAnswers (state_of V cells.now.layout.shape seat.new.front).history
        (length (state_of V cells.now.layout.shape seat.old.front).history)
        (length (state_of V cells.now.layout.shape seat.new.front).history) keys.now replies.new }
{
    let checked = cells.checked();
    let buckets = u64::from(checked.shape().buckets);
    for i in 0..keys.len() {
        if i % GROUP == 0 && pays_ahead(buckets, keys.len() - i) {
            touch_group(cells, &keys[i..keys.len().min(i + GROUP)]);
        }
        replies[i] = get(cells, seat, keys[i]);
    }
    seat.known();
}

/// Whether it pays to touch the words of so many keys ahead, in tables that have so many buckets together.
#[inline(always)]
pub fn pays_ahead(buckets: u64, keys: usize) -> bool {
    buckets >= LARGE && keys >= LEAST
}

/// Touches what lookups of the first of these keys will read, of `GROUP` keys at most, if `get_many` does so: in a large table, for
/// enough keys. It changes nothing, and no answer depends on it.
pub fn touch_ahead<const V: usize>(cells: &Cells<V>, keys: &[u64]) {
    if pays_ahead(u64::from(cells.checked().shape().buckets), keys.len()) {
        touch_group(cells, &keys[..keys.len().min(GROUP)]);
    }
}
