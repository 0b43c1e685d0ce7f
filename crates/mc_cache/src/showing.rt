//! The entry that lies in an item of the table.
ghost use Rattle.std.specs.Prelude.{◌≡◌, Ok};
ghost use Rattle.mc_theory.specs.Lists.{state_of};
ghost use Rattle.mc_writer.specs.WriterCalls.{IsRested};
ghost use Rattle.mc_cache.specs.Plain.{history};
ghost use Rattle.mc_cache.specs.Showing.{HasShown, LiesAt, ShowMeans};

use crate::cache::Cache;
use crate::stamped::stamped_at;
use crate::writer::Writer;
use mc_plan::Books;
use mc_shared::{Cells, WriterSeat};
use mc_writer::{Entry, Pen};

// The entry in an item, while the writer rests.
fn show_beside<const V: usize>(
    cells: &Cells<V>,
    seat: &mut WriterSeat,
    books: &Books,
    item: u32,
) -> Option<Entry<V>>
    requires of { seat.old.of ≡ cells.now }
    requires rested { IsRested V books.now seat.old }
    ensures lies { LiesAt V cells.now.layout.shape (state_of V cells.now.layout.shape seat.old.acts).words item result }
    ensures holds { ShowMeans V (state_of V cells.now.layout.shape seat.old.acts).history (state_of V cells.now.layout.shape seat.old.acts).history (Ok result) }
    ensures seat { seat.new ≡ seat.old }
{
    let checked = cells.checked();
    if item >= checked.shape().items {
        return None;
    }
    let mut pen = Pen { cells, seat };
    stamped_at::<V, Pen<V>>(checked, &mut pen, item)
}

impl<const V: usize> Writer<V> {
    /// The entry that lies in this item of the table, with the moment of its key's last put. It is no use of the key. `None` if the item has
    /// none, or there are fewer items. Condition: the writer is this cache's.
    pub fn entry_at(&mut self, cache: &Cache<V>, item: u32) -> Option<Entry<V>>
        requires of { self.old.of ≡ cache.now }
        ensures writer { self.new ≡ self.old }
        ensures shown { HasShown V cache.now.layout.shape item self.old self.new (Ok result) }
        ensures plain { ShowMeans V (history V self.old) (history V self.new) (Ok result) }
    {
        show_beside(&cache.cells, &mut self.seat, &self.books, item)
    }
}
