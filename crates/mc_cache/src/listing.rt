//! The entries of a cache that stays open.
ghost use Rattle.std.specs.Prelude.{◌≡◌, IfOk, length};
ghost use Rattle.mc_words.specs.History.{key_count};
ghost use Rattle.mc_theory.specs.Lists.{state_of};
ghost use Rattle.mc_writer.specs.WriterCalls.{IsRested};
ghost use Rattle.mc_search.specs.Entries.{AreEntriesOf, AreInOrder};
ghost use Rattle.mc_cache.specs.Plain.{history};

use crate::cache::Cache;
use crate::writer::Writer;
use mc_plan::{Books, entries};
use mc_shared::{Cells, WriterSeat};
use mc_words::NoMemory;
use mc_writer::Pen;
use std::alloc::Global;

// All that the words hold, while the writer rests.
fn list_beside<const V: usize>(
    alloc: Global,
    cells: &Cells<V>,
    seat: &mut WriterSeat,
    books: &Books,
) -> Result<Vec<(u64, [u64; V])>, NoMemory>
    requires of { seat.old.of ≡ cells.now }
    requires rested { IsRested V books.now seat.old }
    ensures entries { IfOk result (λ es. AreEntriesOf V (state_of V cells.now.layout.shape seat.old.acts).history es.items) }
    ensures order { IfOk result (λ es. AreInOrder V cells.now.layout.shape (state_of V cells.now.layout.shape seat.old.acts).words 0 cells.now.layout.shape.items es.items) }
    ensures seat { seat.new ≡ seat.old }
{
    let checked = cells.checked();
    let mut pen = Pen { cells, seat };
    entries::<V, Pen<V>>(alloc, checked, &mut pen)
}

impl<const V: usize> Writer<V> {
    /// Lists each key that the cache holds with its value, in the order of their items. The cache stays open. `Err` only if the list can't
    /// be stored. Condition: the writer is this cache's.
    pub fn entries(
        &mut self,
        alloc: Global,
        cache: &Cache<V>,
    ) -> Result<Vec<(u64, [u64; V])>, NoMemory>
        requires of { self.old.of ≡ cache.now }
        ensures writer { self.new ≡ self.old }
        ensures entries { IfOk result (λ es. AreEntriesOf V (state_of V cache.now.layout.shape self.old.acts).history es.items) }
        ensures order { IfOk result (λ es. AreInOrder V cache.now.layout.shape (state_of V cache.now.layout.shape self.old.acts).words 0 cache.now.layout.shape.items es.items) }
        ensures plain { IfOk result (λ es. AreEntriesOf V (history V self.old) es.items) }
        ensures many { IfOk result (λ es. length es.items ≡ key_count (history V self.old)) }
    {
        let entries = list_beside(alloc, &cache.cells, &mut self.seat, &self.books)?;
        Ok(entries)
    }
}
