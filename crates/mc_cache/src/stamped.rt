//! The entries of a cache that stays open, with their stamps.
ghost use Rattle.std.specs.Prelude.{ℕ, ◌≡◌, ◌<◌, All, List, None, Some, IfNone, IfOk, IfSome, length, map};
ghost use Rattle.mc_words.specs.Checks.{shape_of};
ghost use Rattle.mc_words.specs.History.{key_count, value_held};
ghost use Rattle.mc_words.specs.Places.{IsWidth};
ghost use Rattle.mc_words.specs.Standing.{Agrees, Stands};
ghost use Rattle.mc_words.specs.declared.history.Change.{Change};
ghost use Rattle.mc_theory.specs.Lists.{state_of};
ghost use Rattle.mc_search.specs.Entries.{AreEntriesOf, AreInOrder};
ghost use Rattle.mc_writer.specs.WriterCalls.{IsRested};
ghost use Rattle.mc_cache.specs.Plain.{history};
ghost use Rattle.mc_cache.specs.Stamped.{AreStampedEntriesOf, pair_of};
ghost use Rattle.mc_cache.specs.Taking.{Holds};

use crate::cache::Cache;
use crate::writer::Writer;
use mc_plan::Books;
use mc_search::{Peek, key_at, read};
use mc_shared::{Cells, WriterSeat};
use mc_words::{Checked, NoMemory};
use mc_writer::{Entry, Pen};
use std::alloc::{AllocError, Global};

// The entry whose slot names this item.
pub(crate) fn stamped_at<const V: usize, P: Peek>(
    checked: &Checked,
    peek: &mut P,
    item: u32,
) -> Option<Entry<V>>
    requires width { IsWidth V }
    requires agrees { (h : List (Change V)) × Agrees V (shape_of checked.now) (P.words peek.old) None h }
    requires item { item < (shape_of checked.now).items }
    ensures stands { IfSome result (λ e. (q : ℕ) × Stands V (shape_of checked.now) (P.words peek.old) e.key q item) }
    ensures value { (h : List (Change V)) → Agrees V (shape_of checked.now) (P.words peek.old) None h → IfSome result (λ e. value_held h e.key ≡ Some e.value) }
    ensures holds { (h : List (Change V)) → Agrees V (shape_of checked.now) (P.words peek.old) None h → IfSome result (λ e. Holds h e.key (Some e)) }
    ensures none { IfNone result ((k q : ℕ) → Stands V (shape_of checked.now) (P.words peek.old) k q item → ⊥) }
    ensures kept { peek.new ≡ peek.old }
{
    let key = key_at::<V, P>(checked, peek, item);
    let found = read::<V, P>(checked, peek, key)?;
    if found.item == item {
        let value = found.value;
        let since = found.since;
        Some(Entry { key, value, since })
    } else {
        None
    }
}

// The entries of all items.
fn list_stamped<const V: usize, P: Peek>(
    alloc: Global,
    checked: &Checked,
    peek: &mut P,
) -> Result<Vec<Entry<V>>, AllocError>
    requires width { IsWidth V }
    requires agrees { (h : List (Change V)) × Agrees V (shape_of checked.now) (P.words peek.old) None h }
    ensures entries { (h : List (Change V)) → Agrees V (shape_of checked.now) (P.words peek.old) None h → IfOk result (λ es. AreStampedEntriesOf V h es.items) }
    ensures order { IfOk result (λ es. AreInOrder V (shape_of checked.now) (P.words peek.old) 0 (shape_of checked.now).items (map pair_of es.items)) }
    ensures kept { peek.new ≡ peek.old }
{
    let mut entries = Vec::new(alloc);
    for item in 0..checked.shape().items {
        if let Some(entry) = stamped_at::<V, P>(checked, peek, item) {
            entries.push(entry)?;
        }
    }
    Ok(entries)
}

// All that the words hold, while the writer rests.
fn list_stamped_beside<const V: usize>(
    alloc: Global,
    cells: &Cells<V>,
    seat: &mut WriterSeat,
    books: &Books,
) -> Result<Vec<Entry<V>>, NoMemory>
    requires of { seat.old.of ≡ cells.now }
    requires rested { IsRested V books.now seat.old }
    ensures entries { IfOk result (λ es. AreStampedEntriesOf V (state_of V cells.now.layout.shape seat.old.acts).history es.items) }
    ensures order { IfOk result (λ es. AreInOrder V cells.now.layout.shape (state_of V cells.now.layout.shape seat.old.acts).words 0 cells.now.layout.shape.items (map pair_of es.items)) }
    ensures seat { seat.new ≡ seat.old }
{
    let checked = cells.checked();
    let mut pen = Pen { cells, seat };
    Ok(list_stamped::<V, Pen<V>>(alloc, checked, &mut pen)?)
}

impl<const V: usize> Writer<V> {
    /// Lists each entry that the cache holds, with the moment of its key's last put, in the order of their items. The cache stays open.
    /// `Err` only if the list can't be stored. Condition: the writer is this cache's.
    pub fn stamped_entries(
        &mut self,
        alloc: Global,
        cache: &Cache<V>,
    ) -> Result<Vec<Entry<V>>, NoMemory>
        requires of { self.old.of ≡ cache.now }
        ensures writer { self.new ≡ self.old }
        ensures order { IfOk result (λ es. AreInOrder V cache.now.layout.shape (state_of V cache.now.layout.shape self.old.acts).words 0 cache.now.layout.shape.items (map pair_of es.items)) }
        ensures plain { IfOk result (λ es. AreStampedEntriesOf V (history V self.old) es.items) }
        ensures many { IfOk result (λ es. length es.items ≡ key_count (history V self.old)) }
    {
        let entries = list_stamped_beside(alloc, &cache.cells, &mut self.seat, &self.books)?;
        Ok(entries)
    }
}
