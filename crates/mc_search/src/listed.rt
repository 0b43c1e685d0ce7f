//! All that a quiet table holds.
ghost use Rattle.std.specs.Prelude.{ℕ, ◌≡◌, ◌<◌, List, Some, IfOk, IfSome, IfNone};
ghost use Rattle.mc_words.specs.declared.history.Change.{Change};
ghost use Rattle.mc_words.specs.Checks.{shape_of};
ghost use Rattle.mc_words.specs.History.{value_held};
ghost use Rattle.mc_words.specs.Places.{IsWidth};
ghost use Rattle.mc_words.specs.Standing.{Agrees, Stands};
ghost use Rattle.mc_search.specs.Entries.{AreEntriesOf, AreInOrder};

use crate::reading::{Held, read};
use crate::word::key_at;
use mc_theory::Peek;
use mc_words::{Checked, NoMemory};
use std::alloc::{AllocError, Global};

// The key whose slot names this item, and its value.
fn entry_at<const V: usize, P: Peek>(
    checked: &Checked,
    peek: &mut P,
    item: u32,
) -> Option<(u64, [u64; V])>
    requires width { IsWidth V }
    requires agrees { (h : List (Change V)) × Agrees V (shape_of checked.now) (P.words peek.old) None h }
    requires item { item < (shape_of checked.now).items }
    ensures stands { IfSome result (λ e. (q : ℕ) × Stands V (shape_of checked.now) (P.words peek.old) e.0 q item) }
    ensures value { (h : List (Change V)) → Agrees V (shape_of checked.now) (P.words peek.old) None h → IfSome result (λ e. value_held h e.0 ≡ Some e.1) }
    ensures none { IfNone result ((k q : ℕ) → Stands V (shape_of checked.now) (P.words peek.old) k q item → ⊥) }
    ensures kept { peek.new ≡ peek.old }
{
    let key = key_at::<V, P>(checked, peek, item);
    let Held {
        item: found,
        value,
        ..
    } = read::<V, P>(checked, peek, key)?;
    if found == item {
        Some((key, value))
    } else {
        None
    }
}

// The entries of all items.
fn list_entries<const V: usize, P: Peek>(
    alloc: Global,
    checked: &Checked,
    peek: &mut P,
) -> Result<Vec<(u64, [u64; V])>, AllocError>
    requires width { IsWidth V }
    requires agrees { (h : List (Change V)) × Agrees V (shape_of checked.now) (P.words peek.old) None h }
    ensures entries { (h : List (Change V)) → Agrees V (shape_of checked.now) (P.words peek.old) None h → IfOk result (λ es. AreEntriesOf V h es.items) }
    ensures order { IfOk result (λ es. AreInOrder V (shape_of checked.now) (P.words peek.old) 0 (shape_of checked.now).items es.items) }
    ensures kept { peek.new ≡ peek.old }
{
    let mut entries = Vec::new(alloc);
    for item in 0..checked.shape().items {
        if let Some(entry) = entry_at::<V, P>(checked, peek, item) {
            entries.push(entry)?;
        }
    }
    Ok(entries)
}

/// Each key that a quiet table holds, with its value, in the order of their items. `Err(NoMemory)` if the list can't be stored.
/// Condition: the words agree with some history, and no deed runs.
pub fn entries<const V: usize, P: Peek>(
    alloc: Global,
    checked: &Checked,
    peek: &mut P,
) -> Result<Vec<(u64, [u64; V])>, NoMemory>
    requires width { IsWidth V }
    requires agrees { (h : List (Change V)) × Agrees V (shape_of checked.now) (P.words peek.old) None h }
    ensures entries { (h : List (Change V)) → Agrees V (shape_of checked.now) (P.words peek.old) None h → IfOk result (λ es. AreEntriesOf V h es.items) }
    ensures order { IfOk result (λ es. AreInOrder V (shape_of checked.now) (P.words peek.old) 0 (shape_of checked.now).items es.items) }
    ensures kept { peek.new ≡ peek.old }
{
    Ok(list_entries::<V, P>(alloc, checked, peek)?)
}
