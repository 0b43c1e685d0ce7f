//! What the words of a quiet table say.
ghost use Rattle.std.specs.Prelude.{ℕ, ◌≡◌, ◌<◌, ◌≤◌, ◌++◌, ◌∷◌, [], List, Some, None, length, IfSome, IfNone};
ghost use Rattle.mc_words.specs.declared.history.Change.{Change};
ghost use Rattle.mc_words.specs.Checks.{shape_of};
ghost use Rattle.mc_words.specs.History.{map_value};
ghost use Rattle.mc_words.specs.Places.{IsWidth, moment, word_count};
ghost use Rattle.mc_words.specs.Inside.Values.{HasValue};
ghost use Rattle.mc_words.specs.Standing.{Agrees, Stands};

use crate::finding::find;
use crate::word::{stamp_at, word_at};
use mc_theory::Peek;
use mc_words::Checked;

/// The value of an item.
fn value_at<const V: usize, P: Peek>(checked: &Checked, peek: &mut P, item: u32) -> [u64; V]
    requires width { IsWidth V }
    requires words { word_count V (shape_of checked.now) ≤ length (P.words peek.old) }
    requires item { item < (shape_of checked.now).items }
    ensures value { HasValue V (shape_of checked.now) (P.words peek.old) item result }
    ensures kept { peek.new ≡ peek.old }
{
    let mut value = [0; V];
    for j in 0..V {
        value[j] = word_at::<V, P>(checked, peek, item, j as u8 + 1);
    }
    value
}

/// What a table holds of a key.
#[derive(Clone, Copy)]
pub struct Held<const V: usize> {
    /// The key's item.
    pub item: u32,
    pub value: [u64; V],
    /// The moment of the key's last put.
    pub since: u64,
}

/// What the item of a key holds. Condition: the words agree with some history, and no deed runs.
#[inline(always)]
pub fn held_at<const V: usize, P: Peek>(checked: &Checked, peek: &mut P, item: u32) -> Held<V>
    requires width { IsWidth V }
    requires agrees { (h : List (Change V)) × Agrees V (shape_of checked.now) (P.words peek.old) None h }
    requires stands { (k q : ℕ) × Stands V (shape_of checked.now) (P.words peek.old) k q item }
    ensures found { (h : List (Change V)) (k q : ℕ) → Agrees V (shape_of checked.now) (P.words peek.old) None h →
        Stands V (shape_of checked.now) (P.words peek.old) k q item → map_value h k ≡ Some (result.value ++ result.since ∷ []) }
    ensures item { result.item ≡ item }
    ensures kept { peek.new ≡ peek.old }
{
    let value = value_at::<V, P>(checked, peek, item);
    let since = stamp_at::<V, P>(checked, peek, item);
    Held { item, value, since }
}

/// The key's item, its value and its stamp. Condition: the words agree with some history, and no deed runs.
pub fn read<const V: usize, P: Peek>(checked: &Checked, peek: &mut P, key: u64) -> Option<Held<V>>
    requires width { IsWidth V }
    requires agrees { (h : List (Change V)) × Agrees V (shape_of checked.now) (P.words peek.old) None h }
    ensures found { (h : List (Change V)) → Agrees V (shape_of checked.now) (P.words peek.old) None h → IfSome result (λ held. map_value h key ≡ Some (held.value ++ held.since ∷ [])) }
    ensures item { IfSome result (λ held. (q : ℕ) × Stands V (shape_of checked.now) (P.words peek.old) key q held.item) }
    ensures none { (h : List (Change V)) → Agrees V (shape_of checked.now) (P.words peek.old) None h → IfNone result (map_value h key ≡ None) }
    ensures kept { peek.new ≡ peek.old }
{
    match find::<V, P>(checked, peek, key) {
        Some((_, item)) => Some(held_at::<V, P>(checked, peek, item)),
        None => None,
    }
}
