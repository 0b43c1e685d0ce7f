//! Where a key is.
ghost use Rattle.std.specs.Prelude.{ℕ, ◌≡◌, ◌<◌, ◌≤◌, length, IfSome, IfNone};
ghost use Rattle.mc_words.specs.Checks.{shape_of};
ghost use Rattle.mc_words.specs.KeyParts.{HasParts};
ghost use Rattle.mc_words.specs.Keys.{tag_of, slot_word};
ghost use Rattle.mc_words.specs.Places.{IsPlace, IsWidth, item, slot_number, word_count};
ghost use Rattle.mc_words.specs.Standing.{Stands, IsAbsent};
ghost use Rattle.mc_search.specs.Readable.{IsPlaced};
ghost use Rattle.mc_search.specs.Inside.Readable.{IsNotAmong};

use crate::bucket::{slot_with, touch_bucket_if_large};
use crate::word::{key_at, slot_at};
use mc_theory::Peek;
use mc_words::{Checked, KeyParts, Place};

/// The slot of the bucket that names an item of the key under the key's tag, and the item.
#[inline(always)]
fn find_in<const V: usize, P: Peek>(
    checked: &Checked,
    peek: &mut P,
    key: u64,
    base: u64,
    bucket: u32,
) -> Option<(Place, u32)>
    requires width { IsWidth V }
    requires words { word_count V (shape_of checked.now) ≤ length (P.words peek.old) }
    requires base { base ≡ slot_word (tag_of (shape_of checked.now) key) 0 }
    requires in_table { bucket < (shape_of checked.now).buckets }
    ensures found { IfSome result (λ r. Stands V (shape_of checked.now) (P.words peek.old) key (slot_number r.0) r.1) }
    ensures place { IfSome result (λ r. IsPlace (shape_of checked.now) r.0) }
    ensures none { IfNone result (IsNotAmong V (shape_of checked.now) (P.words peek.old) key bucket 4) }
    ensures kept { peek.new ≡ peek.old }
{
    for slot in 0..4 {
        let place = Place { bucket, slot };
        let word = slot_at(checked, peek, place);
        if let Some(item) = checked.tag_match(base, word) {
            let stored = key_at::<V, P>(checked, peek, item);
            if stored == key {
                return Some((place, item));
            }
        }
    }
    None
}

/// Where the key is: the slot that names it, and its item.
///
/// It looks at the slots of the key's two buckets, and reads an item's key only where the slot's word names the key's tag.
/// Condition: the words reach as far as the shape says, and wherever the key is, it is under its tag, in one of its buckets.
#[inline(always)]
pub fn find<const V: usize, P: Peek>(
    checked: &Checked,
    peek: &mut P,
    key: u64,
) -> Option<(Place, u32)>
    requires width { IsWidth V }
    requires words { word_count V (shape_of checked.now) ≤ length (P.words peek.old) }
    requires placed { IsPlaced V (shape_of checked.now) (P.words peek.old) key }
    ensures found { IfSome result (λ r. Stands V (shape_of checked.now) (P.words peek.old) key (slot_number r.0) r.1) }
    ensures place { IfSome result (λ r. IsPlace (shape_of checked.now) r.0) }
    ensures none { IfNone result (IsAbsent V (shape_of checked.now) (P.words peek.old) key) }
    ensures kept { peek.new ≡ peek.old }
{
    find_by::<V, P>(checked, peek, key, checked.parts(key))
}

/// Like `find`, for a caller that has computed the key's parts. Condition: as for `find`, and the parts are the key's.
#[inline(always)]
pub fn find_by<const V: usize, P: Peek>(
    checked: &Checked,
    peek: &mut P,
    key: u64,
    parts: KeyParts,
) -> Option<(Place, u32)>
    requires width { IsWidth V }
    requires words { word_count V (shape_of checked.now) ≤ length (P.words peek.old) }
    requires placed { IsPlaced V (shape_of checked.now) (P.words peek.old) key }
    requires parts { HasParts (shape_of checked.now) key parts }
    ensures found { IfSome result (λ r. Stands V (shape_of checked.now) (P.words peek.old) key (slot_number r.0) r.1) }
    ensures place { IfSome result (λ r. IsPlace (shape_of checked.now) r.0) }
    ensures none { IfNone result (IsAbsent V (shape_of checked.now) (P.words peek.old) key) }
    ensures kept { peek.new ≡ peek.old }
{
    // A copy, which stays in registers while words are read.
    let table = *checked;
    // Many keys are in their second bucket: this loads its slots while the processor still waits for those of the first.
    touch_bucket_if_large(&table, peek, parts.second);
    let base = table.slot_word(parts.tag, 0);
    if let Some(found) = find_in::<V, P>(&table, peek, key, base, parts.first) {
        return Some(found);
    }
    find_in::<V, P>(&table, peek, key, base, parts.second)
}

/// The slot that has the key, for a caller that knows its item: it looks for the word that names the item under the key's
/// tag, and reads no item. Condition: as for `find`, the parts are the key's, and the item's key is this one.
#[inline(always)]
pub fn place_of<const V: usize, P: Peek>(
    checked: &Checked,
    peek: &mut P,
    key: u64,
    parts: KeyParts,
    i: u32,
) -> Option<Place>
    requires width { IsWidth V }
    requires words { word_count V (shape_of checked.now) ≤ length (P.words peek.old) }
    requires placed { IsPlaced V (shape_of checked.now) (P.words peek.old) key }
    requires parts { HasParts (shape_of checked.now) key parts }
    requires in_items { i < (shape_of checked.now).items }
    requires item { item V (shape_of checked.now) (P.words peek.old) i 0 ≡ key }
    ensures found { IfSome result (λ p. Stands V (shape_of checked.now) (P.words peek.old) key (slot_number p) i) }
    ensures place { IfSome result (λ p. IsPlace (shape_of checked.now) p) }
    ensures none { IfNone result ((q : ℕ) → Stands V (shape_of checked.now) (P.words peek.old) key q i → ⊥) }
    ensures kept { peek.new ≡ peek.old }
{
    let table = *checked;
    let word = table.slot_word(parts.tag, i);
    if let Some(found) = slot_with(&table, peek, parts.first, word) {
        return Some(found);
    }
    slot_with(&table, peek, parts.second, word)
}
