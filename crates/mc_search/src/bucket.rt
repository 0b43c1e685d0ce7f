//! The slots of a bucket: which is empty, where the key of one may move, and what is loaded ahead in a large table, so that the
//! processor waits for several words at once.
ghost use Rattle.std.specs.Prelude.{ℕ, ◌≡◌, ◌≢◌, ◌+◌, ◌*◌, ◌<◌, ◌≤◌, ◌↔◌, IfNone, IfSome, IsTrue, MatchOption};
ghost use Rattle.mc_words.specs.Checks.{shape_of};
ghost use Rattle.mc_words.specs.Keys.{alternate, tag_in, NamesSome};
ghost use Rattle.mc_words.specs.Places.{slot};
ghost use Rattle.mc_search.specs.Readable.{HasSlots};
ghost use Rattle.mc_search.specs.Inside.Readable.{HasNot, IsFull, IsHoleIn, IsSlotWith};

use crate::word::slot_at;
use mc_theory::Peek;
use mc_words::{Checked, Place};

/// The slots of this many buckets fill a megabyte, which is more than many processors keep close by.
const LARGE: u32 = 32_768;

/// The other bucket of the item that a slot's word names.
pub(crate) fn other_bucket(checked: &Checked, bucket: u32, word: u64) -> u32
    requires in_table { bucket < (shape_of checked.now).buckets }
    requires named { NamesSome (shape_of checked.now) word }
    ensures value { result ≡ alternate (shape_of checked.now) bucket (tag_in word) }
    ensures in_table { result < (shape_of checked.now).buckets }
{
    checked.alt(bucket, checked.tag_in(word))
}

/// The least slot of the bucket that has this word.
#[inline(always)]
pub(crate) fn slot_with<P: Peek>(
    checked: &Checked,
    peek: &mut P,
    bucket: u32,
    word: u64,
) -> Option<Place>
    requires words { HasSlots (shape_of checked.now) (P.words peek.old) }
    requires in_table { bucket < (shape_of checked.now).buckets }
    ensures found { IfSome result (IsSlotWith (shape_of checked.now) (P.words peek.old) bucket word) }
    ensures none { IfNone result (HasNot (shape_of checked.now) (P.words peek.old) bucket word 4) }
    ensures least { IfSome result (λ p. HasNot (shape_of checked.now) (P.words peek.old) bucket word p.slot) }
    ensures kept { peek.new ≡ peek.old }
{
    for slot in 0..4 {
        let place = Place { bucket, slot };
        if slot_at(checked, peek, place) == word {
            return Some(place);
        }
    }
    None
}

/// The least empty slot of the bucket.
#[inline(always)]
pub(crate) fn hole_in<P: Peek>(checked: &Checked, peek: &mut P, bucket: u32) -> Option<Place>
    requires words { HasSlots (shape_of checked.now) (P.words peek.old) }
    requires in_table { bucket < (shape_of checked.now).buckets }
    ensures found { MatchOption result (IsFull (shape_of checked.now) (P.words peek.old) bucket) (IsHoleIn (shape_of checked.now) (P.words peek.old) bucket) }
    ensures least { IfSome result (λ h. (j : ℕ) → j < h.slot → slot (shape_of checked.now) (P.words peek.old) (4 * bucket + j) ≢ 0) }
    ensures kept { peek.new ≡ peek.old }
{
    slot_with(checked, peek, bucket, 0)
}

/// Whether the table is so large that words of it are loaded ahead: it has at least 32,768 buckets.
#[inline(always)]
pub fn is_large(checked: &Checked) -> bool
    ensures { IsTrue result ↔ (32768 ≤ (shape_of checked.now).buckets) }
{
    checked.shape().buckets >= LARGE
}

/// Loads the first slot of the bucket. Condition: the words reach as far as the last slot of the shape.
#[inline(always)]
pub fn touch_bucket<P: Peek>(checked: &Checked, peek: &mut P, bucket: u32)
    requires words { HasSlots (shape_of checked.now) (P.words peek.old) }
    requires in_table { bucket < (shape_of checked.now).buckets }
    ensures kept { peek.new ≡ peek.old }
{
    let _ = slot_at(checked, peek, Place { bucket, slot: 0 });
}

/// Like `touch_bucket`, but only if the table is large.
#[inline(always)]
pub(crate) fn touch_bucket_if_large<P: Peek>(checked: &Checked, peek: &mut P, bucket: u32)
    requires words { HasSlots (shape_of checked.now) (P.words peek.old) }
    requires in_table { bucket < (shape_of checked.now).buckets }
    ensures kept { peek.new ≡ peek.old }
{
    if is_large(checked) {
        touch_bucket(checked, peek, bucket);
    }
}
