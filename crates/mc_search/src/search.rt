//! The search for a least path, breadth first.
ghost use Rattle.std.specs.Prelude.{ℕ, ◌≡◌, ◌+◌, ◌-◌, ◌^◌, ◌<◌, ◌≤◌, List, length, vec_capacity, Bool, IfSome, IfNone};
ghost use Rattle.mc_words.specs.declared.place.Place.{Place};
ghost use Rattle.mc_words.specs.declared.shape.Shape.{Shape};
ghost use Rattle.mc_words.specs.Chains.{IsChain, NoChain};
ghost use Rattle.mc_words.specs.Checks.{shape_of};
ghost use Rattle.mc_search.specs.Readable.{HasSlots, IsFilled};
ghost use Rattle.mc_search.specs.Inside.Search.{entry_at, depth_at, IsQueue, AreFull, IsFound, IsSearching, GoesBack};

use crate::bucket::{hole_in, other_bucket};
use crate::queue::{Entry, add};
use crate::word::slot_at;
use arrayvec::ArrayVec;
use mc_theory::Peek;
use mc_words::{Checked, Place};

/// Queues the unseen buckets to which the items of the queue's `front`-th can move, up to the first that has a hole.
///
/// A bucket is looked at when it is queued and not in its turn: the first queued that has a hole is the first whose
/// turn would come.
fn expand<P: Peek>(
    checked: &Checked,
    queue: &mut Vec<Entry>,
    seen: &mut Vec<bool>,
    peek: &mut P,
    front: usize,
    entry: Entry,
) -> Option<Place>
    requires words { HasSlots (shape_of checked.now) (P.words peek.old) }
    requires filled { IsFilled (shape_of checked.now) (P.words peek.old) }
    requires queue { IsQueue queue.old.items seen.old.items }
    requires room { length seen.old.items ≤ vec_capacity queue.old }
    requires size { length seen.old.items ≡ (shape_of checked.now).buckets }
    requires full { AreFull (shape_of checked.now) (P.words peek.old) queue.old.items }
    requires queued { front < length queue.old.items }
    requires front { entry ≡ entry_at queue.old.items front }
    requires shallow { entry.depth < (shape_of checked.now).depth }
    ensures queue { IsQueue queue.new.items seen.new.items }
    ensures room { length seen.new.items ≤ vec_capacity queue.new }
    ensures size { length seen.new.items ≡ (shape_of checked.now).buckets }
    ensures found { IfSome result (λ h. (k : ℕ) →
        IsSearching (shape_of checked.now) (P.words peek.old) k front queue.old.items →
        IsFound (shape_of checked.now) (P.words peek.old) k queue.new.items (length queue.new.items - 1) h) }
    ensures full { IfNone result (AreFull (shape_of checked.now) (P.words peek.old) queue.new.items) }
    ensures none { IfNone result ((k : ℕ) →
        IsSearching (shape_of checked.now) (P.words peek.old) k front queue.old.items →
        IsSearching (shape_of checked.now) (P.words peek.old) k (front + 1) queue.new.items) }
    ensures kept { peek.new ≡ peek.old }
{
    for slot in 0..4 {
        let place = Place {
            bucket: entry.bucket,
            slot,
        };
        let word = slot_at(checked, peek, place);
        let bucket = other_bucket(checked, entry.bucket, word);
        let next = Entry {
            bucket,
            from: front as u32,
            slot,
            depth: entry.depth + 1,
        };
        if add(queue, seen, next) {
            if let Some(hole) = hole_in(checked, peek, bucket) {
                return Some(hole);
            }
        }
    }
    None
}

/// The hole of the first bucket in the queue's order that has one. It is the last that was queued.
pub(crate) fn search<P: Peek>(
    checked: &Checked,
    queue: &mut Vec<Entry>,
    seen: &mut Vec<bool>,
    peek: &mut P,
) -> Option<Place>
    requires words { HasSlots (shape_of checked.now) (P.words peek.old) }
    requires filled { IsFilled (shape_of checked.now) (P.words peek.old) }
    requires queue { IsQueue queue.old.items seen.old.items }
    requires room { length seen.old.items ≤ vec_capacity queue.old }
    requires size { length seen.old.items ≡ (shape_of checked.now).buckets }
    requires full { AreFull (shape_of checked.now) (P.words peek.old) queue.old.items }
    ensures queue { IsQueue queue.new.items seen.new.items }
    ensures room { length seen.new.items ≤ vec_capacity queue.new }
    ensures size { length seen.new.items ≡ (shape_of checked.now).buckets }
    ensures found { IfSome result (λ h. (k : ℕ) →
        IsSearching (shape_of checked.now) (P.words peek.old) k 0 queue.old.items →
        IsFound (shape_of checked.now) (P.words peek.old) k queue.new.items (length queue.new.items - 1) h) }
    ensures none { IfNone result ((k : ℕ) → IsSearching (shape_of checked.now) (P.words peek.old) k 0 queue.old.items →
        NoChain (shape_of checked.now) (P.words peek.old) k (shape_of checked.now).depth) }
    ensures kept { peek.new ≡ peek.old }
{
    let depth = checked.shape().depth;
    let mut front = 0;
    'levels: while front < queue.len() {
        let entry = queue[front];
        if entry.depth >= depth {
            return None;
        }
        if let Some(hole) = expand(checked, queue, seen, peek, front, entry) {
            return Some(hole);
        }
        front += 1;
    }
    None
}

/// The places that lead from a bucket of the key to the entry, by the entries before it.
pub(crate) fn trace(queue: &[Entry], end: usize, places: &mut ArrayVec<Place, 8>)
    requires queued { end < length queue.now }
    requires shallow { depth_at queue.now end ≤ 8 }
    requires small { length queue.now < 2 ^ 32 }
    requires back { GoesBack queue.now }
    ensures many { length places.new.items ≡ depth_at queue.now end }
    ensures chain { (sh : Shape) (w : List ℕ) (k : ℕ) (seen : List Bool) (hole : Place) → IsQueue queue.now seen →
        length seen ≡ sh.buckets → IsFound sh w k queue.now end hole → IsChain sh w k places.new.items hole }
{
    places.clear();
    let mut at = end;
    'back: while queue[at].depth > 0 {
        let entry = queue[at];
        let place = Place {
            bucket: queue[entry.from as usize].bucket,
            slot: entry.slot,
        };
        places.insert(0, place);
        at = entry.from as usize;
    }
}
