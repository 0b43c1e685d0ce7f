//! Where a key finds room, and how it is found without the queue: most keys find a hole in their two buckets, and most others one
//! move that makes one.
ghost use Rattle.std.specs.Prelude.{ℕ, ◌≡◌, ◌<◌, ◌≤◌, [], ◌∷◌, IfNone, IfSome, length};
ghost use Rattle.mc_words.specs.declared.place.Place.{Place};
ghost use Rattle.mc_words.specs.Chains.{Leads, NoChain};
ghost use Rattle.mc_words.specs.Checks.{shape_of};
ghost use Rattle.mc_words.specs.KeyParts.{HasParts};
ghost use Rattle.mc_words.specs.Places.{IsWidth, word_count};
ghost use Rattle.mc_search.specs.Orders.{IsFirstHoleOf, IsFirstMove, IsFirstMoveOf};
ghost use Rattle.mc_search.specs.Paths.{IsCrowded, IsLeastPath, direct_path, path_of_move};
ghost use Rattle.mc_search.specs.Readable.{HasSlots, IsFilled};
ghost use Rattle.mc_search.specs.Inside.Readable.{IsFull};

use crate::bucket::{hole_in, is_large, other_bucket, touch_bucket};
use crate::path::Path;
use crate::word::{key_in, slot_at};
use mc_theory::Peek;
use mc_words::{Checked, KeyParts, Place};

/// A path of one place: the key in it moves to the hole.
#[derive(Clone, Copy)]
pub struct OneMove {
    pub from: Place,
    pub hole: Place,
}

/// Where a key finds room. It is small, and a path of several moves is large: the caller keeps that one.
#[derive(Clone, Copy)]
pub enum Room {
    /// A hole of one of its two buckets.
    Hole(Place),
    /// A place of one of them, once the key in it has moved to a hole.
    Move(OneMove),
    /// The place at which the kept path begins.
    Path,
}

impl Room {
    ghost use Rattle.mc_search.specs.Paths.{IsCut, path_of_room};

    /// The room that is left once the victim is taken out: if the key that was to move is the victim, its place is a hole. A kept path is
    /// cut in place.
    #[inline(always)]
    pub fn cut_at(self, victim: Place, path: &mut Path) -> Room
        ensures { IsCut victim (path_of_room path.old self).places.items (path_of_room path.old self).hole (path_of_room path.new result).places.items (path_of_room path.new result).hole }
    {
        match self {
            Room::Hole(hole) => Room::Hole(hole),
            Room::Move(one) => {
                if one.from == victim {
                    return Room::Hole(victim);
                }
                Room::Move(one)
            }
            Room::Path => {
                path.cut_at(victim);
                Room::Path
            }
        }
    }
}

/// A hole in one of the two buckets of a key that has these parts, the first before the second.
/// Condition: the words reach as far as the last slot of the shape.
#[inline(always)]
pub fn find_hole<P: Peek>(checked: &Checked, peek: &mut P, parts: KeyParts) -> Option<Place>
    requires words { HasSlots (shape_of checked.now) (P.words peek.old) }
    requires parts { (k : ℕ) × HasParts (shape_of checked.now) k parts }
    ensures found { (k : ℕ) → HasParts (shape_of checked.now) k parts →
        IfSome result (λ hole. IsLeastPath (shape_of checked.now) (P.words peek.old) k (direct_path hole)) }
    ensures none { (k : ℕ) → HasParts (shape_of checked.now) k parts →
        IfNone result (NoChain (shape_of checked.now) (P.words peek.old) k 0) }
    ensures first { IfSome result (IsFirstHoleOf (shape_of checked.now) (P.words peek.old) parts.first parts.second) }
    ensures kept { peek.new ≡ peek.old }
{
    // A copy, which stays in registers while words are read.
    let table = *checked;
    if let Some(hole) = hole_in(&table, peek, parts.first) {
        return Some(hole);
    }
    if let Some(hole) = hole_in(&table, peek, parts.second) {
        return Some(hole);
    }
    None
}

/// If the table is large, loads a word of each bucket to which a key of this full one can move, and these keys: the one that
/// moves is needed next, and the processor waits for all of them at once.
fn touch_moves<const V: usize, P: Peek>(checked: &Checked, peek: &mut P, bucket: u32)
    requires width { IsWidth V }
    requires words { word_count V (shape_of checked.now) ≤ length (P.words peek.old) }
    requires filled { IsFilled (shape_of checked.now) (P.words peek.old) }
    requires in_table { bucket < (shape_of checked.now).buckets }
    requires full { IsFull (shape_of checked.now) (P.words peek.old) bucket }
    ensures kept { peek.new ≡ peek.old }
{
    if !is_large(checked) {
        return;
    }
    for slot in 0..4 {
        let word = slot_at(checked, peek, Place { bucket, slot });
        touch_bucket(checked, peek, other_bucket(checked, bucket, word));
        let _ = key_in::<V, P>(checked, peek, word);
    }
}

/// The first key of a full bucket that can move to a hole in its other bucket.
#[inline(always)]
fn move_from<P: Peek>(checked: &Checked, peek: &mut P, bucket: u32) -> Option<OneMove>
    requires words { HasSlots (shape_of checked.now) (P.words peek.old) }
    requires filled { IsFilled (shape_of checked.now) (P.words peek.old) }
    requires in_table { bucket < (shape_of checked.now).buckets }
    requires full { IsFull (shape_of checked.now) (P.words peek.old) bucket }
    ensures found { IfSome result (λ m. Leads (shape_of checked.now) (P.words peek.old) bucket (m.from ∷ []) m.hole) }
    ensures none { IfNone result ((from hole : Place) → Leads (shape_of checked.now) (P.words peek.old) bucket (from ∷ []) hole → ⊥) }
    ensures first { IfSome result (IsFirstMove (shape_of checked.now) (P.words peek.old) bucket) }
    ensures kept { peek.new ≡ peek.old }
{
    for slot in 0..4 {
        let from = Place { bucket, slot };
        let word = slot_at(checked, peek, from);
        if let Some(hole) = hole_in(checked, peek, other_bucket(checked, bucket, word)) {
            return Some(OneMove { from, hole });
        }
    }
    None
}

/// A shortest path of one place for a key whose two buckets are full. Of several it is the first: that of the key's first bucket, and
/// of its first slot. `None`: there is none, or the depth of the shape is 0. In a large table, words that are needed soon are loaded
/// ahead.
/// Condition: the words reach as far as the shape says, each slot is empty or names an item, the parts are those of some key, and both
/// buckets are full.
#[inline(always)]
pub fn find_move<const V: usize, P: Peek>(
    checked: &Checked,
    peek: &mut P,
    parts: KeyParts,
) -> Option<OneMove>
    requires width { IsWidth V }
    requires words { word_count V (shape_of checked.now) ≤ length (P.words peek.old) }
    requires filled { IsFilled (shape_of checked.now) (P.words peek.old) }
    requires crowded { (k : ℕ) × IsCrowded (shape_of checked.now) (P.words peek.old) k parts }
    ensures found { (k : ℕ) → IsCrowded (shape_of checked.now) (P.words peek.old) k parts →
        IfSome result (λ m. IsLeastPath (shape_of checked.now) (P.words peek.old) k (path_of_move m)) }
    ensures none { (k : ℕ) → IsCrowded (shape_of checked.now) (P.words peek.old) k parts →
        IfNone result (0 < (shape_of checked.now).depth → NoChain (shape_of checked.now) (P.words peek.old) k 1) }
    ensures first { IfSome result (IsFirstMoveOf (shape_of checked.now) (P.words peek.old) parts.first parts.second) }
    ensures kept { peek.new ≡ peek.old }
{
    let table = *checked;
    touch_moves::<V, P>(&table, peek, parts.first);
    if table.shape().depth == 0 {
        return None;
    }
    if let Some(found) = move_from(&table, peek, parts.first) {
        return Some(found);
    }
    if let Some(found) = move_from(&table, peek, parts.second) {
        return Some(found);
    }
    None
}
