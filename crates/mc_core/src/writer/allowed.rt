//! Which act may come next, one function a phase.
ghost use Rattle.std.specs.Prelude.{◌≡◌, ◌+◌, ◌<◌, ◌≤◌, ◌/◌, ◌↔◌, ℕ, Some, length, IsTrue, MatchOption, take};
ghost use Rattle.mc_words.specs.Keys.{tag_of, alternate, slot_word, IsBucketOf};
ghost use Rattle.mc_words.specs.Chains.{IsHole};
ghost use Rattle.mc_words.specs.Places.{IsPlace, payload, slot, slot_number};
ghost use Rattle.mc_words.specs.Standing.{Stands, IsAbsent, IsPresent, HasFree};
ghost use Rattle.mc_theory.specs.Acts.{IsStampAt, KeepsClock, MayFrom, MayOpen};
ghost use Rattle.mc_theory.specs.Phases.{Quiet, Filling, Keyed, Renewing, Removing, Moving, Moved};
ghost use Rattle.mc_core.specs.Inside.Tables.{StandsAt};
ghost use Rattle.mc_core.specs.Inside.Writers.{shape_of_writer, state_in, words_of_writer, payload_in, UsedWell, StandsWell, IsFreeItem};

use crate::writer::Writer;
use mc_theory::{Act, Deed};
use mc_words::{Place, payload_words};

impl<const V: usize> Writer<V> {
    /// The key's item.
    fn item_of(&self, key: u64) -> Option<u32>
        requires { StandsWell V (shape_of_writer {V = V} self.now) (words_of_writer {V = V} self.now) key }
        ensures { MatchOption result
            (IsAbsent V (shape_of_writer {V = V} self.now) (words_of_writer {V = V} self.now) key)
            (λ i. (q : ℕ) × Stands V (shape_of_writer {V = V} self.now) (words_of_writer {V = V} self.now) key q i) }
    {
        let (_, i) = self.table.find(key)?;
        Some(i)
    }

    /// Whether the key is in the table.
    fn is_present(&self, key: u64) -> bool
        requires { StandsWell V (shape_of_writer {V = V} self.now) (words_of_writer {V = V} self.now) key }
        ensures { IsTrue result ↔ IsPresent V (shape_of_writer {V = V} self.now) (words_of_writer {V = V} self.now) key }
    {
        self.item_of(key).is_some()
    }

    /// Whether some item is free.
    fn has_free(&self) -> bool
        requires { UsedWell {V = V} self.now.table }
        ensures { IsTrue result ↔ HasFree (shape_of_writer {V = V} self.now) (words_of_writer {V = V} self.now) }
    {
        self.table.free > 0
    }

    /// Whether the key is at the item whose bit the hand found clear.
    fn is_cleared(&self, key: u64) -> bool
        requires { StandsWell V (shape_of_writer {V = V} self.now) (words_of_writer {V = V} self.now) key }
        ensures { IsTrue result ↔ MayOpen V (shape_of_writer {V = V} self.now) (words_of_writer {V = V} self.now) self.now.cleared key Deed.Evict }
    {
        let item = self.item_of(key);
        item.is_some() && item == self.cleared
    }

    /// Whether the key is not in the table, and some item is free for it.
    fn is_fillable(&self, key: u64) -> bool
        requires used { UsedWell {V = V} self.now.table }
        requires well { StandsWell V (shape_of_writer {V = V} self.now) (words_of_writer {V = V} self.now) key }
        ensures { IsTrue result ↔ MayOpen V (shape_of_writer {V = V} self.now) (words_of_writer {V = V} self.now) self.now.cleared key Deed.Fill }
    {
        !self.is_present(key) && self.has_free()
    }

    /// Whether the deed may be opened on the key.
    fn may_open(&self, key: u64, deed: Deed) -> bool
        requires used { UsedWell {V = V} self.now.table }
        requires well { StandsWell V (shape_of_writer {V = V} self.now) (words_of_writer {V = V} self.now) key }
        ensures { IsTrue result ↔ MayOpen V (shape_of_writer {V = V} self.now) (words_of_writer {V = V} self.now) self.now.cleared key deed }
    {
        match deed {
            Deed::Fill => self.is_fillable(key),
            Deed::Evict => self.is_cleared(key),
            Deed::Renew | Deed::Remove | Deed::Move => self.is_present(key),
        }
    }

    /// Whether the item is one that no slot names.
    fn is_free(&self, i: u32) -> bool
        requires { UsedWell {V = V} self.now.table }
        ensures { IsTrue result ↔ IsFreeItem (shape_of_writer {V = V} self.now) (words_of_writer {V = V} self.now) i }
    {
        i < self.table.checked.shape().items && !self.table.used[i as usize]
    }

    /// While a fill was opened: the key of a free item.
    pub(crate) fn may_key(&self, key: u64, act: Act) -> bool
        requires { UsedWell {V = V} self.now.table }
        ensures { IsTrue result ↔ MayFrom V (shape_of_writer {V = V} self.now) (words_of_writer {V = V} self.now)
            self.now.hand self.now.cleared (Filling key) act }
    {
        match act {
            Act::Item(i, j, word) => self.is_free(i) && j == 0 && word == key,
            _ => false,
        }
    }

    /// While nothing runs: an open, a turn of the hand or a mark.
    pub(crate) fn may_when_quiet(&self, act: Act) -> bool
        requires used { UsedWell {V = V} self.now.table }
        requires well { (k : ℕ) → StandsWell V (shape_of_writer {V = V} self.now) (words_of_writer {V = V} self.now) k }
        ensures { IsTrue result ↔ MayFrom V (shape_of_writer {V = V} self.now) (words_of_writer {V = V} self.now) self.now.hand self.now.cleared Quiet act }
    {
        match act {
            Act::Open(key, deed) => self.may_open(key, deed),
            Act::Hand(i) | Act::Mark(i) => i < self.table.checked.shape().items,
            _ => false,
        }
    }

    /// Whether the act keeps CLOCK's order: the hand turns only while no item is free, and goes round the items.
    pub(crate) fn keeps_clock(&self, act: Act) -> bool
        requires { UsedWell {V = V} self.now.table }
        ensures { IsTrue result ↔ KeepsClock (shape_of_writer {V = V} self.now) (state_in {V = V} self.now) act }
    {
        match act {
            Act::Hand(i) => !self.has_free() && i == self.hand,
            _ => true,
        }
    }

    /// Whether the place is a slot of the table that is empty.
    fn is_empty(&self, place: Place) -> bool
        ensures { IsTrue result ↔ IsHole (shape_of_writer {V = V} self.now) (words_of_writer {V = V} self.now) place }
    {
        self.is_place(place) && self.table.slot(place) == 0
    }

    /// Whether the place is a slot of the table.
    fn is_place(&self, place: Place) -> bool
        ensures { IsTrue result ↔ IsPlace (shape_of_writer {V = V} self.now) place }
    {
        place.bucket < self.table.checked.shape().buckets && place.slot < 4
    }

    /// Whether the bucket is one of the key's.
    fn is_bucket_of(&self, key: u64, bucket: u32) -> bool
        ensures { IsTrue result ↔ IsBucketOf (shape_of_writer {V = V} self.now) key bucket }
    {
        let first = self.table.checked.first(key);
        let second = self.table.checked.alt(first, self.table.checked.tag(key));
        bucket == first || bucket == second
    }

    /// Whether the key is in the slot.
    fn stands(&self, key: u64, place: Place) -> bool
        ensures { IsTrue result ↔ ((i : ℕ) × StandsAt V (shape_of_writer {V = V} self.now) (words_of_writer {V = V} self.now) key place i) }
    {
        self.is_place(place) && self.table.stands(place, key).is_some()
    }

    /// While a removal or an eviction was opened: the key's slot is cleared.
    pub(crate) fn may_clear(&self, key: u64, evicts: bool, act: Act) -> bool
        ensures { IsTrue result ↔ MayFrom V (shape_of_writer {V = V} self.now) (words_of_writer {V = V} self.now)
            self.now.hand self.now.cleared (Removing key evicts) act }
    {
        match act {
            Act::Slot(place, word) => word == 0 && self.stands(key, place),
            _ => false,
        }
    }

    /// While two slots have the key: its old slot is cleared.
    pub(crate) fn may_leave(&self, key: u64, fresh: Place, act: Act) -> bool
        requires { IsPlace (shape_of_writer {V = V} self.now) fresh }
        ensures { IsTrue result ↔ MayFrom V (shape_of_writer {V = V} self.now) (words_of_writer {V = V} self.now)
            self.now.hand self.now.cleared (Moved key (slot_number fresh)) act }
    {
        match act {
            Act::Slot(place, word) => word == 0 && place != fresh && self.stands(key, place),
            _ => false,
        }
    }

    /// While a renewal runs: the next word of the key's item, or the moment after the last.
    pub(crate) fn may_renew(&self, key: u64, count: u8, act: Act) -> bool
        requires some { count ≤ payload V }
        requires well { StandsWell V (shape_of_writer {V = V} self.now) (words_of_writer {V = V} self.now) key }
        ensures { IsTrue result ↔ MayFrom V (shape_of_writer {V = V} self.now) (words_of_writer {V = V} self.now)
            self.now.hand self.now.cleared (Renewing key (take count (payload_in {V = V} self.now.written))) act }
    {
        match act {
            Act::Item(i, j, word) => self.is_next_word(count, j)
                && self.is_item_of(key, i)
                && self.fits_stamp(j, word),
            Act::Moment => self.is_whole(count),
            _ => false,
        }
    }

    /// Whether this is the word after those that were written.
    fn is_next_word(&self, count: u8, j: u8) -> bool
        requires { count ≤ payload V }
        ensures { IsTrue result ↔ ((j ≡ length (take count (payload_in {V = V} self.now.written)) + 1) × (j ≤ payload V)) }
    {
        follows(count, j, payload_words::<V>())
    }

    /// Whether all words were written.
    fn is_whole(&self, count: u8) -> bool
        requires { count ≤ payload V }
        ensures { IsTrue result ↔ (length (take count (payload_in {V = V} self.now.written)) ≡ payload V) }
    {
        count_is(count, payload_words::<V>())
    }

    /// Whether the word may be written there: a stamp may only be the moment of the put that is under way.
    fn fits_stamp(&self, j: u8, word: u64) -> bool
        ensures { IsTrue result ↔ IsStampAt V (words_of_writer {V = V} self.now) j word }
    {
        usize::from(j) != payload_words::<V>() || is_next_moment(self.table.moment(), word)
    }

    /// Whether the key is at the item.
    fn is_item_of(&self, key: u64, i: u32) -> bool
        requires { StandsWell V (shape_of_writer {V = V} self.now) (words_of_writer {V = V} self.now) key }
        ensures { IsTrue result ↔ ((q : ℕ) × Stands V (shape_of_writer {V = V} self.now) (words_of_writer {V = V} self.now) key q i) }
    {
        self.item_of(key) == Some(i)
    }

    /// While a fill runs: the next word of its item, or its slot after the last.
    pub(crate) fn may_fill(&self, key: u64, item: u32, count: u8, act: Act) -> bool
        requires some { count ≤ payload V }
        requires item { item < (shape_of_writer {V = V} self.now).items }
        ensures { IsTrue result ↔ MayFrom V (shape_of_writer {V = V} self.now) (words_of_writer {V = V} self.now)
            self.now.hand self.now.cleared (Keyed key item (take count (payload_in {V = V} self.now.written))) act }
    {
        match act {
            Act::Item(i, j, word) => i == item
                && self.is_next_word(count, j)
                && self.fits_stamp(j, word),
            Act::Slot(place, word) => self.is_whole(count)
                && self.may_place(key, item, place, word),
            _ => false,
        }
    }

    /// Whether the slot is empty, in a bucket of the key, and the word names the item under the key's tag.
    fn may_place(&self, key: u64, item: u32, place: Place, word: u64) -> bool
        requires { item < (shape_of_writer {V = V} self.now).items }
        ensures { IsTrue result ↔ (IsHole (shape_of_writer {V = V} self.now) (words_of_writer {V = V} self.now) place ×
            IsBucketOf (shape_of_writer {V = V} self.now) key place.bucket ×
            (word ≡ slot_word (tag_of (shape_of_writer {V = V} self.now) key) item)) }
    {
        let named = self
            .table
            .checked
            .slot_word(self.table.checked.tag(key), item);
        self.is_empty(place) && self.is_bucket_of(key, place.bucket) && word == named
    }

    /// While a move was opened: the key's slot word is written in the key's other bucket.
    pub(crate) fn may_move(&self, key: u64, act: Act) -> bool
        requires { StandsWell V (shape_of_writer {V = V} self.now) (words_of_writer {V = V} self.now) key }
        ensures { IsTrue result ↔ MayFrom V (shape_of_writer {V = V} self.now) (words_of_writer {V = V} self.now)
            self.now.hand self.now.cleared (Moving key) act }
    {
        match act {
            Act::Slot(place, word) => self.is_empty(place) && self.is_other(key, place, word),
            _ => false,
        }
    }

    /// Whether the place is in the other bucket of the key than the one that has it, and the word is the one of its slot there.
    fn is_other(&self, key: u64, place: Place, word: u64) -> bool
        requires { StandsWell V (shape_of_writer {V = V} self.now) (words_of_writer {V = V} self.now) key }
        ensures { IsTrue result ↔ ((q : ℕ) × (i : ℕ) ×
            Stands V (shape_of_writer {V = V} self.now) (words_of_writer {V = V} self.now) key q i ×
            (place.bucket ≡
            alternate (shape_of_writer {V = V} self.now) (q / 4) (tag_of (shape_of_writer {V = V} self.now) key)) ×
            (word ≡ slot (shape_of_writer {V = V} self.now) (words_of_writer {V = V} self.now) q)) }
    {
        match self.table.find(key) {
            Some((at, _)) => self.is_across(key, at, place, word),
            None => false,
        }
    }

    /// Whether the place is in the other bucket than the one that is left, and the word is that of the slot that is left.
    fn is_across(&self, key: u64, from: Place, place: Place, word: u64) -> bool
        requires { IsPlace (shape_of_writer {V = V} self.now) from }
        ensures { IsTrue result ↔ ((place.bucket ≡
            alternate (shape_of_writer {V = V} self.now) from.bucket (tag_of (shape_of_writer {V = V} self.now) key)) ×
            (word ≡ slot (shape_of_writer {V = V} self.now) (words_of_writer {V = V} self.now) (slot_number from))) }
    {
        let other = self
            .table
            .checked
            .alt(from.bucket, self.table.checked.tag(key));
        place.bucket == other && word == self.table.slot(from)
    }
}

/// Whether this word is the one after `count`, and one of `all`.
fn follows(count: u8, j: u8, all: usize) -> bool
    ensures { IsTrue result ↔ ((j ≡ count + 1) × (j ≤ all)) }
{
    u32::from(j) == u32::from(count) + 1 && usize::from(j) <= all
}

/// Whether `count` is `all`.
fn count_is(count: u8, all: usize) -> bool
    ensures { IsTrue result ↔ (count ≡ all) }
{
    usize::from(count) == all
}

/// Whether this is the moment after the other.
fn is_next_moment(moment: u64, next: u64) -> bool
    ensures { IsTrue result ↔ (next ≡ moment + 1) }
{
    next != 0 && next - 1 == moment
}
