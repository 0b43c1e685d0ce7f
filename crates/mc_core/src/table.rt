//! The words of a world, and which of its items a slot names.
ghost use Rattle.std.specs.Prelude.{◌≡◌, ◌≤◌, length};
ghost use Rattle.mc_words.specs.Checks.{shape_of};
ghost use Rattle.mc_words.specs.Places.{word_count};

use mc_theory::Access;
use mc_words::{Checked, Place, payload_words};
use std::alloc::{AllocError, Global};

/// The words without the recency bits, a flag for each item that a slot names, and how many items no slot names.
#[derive(Drop)]
pub(crate) struct Table<const V: usize> {
    pub(crate) checked: Checked,
    pub(crate) words: Vec<u64>,
    pub(crate) used: Vec<bool>,
    pub(crate) free: u32,
    ghost some_words: { 1 ≤ V },
    ghost most_words: { V ≤ 8 },
    ghost size: { length words.items ≡ word_count V (shape_of checked) },
    ghost flags: { length used.items ≡ (shape_of checked).items },
}

impl<const V: usize> Table<V> {
    ghost use Rattle.std.specs.Prelude.{ℕ, ◌+◌, ◌-◌, ◌^◌, ◌<◌, ◌/◌, MatchOption, IfSome, IfNone, IfOk, replicate, false};
    ghost use Rattle.mc_words.specs.Keys.{IsBucketOf, stripe_of};
    ghost use Rattle.mc_words.specs.Places.{IsWidth, IsPlace, payload, slot_number, slot, item, version, moment, with_version, with_moment, with_slot, with_item};
    ghost use Rattle.mc_words.specs.Standing.{Stands};
    ghost use Rattle.mc_core.specs.Inside.Tables.{shape_of_table, words_of_table, StandsAt, WritesTable};
    ghost use Rattle.mc_theory.specs.Effects.{with_bump};
    ghost use Rattle.mc_theory.specs.Readings.{IsWordOf};
    ghost use Rattle.mc_theory.specs.Writes.{IsAccess};

    /// The table of a new world: all words are 0, and all items are free.
    #[tactic(auto, unfolding(mc_words::specs::Recency::recency_words))]
    pub(crate) fn new(alloc: Global, checked: &Checked) -> Result<Table<V>, AllocError>
        requires { IsWidth V }
        ensures { IfOk result (λ t. (shape_of_table {V = V} t ≡ shape_of checked.now) ×
            (words_of_table {V = V} t ≡ replicate (word_count V (shape_of checked.now)) 0) ×
            (t.used.items ≡ replicate (shape_of checked.now).items false) × (t.free ≡ (shape_of checked.now).items)) }
    {
        let free = checked.shape().items;
        let mut words = Vec::new(alloc);
        words.resize(checked.recency_start::<V>(), 0)?;
        let mut used = Vec::new(alloc);
        used.resize(free as usize, false)?;
        Ok(Table {
            checked: *checked,
            words,
            used,
            free,
        })
    }

    /// The word of a slot.
    #[tactic(auto, unfolding(mc_words::specs::Places::slot))]
    pub(crate) fn slot(&self, place: Place) -> u64
        requires { IsPlace (shape_of_table {V = V} self.now) place }
        ensures { result ≡ slot (shape_of_table {V = V} self.now) (words_of_table {V = V} self.now) (slot_number place) }
    {
        self.words[self.checked.slot_place(place)]
    }

    /// A word of an item.
    #[tactic(auto, unfolding(mc_words::specs::Places::item))]
    pub(crate) fn item(&self, i: u32, j: u8) -> u64
        requires item { i < (shape_of_table {V = V} self.now).items }
        requires word { j ≤ payload V }
        ensures { result ≡ item V (shape_of_table {V = V} self.now) (words_of_table {V = V} self.now) i j }
    {
        self.words[self.checked.item_place::<V>(i, j)]
    }

    /// The moment.
    #[tactic(auto, unfolding(mc_words::specs::Places::moment))]
    pub(crate) fn moment(&self) -> u64
        ensures { result ≡ moment (words_of_table {V = V} self.now) }
    {
        self.words[self.checked.moment_place()]
    }

    /// The word that an access reads. A mark reads none.
    #[tactic(auto, unfolding(mc_words::specs::Places::version))]
    pub(crate) fn read(&self, access: Access) -> u64
        requires { IsAccess V (shape_of_table {V = V} self.now) access }
        ensures { IsWordOf V (shape_of_table {V = V} self.now) (words_of_table {V = V} self.now) access result }
    {
        match access {
            Access::Version(stripe) => self.words[self.checked.version_place(stripe)],
            Access::Slot(place) => self.slot(place),
            Access::Key(i) => self.item(i, 0),
            Access::Value(i, j) => self.item(i, j),
            Access::Stamp(i) => self.item(i, payload_words::<V>() as u8),
            Access::Moment => self.moment(),
            Access::Mark(_) => 0,
        }
    }

    /// The item that a slot names for the key, if it is the key's.
    pub(crate) fn stands(&self, place: Place, key: u64) -> Option<u32>
        requires { IsPlace (shape_of_table {V = V} self.now) place }
        ensures { MatchOption result
            ((i : ℕ) →
            Stands V (shape_of_table {V = V} self.now) (words_of_table {V = V} self.now) key (slot_number place) i → ⊥)
            (λ i.
            Stands V (shape_of_table {V = V} self.now) (words_of_table {V = V} self.now) key (slot_number place) i) }
    {
        let (_, i) = self.checked.slot_parts(self.slot(place))?;
        if self.item(i, 0) == key {
            Some(i)
        } else {
            None
        }
    }

    /// The slot of a bucket that has the key, and its item.
    fn find_in(&self, bucket: u32, key: u64) -> Option<(Place, u32)>
        requires { bucket < (shape_of_table {V = V} self.now).buckets }
        ensures { MatchOption result ((q i : ℕ) → q / 4 ≡ bucket →
            Stands V (shape_of_table {V = V} self.now) (words_of_table {V = V} self.now) key q i → ⊥)
            (λ at. StandsAt V (shape_of_table {V = V} self.now) (words_of_table {V = V} self.now) key at.0 at.1) }
    {
        for slot in 0..4u8 {
            let place = Place { bucket, slot };
            if let Some(i) = self.stands(place, key) {
                return Some((place, i));
            }
        }
        None
    }

    /// Where the key is, if it is in one of its buckets.
    pub(crate) fn find(&self, key: u64) -> Option<(Place, u32)>
        ensures { MatchOption result ((q i : ℕ) → IsBucketOf (shape_of_table {V = V} self.now) key (q / 4) →
            Stands V (shape_of_table {V = V} self.now) (words_of_table {V = V} self.now) key q i → ⊥)
            (λ at. StandsAt V (shape_of_table {V = V} self.now) (words_of_table {V = V} self.now) key at.0 at.1) }
    {
        let first = self.checked.first(key);
        if let Some(at) = self.find_in(first, key) {
            return Some(at);
        }
        self.find_in(self.checked.alt(first, self.checked.tag(key)), key)
    }

    /// Counts one change of the version of the key's stripe.
    #[tactic(auto, unfolding(mc_words::specs::Places::version, mc_words::specs::Places::with_version))]
    pub(crate) fn bump(&mut self, key: u64)
        requires { version (words_of_table {V = V} self.old) (stripe_of (shape_of_table {V = V} self.old) key) < 2 ^ 64 - 1 }
        ensures { WritesTable {V = V} self.old self.new (with_bump (shape_of_table {V = V} self.old) (words_of_table {V = V} self.old) key) }
    {
        let at = self.checked.version_place(self.checked.stripe(key));
        self.words[at] += 1;
    }

    /// Counts one change.
    #[tactic(auto, unfolding(mc_words::specs::Places::moment, mc_words::specs::Places::with_moment))]
    pub(crate) fn tick(&mut self)
        requires { moment (words_of_table {V = V} self.old) < 2 ^ 64 - 1 }
        ensures { WritesTable {V = V} self.old self.new (with_moment (words_of_table {V = V} self.old) (moment (words_of_table {V = V} self.old) + 1)) }
    {
        let at = self.checked.moment_place();
        self.words[at] += 1;
    }

    /// Writes the word of a slot.
    #[tactic(auto, unfolding(mc_words::specs::Places::with_slot))]
    pub(crate) fn set_slot(&mut self, place: Place, word: u64)
        requires { IsPlace (shape_of_table {V = V} self.old) place }
        ensures { WritesTable {V = V} self.old self.new
            (with_slot (shape_of_table {V = V} self.old) (words_of_table {V = V} self.old) (slot_number place) word) }
    {
        let at = self.checked.slot_place(place);
        self.words[at] = word;
    }

    /// Writes a word of an item.
    #[tactic(auto, unfolding(mc_words::specs::Places::with_item))]
    pub(crate) fn set_item(&mut self, i: u32, j: u8, word: u64)
        requires item { i < (shape_of_table {V = V} self.old).items }
        requires word { j ≤ payload V }
        ensures { WritesTable {V = V} self.old self.new (with_item V (shape_of_table {V = V} self.old) (words_of_table {V = V} self.old) i j word) }
    {
        let at = self.checked.item_place::<V>(i, j);
        self.words[at] = word;
    }
}
