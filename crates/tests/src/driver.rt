//! A plain list of words, on which acts are made.
ghost use Rattle.std.specs.Prelude.{◌≡◌, IfOk, IsTrue, Some, slice_set};
ghost use Rattle.mc_words.specs.Checks.{shape_of};
ghost use Rattle.mc_theory.specs.Effects.{with_bump, words_after};
ghost use Rattle.mc_theory.specs.Phases.{Phase, Quiet, deed_key};
ghost use Rattle.mc_theory.specs.States.{opening};
ghost use Rattle.mc_theory.specs.declared.act.Act.TheVariants.{Close, Moment};
ghost use Rattle.tests.specs.Drivers.{key_after};

use mc_core::Act;
use mc_plan::Peek;
use mc_words::{Checked, payload_words};
use std::alloc::{AllocError, Global};
use std::mem;

/// The words of a table whose values have one word, the key of the deed that runs, the recency bits, and whether each is
/// set again before it is read.
#[derive(Drop)]
pub(crate) struct Driver {
    pub(crate) checked: Checked,
    pub(crate) words: Vec<u64>,
    pub(crate) key: u64,
    bits: Vec<u64>,
    pub(crate) marked: bool,
}

/// A look at the words.
#[derive(Drop)]
pub(crate) struct Look<'a>(pub(crate) &'a [u64]);

impl Peek for Look<'_> {
    ghost words = { λ look. look.0.now };

    fn word(&mut self, n: usize) -> u64 {
        self.0[n]
    }
}

impl Driver {
    #[tactic(auto, unfolding(mc_theory::specs::States::opening))]
    pub(crate) fn new(alloc: Global, checked: &Checked) -> Result<Driver, AllocError>
        ensures words { IfOk result (λ d. d.words.items ≡ (opening 1 (shape_of checked.now)).words) }
        ensures shape { IfOk result (λ d. d.checked ≡ checked.now) }
    {
        let words = vec![in alloc; 0; checked.recency_start::<1>()]?;
        let bits = vec![in alloc; 0; checked.shape().items as usize]?;
        Ok(Driver {
            checked: *checked,
            words,
            key: 0,
            bits,
            marked: false,
        })
    }

    /// Writes a word, if the place is one of the table.
    fn write(&mut self, n: usize, word: u64) -> bool
        ensures written { IsTrue result → self.new.words.items ≡ slice_set self.old.words.items n word }
        ensures shape { self.new.checked ≡ self.old.checked }
        ensures key { self.new.key ≡ self.old.key }
    {
        if n >= self.words.len() {
            return false;
        }
        self.words[n] = word;
        true
    }

    /// Adds one to the version of the running deed's key.
    #[tactic(auto, unfolding(mc_words::specs::Places::version, mc_words::specs::Places::with_version))]
    fn bump(&mut self) -> bool
        ensures bumped { IsTrue result → self.new.words.items ≡ with_bump (shape_of self.old.checked) self.old.words.items self.old.key }
        ensures shape { self.new.checked ≡ self.old.checked }
        ensures key { self.new.key ≡ self.old.key }
    {
        let n = self.checked.version_place(self.checked.stripe(self.key));
        if n >= self.words.len() || self.words[n] == u64::MAX {
            return false;
        }
        self.words[n] += 1;
        true
    }

    /// Adds one to the moment.
    #[tactic(auto, unfolding(mc_words::specs::Places::moment, mc_words::specs::Places::with_moment))]
    fn tick(&mut self) -> bool
        ensures ticked { IsTrue result → self.new.words.items ≡ words_after 1 (shape_of self.old.checked) self.old.words.items Quiet Moment }
        ensures shape { self.new.checked ≡ self.old.checked }
        ensures key { self.new.key ≡ self.old.key }
    {
        if self.words.is_empty() || self.words[0] == u64::MAX {
            return false;
        }
        self.words[0] += 1;
        true
    }

    /// Makes the act, if it is one of the table.
    #[tactic(auto, unfolding(mc_words::specs::Places::with_slot, mc_words::specs::Places::with_item))]
    pub(crate) fn make(&mut self, act: Act) -> bool
        ensures made { IsTrue result → (p : Phase) → (act ≡ Close → deed_key p ≡ Some self.old.key) →
            self.new.words.items ≡ words_after 1 (shape_of self.old.checked) self.old.words.items p act }
        ensures key { self.new.key ≡ key_after self.old.key act }
        ensures shape { self.new.checked ≡ self.old.checked }
    {
        let checked = self.checked;
        let shape = checked.shape();
        match act {
            Act::Open(key, _) => {
                self.key = key;
                self.bump()
            }
            Act::Slot(place, word) => {
                if place.bucket >= shape.buckets || place.slot >= 4 {
                    return false;
                }
                self.write(checked.slot_place(place), word)
            }
            Act::Item(i, j, word) => {
                if i >= shape.items || usize::from(j) > payload_words::<1>() {
                    return false;
                }
                self.write(checked.item_place::<1>(i, j), word)
            }
            Act::Moment => self.tick(),
            Act::Close => self.bump(),
            Act::Hand(_) | Act::Mark(_) => true,
        }
    }
}

impl Driver {
    /// Replaces an item's bit, and returns the old one.
    pub(crate) fn swap(&mut self, i: u32, bit: u64) -> u64
        ensures words { self.new.words ≡ self.old.words }
        ensures shape { self.new.checked ≡ self.old.checked }
        ensures key { self.new.key ≡ self.old.key }
    {
        match self.bits.get_mut(i as usize) {
            Some(place) => mem::replace(place, bit),
            None => 0,
        }
    }

    /// The bit that the act reads. A mark sets one, and a reading clears it.
    pub(crate) fn bit(&mut self, act: Act) -> u64
        ensures words { self.new.words ≡ self.old.words }
        ensures shape { self.new.checked ≡ self.old.checked }
        ensures key { self.new.key ≡ self.old.key }
    {
        match act {
            Act::Hand(_) if self.marked => 1,
            Act::Hand(i) => self.swap(i, 0),
            Act::Mark(i) => {
                let _ = self.swap(i, 1);
                0
            }
            _ => 0,
        }
    }
}
