//! An entry of the map, and what the calls that take one out return.
ghost use Rattle.std.specs.Prelude.{ℕ, ◌≡◌, ◌<◌, List, None, Some};
ghost use Rattle.mc_words.specs.Places.{IsWidth, slot_number};
ghost use Rattle.mc_words.specs.Standing.{Agrees, Stands};
ghost use Rattle.mc_words.specs.declared.history.Change.{Change};
ghost use Rattle.mc_writer.specs.GivenWay.{Holds};

use crate::pen::Pen;
use mc_plan::Put;
use mc_search::{held_at, slot_at};
use mc_words::Place;

/// An entry of the map.
#[derive(Clone, Copy, Debug, PartialEq, Eq)]
pub struct Entry<const V: usize> {
    pub key: u64,
    pub value: [u64; V],
    /// The moment of the key's last put.
    pub since: u64,
}

/// What a put did, and the entry that gave way to it: the key's earlier one, or that of the key that was evicted.
#[derive(Clone, Copy, Debug, PartialEq, Eq)]
pub struct Swapped<const V: usize> {
    pub put: Put,
    pub old: Option<Entry<V>>,
}

/// What a put on a condition did: the moment of its change, and the key's earlier entry.
#[derive(Clone, Copy, Debug, PartialEq, Eq)]
pub struct Replaced<const V: usize> {
    pub at: u64,
    pub old: Entry<V>,
}

/// What a removal that returns the entry did. `at` is the moment after it.
#[derive(Clone, Copy, Debug, PartialEq, Eq)]
pub enum Take<const V: usize> {
    Taken { at: u64, old: Entry<V> },
    NotThere { at: u64 },
}

/// What an eviction without a put did. `at` is the moment after it.
#[derive(Clone, Copy, Debug, PartialEq, Eq)]
pub enum Evict<const V: usize> {
    /// This entry gave way.
    Evicted { at: u64, old: Entry<V> },
    /// The table holds no key.
    Empty { at: u64 },
}

impl<'a, const V: usize> Pen<'a, V> {
    ghost use Rattle.mc_writer.specs.Inside.Pens.{state_at};

    /// Reads the entry of a key from its item. Condition: the words agree with some history, and no deed runs.
    #[inline(always)]
    pub(crate) fn entry_at(&mut self, key: u64, item: u32) -> Entry<V>
        requires width { IsWidth V }
        requires agrees { (h : List (Change V)) × Agrees V self.old.cells.now.layout.shape (state_at V self.old).words None h }
        requires stands { (q : ℕ) × Stands V self.old.cells.now.layout.shape (state_at V self.old).words key q item }
        ensures holds { (h : List (Change V)) → Agrees V self.old.cells.now.layout.shape (state_at V self.old).words None h → Holds h key (Some result) }
        ensures same { self.new ≡ self.old }
    {
        let held = held_at::<V, Pen<V>>(self.cells.checked(), self, item);
        let value = held.value;
        let since = held.since;
        Entry { key, value, since }
    }

    /// Reads the entry of a key from its slot. Condition: the words agree with some history, and no deed runs.
    #[inline(always)]
    pub(crate) fn entry_in(&mut self, key: u64, place: Place) -> Entry<V>
        requires width { IsWidth V }
        requires agrees { (h : List (Change V)) × Agrees V self.old.cells.now.layout.shape (state_at V self.old).words None h }
        requires slot { place.slot < 4 }
        requires stands { (i : ℕ) × Stands V self.old.cells.now.layout.shape (state_at V self.old).words key (slot_number place) i }
        ensures holds { (h : List (Change V)) → Agrees V self.old.cells.now.layout.shape (state_at V self.old).words None h → Holds h key (Some result) }
        ensures same { self.new ≡ self.old }
    {
        let checked = self.cells.checked();
        let word = slot_at(checked, self, place);
        self.entry_at(key, checked.item_in(word))
    }
}
