//! Sets of items.
ghost use Rattle.std.specs.Prelude.{ℕ, ◌≡◌, ◌≢◌, ◌^◌, ◌<◌, ◌≤◌, ◌↔◌, IfOk, IsTrue, MatchOption};
ghost use Rattle.std.specs.Int.{bit_at};

use std::alloc::{AllocError, Global};

/// A set of items: a bit for each, 64 to a word. Its memory is taken once.
#[derive(Drop)]
pub(crate) struct ItemSet {
    items: u32,
    /// How many items are in the set.
    len: u32,
    words: Vec<u64>,
}

impl ItemSet {
    ghost use Rattle.mc_search.specs.ItemSets.{IsItemSet, bit_in, counted};

    /// The set of none of these items.
    pub(crate) fn new(alloc: Global, items: u32) -> Result<ItemSet, AllocError>
        requires { items < 2 ^ 31 }
        ensures kept { IfOk result IsItemSet }
        ensures items { IfOk result (λ s. s.items ≡ items) }
        ensures empty { IfOk result (λ s. (i : ℕ) → bit_in s i ≡ 0) }
    {
        let words = vec![in alloc; 0u64; items as usize / 64 + 1]?;
        Ok(ItemSet {
            items,
            len: 0,
            words,
        })
    }

    /// Whether the item is in the set.
    #[tactic(auto, unfolding(crate::specs::ItemSets::bit_among))]
    pub(crate) fn has(&self, item: u32) -> bool
        requires kept { IsItemSet self.now }
        requires in_items { item < self.now.items }
        ensures { IsTrue result ↔ (bit_in self.now item ≡ 1) }
    {
        is_set(self.words[(item / 64) as usize], item % 64)
    }

    /// How many items are in the set.
    pub(crate) fn len(&self) -> u32
        requires { IsItemSet self.now }
        ensures { result ≡ counted self.now.words.items self.now.items }
    {
        self.len
    }

    /// Puts an item into the set. Condition: it isn't in it.
    pub(crate) fn add(&mut self, item: u32)
        requires kept { IsItemSet self.old }
        requires in_items { item < self.old.items }
        requires absent { bit_in self.old item ≡ 0 }
        ensures kept { IsItemSet self.new }
        ensures items { self.new.items ≡ self.old.items }
        ensures added { bit_in self.new item ≡ 1 }
        ensures others { (j : ℕ) → j ≢ item → bit_in self.new j ≡ bit_in self.old j }
    {
        self.words[(item / 64) as usize] |= 1u64 << (item % 64);
        self.len += 1;
    }

    /// Takes an item out of the set. Condition: it is in it.
    pub(crate) fn remove(&mut self, item: u32)
        requires kept { IsItemSet self.old }
        requires present { bit_in self.old item ≡ 1 }
        ensures kept { IsItemSet self.new }
        ensures items { self.new.items ≡ self.old.items }
        ensures removed { bit_in self.new item ≡ 0 }
        ensures others { (j : ℕ) → j ≢ item → bit_in self.new j ≡ bit_in self.old j }
    {
        self.words[(item / 64) as usize] &= !(1u64 << (item % 64));
        self.len -= 1;
    }

    /// An item of the set from this one on: the first, though no clause says so.
    fn next_from(&self, from: u32) -> Option<u32>
        requires kept { IsItemSet self.now }
        requires in_items { from < self.now.items }
        ensures { MatchOption result ((j : ℕ) → from ≤ j → bit_in self.now j ≡ 0) (λ i. bit_in self.now i ≡ 1) }
    {
        let at = from / 64;
        if let Some(bit) = lowest(bits_from(self.words[at as usize], from % 64)) {
            return Some(at * 64 + bit);
        }
        'words: for next in at + 1..self.items / 64 + 1 {
            if let Some(bit) = lowest(self.words[next as usize]) {
                return Some(next * 64 + bit);
            }
        }
        None
    }

    /// An item of the set, from this one on round the items.
    pub(crate) fn next_round(&self, from: u32) -> Option<u32>
        requires kept { IsItemSet self.now }
        requires in_items { from < self.now.items }
        ensures { MatchOption result ((j : ℕ) → bit_in self.now j ≡ 0) (λ i. bit_in self.now i ≡ 1) }
    {
        if let Some(item) = self.next_from(from) {
            return Some(item);
        }
        self.next_from(0)
    }
}

/// Whether the bit of the word is set.
fn is_set(word: u64, bit: u32) -> bool
    requires { bit < 64 }
    ensures { IsTrue result ↔ (bit_at word bit ≡ 1) }
{
    (word >> bit) & 1 == 1
}

/// The lowest bit of a word that is set.
fn lowest(word: u64) -> Option<u32>
    ensures { MatchOption result (word ≡ 0) (λ t. (t < 64) × (bit_at word t ≡ 1)) }
{
    if word == 0 {
        return None;
    }
    Some(word.trailing_zeros())
}

/// The word with its bits from this one on alone.
fn bits_from(word: u64, first: u32) -> u64
    requires { first < 64 }
    ensures same { (t : ℕ) → first ≤ t → t < 64 → bit_at result t ≡ bit_at word t }
    ensures set { (t : ℕ) → bit_at result t ≡ 1 → bit_at word t ≡ 1 }
{
    word & (u64::MAX << first)
}
