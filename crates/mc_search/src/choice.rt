//! Which items are in use, and which of them gives way. An item is new until its bit is found set, or if its key had given way lately. Then it
//! is proven. A new item gives way, unless more than nine in ten of those in use are proven.
ghost use Rattle.std.specs.Prelude.{ℕ, ◌≡◌, ◌≢◌, ◌^◌, ◌<◌, ◌↔◌, ◌⊎◌, IfOk, MatchOption};

use crate::item_set::ItemSet;
use crate::notes::Notes;
use std::alloc::{AllocError, Global};

/// The items in use, each of them new or proven, and the notes of keys that gave way while they were new. Its memory is taken once.
#[derive(Drop)]
pub struct Choice {
    items: u32,
    fresh: ItemSet,
    proven: ItemSet,
    fresh_hand: u32,
    proven_hand: u32,
    notes: Notes,
}

impl Choice {
    ghost use Rattle.mc_search.specs.Choices.{IsChoice, IsInUse};
    ghost use Rattle.mc_search.specs.ItemSets.{bit_in};

    /// No item is in use. Condition: there are items, and fewer than 2^31.
    pub(crate) fn new(alloc: Global, items: u32) -> Result<Choice, AllocError>
        requires some { 0 < items }
        requires few { items < 2 ^ 31 }
        ensures kept { IfOk result IsChoice }
        ensures items { IfOk result (λ c. c.items ≡ items) }
        ensures idle { IfOk result (λ c. (i : ℕ) → IsInUse c i → ⊥) }
    {
        let fresh = ItemSet::new(alloc, items)?;
        let proven = ItemSet::new(alloc, items)?;
        let notes = Notes::new(alloc, items)?;
        Ok(Choice {
            items,
            fresh,
            proven,
            fresh_hand: 0,
            proven_hand: 0,
            notes,
        })
    }

    /// Takes in an item that a new key was given: it is proven if the key is noted, else new.
    /// Condition: it is one of the items, and isn't in use. `mixed` is the key, mixed.
    pub(crate) fn take_in(&mut self, item: u32, mixed: u64)
        requires kept { IsChoice self.old }
        requires in_items { item < self.old.items }
        requires idle { IsInUse self.old item → ⊥ }
        ensures kept { IsChoice self.new }
        ensures items { self.new.items ≡ self.old.items }
        ensures takes { (j : ℕ) → IsInUse self.new j ↔ (IsInUse self.old j ⊎ (j ≡ item)) }
    {
        if self.notes.take(mixed) {
            self.proven.add(item);
        } else {
            self.fresh.add(item);
        }
        self.fit_notes();
    }

    fn fit_notes(&mut self)
        requires kept { IsChoice self.old }
        ensures kept { IsChoice self.new }
        ensures items { self.new.items ≡ self.old.items }
        ensures sets { (self.new.fresh ≡ self.old.fresh) × (self.new.proven ≡ self.old.proven) }
    {
        let used = u64::from(self.fresh.len()) + u64::from(self.proven.len());
        self.notes.fit(used);
    }

    // A new item is proven from now on.
    fn prove(&mut self, item: u32)
        requires kept { IsChoice self.old }
        requires fresh { bit_in self.old.fresh item ≡ 1 }
        ensures kept { IsChoice self.new }
        ensures items { self.new.items ≡ self.old.items }
        ensures same { (j : ℕ) → IsInUse self.new j ↔ IsInUse self.old j }
    {
        self.fresh.remove(item);
        self.proven.add(item);
    }

    // A proven item is new again.
    fn renew(&mut self, item: u32)
        requires kept { IsChoice self.old }
        requires proven { bit_in self.old.proven item ≡ 1 }
        ensures kept { IsChoice self.new }
        ensures items { self.new.items ≡ self.old.items }
        ensures same { (j : ℕ) → IsInUse self.new j ↔ IsInUse self.old j }
    {
        self.proven.remove(item);
        self.fresh.add(item);
    }

    /// Takes out an item that was given back. Condition: it is in use.
    pub(crate) fn take_out(&mut self, item: u32)
        requires kept { IsChoice self.old }
        requires in_use { IsInUse self.old item }
        ensures kept { IsChoice self.new }
        ensures items { self.new.items ≡ self.old.items }
        ensures takes { (j : ℕ) → IsInUse self.new j ↔ (IsInUse self.old j × (j ≢ item)) }
    {
        let is_proven = self.proven.has(item);
        if is_proven {
            self.proven.remove(item);
        } else {
            self.fresh.remove(item);
        }
        self.fit_notes();
    }

    /// Notes the key of an item that gives way, if the item is new.
    pub(crate) fn note(&mut self, item: u32, mixed: u64)
        requires kept { IsChoice self.old }
        requires in_items { item < self.old.items }
        ensures kept { IsChoice self.new }
        ensures items { self.new.items ≡ self.old.items }
        ensures same { (j : ℕ) → IsInUse self.new j ↔ IsInUse self.old j }
    {
        if self.fresh.has(item) {
            self.notes.write(mixed);
        }
    }

    /// Hands an item in use from a key that gives way, which is noted if the item is new, to a new key. Both keys are mixed.
    #[inline(always)]
    pub(crate) fn hand_on(&mut self, item: u32, old: u64, new: u64)
        requires kept { IsChoice self.old }
        requires in_use { IsInUse self.old item }
        ensures kept { IsChoice self.new }
        ensures items { self.new.items ≡ self.old.items }
        ensures same { (j : ℕ) → IsInUse self.new j ↔ IsInUse self.old j }
    {
        if self.fresh.has(item) {
            self.notes.write(old);
            if self.notes.take(new) {
                self.prove(item);
            }
        } else if !self.notes.take(new) {
            self.renew(item);
        }
    }

    /// The item whose bit is to be read next.
    #[inline(always)]
    pub(crate) fn next(&self) -> Option<u32>
        requires { IsChoice self.now }
        ensures { MatchOption result ((j : ℕ) → IsInUse self.now j → ⊥) (IsInUse self.now) }
    {
        if u64::from(self.proven.len()) <= 9 * u64::from(self.fresh.len()) {
            if let Some(item) = self.fresh.next_round(self.fresh_hand) {
                return Some(item);
            }
            return self.proven.next_round(self.proven_hand);
        }
        if let Some(item) = self.proven.next_round(self.proven_hand) {
            return Some(item);
        }
        self.fresh.next_round(self.fresh_hand)
    }

    /// Continues after an item's bit was read: a new item that was read since is proven.
    pub(crate) fn after(&mut self, item: u32, bit: u64)
        requires kept { IsChoice self.old }
        requires in_use { IsInUse self.old item }
        ensures kept { IsChoice self.new }
        ensures items { self.new.items ≡ self.old.items }
        ensures same { (j : ℕ) → IsInUse self.new j ↔ IsInUse self.old j }
    {
        let next = after_item(item, self.items);
        if self.proven.has(item) {
            self.proven_hand = next;
            return;
        }
        self.fresh_hand = next;
        if bit == 0 {
            return;
        }
        self.prove(item);
    }
}

/// The item after this one, round the items.
fn after_item(item: u32, items: u32) -> u32
    requires { item < items }
    ensures { result < items }
{
    let next = item + 1;
    if next == items { 0 } else { next }
}
