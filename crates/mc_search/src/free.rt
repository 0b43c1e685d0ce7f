//! Which items are free.
ghost use Rattle.std.specs.Prelude.{ℕ, ◌≡◌, ◌+◌, ◌<◌, ◌≤◌, ◌↔◌, IfOk, IfSome, IfNone, IsTrue, length};

use std::alloc::{AllocError, Global};
use std::cmp::Reverse;
use std::collections::BinaryHeap;

/// The items that no slot names. Its memory is taken once.
#[derive(Drop)]
pub struct FreeList {
    items: u32,
    /// The items from this one on were never taken.
    fresh: u32,
    /// The items that were taken and given back.
    returned: BinaryHeap<Reverse<u32>>,
}

impl FreeList {
    ghost use Rattle.mc_search.specs.Free.{IsFreeList, IsInList, TakesListed, GivesListed, returned_items};
    ghost use Rattle.std.specs.BinaryHeap.{heap_len};

    /// All items of a table.
    pub fn new(alloc: Global, items: u32) -> Result<FreeList, AllocError>
        ensures kept { IfOk result IsFreeList }
        ensures items { IfOk result (λ f. f.items ≡ items) }
        ensures all { IfOk result (λ f. (i : ℕ) → i < items → IsInList f i) }
    {
        let returned = BinaryHeap::with_capacity(alloc, items as usize)?;
        Ok(FreeList {
            items,
            fresh: 0,
            returned,
        })
    }

    /// Whether no item is free.
    #[inline(always)]
    pub fn is_empty(&self) -> bool
        requires { IsFreeList self.now }
        ensures { IsTrue result ↔ ((i : ℕ) → IsInList self.now i → ⊥) }
    {
        self.fresh == self.items && self.returned.is_empty()
    }

    /// How many items are not free.
    pub fn used(&self) -> usize
        requires { IsFreeList self.now }
        ensures { result + length (returned_items self.now) ≡ self.now.fresh }
    {
        self.fresh as usize - self.returned.len()
    }

    // Takes the least of the items that were given back. It is a call of its own, as most tables give none back between two puts.
    #[inline(never)]
    fn take_returned(&mut self) -> u32
        requires kept { IsFreeList self.old }
        requires some { 0 < heap_len self.old.returned }
        ensures kept { IsFreeList self.new }
        ensures items { self.new.items ≡ self.old.items }
        ensures free { IsInList self.old result }
        ensures takes { TakesListed self.old self.new result }
        ensures least { (j : ℕ) → IsInList self.old j → result ≤ j }
    {
        let Some(item) = self.returned.pop() else {
            unreachable!();
        };
        item.0
    }

    /// Takes the least free item.
    #[inline(always)]
    pub fn take_least(&mut self) -> Option<u32>
        requires { IsFreeList self.old }
        ensures kept { IsFreeList self.new }
        ensures items { self.new.items ≡ self.old.items }
        ensures free { IfSome result (IsInList self.old) }
        ensures takes { IfSome result (TakesListed self.old self.new) }
        ensures least { IfSome result (λ i. (j : ℕ) → IsInList self.old j → i ≤ j) }
        ensures none { IfNone result ((j : ℕ) → IsInList self.old j → ⊥) }
        ensures same { IfNone result ((j : ℕ) → IsInList self.new j → ⊥) }
    {
        if !self.returned.is_empty() {
            return Some(self.take_returned());
        }
        if self.fresh == self.items {
            return None;
        }
        self.fresh += 1;
        Some(self.fresh - 1)
    }

    /// Gives an item back. Condition: it is one of the items, and isn't free.
    pub fn give(&mut self, item: u32)
        requires kept { IsFreeList self.old }
        requires in_items { item < self.old.items }
        requires taken { IsInList self.old item → ⊥ }
        ensures kept { IsFreeList self.new }
        ensures items { self.new.items ≡ self.old.items }
        ensures gives { GivesListed self.old self.new item }
    {
        match self.returned.push(Reverse(item)) {
            Ok(()) => {}
            Err(_) => unreachable!(),
        }
    }
}
