//! Which items of a table are free, and which of those in use gives way.
ghost use Rattle.std.specs.Prelude.{ℕ, ◌≡◌, ◌+◌, ◌*◌, ◌^◌, ◌<◌, ◌≤◌, ◌↔◌, ◌⊎◌, ◌++◌, [], ◌∷◌, List, None, MatchOption, IfOk, IfSome, IfNone, IsTrue, length};

use crate::choice::Choice;
use crate::free::FreeList;
use crate::pick::Pick;
use mc_words::Policy;
use std::alloc::{AllocError, Global};

/// The items of a table: the free ones and, where a choice is kept, those in use, new or proven.
#[derive(Drop)]
pub struct FreeItems {
    list: FreeList,
    /// Without it CLOCK's hand goes round all items.
    choice: Option<Choice>,
}

impl FreeItems {
    ghost use Rattle.mc_search.specs.Free.{returned_items};
    ghost use Rattle.mc_search.specs.Items.{IsConsistent, IsFreeIn, IsUsedIn, IsPicking, TakesFree, GivesBack, policy_in};
    ghost use Rattle.mc_search.specs.Sweeps.{Swept, IsOver, IsSearch, victim_of};

    /// All items of a table of this policy. Condition: there are items, and fewer than 2^31.
    pub fn new(alloc: Global, items: u32, policy: Policy) -> Result<FreeItems, AllocError>
        requires some { 0 < items }
        requires few { items < 2 ^ 31 }
        ensures kept { IfOk result IsConsistent }
        ensures items { IfOk result (λ f. f.list.items ≡ items) }
        ensures policy { IfOk result (λ f. policy_in f ≡ policy) }
        ensures all { IfOk result (λ f. (i : ℕ) → i < items → IsFreeIn f i) }
    {
        let list = FreeList::new(alloc, items)?;
        let choice = match policy {
            Policy::Clock => None,
            Policy::ScanResistant => Some(Choice::new(alloc, items)?),
        };
        Ok(FreeItems { list, choice })
    }

    /// The item in use whose bit is to be read next, while the search is not over and some item is in use.
    #[inline(always)]
    pub fn next(&self, pick: &Pick) -> Option<u32>
        requires { IsConsistent self.now }
        ensures { (rs : List Swept) → IsPicking self.now pick.now rs → MatchOption result
            (IsOver pick.now.items rs ⊎ ((j : ℕ) → IsUsedIn self.now j → ⊥))
            (λ i. IsUsedIn self.now i × (length rs < 2 * pick.now.items) × (victim_of rs ≡ None)) }
    {
        match &self.choice {
            Some(choice) => pick.next(choice),
            None => None,
        }
    }

    /// The item in use whose bit a search that begins now reads first, if there is a choice. It is a call of its own, as only large tables ask.
    #[inline(never)]
    pub fn first_read(&self) -> Option<u32>
        requires { IsConsistent self.now }
        ensures { IfSome result (IsUsedIn self.now) }
    {
        match &self.choice {
            Some(choice) => choice.next(),
            None => None,
        }
    }

    /// Continues after the bit was read. Condition: the item is in use, and the search is not over.
    #[inline(always)]
    pub fn after(&mut self, pick: &mut Pick, item: u32, bit: u64)
        requires kept { IsConsistent self.old }
        requires in_use { IsUsedIn self.old item }
        requires picking { (rs : List Swept) × IsPicking self.old pick.old rs × (length rs < 2 * pick.old.items) × (victim_of rs ≡ None) }
        ensures kept { IsConsistent self.new }
        ensures policy { policy_in self.new ≡ policy_in self.old }
        ensures list { self.new.list ≡ self.old.list }
        ensures picking { (rs : List Swept) → IsPicking self.old pick.old rs → victim_of rs ≡ None →
            IsPicking self.new pick.new (rs ++ record { item = item; bit = bit } ∷ []) }
        ensures most { pick.new.items ≡ pick.old.items }
        ensures left { pick.new.left < pick.old.left }
    {
        match &mut self.choice {
            Some(choice) => pick.after(choice, item, bit),
            None => unreachable!(),
        }
    }

    /// The item whose bit was clear.
    pub fn victim(&self, pick: &Pick) -> Option<u32>
        requires { IsConsistent self.now }
        ensures { (rs : List Swept) → IsPicking self.now pick.now rs →
            IsSearch self.now.list.items rs × (result ≡ victim_of rs) × IfSome result (IsUsedIn self.now) }
    {
        pick.victim()
    }

    /// Whether no item is free.
    #[inline(always)]
    pub fn is_empty(&self) -> bool
        requires { IsConsistent self.now }
        ensures { IsTrue result ↔ ((i : ℕ) → IsFreeIn self.now i → ⊥) }
    {
        self.list.is_empty()
    }

    /// How many items are not free.
    pub fn used(&self) -> usize
        requires { IsConsistent self.now }
        ensures { result + length (returned_items self.now.list) ≡ self.now.list.fresh }
    {
        self.list.used()
    }

    /// Takes the least free item for a new key. `mixed` is the key, mixed.
    #[inline(always)]
    pub fn take_least(&mut self, mixed: u64) -> Option<u32>
        requires kept { IsConsistent self.old }
        ensures kept { IsConsistent self.new }
        ensures policy { policy_in self.new ≡ policy_in self.old }
        ensures items { self.new.list.items ≡ self.old.list.items }
        ensures free { IfSome result (IsFreeIn self.old) }
        ensures takes { IfSome result (TakesFree self.old self.new) }
        ensures least { IfSome result (λ i. (j : ℕ) → IsFreeIn self.old j → i ≤ j) }
        ensures none { IfNone result ((j : ℕ) → IsFreeIn self.old j → ⊥) }
        ensures same { IfNone result ((j : ℕ) → IsFreeIn self.new j → ⊥) }
    {
        let Some(item) = self.list.take_least() else {
            return None;
        };
        take_in(&mut self.choice, item, mixed);
        Some(item)
    }

    /// Hands an item in use from a key that gives way to a new key. Both are mixed.
    #[inline(always)]
    pub fn hand_on(&mut self, item: u32, old: u64, new: u64)
        requires kept { IsConsistent self.old }
        requires in_use { IsUsedIn self.old item }
        ensures kept { IsConsistent self.new }
        ensures policy { policy_in self.new ≡ policy_in self.old }
        ensures list { self.new.list ≡ self.old.list }
    {
        match &mut self.choice {
            Some(choice) => choice.hand_on(item, old, new),
            None => {}
        }
    }

    // Notes a key that gives way, if there is a choice.
    fn note(&mut self, item: u32, mixed: u64)
        requires kept { IsConsistent self.old }
        requires in_items { item < self.old.list.items }
        ensures kept { IsConsistent self.new }
        ensures policy { policy_in self.new ≡ policy_in self.old }
        ensures list { self.new.list ≡ self.old.list }
    {
        match &mut self.choice {
            Some(choice) => choice.note(item, mixed),
            None => {}
        }
    }

    /// Gives back the item of a key that gives way. `mixed` is the key, mixed. Condition: it is one of the items, and isn't free.
    pub fn give_noted(&mut self, item: u32, mixed: u64)
        requires kept { IsConsistent self.old }
        requires in_items { item < self.old.list.items }
        requires taken { IsFreeIn self.old item → ⊥ }
        ensures kept { IsConsistent self.new }
        ensures policy { policy_in self.new ≡ policy_in self.old }
        ensures items { self.new.list.items ≡ self.old.list.items }
        ensures gives { GivesBack self.old self.new item }
    {
        self.note(item, mixed);
        self.give(item);
    }

    /// Gives an item back. Condition: it is one of the items, and isn't free.
    pub fn give(&mut self, item: u32)
        requires kept { IsConsistent self.old }
        requires in_items { item < self.old.list.items }
        requires taken { IsFreeIn self.old item → ⊥ }
        ensures kept { IsConsistent self.new }
        ensures policy { policy_in self.new ≡ policy_in self.old }
        ensures items { self.new.list.items ≡ self.old.list.items }
        ensures gives { GivesBack self.old self.new item }
    {
        self.list.give(item);
        take_out(&mut self.choice, item);
    }
}

ghost use Rattle.mc_search.specs.Choices.{IsChoice, IsInUse};
ghost use Rattle.mc_search.specs.Inside.Items.{IsTakenIn, IsTakenOut};

fn take_in(choice: &mut Option<Choice>, item: u32, mixed: u64)
    requires { IfSome choice.old (λ c. IsChoice c × (item < c.items) × (IsInUse c item → ⊥)) }
    ensures { IsTakenIn choice.old choice.new item }
{
    match choice {
        Some(choice) => choice.take_in(item, mixed),
        None => {}
    }
}

fn take_out(choice: &mut Option<Choice>, item: u32)
    requires { IfSome choice.old (λ c. IsChoice c × IsInUse c item) }
    ensures { IsTakenOut choice.old choice.new item }
{
    match choice {
        Some(choice) => choice.take_out(item),
        None => {}
    }
}
