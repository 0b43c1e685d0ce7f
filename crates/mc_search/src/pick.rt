//! The search for an item that gives way, whichever choice names the items.
ghost use Rattle.std.specs.Prelude.{ℕ, ◌≡◌, ◌+◌, ◌*◌, ◌^◌, ◌<◌, ◌≤◌, ◌++◌, ◌⊎◌, ◌↔◌, [], ◌∷◌, List, length, MatchOption, Some, None};

use crate::choice::Choice;

/// Reads the bits of items in use until one is clear, at most twice as many as this number of items.
#[derive(Clone, Copy, Debug, PartialEq, Eq)]
pub struct Pick {
    items: u32,
    /// How many readings are left.
    left: u32,
    victim: Option<u32>,
}

impl Pick {
    ghost use Rattle.mc_search.specs.Choices.{IsChoice, IsInUse};
    ghost use Rattle.mc_search.specs.Picks.{HasPicked};
    ghost use Rattle.mc_search.specs.declared.choice.Choice.{Choice};
    ghost use Rattle.mc_search.specs.Sweeps.{Swept, IsOver, victim_of};

    /// A search that begins, among this number of items. Condition: they are fewer than 2^31.
    #[inline(always)]
    pub fn start(items: u32) -> Pick
        requires { items < 2 ^ 31 }
        ensures picked { (c : Choice) → items ≤ c.items → HasPicked c result [] }
        ensures items { result.items ≡ items }
    {
        Pick {
            items,
            left: 2 * items,
            victim: None,
        }
    }

    /// The item whose bit is to be read next, while the search is not over.
    #[inline(always)]
    pub fn next(&self, choice: &Choice) -> Option<u32>
        requires { IsChoice choice.now }
        ensures { (rs : List Swept) → HasPicked choice.now self.now rs → MatchOption result
            (IsOver self.now.items rs ⊎ ((j : ℕ) → IsInUse choice.now j → ⊥))
            (λ i. IsInUse choice.now i × (i < choice.now.items) × (length rs < 2 * self.now.items) × (victim_of rs ≡ None)) }
    {
        if self.victim.is_some() || self.left == 0 {
            return None;
        }
        choice.next()
    }

    /// Continues after the bit was read. Condition: the item is in use, and the search is not over.
    #[inline(always)]
    pub fn after(&mut self, choice: &mut Choice, item: u32, bit: u64)
        requires kept { IsChoice choice.old }
        requires in_use { IsInUse choice.old item }
        requires picked { (rs : List Swept) × HasPicked choice.old self.old rs × (length rs < 2 * self.old.items) × (victim_of rs ≡ None) }
        ensures kept { IsChoice choice.new }
        ensures items { choice.new.items ≡ choice.old.items }
        ensures same { (j : ℕ) → IsInUse choice.new j ↔ IsInUse choice.old j }
        ensures picked { (rs : List Swept) → HasPicked choice.old self.old rs → victim_of rs ≡ None →
            HasPicked choice.new self.new (rs ++ record { item = item; bit = bit } ∷ []) }
        ensures most { self.new.items ≡ self.old.items }
        ensures left { self.new.left < self.old.left }
    {
        choice.after(item, bit);
        self.victim = if bit == 0 { Some(item) } else { None };
        self.left -= 1;
    }

    /// The item whose bit was clear.
    pub fn victim(&self) -> Option<u32>
        ensures { (c : Choice) (rs : List Swept) → HasPicked c self.now rs → result ≡ victim_of rs }
    {
        self.victim
    }
}
