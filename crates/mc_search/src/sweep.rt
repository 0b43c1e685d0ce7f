//! The search for an item whose recency bit is clear.
ghost use Rattle.std.specs.Prelude.{ℕ, ◌≡◌, ◌+◌, ◌*◌, ◌^◌, ◌%◌, ◌<◌, ◌++◌, [], ◌∷◌, List, length, MatchOption, Some, None};

/// The hand passes over the items, at most twice, and reads their bits until one is clear.
#[derive(Clone, Copy, Debug, PartialEq, Eq)]
pub struct Sweep {
    items: u32,
    hand: u32,
    /// How many readings are left.
    left: u32,
    victim: Option<u32>,
}

impl Sweep {
    ghost use Rattle.mc_search.specs.Sweeps.{Swept, HasSwept, IsOver, next_item, victim_of};

    /// A sweep that begins where the hand is. Condition: the hand is at one of the items, of which there are fewer than 2^31.
    pub fn start(items: u32, hand: u32) -> Sweep
        requires hand { hand < items }
        requires few { items < 2 ^ 31 }
        ensures { HasSwept result items hand [] }
    {
        Sweep {
            items,
            hand,
            left: 2 * items,
            victim: None,
        }
    }

    /// The item whose bit is to be read next, while the sweep is not over.
    pub fn next(&self) -> Option<u32>
        ensures value { result ≡ next_item self.now }
        ensures round { (items hand : ℕ) (rs : List Swept) → HasSwept self.now items hand rs →
            MatchOption result (IsOver items rs) (λ i. (i ≡ (hand + length rs) % items) × (length rs < 2 * items) ×
            (victim_of rs ≡ None)) }
    {
        if self.victim.is_some() || self.left == 0 {
            return None;
        }
        Some(self.hand)
    }

    /// Continues after the bit was read. Condition: an item was to be read next.
    pub fn after(&mut self, bit: u64)
        requires { (items : ℕ) × (hand : ℕ) × (rs : List Swept) × (i : ℕ) × HasSwept self.old items hand rs × (next_item self.old ≡ Some i) }
        ensures swept { (items hand : ℕ) (rs : List Swept) (i : ℕ) → HasSwept self.old items hand rs →
            next_item self.old ≡ Some i → HasSwept self.new items hand (rs ++ record { item = i; bit = bit } ∷ []) }
        ensures left { self.new.left < self.old.left }
    {
        self.victim = if bit == 0 { Some(self.hand) } else { None };
        self.left -= 1;
        let next = self.hand + 1;
        self.hand = if next == self.items { 0 } else { next };
    }

    /// The item whose bit was clear.
    pub fn victim(&self) -> Option<u32>
        ensures { (items hand : ℕ) (rs : List Swept) → HasSwept self.now items hand rs → result ≡ victim_of rs }
    {
        self.victim
    }

    /// Where the hand is now: one past the item that was read last.
    pub fn hand(&self) -> u32
        ensures stands { (items hand : ℕ) (rs : List Swept) → HasSwept self.now items hand rs → result ≡ (hand + length rs) % items }
        ensures home { (items hand : ℕ) (rs : List Swept) → HasSwept self.now items hand rs → length rs ≡ 2 * items → result ≡ hand }
    {
        self.hand
    }
}
