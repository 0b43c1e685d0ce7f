//! A key that is taken out though no put needs its item.
ghost use Rattle.std.specs.Prelude.{ℕ, ◌≡◌, ◌+◌, ◌*◌, ◌%◌, ◌<◌, ◌≤◌, ◌⊎◌, ◌++◌, [], ◌∷◌, List, Some, None, IfSome, MatchOption, length};
ghost use Rattle.mc_words.specs.Checks.{policy_of, shape_of};
ghost use Rattle.mc_words.specs.History.{key_count};
ghost use Rattle.mc_words.specs.declared.policy.Policy.TheVariants.{ScanResistant};
ghost use Rattle.mc_theory.specs.States.{State};

use crate::books::Books;
use crate::decision::{Eviction, Victim};
use mc_search::{Pick, moment};
use mc_theory::Peek;

impl Books {
    ghost use Rattle.mc_plan.specs.Books.{AreBooksOf, Waits};
    ghost use Rattle.mc_search.specs.declared.room.Room.{Room};
    ghost use Rattle.mc_plan.specs.Evicting.{IsEvicted, IsEvictionDecided};
    ghost use Rattle.mc_search.specs.Items.{IsPicking, IsUsedIn};
    ghost use Rattle.mc_search.specs.Sweeps.{Swept, IsOver, IsSearch, victim_of};

    /// A search that begins. It reads at most twice as many bits as there are keys.
    #[inline(always)]
    pub fn pick(&self) -> Pick
        requires books { (V : ℕ) × (s : State V) × AreBooksOf V self.now s }
        requires policy { policy_of self.now.checked ≡ ScanResistant }
        ensures picking { IsPicking self.now.free result [] }
        ensures keys { (V : ℕ) (s : State V) → AreBooksOf V self.now s → result.items ≡ key_count s.history }
    {
        Pick::start(self.key_count() as u32)
    }

    /// The item whose bit is to be read next, while the search is not over and some item is in use.
    #[inline(always)]
    pub fn next_read(&self, pick: &Pick) -> Option<u32>
        requires { (V : ℕ) × (s : State V) × AreBooksOf V self.now s }
        ensures { (rs : List Swept) → IsPicking self.now.free pick.now rs → MatchOption result
            (IsOver pick.now.items rs ⊎ ((j : ℕ) → IsUsedIn self.now.free j → ⊥))
            (λ i. IsUsedIn self.now.free i × (length rs < 2 * pick.now.items) × (victim_of rs ≡ None)) }
    {
        self.free.next(pick)
    }

    /// Continues after the bit was read. The books stay those of the table as it was before the first reading.
    /// Condition: the item is in use, and the search is not over.
    #[inline(always)]
    pub fn after_read(&mut self, pick: &mut Pick, item: u32, bit: u64)
        requires books { (V : ℕ) × (s : State V) × AreBooksOf V self.old s }
        requires in_use { IsUsedIn self.old.free item }
        requires picking { (rs : List Swept) × IsPicking self.old.free pick.old rs × (length rs < 2 * pick.old.items) × (victim_of rs ≡ None) }
        ensures books { (V : ℕ) (s : State V) → AreBooksOf V self.old s → AreBooksOf V self.new s }
        ensures waits { (V k : ℕ) (v : List ℕ) (s : State V) (room : Room) → Waits V self.old k v s room → Waits V self.new k v s room }
        ensures picking { (rs : List Swept) → IsPicking self.old.free pick.old rs → victim_of rs ≡ None →
            IsPicking self.new.free pick.new (rs ++ record { item = item; bit = bit } ∷ []) }
        ensures shape { self.new.checked ≡ self.old.checked }
        ensures most { pick.new.items ≡ pick.old.items }
        ensures left { pick.new.left < pick.old.left }
    {
        self.free.after(pick, item, bit);
    }

    /// The item whose bit was clear: the one to evict at.
    pub fn read_victim(&self, pick: &Pick) -> Option<u32>
        requires { (V : ℕ) × (s : State V) × AreBooksOf V self.now s }
        ensures { (rs : List Swept) → IsPicking self.now.free pick.now rs →
            IsSearch self.now.free.list.items rs × (result ≡ victim_of rs) × IfSome result (IsUsedIn self.now.free) }
    {
        self.free.victim(pick)
    }

    /// The item at CLOCK's hand.
    pub fn hand(&self) -> u32
        requires books { (V : ℕ) × (s : State V) × AreBooksOf V self.now s }
        ensures value { result ≡ self.now.hand }
        ensures inside { result < (shape_of self.now.checked).items }
    {
        self.hand
    }

    /// CLOCK's hand has read the bit of this item, and is past it.
    pub fn hand_past(&mut self, item: u32)
        requires in_items { item < (shape_of self.old.checked).items }
        ensures { self.new ≡ record self.old { hand = (item + 1) % (shape_of self.old.checked).items } }
    {
        self.hand = past(item, self.checked.shape().items);
    }

    /// What an eviction finds before it reads a bit.
    /// Condition: the books are those of the table whose words are looked at, between two calls.
    pub fn decide_eviction<const V: usize, P: Peek>(&self, peek: &mut P) -> Eviction
        requires books { (s : State V) × AreBooksOf V self.now s × (P.words peek.old ≡ s.words) }
        ensures decided { (s : State V) → AreBooksOf V self.now s → P.words peek.old ≡ s.words → IsEvictionDecided V self.now s result }
        ensures kept { peek.new ≡ peek.old }
    {
        if self.is_spent(2) {
            return Eviction::Spent;
        }
        let at = moment(&self.checked, peek);
        if self.key_count() == 0 {
            return Eviction::Empty { at };
        }
        Eviction::Search { at: at + 1 }
    }

    /// Decides that the key at an item is taken out, whether or not items are free.
    /// Condition: the books are those of the table whose words are looked at, after the bits were read; the item is in use, its bit was
    /// found clear, and two version changes are within the limit.
    pub fn evict_at<const V: usize, P: Peek>(&mut self, peek: &mut P, item: u32) -> Victim
        requires books { (m : State V) × AreBooksOf V self.old m × (P.words peek.old ≡ m.words) }
        requires in_use { IsUsedIn self.old.free item }
        requires unspent { self.old.version_steps + 2 ≤ (shape_of self.old.checked).limit }
        ensures evicted { (m : State V) → AreBooksOf V self.old m → P.words peek.old ≡ m.words → m.cleared ≡ Some item →
            IsEvicted V self.new m item result }
        ensures shape { self.new.checked ≡ self.old.checked }
        ensures kept { peek.new ≡ peek.old }
    {
        let victim = self.victim::<V, P>(peek, item);
        self.free.give_noted(item, victim.parts.mixed);
        self.version_steps += 2;
        victim
    }
}

/// The item after this one, round the items.
fn past(item: u32, items: u32) -> u32
    requires { item < items }
    ensures { result ≡ (item + 1) % items }
{
    let next = item + 1;
    if next == items {
        return 0;
    }
    next
}
