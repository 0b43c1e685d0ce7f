//! What the writer keeps of its table beside the words, and how it decides a call.
ghost use Rattle.std.specs.Prelude.{ℕ, ◌≡◌, ◌+◌, ◌*◌, ◌^◌, ◌<◌, ◌≤◌, [], ◌↔◌, IfOk, IsTrue, MatchOption, None};
ghost use Rattle.mc_words.specs.Checks.{policy_of, shape_of};
ghost use Rattle.mc_words.specs.declared.policy.Policy.TheVariants.{Clock};
ghost use Rattle.mc_words.specs.History.{IsWord, key_count, map_value};
ghost use Rattle.mc_words.specs.KeyParts.{HasParts};
ghost use Rattle.mc_words.specs.Places.{IsWidth};
ghost use Rattle.mc_theory.specs.States.{State, opening};

mod evicting;
mod inserting;

use crate::answer::{IfError, PutError, Spent};
use crate::decision::{Decision, Removal, Renewal, Vacancy};
use crate::far::Far;
use crate::value::have_words;
use mc_search::{FreeItems, Sweep, find_by, moment, stamp_at};
use mc_theory::Peek;
use mc_words::{Checked, KeyParts, NoMemory, Policy};
use std::alloc::Global;

/// The writer's bookkeeping beside the words: which items are free, where the hand is, how many version changes were made.
#[derive(Drop)]
pub struct Books {
    /// The version changes, with those of what was decided.
    version_steps: u64,
    /// The item at CLOCK's hand. While a call sweeps, the item that was at the hand when the call began.
    hand: u32,
    free: FreeItems,
    pub(crate) checked: Checked,
    // Few puts need it, and it is large. A turn moves the writer, so it is stored elsewhere.
    far: Box<Far>,
}

impl Books {
    ghost use Rattle.mc_plan.specs.Books.{AreBooksOf, IsLackingKey};
    ghost use Rattle.mc_plan.specs.Deciding.{IsDecided, IsIfDecided, IsRemovalDecided, IsVacancy};
    ghost use Rattle.mc_plan.specs.declared.decision.Decision.TheVariants as decision;
    ghost use Rattle.mc_plan.specs.declared.answer.PutError.TheVariants as refusal;
    ghost use Rattle.mc_search.specs.Sweeps.{HasSwept};

    /// The books of a new table.
    pub fn new(alloc: Global, checked: &Checked) -> Result<Books, NoMemory>
        ensures books { IfOk result (λ books. (V : ℕ) → IsWidth V → AreBooksOf V books (opening V (shape_of checked.now))) }
        ensures shape { IfOk result (λ books. books.checked ≡ checked.now) }
    {
        let far = Far::new(alloc, checked)?;
        let Ok(far) = Box::new(alloc, far) else {
            return Err(NoMemory);
        };
        let free = FreeItems::new(alloc, checked.shape().items, checked.policy())?;
        Ok(Books {
            version_steps: 0,
            hand: 0,
            free,
            checked: *checked,
            far,
        })
    }

    /// The policy of the table.
    #[inline(always)]
    pub fn policy(&self) -> Policy
        ensures { result ≡ policy_of self.now.checked }
    {
        self.checked.policy()
    }

    /// How many keys the table holds. No word is read. Condition: the books are those of a table, between two calls.
    pub fn key_count(&self) -> usize
        requires { (V : ℕ) × (s : State V) × AreBooksOf V self.now s }
        ensures { (V : ℕ) (s : State V) → AreBooksOf V self.now s → result ≡ key_count s.history }
    {
        self.free.used()
    }

    /// How many keys the table holds at most.
    pub fn items(&self) -> u32
        ensures { result ≡ (shape_of self.now.checked).items }
    {
        self.checked.shape().items
    }

    /// Whether `changes` more version changes could pass the limit.
    fn is_spent(&self, changes: u64) -> bool
        requires few { changes < 2 ^ 8 }
        requires within { self.now.version_steps ≤ (shape_of self.now.checked).limit }
        ensures { IsTrue result ↔ ((shape_of self.now.checked).limit < self.now.version_steps + changes) }
    {
        self.version_steps + changes > self.checked.shape().limit
    }

    /// The most version changes of one put: two for each move, for its eviction and for itself.
    fn most_changes(&self) -> u64
        ensures value { result ≡ 2 * ((shape_of self.now.checked).depth + 2) }
        ensures few { result < 2 ^ 8 }
    {
        2 * (u64::from(self.checked.shape().depth) + 2)
    }

    /// The sweep for an item, from the hand's item.
    pub(crate) fn sweep(&self) -> Sweep
        requires clock { policy_of self.now.checked ≡ Clock }
        requires books { (V : ℕ) × (s : State V) × AreBooksOf V self.now s }
        ensures { (V : ℕ) (s : State V) → AreBooksOf V self.now s → HasSwept result (shape_of self.now.checked).items s.hand [] }
    {
        Sweep::start(self.checked.shape().items, self.hand)
    }

    /// Decides a put, as far as one look for the key allows.
    /// Condition: the books are those of the table whose words are looked at, between two calls, and the parts are the key's.
    #[inline(always)]
    pub fn decide<const V: usize, P: Peek>(
        &mut self,
        peek: &mut P,
        key: u64,
        parts: KeyParts,
        value: &[u64; V],
    ) -> Decision
        requires books { (s : State V) × AreBooksOf V self.old s × (P.words peek.old ≡ s.words) }
        requires parts { HasParts (shape_of self.old.checked) key parts }
        ensures decided { (s : State V) → AreBooksOf V self.old s → P.words peek.old ≡ s.words → IsDecided V self.new key value.now s result }
        ensures shape { self.new.checked ≡ self.old.checked }
        ensures kept { peek.new ≡ peek.old }
    {
        have_words(value.as_slice());
        if self.is_spent(self.most_changes()) {
            return Decision::Refuse(PutError::Spent);
        }
        let at = moment(&self.checked, peek) + 1;
        // Those of a renewal, before it is known to be one: after the look, the renewal's first store would wait for this one.
        let changes = 2;
        self.version_steps += changes;
        match find_by::<V, P>(&self.checked, peek, key, parts) {
            Some((_, item)) => {
                // The stamp is the item's last word, and may be in another cache line than its key. No load runs ahead of the first store,
                // so this loads that line here, while the processor still waits for the key.
                stamp_at::<V, P>(&self.checked, peek, item);
                Decision::Renew { item, at }
            }
            None => {
                self.version_steps -= changes;
                Decision::Insert { at }
            }
        }
    }

    /// Looks for a key that must be absent, before it is put. What is found decides nothing yet: the books stay as they are.
    /// Condition: the books are those of the table whose words are looked at, between two calls, and the parts are the key's.
    #[inline(always)]
    pub fn vacancy<const V: usize, P: Peek>(
        &self,
        peek: &mut P,
        key: u64,
        parts: KeyParts,
        value: &[u64; V],
    ) -> Vacancy
        requires books { (s : State V) × AreBooksOf V self.now s × (P.words peek.old ≡ s.words) }
        requires parts { HasParts (shape_of self.now.checked) key parts }
        ensures vacancy { (s : State V) → AreBooksOf V self.now s → P.words peek.old ≡ s.words → IsVacancy V self.now key value.now s result }
        ensures kept { peek.new ≡ peek.old }
    {
        if let Some((_, item)) = find_by::<V, P>(&self.checked, peek, key, parts) {
            let since = stamp_at::<V, P>(&self.checked, peek, item);
            return Vacancy::Taken { item, since };
        }
        match self.next_put::<V, P>(peek, value) {
            Some(at) => Vacancy::Free { at },
            None => Vacancy::Spent,
        }
    }

    /// The moment of the put of a key that is absent, if the limit is far enough for it.
    /// Condition: the books are those of the table whose words are looked at, between two calls.
    #[inline(always)]
    pub fn next_put<const V: usize, P: Peek>(&self, peek: &mut P, value: &[u64; V]) -> Option<u64>
        requires books { (s : State V) × AreBooksOf V self.now s × (P.words peek.old ≡ s.words) }
        ensures next { (k : ℕ) (s : State V) → AreBooksOf V self.now s → P.words peek.old ≡ s.words → IsWord k → map_value s.history k ≡ None →
            MatchOption result (IsDecided V self.now k value.now s (decision.Refuse refusal.Spent)) (IsLackingKey V self.now k value.now s) }
        ensures kept { peek.new ≡ peek.old }
    {
        have_words(value.as_slice());
        if self.is_spent(self.most_changes()) {
            return None;
        }
        Some(moment(&self.checked, peek) + 1)
    }

    /// Decides a put on a condition: it renews the key if the key's stamp is `since`. No key moves for it, so it needs only two version
    /// changes within the limit.
    /// Condition: the books are those of the table whose words are looked at, between two calls, and the parts are the key's.
    #[inline(always)]
    pub fn decide_if<const V: usize, P: Peek>(
        &mut self,
        peek: &mut P,
        key: u64,
        parts: KeyParts,
        since: u64,
        value: &[u64; V],
    ) -> Result<Renewal, IfError>
        requires books { (s : State V) × AreBooksOf V self.old s × (P.words peek.old ≡ s.words) }
        requires parts { HasParts (shape_of self.old.checked) key parts }
        ensures decided { (s : State V) → AreBooksOf V self.old s → P.words peek.old ≡ s.words → IsIfDecided V self.new key since value.now s result }
        ensures shape { self.new.checked ≡ self.old.checked }
        ensures kept { peek.new ≡ peek.old }
    {
        have_words(value.as_slice());
        let changes = 2;
        if self.is_spent(changes) {
            return Err(IfError::Spent);
        }
        let now = moment(&self.checked, peek);
        let Some((_, item)) = find_by::<V, P>(&self.checked, peek, key, parts) else {
            return Err(IfError::NotThere { at: now });
        };
        let stands = stamp_at::<V, P>(&self.checked, peek, item);
        if stands != since {
            return Err(IfError::Changed { since: stands });
        }
        self.version_steps += changes;
        Ok(Renewal { item, at: now + 1 })
    }

    /// Decides a removal.
    /// Condition: the books are those of the table whose words are looked at, between two calls, and the parts are the key's.
    #[inline(always)]
    pub fn decide_removal<const V: usize, P: Peek>(
        &mut self,
        peek: &mut P,
        key: u64,
        parts: KeyParts,
    ) -> Removal
        requires books { (s : State V) × AreBooksOf V self.old s × (P.words peek.old ≡ s.words) }
        requires parts { HasParts (shape_of self.old.checked) key parts }
        ensures decided { (s : State V) → AreBooksOf V self.old s → P.words peek.old ≡ s.words → IsRemovalDecided V self.new key s result }
        ensures shape { self.new.checked ≡ self.old.checked }
        ensures kept { peek.new ≡ peek.old }
    {
        if self.is_spent(2) {
            return Removal::Refuse(Spent);
        }
        let at = moment(&self.checked, peek);
        match find_by::<V, P>(&self.checked, peek, key, parts) {
            Some((place, item)) => {
                self.free.give(item);
                self.version_steps += 2;
                Removal::TakeOut { place, at: at + 1 }
            }
            None => Removal::Leave { at },
        }
    }
}
