//! A put that waits for an item.
ghost use Rattle.std.specs.Prelude.{ℕ, ◌≡◌, ◌*◌, ◌<◌, ◌++◌, [], ◌∷◌, IfNone, List, Some};
ghost use Rattle.mc_words.specs.Checks.{policy_of, shape_of};
ghost use Rattle.mc_words.specs.declared.policy.Policy.TheVariants.{Clock};
ghost use Rattle.mc_theory.specs.States.{State};

use crate::answer::{Put, PutError};
use crate::books::Books;
use mc_search::{Room, Sweep};

/// How far a put is once it was begun.
#[derive(Drop)]
pub(crate) enum Start {
    /// It is planned or refused, and this is its answer.
    Planned(Result<Put, PutError>),
    /// The key has this room, and every item is in use.
    Waits(Room),
}

/// A put for which the hand looks for an item.
#[derive(Drop)]
pub struct Waiting<const V: usize> {
    pub(crate) sweep: Sweep,
    pub(crate) key: u64,
    pub(crate) value: [u64; V],
    pub(crate) room: Room,
}

impl<const V: usize> Waiting<V> {
    ghost use Rattle.mc_plan.specs.WholeCalls.{Call, PutCall};
    ghost use Rattle.mc_plan.specs.Books.{IsSweeping, Waits};
    ghost use Rattle.mc_plan.specs.declared.books.Books.{Books};
    ghost use Rattle.mc_search.specs.Sweeps.{Swept, IsOver, next_item};

    /// A put whose hand has read nothing yet. Condition: the policy is CLOCK, the key has this room, by these books, and no item is free.
    pub fn new(books: &Books, key: u64, value: [u64; V], room: Room) -> Waiting<V>
        requires clock { policy_of books.now.checked ≡ Clock }
        requires waits { (s : State V) × Waits V books.now key value s room }
        ensures sweeping { (s : State V) → Waits V books.now key value.entry s room → IsSweeping V books.now result (PutCall key value.entry) s [] }
        ensures key { result.key ≡ key }
        ensures room { result.room ≡ room }
        ensures value { result.value ≡ value.entry }
        ensures left { result.sweep.left ≡ 2 * (shape_of books.now.checked).items }
    {
        Waiting {
            sweep: books.sweep(),
            key,
            value,
            room,
        }
    }

    /// The item whose bit is to be read next, while the sweep is not over.
    pub fn next(&self) -> Option<u32>
        ensures value { result ≡ next_item self.now.sweep }
        ensures over { IfNone result ((b : Books) (call : Call) (s : State V) (rs : List Swept) →
            IsSweeping V b self.now call s rs → IsOver (shape_of b.checked).items rs) }
    {
        self.sweep.next()
    }

    /// Continues after the bit was read. Condition: an item was to be read next.
    pub fn after(&mut self, bit: u64)
        requires { (b : Books) × (call : Call) × (s : State V) × (rs : List Swept) × (i : ℕ) ×
            IsSweeping V b self.old call s rs × (next_item self.old.sweep ≡ Some i) }
        ensures swept { (b : Books) (call : Call) (s : State V) (rs : List Swept) (i : ℕ) →
            IsSweeping V b self.old call s rs → next_item self.old.sweep ≡ Some i →
            IsSweeping V b self.new call s (rs ++ record { item = i; bit = bit } ∷ []) }
        ensures key { self.new.key ≡ self.old.key }
        ensures room { self.new.room ≡ self.old.room }
        ensures value { self.new.value ≡ self.old.value }
        ensures left { self.new.sweep.left < self.old.sweep.left }
    {
        self.sweep.after(bit);
    }
}
