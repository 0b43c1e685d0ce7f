//! The search for the entry that gives way, though no put waits for its item.
ghost use Rattle.std.specs.Prelude.{ℕ, ◌≡◌, ◌+◌, ◌-◌, ◌^◌, ◌<◌, ◌≤◌, List};
ghost use Rattle.mc_words.specs.Checks.{policy_of, shape_of};
ghost use Rattle.mc_words.specs.History.{key_count};
ghost use Rattle.mc_words.specs.Places.{word_count};
ghost use Rattle.mc_words.specs.declared.policy.Policy.TheVariants.{Clock, ScanResistant};
ghost use Rattle.mc_plan.specs.Books.{AreBooksOf};
ghost use Rattle.mc_search.specs.Sweeps.{Swept};
ghost use Rattle.mc_shared.specs.Views.{layout_of};

use crate::pen::Pen;
use mc_plan::Books;
use mc_shared::turn_hand_unless_clear;
use mc_words::Policy;

// CLOCK's hand goes round, past items that are free. The recency words begin at the place `start`.
impl<'a, const V: usize> Pen<'a, V> {
    ghost use Rattle.mc_writer.specs.Inside.Pens.{IsSamePen};
    ghost use Rattle.mc_writer.specs.Inside.Rounds.{CanRead, HasReadOn};
    ghost use Rattle.mc_writer.specs.declared.pen.Pen.{Pen};

    // Reads and clears the bit of an item, if the item is in use. Returns the item if its bit was clear.
    fn read_if_used(&mut self, start: usize, books: &mut Books, i: u32) -> Option<u32>
        requires start { (start ≡ word_count V self.old.cells.now.layout.shape) × (start < 2 ^ 40) }
        requires in_items { i < (shape_of books.old.checked).items }
        requires can { (before : Pen V) × (rs : List Swept) × (more : ℕ) × CanRead V books.old before self.old rs (more + 1) }
        ensures same { IsSamePen V self.old self.new }
        ensures shape { books.new.checked ≡ books.old.checked }
        ensures read { (before : Pen V) (rs : List Swept) (more : ℕ) → CanRead V books.old before self.old rs (more + 1) →
            HasReadOn V books.new before self.new rs i (i + 1) more result }
    {
        let Some(_) = books.named::<V, Pen<V>>(self, i) else {
            return None;
        };
        let bit = turn_hand_unless_clear(self.cells, self.seat, start, i);
        books.hand_past(i);
        if bit == 0 { Some(i) } else { None }
    }

    // Reads the bits of the items in use from one number up to another, until one is clear.
    fn read_items(&mut self, start: usize, books: &mut Books, from: u32, to: u32) -> Option<u32>
        requires start { (start ≡ word_count V self.old.cells.now.layout.shape) × (start < 2 ^ 40) }
        requires range { (from ≤ to) × (to ≤ (shape_of books.old.checked).items) }
        requires can { (before : Pen V) × (rs : List Swept) × (more : ℕ) × CanRead V books.old before self.old rs (more + (to - from)) }
        ensures same { IsSamePen V self.old self.new }
        ensures shape { books.new.checked ≡ books.old.checked }
        ensures read { (before : Pen V) (rs : List Swept) (more : ℕ) → CanRead V books.old before self.old rs (more + (to - from)) →
            HasReadOn V books.new before self.new rs from to more result }
    {
        for i in from..to {
            if let Some(found) = self.read_if_used(start, books, i) {
                return Some(found);
            }
        }
        None
    }

    // Reads them once round, from the hand on.
    fn read_all(&mut self, start: usize, books: &mut Books, hand: u32) -> Option<u32>
        requires start { (start ≡ word_count V self.old.cells.now.layout.shape) × (start < 2 ^ 40) }
        requires hand { hand ≤ (shape_of books.old.checked).items }
        requires can { (before : Pen V) × (rs : List Swept) × (more : ℕ) × CanRead V books.old before self.old rs (more + (shape_of books.old.checked).items) }
        ensures same { IsSamePen V self.old self.new }
        ensures shape { books.new.checked ≡ books.old.checked }
        ensures read { (before : Pen V) (rs : List Swept) (more : ℕ) →
            CanRead V books.old before self.old rs (more + (shape_of books.old.checked).items) →
            HasReadOn V books.new before self.new rs 0 (shape_of books.old.checked).items more result }
    {
        let items = books.items();
        match self.read_items(start, books, hand, items) {
            Some(found) => Some(found),
            None => self.read_items(start, books, 0, hand),
        }
    }
}

// The search, by either policy.
impl<'a, const V: usize> Pen<'a, V> {
    ghost use Rattle.mc_writer.specs.Inside.Pens.{state_at};
    ghost use Rattle.mc_writer.specs.Inside.Turns.{HasEndedSearch};

    // CLOCK's hand goes round, at most twice.
    fn search_round(&mut self, books: &mut Books) -> Option<u32>
        requires layout { self.old.cells.now.layout ≡ layout_of V books.old.checked }
        requires known { AreBooksOf V books.old (state_at V self.old) }
        requires clock { policy_of books.old.checked ≡ Clock }
        ensures shape { books.new.checked ≡ books.old.checked }
        ensures ended { HasEndedSearch V books.new self.old self.new result }
    {
        let start = self.cells.recency_start();
        let hand = books.hand();
        match self.read_all(start, books, hand) {
            Some(found) => Some(found),
            None => self.read_all(start, books, hand),
        }
    }

    // Searches among new keys, or else among those that were used again.
    fn search_picked(&mut self, books: &mut Books) -> Option<u32>
        requires layout { self.old.cells.now.layout ≡ layout_of V books.old.checked }
        requires known { AreBooksOf V books.old (state_at V self.old) }
        requires policy { policy_of books.old.checked ≡ ScanResistant }
        requires some { 0 < key_count (state_at V self.old).history }
        ensures shape { books.new.checked ≡ books.old.checked }
        ensures ended { HasEndedSearch V books.new self.old self.new result }
    {
        let mut pick = books.pick();
        self.read_round(books, &mut pick);
        books.read_victim(&pick)
    }

    /// Searches for the item of the entry that gives way. Condition: some item is in use.
    pub(crate) fn search(&mut self, books: &mut Books) -> Option<u32>
        requires layout { self.old.cells.now.layout ≡ layout_of V books.old.checked }
        requires known { AreBooksOf V books.old (state_at V self.old) }
        requires some { 0 < key_count (state_at V self.old).history }
        ensures shape { books.new.checked ≡ books.old.checked }
        ensures ended { HasEndedSearch V books.new self.old self.new result }
    {
        match books.policy() {
            Policy::Clock => self.search_round(books),
            Policy::ScanResistant => self.search_picked(books),
        }
    }
}
