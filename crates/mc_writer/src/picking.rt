//! The writer's readings for a search among new keys, and those that were used again.
ghost use Rattle.std.specs.Prelude.{ℕ, ◌≡◌, ◌+◌, ◌*◌, ◌^◌, ◌<◌, ◌⊎◌, ◌++◌, [], ◌∷◌, List, None, length};
ghost use Rattle.mc_words.specs.Checks.{shape_of};
ghost use Rattle.mc_words.specs.Places.{word_count};
ghost use Rattle.mc_search.specs.Items.{IsPicking, IsUsedIn};
ghost use Rattle.mc_search.specs.Sweeps.{Swept, IsOver, victim_of};
ghost use Rattle.mc_plan.specs.Books.{AreBooksOf, Waits};
ghost use Rattle.mc_theory.specs.States.{State};

use crate::pen::Pen;
use mc_plan::{Books, Room};
use mc_search::Pick;
use mc_shared::turn_hand_unless_clear;

impl<'a, const V: usize> Pen<'a, V> {
    ghost use Rattle.mc_writer.specs.Inside.Pens.{IsSamePen, state_at};
    ghost use Rattle.mc_writer.specs.Inside.Turns.{HasPicked};
    ghost use Rattle.mc_writer.specs.declared.pen.Pen.{Pen};
    ghost use Rattle.mc_search.specs.declared.room.Room.{Room};

    // Reads and clears the bit of an item in use. The recency words begin at this place.
    #[inline(always)]
    fn read_used(&mut self, start: usize, books: &mut Books, pick: &mut Pick, i: u32)
        requires start { (start ≡ word_count V self.old.cells.now.layout.shape) × (start < 2 ^ 40) }
        requires in_use { IsUsedIn books.old.free i }
        requires picked { (before : Pen V) × (rs : List Swept) × HasPicked V books.old pick.old before self.old rs × (victim_of rs ≡ None) ×
            (length rs < 2 * pick.old.items) }
        ensures same { IsSamePen V self.old self.new }
        ensures shape { books.new.checked ≡ books.old.checked }
        ensures waits { (k : ℕ) (v : List ℕ) (s : State V) (room : Room) → Waits V books.old k v s room → Waits V books.new k v s room }
        ensures picked { (before : Pen V) (rs : List Swept) → HasPicked V books.old pick.old before self.old rs → victim_of rs ≡ None →
            (bit : ℕ) × HasPicked V books.new pick.new before self.new (rs ++ record { item = i; bit = bit } ∷ []) }
        ensures most { pick.new.items ≡ pick.old.items }
        ensures left { pick.new.left < pick.old.left }
    {
        let bit = turn_hand_unless_clear(self.cells, self.seat, start, i);
        books.after_read(pick, i, bit);
    }

    /// Reads bits until the search is over, or no item is in use. A put that waits still does.
    #[inline(always)]
    pub(crate) fn read_round(&mut self, books: &mut Books, pick: &mut Pick)
        requires known { AreBooksOf V books.old (state_at V self.old) }
        requires picking { IsPicking books.old.free pick.old [] }
        requires shape { shape_of books.old.checked ≡ self.old.cells.now.layout.shape }
        ensures shape { books.new.checked ≡ books.old.checked }
        ensures waits { (k : ℕ) (v : List ℕ) (s : State V) (room : Room) → Waits V books.old k v s room → Waits V books.new k v s room }
        ensures most { pick.new.items ≡ pick.old.items }
        ensures picked { (rs : List Swept) × HasPicked V books.new pick.new self.old self.new rs ×
            (IsOver pick.new.items rs ⊎ ((j : ℕ) → IsUsedIn books.new.free j → ⊥)) }
    {
        let start = self.cells.recency_start();
        while let Some(i) = books.next_read(pick) {
            self.read_used(start, books, pick, i);
        }
    }
}
