//! The writer's eviction of the entry that would give way to a put.
ghost use Rattle.std.specs.Prelude.{ℕ, ◌≡◌, ◌+◌, ◌≤◌, List, Some, length};
ghost use Rattle.mc_words.specs.Checks.{shape_of};
ghost use Rattle.mc_search.specs.Sweeps.{Swept, victim_of};
ghost use Rattle.mc_writer.specs.Evictions.{HasEvicted, HasTriedToEvict};
ghost use Rattle.mc_writer.specs.WriterCalls.{IsRested};

use crate::entry::{Entry, Evict};
use crate::pen::Pen;
use mc_plan::{Books, EvictError, Eviction};
use mc_shared::{Cells, WriterSeat};
use mc_theory::Deed;

impl<'a, const V: usize> Pen<'a, V> {
    ghost use Rattle.mc_writer.specs.Inside.Pens.{IsSamePen, state_at};
    ghost use Rattle.mc_writer.specs.Inside.Turns.{HasSearched};
    ghost use Rattle.mc_writer.specs.declared.pen.Pen.{Pen};

    // Takes out the key at the item that a search has found. The item's words are loaded just before.
    fn evict_found(&mut self, books: &mut Books, item: u32) -> Entry<V>
        requires found { (before : Pen V) × (rs : List Swept) × HasSearched V books.old before self.old rs × (victim_of rs ≡ Some item) }
        requires unspent { books.old.version_steps + 2 ≤ (shape_of books.old.checked).limit }
        ensures same { IsSamePen V self.old self.new }
        ensures evicted { (before : Pen V) (rs : List Swept) (at : ℕ) → HasSearched V books.old before self.old rs → victim_of rs ≡ Some item →
            at ≡ length (state_at V before).history + 1 →
            HasEvicted V before.cells.now.layout.shape before.seat.now self.new.seat.now at result }
        ensures rested { IsRested V books.new self.new.seat.now }
    {
        let victim = books.evict_at::<V, Pen<V>>(self, item);
        let old = self.entry_in(victim.key, victim.place);
        self.take_out(victim.key, victim.parts, Deed::Evict, victim.place);
        old
    }

    // Takes out the entry that would give way to a put, if the table holds a key.
    fn evict(&mut self, books: &mut Books) -> Result<Evict<V>, EvictError>
        requires rested { IsRested V books.old self.old.seat.now }
        ensures same { IsSamePen V self.old self.new }
        ensures tried { HasTriedToEvict V self.old.cells.now.layout.shape self.old.seat.now self.new.seat.now result }
        ensures rested { IsRested V books.new self.new.seat.now }
    {
        match books.decide_eviction::<V, Pen<V>>(self) {
            Eviction::Spent => Err(EvictError::Spent),
            Eviction::Empty { at } => Ok(Evict::Empty { at }),
            Eviction::Search { at } => match self.search(books) {
                Some(item) => {
                    let old = self.evict_found(books, item);
                    Ok(Evict::Evicted { at, old })
                }
                None => Err(EvictError::AllRecent),
            },
        }
    }
}

/// Takes out the entry that would give way to a put, also where items are free. If it takes one out, or finds none that gives way, the
/// recency bits of items in use are read and cleared, as by a put that searches.
/// Condition: the seat is that of these words, and the books are those of the table between two calls.
pub fn evict<const V: usize>(
    cells: &Cells<V>,
    seat: &mut WriterSeat,
    books: &mut Books,
) -> Result<Evict<V>, EvictError>
    requires of { seat.old.of ≡ cells.now }
    requires rested { IsRested V books.old seat.old }
    ensures tried { HasTriedToEvict V cells.now.layout.shape seat.old seat.new result }
    ensures rested { IsRested V books.new seat.new }
{
    let mut pen = Pen { cells, seat };
    pen.evict(books)
}
