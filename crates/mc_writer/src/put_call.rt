//! The writer's put.
ghost use Rattle.std.specs.Prelude.{◌≡◌};
ghost use Rattle.mc_words.specs.Checks.{shape_of};
ghost use Rattle.mc_words.specs.KeyParts.{HasParts};
ghost use Rattle.mc_theory.specs.Lists.{state_of};
ghost use Rattle.mc_plan.specs.Books.{IsLackingKey};
ghost use Rattle.mc_plan.specs.Deciding.{IsCrowdedOut};
ghost use Rattle.mc_plan.specs.WholeCalls.{PutCall};
ghost use Rattle.mc_plan.specs.declared.answer.Answer.TheVariants as answer;
ghost use Rattle.mc_shared.specs.Views.{layout_of};
ghost use Rattle.mc_writer.specs.WriterCalls.{HasCalled, IsRested};

use crate::pen::Pen;
use mc_plan::{Books, Decision, Put, PutError};
use mc_shared::{Cells, WriterSeat};
use mc_words::KeyParts;

impl<'a, const V: usize> Pen<'a, V> {
    ghost use Rattle.mc_writer.specs.Inside.Pens.{IsSamePen, state_at};

    /// Puts a key that is not there.
    #[inline(always)]
    pub(crate) fn put_new(
        &mut self,
        books: &mut Books,
        key: u64,
        parts: KeyParts,
        value: &[u64; V],
        at: u64,
    ) -> Result<Put, PutError>
        requires layout { self.old.cells.now.layout ≡ layout_of V books.old.checked }
        requires parts { HasParts self.old.cells.now.layout.shape key parts }
        requires lacks { IsLackingKey V books.old key value.now (state_at V self.old) at }
        ensures same { IsSamePen V self.old self.new }
        ensures called { HasCalled V self.old.cells.now.layout.shape (PutCall key value.now) self.old.seat.now self.new.seat.now (answer.Put result) }
        ensures rested { IsRested V books.new self.new.seat.now }
    {
        match books.near::<V, Pen<V>>(self, parts) {
            Some(room) => self.put_in(books, key, parts, value, at, room),
            None => put_crowded(self.cells, self.seat, books, key, value, at),
        }
    }

    /// Puts a key, whether it is there or not.
    #[inline(always)]
    fn put(&mut self, books: &mut Books, key: u64, value: &[u64; V]) -> Result<Put, PutError>
        requires rested { IsRested V books.old self.old.seat.now }
        ensures same { IsSamePen V self.old self.new }
        ensures called { HasCalled V self.old.cells.now.layout.shape (PutCall key value.now) self.old.seat.now self.new.seat.now (answer.Put result) }
        ensures rested { IsRested V books.new self.new.seat.now }
    {
        let parts = self.cells.parts(key);
        match books.decide::<V, Pen<V>>(self, key, parts, value) {
            Decision::Refuse(why) => Err(why),
            Decision::Renew { item, at } => {
                self.make_renewal(key, parts, value, at, item);
                Ok(Put::Renewed { at })
            }
            Decision::Insert { at } => self.put_new(books, key, parts, value, at),
        }
    }
}

// Puts a key whose two buckets are full by a path of moves.
#[inline(never)]
fn put_by_path<const V: usize>(
    cells: &Cells<V>,
    seat: &mut WriterSeat,
    books: &mut Books,
    key: u64,
    value: &[u64; V],
    at: u64,
) -> Result<Put, PutError>
    requires of { seat.old.of ≡ cells.now }
    requires layout { cells.now.layout ≡ layout_of V books.old.checked }
    requires crowded { IsCrowdedOut V books.old key value.now (state_of V cells.now.layout.shape seat.old.acts) at }
    ensures called { HasCalled V cells.now.layout.shape (PutCall key value.now) seat.old seat.new (answer.Put result) }
    ensures rested { IsRested V books.new seat.new }
{
    let parts = cells.parts(key);
    let mut pen = Pen { cells, seat };
    match books.by_path::<V, Pen<V>>(&mut pen, parts) {
        Some(room) => pen.put_in(books, key, parts, value, at, room),
        None => Err(PutError::NoPath),
    }
}

// Puts a key whose two buckets are full, by one move or by a path. Like `put_by_path` it is a call of its own, with a pen of its own: a pen
// that is lent to a call is kept in memory.
#[inline(never)]
fn put_crowded<const V: usize>(
    cells: &Cells<V>,
    seat: &mut WriterSeat,
    books: &mut Books,
    key: u64,
    value: &[u64; V],
    at: u64,
) -> Result<Put, PutError>
    requires of { seat.old.of ≡ cells.now }
    requires layout { cells.now.layout ≡ layout_of V books.old.checked }
    requires crowded { IsCrowdedOut V books.old key value.now (state_of V cells.now.layout.shape seat.old.acts) at }
    ensures called { HasCalled V cells.now.layout.shape (PutCall key value.now) seat.old seat.new (answer.Put result) }
    ensures rested { IsRested V books.new seat.new }
{
    // The parts once more: handing them on would cost registers in the puts that don't come here.
    let parts = cells.parts(key);
    let mut pen = Pen { cells, seat };
    match books.by_move::<V, Pen<V>>(&mut pen, parts) {
        Some(room) => pen.put_in(books, key, parts, value, at, room),
        None => put_by_path(pen.cells, pen.seat, books, key, value, at),
    }
}

/// Puts a key: the acts that are made are a whole call, and the answer is a true one of it.
/// Condition: the seat is that of these words, and the books are those of the table between two calls.
#[inline(always)]
pub fn put<const V: usize>(
    cells: &Cells<V>,
    seat: &mut WriterSeat,
    books: &mut Books,
    key: u64,
    value: &[u64; V],
) -> Result<Put, PutError>
    requires of { seat.old.of ≡ cells.now }
    requires rested { IsRested V books.old seat.old }
    ensures called { HasCalled V cells.now.layout.shape (PutCall key value.now) seat.old seat.new (answer.Put result) }
    ensures rested { IsRested V books.new seat.new }
{
    let mut pen = Pen { cells, seat };
    pen.put(books, key, value)
}
