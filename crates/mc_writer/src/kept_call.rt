//! The writer's put that takes no other key's item.
ghost use Rattle.std.specs.Prelude.{◌≡◌, None};
ghost use Rattle.mc_words.specs.History.{map_value};
ghost use Rattle.mc_theory.specs.Lists.{state_of};
ghost use Rattle.mc_plan.specs.Books.{IsLackingKey};
ghost use Rattle.mc_plan.specs.WholeCalls.{KeptCall};
ghost use Rattle.mc_plan.specs.declared.answer.Answer.TheVariants as answer;
ghost use Rattle.mc_shared.specs.Views.{layout_of};
ghost use Rattle.mc_words.specs.Checks.{shape_of};
ghost use Rattle.mc_words.specs.KeyParts.{HasParts};
ghost use Rattle.mc_writer.specs.WriterCalls.{HasCalled, IsRested};

use crate::pen::Pen;
use mc_plan::{Books, Decision, Put, Why};
use mc_shared::{Cells, WriterSeat};
use mc_words::KeyParts;

impl<'a, const V: usize> Pen<'a, V> {
    ghost use Rattle.mc_writer.specs.Inside.Pens.{IsSamePen, state_at};

    // Puts a key that is not there, if an item is free.
    fn put_kept_new(
        &mut self,
        books: &mut Books,
        key: u64,
        parts: KeyParts,
        value: &[u64; V],
        at: u64,
    ) -> Result<Put, Why>
        requires layout { self.old.cells.now.layout ≡ layout_of V books.old.checked }
        requires parts { HasParts self.old.cells.now.layout.shape key parts }
        requires lacks { IsLackingKey V books.old key value.now (state_at V self.old) at }
        ensures same { IsSamePen V self.old self.new }
        ensures called { HasCalled V self.old.cells.now.layout.shape (KeptCall key value.now) self.old.seat.now self.new.seat.now (answer.Kept result) }
        ensures rested { IsRested V books.new self.new.seat.now }
    {
        let Some(room) = books.room::<V, Pen<V>>(self, parts) else {
            return Err(Why::NoPath);
        };
        match self.store_in(books, key, parts, value, at, room) {
            Some(put) => Ok(put),
            None => Err(Why::NoItem),
        }
    }

    // Puts a key, whether it is there or not.
    fn put_kept(&mut self, books: &mut Books, key: u64, value: &[u64; V]) -> Result<Put, Why>
        requires rested { IsRested V books.old self.old.seat.now }
        ensures same { IsSamePen V self.old self.new }
        ensures called { HasCalled V self.old.cells.now.layout.shape (KeptCall key value.now) self.old.seat.now self.new.seat.now (answer.Kept result) }
        ensures rested { IsRested V books.new self.new.seat.now }
    {
        let parts = self.cells.parts(key);
        match books.decide::<V, Pen<V>>(self, key, parts, value) {
            Decision::Refuse(why) => Err(Why::of(why)),
            Decision::Renew { item, at } => {
                self.make_renewal(key, parts, value, at, item);
                Ok(Put::Renewed { at })
            }
            Decision::Insert { at } => self.put_kept_new(books, key, parts, value, at),
        }
    }

    // Puts a key that is absent, without a look for it.
    fn put_kept_absent(&mut self, books: &mut Books, key: u64, value: &[u64; V]) -> Result<Put, Why>
        requires rested { IsRested V books.old self.old.seat.now }
        requires absent { map_value (state_at V self.old).history key ≡ None }
        ensures same { IsSamePen V self.old self.new }
        ensures called { HasCalled V self.old.cells.now.layout.shape (KeptCall key value.now) self.old.seat.now self.new.seat.now (answer.Kept result) }
        ensures rested { IsRested V books.new self.new.seat.now }
    {
        let parts = self.cells.parts(key);
        match books.next_put::<V, Pen<V>>(self, value) {
            Some(at) => self.put_kept_new(books, key, parts, value, at),
            None => Err(Why::Spent),
        }
    }
}

/// Puts a key as `put` does, but a new key only if an item is free. The acts that are made are a whole call, and the answer is
/// a true one of it.
/// Condition: the seat is that of these words, and the books are those of the table between two calls.
pub fn put_kept<const V: usize>(
    cells: &Cells<V>,
    seat: &mut WriterSeat,
    books: &mut Books,
    key: u64,
    value: &[u64; V],
) -> Result<Put, Why>
    requires of { seat.old.of ≡ cells.now }
    requires rested { IsRested V books.old seat.old }
    ensures called { HasCalled V cells.now.layout.shape (KeptCall key value.now) seat.old seat.new (answer.Kept result) }
    ensures rested { IsRested V books.new seat.new }
{
    let mut pen = Pen { cells, seat };
    pen.put_kept(books, key, value)
}

/// Puts a key that is absent as `put_kept` does, without a look for it.
/// Condition: the seat is that of these words, the books are those of the table between two calls, and the key is absent.
pub fn put_kept_absent<const V: usize>(
    cells: &Cells<V>,
    seat: &mut WriterSeat,
    books: &mut Books,
    key: u64,
    value: &[u64; V],
) -> Result<Put, Why>
    requires of { seat.old.of ≡ cells.now }
    requires rested { IsRested V books.old seat.old }
    requires absent { map_value (state_of V cells.now.layout.shape seat.old.acts).history key ≡ None }
    ensures called { HasCalled V cells.now.layout.shape (KeptCall key value.now) seat.old seat.new (answer.Kept result) }
    ensures rested { IsRested V books.new seat.new }
{
    let mut pen = Pen { cells, seat };
    pen.put_kept_absent(books, key, value)
}
