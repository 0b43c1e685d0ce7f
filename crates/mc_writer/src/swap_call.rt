//! The writer's put that also returns the entry that gave way.
ghost use Rattle.std.specs.Prelude.{◌≡◌, IfOk};
ghost use Rattle.mc_words.specs.Checks.{shape_of};
ghost use Rattle.mc_words.specs.KeyParts.{HasParts};
ghost use Rattle.mc_theory.specs.Lists.{state_of};
ghost use Rattle.mc_plan.specs.Books.{IsLackingKey, Waits};
ghost use Rattle.mc_plan.specs.WholeCalls.{PutCall};
ghost use Rattle.mc_plan.specs.declared.answer.Answer.TheVariants as answer;
ghost use Rattle.mc_shared.specs.Views.{layout_of};
ghost use Rattle.mc_writer.specs.GivenWay.{Holds, giving_way, put_of};
ghost use Rattle.mc_writer.specs.WriterCalls.{HasCalled, IsRested};

use crate::entry::Swapped;
use crate::pen::Pen;
use mc_plan::{Books, Decision, Put, PutError, Room};
use mc_shared::{Cells, WriterSeat};
use mc_words::KeyParts;

impl<'a, const V: usize> Pen<'a, V> {
    ghost use Rattle.mc_writer.specs.Inside.Pens.{IsSamePen, state_at};

    // Puts a key that finds this room, and for which no item is free. The words of the item that it takes are loaded just before they are
    // written.
    fn swap_waiting(
        &mut self,
        books: &mut Books,
        key: u64,
        parts: KeyParts,
        value: &[u64; V],
        room: Room,
    ) -> Result<Swapped<V>, PutError>
        requires layout { self.old.cells.now.layout ≡ layout_of V books.old.checked }
        requires parts { HasParts self.old.cells.now.layout.shape key parts }
        requires waits { Waits V books.old key value.now (state_at V self.old) room }
        ensures same { IsSamePen V self.old self.new }
        ensures called { HasCalled V self.old.cells.now.layout.shape (PutCall key value.now) self.old.seat.now self.new.seat.now (answer.Put (put_of result)) }
        ensures old { IfOk result (λ swapped. Holds (state_at V self.old).history (giving_way key swapped.put) swapped.old) }
        ensures rested { IsRested V books.new self.new.seat.now }
    {
        match self.choose(books, key, parts.mixed, value, room) {
            Ok(taken) => {
                let old = self.entry_in(taken.victim.key, taken.victim.place);
                let put = self.take_item(books, key, parts, value, taken);
                Ok(Swapped {
                    put,
                    old: Some(old),
                })
            }
            Err(why) => Err(why),
        }
    }

    // Puts a key that is not there.
    fn swap_new(
        &mut self,
        books: &mut Books,
        key: u64,
        parts: KeyParts,
        value: &[u64; V],
        at: u64,
    ) -> Result<Swapped<V>, PutError>
        requires layout { self.old.cells.now.layout ≡ layout_of V books.old.checked }
        requires parts { HasParts self.old.cells.now.layout.shape key parts }
        requires lacks { IsLackingKey V books.old key value.now (state_at V self.old) at }
        ensures same { IsSamePen V self.old self.new }
        ensures called { HasCalled V self.old.cells.now.layout.shape (PutCall key value.now) self.old.seat.now self.new.seat.now (answer.Put (put_of result)) }
        ensures old { IfOk result (λ swapped. Holds (state_at V self.old).history (giving_way key swapped.put) swapped.old) }
        ensures rested { IsRested V books.new self.new.seat.now }
    {
        let Some(room) = books.room::<V, Pen<V>>(self, parts) else {
            return Err(PutError::NoPath);
        };
        match self.store_in(books, key, parts, value, at, room) {
            Some(put) => Ok(Swapped { put, old: None }),
            None => self.swap_waiting(books, key, parts, value, room),
        }
    }

    // Puts a key, whether it is there or not.
    fn swap(
        &mut self,
        books: &mut Books,
        key: u64,
        value: &[u64; V],
    ) -> Result<Swapped<V>, PutError>
        requires rested { IsRested V books.old self.old.seat.now }
        ensures same { IsSamePen V self.old self.new }
        ensures called { HasCalled V self.old.cells.now.layout.shape (PutCall key value.now) self.old.seat.now self.new.seat.now (answer.Put (put_of result)) }
        ensures old { IfOk result (λ swapped. Holds (state_at V self.old).history (giving_way key swapped.put) swapped.old) }
        ensures rested { IsRested V books.new self.new.seat.now }
    {
        let parts = self.cells.parts(key);
        match books.decide::<V, Pen<V>>(self, key, parts, value) {
            Decision::Refuse(why) => Err(why),
            Decision::Renew { item, at } => {
                let old = self.entry_at(key, item);
                self.make_renewal(key, parts, value, at, item);
                Ok(Swapped {
                    put: Put::Renewed { at },
                    old: Some(old),
                })
            }
            Decision::Insert { at } => self.swap_new(books, key, parts, value, at),
        }
    }
}

/// Puts a key as `put` does, and returns the entry that gave way to it too. The acts that are made are a whole call, and the answer is a
/// true one of it.
/// Condition: the seat is that of these words, and the books are those of the table between two calls.
pub fn swap<const V: usize>(
    cells: &Cells<V>,
    seat: &mut WriterSeat,
    books: &mut Books,
    key: u64,
    value: &[u64; V],
) -> Result<Swapped<V>, PutError>
    requires of { seat.old.of ≡ cells.now }
    requires rested { IsRested V books.old seat.old }
    ensures called { HasCalled V cells.now.layout.shape (PutCall key value.now) seat.old seat.new (answer.Put (put_of result)) }
    ensures old { IfOk result (λ swapped. Holds (state_of V cells.now.layout.shape seat.old.acts).history (giving_way key swapped.put) swapped.old) }
    ensures rested { IsRested V books.new seat.new }
{
    let mut pen = Pen { cells, seat };
    pen.swap(books, key, value)
}
