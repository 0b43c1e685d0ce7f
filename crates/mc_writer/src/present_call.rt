//! The writer's puts of a key that must be there.
ghost use Rattle.std.specs.Prelude.{◌≡◌, IfNone, IfOk, IfSome, IsSome, None};
ghost use Rattle.mc_words.specs.History.{map_value};
ghost use Rattle.mc_theory.specs.Lists.{state_of};
ghost use Rattle.mc_plan.specs.WholeCalls.{PutCall};
ghost use Rattle.mc_plan.specs.declared.answer.Answer.TheVariants as answer;
ghost use Rattle.mc_writer.specs.GivenWay.{Holds, giving_way, put_of};
ghost use Rattle.mc_writer.specs.WriterCalls.{HasCalled, IsRested};

use crate::entry::Swapped;
use crate::get_call::look;
use crate::pen::Pen;
use mc_plan::{Books, Decision, Put, PutError};
use mc_shared::{Cells, WriterSeat};

impl<'a, const V: usize> Pen<'a, V> {
    ghost use Rattle.mc_writer.specs.Inside.Pens.{IsSamePen, state_at};

    // Puts a key, if it is there.
    #[inline(always)]
    fn put_if_present(
        &mut self,
        books: &mut Books,
        key: u64,
        value: &[u64; V],
    ) -> Option<Result<Put, PutError>>
        requires rested { IsRested V books.old self.old.seat.now }
        ensures same { IsSamePen V self.old self.new }
        ensures called { IfSome result (λ told. HasCalled V self.old.cells.now.layout.shape (PutCall key value.now) self.old.seat.now self.new.seat.now (answer.Put told)) }
        ensures present { IfSome result (λ told. IsSome (map_value (state_at V self.old).history key)) }
        ensures seat { IfNone result (self.new.seat.now ≡ self.old.seat.now) }
        ensures absent { IfNone result (map_value (state_at V self.old).history key ≡ None) }
        ensures rested { IsRested V books.new self.new.seat.now }
    {
        let parts = self.cells.parts(key);
        match books.decide::<V, Pen<V>>(self, key, parts, value) {
            Decision::Refuse(why) => match look(self.cells, self.seat, books, key) {
                Some(_held) => Some(Err(why)),
                None => None,
            },
            Decision::Renew { item, at } => {
                self.make_renewal(key, parts, value, at, item);
                Some(Ok(Put::Renewed { at }))
            }
            Decision::Insert { .. } => None,
        }
    }

    // Puts a key, if it is there, and returns its earlier entry too.
    fn swap_if_present(
        &mut self,
        books: &mut Books,
        key: u64,
        value: &[u64; V],
    ) -> Option<Result<Swapped<V>, PutError>>
        requires rested { IsRested V books.old self.old.seat.now }
        ensures same { IsSamePen V self.old self.new }
        ensures called { IfSome result (λ told. HasCalled V self.old.cells.now.layout.shape (PutCall key value.now) self.old.seat.now self.new.seat.now (answer.Put (put_of told))) }
        ensures old { IfSome result (λ told. IfOk told (λ swapped. Holds (state_at V self.old).history (giving_way key swapped.put) swapped.old)) }
        ensures present { IfSome result (λ told. IsSome (map_value (state_at V self.old).history key)) }
        ensures seat { IfNone result (self.new.seat.now ≡ self.old.seat.now) }
        ensures absent { IfNone result (map_value (state_at V self.old).history key ≡ None) }
        ensures rested { IsRested V books.new self.new.seat.now }
    {
        let parts = self.cells.parts(key);
        match books.decide::<V, Pen<V>>(self, key, parts, value) {
            Decision::Refuse(why) => match look(self.cells, self.seat, books, key) {
                Some(_held) => Some(Err(why)),
                None => None,
            },
            Decision::Renew { item, at } => {
                let old = self.entry_at(key, item);
                self.make_renewal(key, parts, value, at, item);
                Some(Ok(Swapped {
                    put: Put::Renewed { at },
                    old: Some(old),
                }))
            }
            Decision::Insert { .. } => None,
        }
    }
}

/// Puts a key as `put` does, if it is there. The acts that are made are a whole call, and the answer is a true one of it. `None`: the key is
/// absent, and nothing was done.
/// Condition: the seat is that of these words, and the books are those of the table between two calls.
pub fn put_if_present<const V: usize>(
    cells: &Cells<V>,
    seat: &mut WriterSeat,
    books: &mut Books,
    key: u64,
    value: &[u64; V],
) -> Option<Result<Put, PutError>>
    requires of { seat.old.of ≡ cells.now }
    requires rested { IsRested V books.old seat.old }
    ensures called { IfSome result (λ told. HasCalled V cells.now.layout.shape (PutCall key value.now) seat.old seat.new (answer.Put told)) }
    ensures present { IfSome result (λ told. IsSome (map_value (state_of V cells.now.layout.shape seat.old.acts).history key)) }
    ensures seat { IfNone result (seat.new ≡ seat.old) }
    ensures absent { IfNone result (map_value (state_of V cells.now.layout.shape seat.old.acts).history key ≡ None) }
    ensures rested { IsRested V books.new seat.new }
{
    let mut pen = Pen { cells, seat };
    pen.put_if_present(books, key, value)
}

/// Puts a key as `put_if_present` does, and returns its earlier entry too.
/// Condition: the seat is that of these words, and the books are those of the table between two calls.
pub fn swap_if_present<const V: usize>(
    cells: &Cells<V>,
    seat: &mut WriterSeat,
    books: &mut Books,
    key: u64,
    value: &[u64; V],
) -> Option<Result<Swapped<V>, PutError>>
    requires of { seat.old.of ≡ cells.now }
    requires rested { IsRested V books.old seat.old }
    ensures called { IfSome result (λ told. HasCalled V cells.now.layout.shape (PutCall key value.now) seat.old seat.new (answer.Put (put_of told))) }
    ensures old { IfSome result (λ told. IfOk told (λ swapped. Holds (state_of V cells.now.layout.shape seat.old.acts).history (giving_way key swapped.put) swapped.old)) }
    ensures present { IfSome result (λ told. IsSome (map_value (state_of V cells.now.layout.shape seat.old.acts).history key)) }
    ensures seat { IfNone result (seat.new ≡ seat.old) }
    ensures absent { IfNone result (map_value (state_of V cells.now.layout.shape seat.old.acts).history key ≡ None) }
    ensures rested { IsRested V books.new seat.new }
{
    let mut pen = Pen { cells, seat };
    pen.swap_if_present(books, key, value)
}
