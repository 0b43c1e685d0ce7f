//! The writer's put on a condition that also returns the key's earlier entry.
ghost use Rattle.std.specs.Prelude.{◌≡◌, IfOk, Some};
ghost use Rattle.mc_theory.specs.Lists.{state_of};
ghost use Rattle.mc_plan.specs.WholeCalls.{PutIfCall};
ghost use Rattle.mc_plan.specs.declared.answer.Answer.TheVariants as answer;
ghost use Rattle.mc_writer.specs.GivenWay.{Holds, put_if_of};
ghost use Rattle.mc_writer.specs.WriterCalls.{HasCalled, IsRested};

use crate::entry::Replaced;
use crate::pen::Pen;
use mc_plan::{Books, IfError};
use mc_shared::{Cells, WriterSeat};

impl<'a, const V: usize> Pen<'a, V> {
    ghost use Rattle.mc_writer.specs.Inside.Pens.{IsSamePen, state_at};

    // Puts a key whose stamp is `since`. The item's words are loaded just before they are written.
    fn swap_if(
        &mut self,
        books: &mut Books,
        key: u64,
        since: u64,
        value: &[u64; V],
    ) -> Result<Replaced<V>, IfError>
        requires rested { IsRested V books.old self.old.seat.now }
        ensures same { IsSamePen V self.old self.new }
        ensures called { HasCalled V self.old.cells.now.layout.shape (PutIfCall key since value.now) self.old.seat.now self.new.seat.now (answer.PutIf (put_if_of result)) }
        ensures old { IfOk result (λ replaced. Holds (state_at V self.old).history key (Some replaced.old)) }
        ensures rested { IsRested V books.new self.new.seat.now }
    {
        let parts = self.cells.parts(key);
        match books.decide_if::<V, Pen<V>>(self, key, parts, since, value) {
            Ok(renewal) => {
                let at = renewal.at;
                let old = self.entry_at(key, renewal.item);
                self.make_renewal(key, parts, value, at, renewal.item);
                Ok(Replaced { at, old })
            }
            Err(why) => Err(why),
        }
    }
}

/// Puts a key as `put_if` does, and returns its earlier entry too. The acts that are made are a whole call, and the answer is a true one
/// of it.
/// Condition: the seat is that of these words, and the books are those of the table between two calls.
pub fn swap_if<const V: usize>(
    cells: &Cells<V>,
    seat: &mut WriterSeat,
    books: &mut Books,
    key: u64,
    since: u64,
    value: &[u64; V],
) -> Result<Replaced<V>, IfError>
    requires of { seat.old.of ≡ cells.now }
    requires rested { IsRested V books.old seat.old }
    ensures called { HasCalled V cells.now.layout.shape (PutIfCall key since value.now) seat.old seat.new (answer.PutIf (put_if_of result)) }
    ensures old { IfOk result (λ replaced. Holds (state_of V cells.now.layout.shape seat.old.acts).history key (Some replaced.old)) }
    ensures rested { IsRested V books.new seat.new }
{
    let mut pen = Pen { cells, seat };
    pen.swap_if(books, key, since, value)
}
