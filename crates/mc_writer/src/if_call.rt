//! The writer's put on a condition.
ghost use Rattle.std.specs.Prelude.{◌≡◌};
ghost use Rattle.mc_plan.specs.WholeCalls.{PutIfCall};
ghost use Rattle.mc_plan.specs.declared.answer.Answer.TheVariants as answer;
ghost use Rattle.mc_writer.specs.WriterCalls.{HasCalled, IsRested};

use crate::pen::Pen;
use mc_plan::{Books, IfError};
use mc_shared::{Cells, WriterSeat};

impl<'a, const V: usize> Pen<'a, V> {
    ghost use Rattle.mc_writer.specs.Inside.Pens.{IsSamePen};

    // Puts a key whose stamp is `since`.
    fn put_if(
        &mut self,
        books: &mut Books,
        key: u64,
        since: u64,
        value: &[u64; V],
    ) -> Result<u64, IfError>
        requires rested { IsRested V books.old self.old.seat.now }
        ensures same { IsSamePen V self.old self.new }
        ensures called { HasCalled V self.old.cells.now.layout.shape (PutIfCall key since value.now) self.old.seat.now self.new.seat.now (answer.PutIf result) }
        ensures rested { IsRested V books.new self.new.seat.now }
    {
        let parts = self.cells.parts(key);
        match books.decide_if::<V, Pen<V>>(self, key, parts, since, value) {
            Ok(renewal) => {
                self.make_renewal(key, parts, value, renewal.at, renewal.item);
                Ok(renewal.at)
            }
            Err(why) => Err(why),
        }
    }
}

/// Puts a key whose last put was at the moment `since`, and returns the moment of the new one. The acts that are made are a whole
/// call, and the answer is a true one of it.
/// Condition: the seat is that of these words, and the books are those of the table between two calls.
pub fn put_if<const V: usize>(
    cells: &Cells<V>,
    seat: &mut WriterSeat,
    books: &mut Books,
    key: u64,
    since: u64,
    value: &[u64; V],
) -> Result<u64, IfError>
    requires of { seat.old.of ≡ cells.now }
    requires rested { IsRested V books.old seat.old }
    ensures called { HasCalled V cells.now.layout.shape (PutIfCall key since value.now) seat.old seat.new (answer.PutIf result) }
    ensures rested { IsRested V books.new seat.new }
{
    let mut pen = Pen { cells, seat };
    pen.put_if(books, key, since, value)
}
