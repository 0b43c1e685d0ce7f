//! The writer's removal.
ghost use Rattle.std.specs.Prelude.{◌≡◌};
ghost use Rattle.mc_plan.specs.WholeCalls.{RemoveCall};
ghost use Rattle.mc_plan.specs.declared.answer.Answer.TheVariants as answer;
ghost use Rattle.mc_writer.specs.WriterCalls.{HasCalled, IsRested};

use crate::pen::Pen;
use mc_plan::{Books, Removal, Remove, Spent};
use mc_shared::{Cells, WriterSeat};
use mc_theory::Deed;

impl<'a, const V: usize> Pen<'a, V> {
    ghost use Rattle.mc_writer.specs.Inside.Pens.{IsSamePen};

    // Takes a key out, if it is there.
    #[inline(always)]
    fn remove(&mut self, books: &mut Books, key: u64) -> Result<Remove, Spent>
        requires rested { IsRested V books.old self.old.seat.now }
        ensures same { IsSamePen V self.old self.new }
        ensures called { HasCalled V self.old.cells.now.layout.shape (RemoveCall key) self.old.seat.now self.new.seat.now (answer.Remove result) }
        ensures rested { IsRested V books.new self.new.seat.now }
    {
        let parts = self.cells.parts(key);
        match books.decide_removal::<V, Pen<V>>(self, key, parts) {
            Removal::Refuse(spent) => Err(spent),
            Removal::TakeOut { place, at } => {
                self.take_out(key, parts, Deed::Remove, place);
                Ok(Remove::Removed { at })
            }
            Removal::Leave { at } => Ok(Remove::NotThere { at }),
        }
    }
}

/// Takes a key out, if it is there. The acts that are made are a whole call, and the answer is a true one of it.
pub fn remove<const V: usize>(
    cells: &Cells<V>,
    seat: &mut WriterSeat,
    books: &mut Books,
    key: u64,
) -> Result<Remove, Spent>
    requires of { seat.old.of ≡ cells.now }
    requires rested { IsRested V books.old seat.old }
    ensures called { HasCalled V cells.now.layout.shape (RemoveCall key) seat.old seat.new (answer.Remove result) }
    ensures rested { IsRested V books.new seat.new }
{
    let mut pen = Pen { cells, seat };
    pen.remove(books, key)
}
