//! The writer's removal that also returns the key's entry.
ghost use Rattle.std.specs.Prelude.{◌≡◌, IfOk};
ghost use Rattle.mc_theory.specs.Lists.{state_of};
ghost use Rattle.mc_plan.specs.WholeCalls.{RemoveCall};
ghost use Rattle.mc_plan.specs.declared.answer.Answer.TheVariants as answer;
ghost use Rattle.mc_writer.specs.GivenWay.{HasTaken, removal_of};
ghost use Rattle.mc_writer.specs.WriterCalls.{HasCalled, IsRested};

use crate::entry::Take;
use crate::pen::Pen;
use mc_plan::{Books, Removal, Spent};
use mc_shared::{Cells, WriterSeat};
use mc_theory::Deed;

impl<'a, const V: usize> Pen<'a, V> {
    ghost use Rattle.mc_writer.specs.Inside.Pens.{IsSamePen, state_at};

    // Takes a key out, if it is there. The item's words are loaded just before.
    fn take(&mut self, books: &mut Books, key: u64) -> Result<Take<V>, Spent>
        requires rested { IsRested V books.old self.old.seat.now }
        ensures same { IsSamePen V self.old self.new }
        ensures called { HasCalled V self.old.cells.now.layout.shape (RemoveCall key) self.old.seat.now self.new.seat.now (answer.Remove (removal_of result)) }
        ensures old { IfOk result (HasTaken (state_at V self.old).history key) }
        ensures rested { IsRested V books.new self.new.seat.now }
    {
        let parts = self.cells.parts(key);
        match books.decide_removal::<V, Pen<V>>(self, key, parts) {
            Removal::Refuse(spent) => Err(spent),
            Removal::TakeOut { place, at } => {
                let old = self.entry_in(key, place);
                self.take_out(key, parts, Deed::Remove, place);
                Ok(Take::Taken { at, old })
            }
            Removal::Leave { at } => Ok(Take::NotThere { at }),
        }
    }
}

/// Takes a key out as `remove` does, and returns its entry. The acts that are made are a whole call, and the answer is a true one of it.
pub fn take<const V: usize>(
    cells: &Cells<V>,
    seat: &mut WriterSeat,
    books: &mut Books,
    key: u64,
) -> Result<Take<V>, Spent>
    requires of { seat.old.of ≡ cells.now }
    requires rested { IsRested V books.old seat.old }
    ensures called { HasCalled V cells.now.layout.shape (RemoveCall key) seat.old seat.new (answer.Remove (removal_of result)) }
    ensures old { IfOk result (HasTaken (state_of V cells.now.layout.shape seat.old.acts).history key) }
    ensures rested { IsRested V books.new seat.new }
{
    let mut pen = Pen { cells, seat };
    pen.take(books, key)
}
