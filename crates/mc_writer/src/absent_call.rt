//! The writer's put of a key that must be absent.
ghost use Rattle.std.specs.Prelude.{◌≡◌};
ghost use Rattle.mc_writer.specs.WriterCalls.{HasPutIfAbsent, IsRested};

use crate::pen::Pen;
use mc_plan::{AbsentError, Books, Put, PutError, Vacancy};
use mc_shared::{Cells, WriterSeat, set_mark_unless_set};

impl<'a, const V: usize> Pen<'a, V> {
    ghost use Rattle.mc_writer.specs.Inside.Pens.{IsSamePen};

    // Puts a key that is absent. If it is there, its item is marked, as by a hit.
    fn put_if_absent(
        &mut self,
        books: &mut Books,
        key: u64,
        value: &[u64; V],
    ) -> Result<Put, AbsentError>
        requires rested { IsRested V books.old self.old.seat.now }
        ensures same { IsSamePen V self.old self.new }
        ensures called { HasPutIfAbsent V self.old.cells.now.layout.shape key value.now self.old.seat.now self.new.seat.now result }
        ensures rested { IsRested V books.new self.new.seat.now }
    {
        let parts = self.cells.parts(key);
        match books.vacancy::<V, Pen<V>>(self, key, parts, value) {
            Vacancy::Taken { item, since } => {
                set_mark_unless_set(self.cells, self.seat, item);
                Err(AbsentError::Present { since })
            }
            Vacancy::Spent => Err(AbsentError::Put(PutError::Spent)),
            Vacancy::Free { at } => match self.put_new(books, key, parts, value, at) {
                Ok(put) => Ok(put),
                Err(why) => Err(AbsentError::Put(why)),
            },
        }
    }
}

/// Puts a key if it is absent. The acts that are made are those of a put, or of a lookup that found the key.
/// Condition: the seat is that of these words, and the books are those of the table between two calls.
pub fn put_if_absent<const V: usize>(
    cells: &Cells<V>,
    seat: &mut WriterSeat,
    books: &mut Books,
    key: u64,
    value: &[u64; V],
) -> Result<Put, AbsentError>
    requires of { seat.old.of ≡ cells.now }
    requires rested { IsRested V books.old seat.old }
    ensures called { HasPutIfAbsent V cells.now.layout.shape key value.now seat.old seat.new result }
    ensures rested { IsRested V books.new seat.new }
{
    let mut pen = Pen { cells, seat };
    pen.put_if_absent(books, key, value)
}
