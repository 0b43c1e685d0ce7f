//! A table is opened.
ghost use Rattle.std.specs.Prelude.{◌≡◌, ◌+◌, [], IfOk};
ghost use Rattle.mc_words.specs.Places.{all_words, IsWidth};
ghost use Rattle.mc_words.specs.Shapes.{IsShape};
ghost use Rattle.mc_shared.specs.Views.{writer_view, tally_of, tally_for, new_tally};
ghost use Rattle.mc_shared.specs.Records.{writer_record, reader_record, new_readers};
ghost use Rattle.mc_shared.specs.Inside.Seats.{opening_of};

use crate::layout::Layout;
use crate::plays::{Known, NewReader};
use crate::ruled_words::RuledWords;
use crate::seats::{ReaderSeat, WriterSeat};
use atomic_table::Seat;
use std::alloc::{AllocError, Global};

// Splits a new reader's seat off the writer's.
fn seat_reader(ruled: &RuledWords, seat: &mut Seat<(), Known>) -> ReaderSeat
    requires of { opening_of seat.old.table_id seat.old.me.0.layout ≡ ruled.now }
    requires seat { seat.old.me ≡ (writer_view ruled.now.layout [] (tally_for (tally_of seat.old.me.0).readers), []) }
    ensures seat { (seat.new.table_id ≡ seat.old.table_id) × (seat.new.id ≡ seat.old.id) ×
        (seat.new.me ≡ (writer_view ruled.now.layout [] (tally_for ((tally_of seat.old.me.0).readers + 1)), [])) }
    ensures reader { result ≡ reader_record ruled.now (tally_of seat.old.me.0).readers [] [] }
{
    let other = ruled.split::<NewReader>(seat);
    ReaderSeat {
        badge: other.into_badge(),
    }
}

fn seat_readers(
    alloc: Global,
    ruled: &RuledWords,
    seat: &mut Seat<(), Known>,
    readers: u32,
) -> Result<Vec<ReaderSeat>, AllocError>
    requires of { opening_of seat.old.table_id seat.old.me.0.layout ≡ ruled.now }
    requires seat { seat.old.me ≡ (writer_view ruled.now.layout [] new_tally, []) }
    ensures seat { (seat.new.table_id ≡ seat.old.table_id) × (seat.new.id ≡ seat.old.id) }
    ensures me { IfOk result (λ r. seat.new.me ≡ (writer_view ruled.now.layout [] (tally_for readers), [])) }
    ensures readers { IfOk result (λ r. r.items ≡ new_readers ruled.now readers) }
{
    let mut seats = Vec::new(alloc);
    for _i in 0..readers {
        seats.push(seat_reader(ruled, seat))?;
    }
    Ok(seats)
}

/// A table with empty records, and the requested number of readers' seats.
pub(crate) fn open_words(
    alloc: Global,
    layout: Layout,
    words: usize,
    readers: u32,
) -> Result<(RuledWords, WriterSeat, Vec<ReaderSeat>), AllocError>
    requires shape { IsShape layout.shape × IsWidth layout.width }
    requires words { words ≡ all_words layout.width layout.shape }
    ensures ruled { IfOk result (λ r. r.0.layout ≡ layout) }
    ensures writer { IfOk result (λ r. r.1 ≡ writer_record r.0 [] []) }
    ensures readers { IfOk result (λ r. r.2.items ≡ new_readers r.0 readers) }
{
    let (ruled, mut seat) = RuledWords::lay(alloc, layout, words)?;
    let seats = seat_readers(alloc, &ruled, &mut seat, readers)?;
    let writer = WriterSeat { seat };
    Ok((ruled, writer, seats))
}
