//! A reader and the writer in one thread.
ghost use Rattle.std.specs.Prelude.{◌≡◌, []};
ghost use Rattle.mc_words.specs.Places.{moment};
ghost use Rattle.mc_shared.specs.Views.{view_as, writer_view, reader_view, acts_of, tally_of, number_of, front_of, done_of, layout_state, IsFrontOf};
ghost use Rattle.mc_shared.specs.TableRule.{word_after, IsRecord};
ghost use Rattle.mc_shared.specs.ExactFronts.{InOneOrder};
ghost use Rattle.mc_shared.specs.Records.{reader_record};
ghost use Rattle.mc_shared.specs.Inside.Seats.{opening_of};

use crate::plays::{Compares, Known, Parting};
use crate::ruled_words::RuledWords;
use crate::seats::{ReaderSeat, WriterSeat};
use atomic_table::{Badge, Seat};
use std::mem;

// Joins the seat of a reader to the writer's, looks at the moment, and splits it off again.
fn catch_on_seats(
    ruled: &RuledWords,
    seat: &mut Seat<(), Known>,
    other: Seat<(), Known>,
) -> (u64, Seat<(), Known>)
    requires of { (opening_of seat.old.table_id seat.old.me.0.layout ≡ ruled.now) × (opening_of other.table_id other.me.0.layout ≡ ruled.now) }
    requires writes { seat.old.me ≡ (writer_view ruled.now.layout (acts_of seat.old.me.0) (tally_of seat.old.me.0), []) }
    requires reads { other.me ≡ (reader_view ruled.now.layout (number_of other.me.0) (front_of other.me.0) (done_of other.me.0), []) }
    ensures writes { (seat.new.table_id ≡ seat.old.table_id) × (seat.new.id ≡ seat.old.id) × (seat.new.me ≡ seat.old.me) }
    ensures reads { (result.1.table_id ≡ other.table_id) ×
        (result.1.me ≡ (
          reader_view ruled.now.layout (number_of other.me.0) (acts_of seat.old.me.0)
              (done_of other.me.0),
          [],
        )) }
    ensures begins { IsFrontOf (front_of other.me.0) (acts_of seat.old.me.0) }
    ensures recorded { IsRecord ruled.now.layout (acts_of seat.old.me.0) (done_of other.me.0) }
    ensures order { InOneOrder (acts_of seat.old.me.0) (tally_of seat.old.me.0).notes (number_of other.me.0) (done_of other.me.0) }
    ensures word { result.0 ≡ word_after ruled.now.layout (acts_of seat.old.me.0) 0 }
{
    ruled.join(seat, other);
    let word = ruled.load::<Compares>(seat, 0);
    let parted = ruled.split::<Parting>(seat);
    (word, parted)
}

/// Shows the reader all acts of the writer, and returns the moment.
#[tactic(auto, unfolding(mc_words::specs::Places::moment))]
pub(crate) fn catch_up(ruled: &RuledWords, reader: &mut ReaderSeat, writer: &mut WriterSeat) -> u64
    requires of { (reader.old.of ≡ ruled.now) × (writer.old.of ≡ ruled.now) }
    ensures writer { writer.new ≡ writer.old }
    ensures reader { reader.new ≡ reader_record reader.old.of reader.old.number writer.old.acts reader.old.done }
    ensures begins { IsFrontOf reader.old.front writer.old.acts }
    ensures order { InOneOrder writer.old.acts writer.old.notes reader.old.number reader.old.done }
    ensures moment { result ≡ moment (layout_state ruled.now.layout writer.old.acts).words }
{
    let other = mem::replace(&mut reader.badge, Badge::blank()).into_seat::<()>();
    let (word, parted) = catch_on_seats(ruled, &mut writer.seat, other);
    reader.badge = parted.into_badge();
    word
}
