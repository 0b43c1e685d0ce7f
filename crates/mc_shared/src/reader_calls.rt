//! The readers' steps on shared words: one reading, one mark, and the meeting with the writer.
ghost use Rattle.std.specs.Prelude.{◌≡◌, ◌<◌, [], ◌∷◌, ◌++◌, Some, IsSome};
ghost use Rattle.mc_words.specs.Places.{all_words, moment, word_count};
ghost use Rattle.mc_theory.specs.Lists.{state_of};
ghost use Rattle.mc_theory.specs.Writes.{IsAccess, place_read};
ghost use Rattle.mc_shared.specs.ExactFronts.{InOneOrder};
ghost use Rattle.mc_shared.specs.Views.{layout_with, IsFrontOf};
ghost use Rattle.mc_shared.specs.Steps.{ReadsOne, mark_at};
ghost use Rattle.mc_shared.specs.Records.{reader_record};

use crate::catch_up::catch_up;
use crate::cells::Cells;
use crate::reader_steps::{load_as_reader, mark_as_reader, mark_unless_set_as_reader};
use crate::seats::{ReaderSeat, WriterSeat};
use atomic_table::Badge;
use mc_theory::Access;
use mc_words::payload_words;
use std::marker::Brand;
use std::mem;

/// One reading: a load of the word of the access.
/// Condition: the seat is one of these words, and the access is one of the table and no mark.
#[tactic(auto, using(mc_words::proofs::Payload::value_fits))]
pub fn read<const V: usize>(cells: &Cells<V>, reader: &mut ReaderSeat, access: Access) -> u64
    requires of { reader.old.of ≡ cells.now }
    requires access { IsAccess V cells.now.layout.shape access }
    requires load { IsSome (place_read V cells.now.layout.shape access) }
    ensures of { reader.new.of ≡ reader.old.of }
    ensures number { reader.new.number ≡ reader.old.number }
    ensures one { ReadsOne (layout_with V cells.now.layout.policy cells.now.layout.shape) reader.old.front reader.old.done access result reader.new.front reader.new.done }
{
    let checked = &cells.checked;
    let place = match access {
        Access::Version(stripe) => checked.version_place(stripe),
        Access::Slot(place) => checked.slot_place(place),
        Access::Key(i) => checked.item_place::<V>(i, 0),
        Access::Value(i, j) => checked.item_place::<V>(i, j),
        Access::Stamp(i) => checked.item_place::<V>(i, payload_words::<V>() as u8),
        Access::Moment | Access::Mark(_) => checked.moment_place(),
    };
    read_at(cells, reader, access, place)
}

/// Like `read`, for a caller that has computed the place of the access.
/// Condition: the place is that of the access, and the seat one of these words.
pub fn read_at<const V: usize>(
    cells: &Cells<V>,
    reader: &mut ReaderSeat,
    access: Access,
    place: usize,
) -> u64
    requires of { reader.old.of ≡ cells.now }
    requires place { place_read V cells.now.layout.shape access ≡ Some place }
    requires range { place < word_count V cells.now.layout.shape }
    ensures of { reader.new.of ≡ reader.old.of }
    ensures number { reader.new.number ≡ reader.old.number }
    ensures one { ReadsOne (layout_with V cells.now.layout.policy cells.now.layout.shape) reader.old.front reader.old.done access result reader.new.front reader.new.done }
{
    let mut seat = mem::replace(&mut reader.badge, Badge::blank()).into_seat::<()>();
    let word = load_as_reader::<Brand>(&cells.ruled, &mut seat, access, place);
    reader.badge = seat.into_badge();
    word
}

/// A load that enters no record, whose word proves nothing: it is on no seat. It brings the word into the processor's
/// caches for a reading that comes later, and the word serves as a guess of what that reading will find.
/// Condition: the place is one of the table.
#[inline(always)]
pub fn touch<const V: usize>(cells: &Cells<V>, place: usize) -> u64
    requires place { place < all_words V cells.now.layout.shape }
{
    cells.ruled.touch(place)
}

/// Sets the recency bit of an item: one `fetch_or`.
/// Condition: the seat is one of these words, and the item one of the table.
pub fn mark<const V: usize>(cells: &Cells<V>, reader: &mut ReaderSeat, i: u32)
    requires of { reader.old.of ≡ cells.now }
    requires item { i < cells.now.layout.shape.items }
    ensures { reader.new ≡ reader_record reader.old.of reader.old.number reader.old.front (reader.old.done ++ mark_at i reader.old.front ∷ []) }
{
    let place = cells.recency_place(i);
    let bit = cells.checked.recency_bit(i);
    let mut seat = mem::replace(&mut reader.badge, Badge::blank()).into_seat::<()>();
    mark_as_reader::<Brand>(&cells.ruled, &mut seat, i, place, bit);
    reader.badge = seat.into_badge();
}

/// Like `mark`. If the bit is set already, the load that finds it so is the mark, and nothing is written.
pub fn mark_unless_set<const V: usize>(cells: &Cells<V>, reader: &mut ReaderSeat, i: u32)
    requires of { reader.old.of ≡ cells.now }
    requires item { i < cells.now.layout.shape.items }
    ensures { reader.new ≡ reader_record reader.old.of reader.old.number reader.old.front (reader.old.done ++ mark_at i reader.old.front ∷ []) }
{
    let place = cells.recency_place(i);
    let bit = cells.checked.recency_bit(i);
    let mut seat = mem::replace(&mut reader.badge, Badge::blank()).into_seat::<()>();
    mark_unless_set_as_reader::<Brand>(&cells.ruled, &mut seat, i, place, bit);
    reader.badge = seat.into_badge();
}

/// Shows the reader all acts of the writer, and returns the moment. Condition: both seats are those of these words.
pub fn catch<const V: usize>(
    cells: &Cells<V>,
    reader: &mut ReaderSeat,
    writer: &mut WriterSeat,
) -> u64
    requires of { (reader.old.of ≡ cells.now) × (writer.old.of ≡ cells.now) }
    ensures writer { writer.new ≡ writer.old }
    ensures reader { reader.new ≡ reader_record reader.old.of reader.old.number writer.old.acts reader.old.done }
    ensures begins { IsFrontOf reader.old.front writer.old.acts }
    ensures order { InOneOrder writer.old.acts writer.old.notes reader.old.number reader.old.done }
    ensures moment { result ≡ moment (state_of V cells.now.layout.shape writer.old.acts).words }
{
    catch_up(&cells.ruled, reader, writer)
}
