//! The steps of a reader's seat.
ghost use Rattle.std.specs.Prelude.{◌≡◌, ◌<◌, [], ◌∷◌, ◌++◌, Some};
ghost use Rattle.mc_words.specs.Places.{word_count, recency_place};
ghost use Rattle.mc_words.specs.Recency.{recency_bit};
ghost use Rattle.mc_theory.specs.Writes.{place_read};
ghost use Rattle.mc_shared.specs.Views.{reader_view, number_of, front_of, done_of};
ghost use Rattle.mc_shared.specs.Steps.{mark_at, ReadsOne};
ghost use Rattle.mc_shared.specs.Inside.Seats.{opening_of};

use crate::plays::{Known, Marks, MarksIfSet, NamesAccess, NamesItem, Reads};
use crate::ruled_words::RuledWords;
use atomic_table::Seat;
use mc_theory::Access;

/// A load of a reader.
pub(crate) fn load_as_reader<J: NamesAccess>(
    ruled: &RuledWords,
    seat: &mut Seat<(), Known>,
    access: Access,
    place: usize,
) -> u64
    requires of { opening_of seat.old.table_id seat.old.me.0.layout ≡ ruled.now }
    requires seat { seat.old.me ≡ (reader_view ruled.now.layout (number_of seat.old.me.0) (front_of seat.old.me.0) (done_of seat.old.me.0), []) }
    requires access { J.access ≡ access }
    requires place { place_read ruled.now.layout.width ruled.now.layout.shape access ≡ Some place }
    requires range { place < word_count ruled.now.layout.width ruled.now.layout.shape }
    ensures table { (seat.new.table_id ≡ seat.old.table_id) × (seat.new.id ≡ seat.old.id) }
    ensures seat { seat.new.me ≡ (reader_view ruled.now.layout (number_of seat.old.me.0) (front_of seat.new.me.0) (done_of seat.new.me.0), []) }
    ensures one { ReadsOne ruled.now.layout (front_of seat.old.me.0) (done_of seat.old.me.0) access result (front_of seat.new.me.0) (done_of seat.new.me.0) }
{
    let _ = access;
    ruled.load::<Reads<J>>(seat, place)
}

/// A mark of a reader: the step that sets the bit.
pub(crate) fn mark_as_reader<J: NamesItem>(
    ruled: &RuledWords,
    seat: &mut Seat<(), Known>,
    item: u32,
    place: usize,
    bit: u8,
)
    requires of { opening_of seat.old.table_id seat.old.me.0.layout ≡ ruled.now }
    requires seat { seat.old.me ≡ (reader_view ruled.now.layout (number_of seat.old.me.0) (front_of seat.old.me.0) (done_of seat.old.me.0), []) }
    requires item { (J.item ≡ item) × (item < ruled.now.layout.shape.items) }
    requires place { place ≡ recency_place ruled.now.layout.width ruled.now.layout.shape item }
    requires bit { (bit ≡ recency_bit item) × (bit < 64) }
    ensures table { (seat.new.table_id ≡ seat.old.table_id) × (seat.new.id ≡ seat.old.id) }
    ensures one { seat.new.me ≡ (
      reader_view ruled.now.layout (number_of seat.old.me.0) (front_of seat.old.me.0)
          (done_of seat.old.me.0 ++ mark_at item (front_of seat.old.me.0) ∷ []),
      [],
    ) }
{
    let _ = item;
    ruled.fetch_or::<Marks<J>>(seat, place, 1u64 << bit);
}

/// A mark of a reader. If the bit is set, the load that found it so is the mark: it leaves what the step that sets the
/// bit would have left, at the same instant. If it is clear, that step is made.
pub(crate) fn mark_unless_set_as_reader<J: NamesItem>(
    ruled: &RuledWords,
    seat: &mut Seat<(), Known>,
    item: u32,
    place: usize,
    bit: u8,
)
    requires of { opening_of seat.old.table_id seat.old.me.0.layout ≡ ruled.now }
    requires seat { seat.old.me ≡ (reader_view ruled.now.layout (number_of seat.old.me.0) (front_of seat.old.me.0) (done_of seat.old.me.0), []) }
    requires item { (J.item ≡ item) × (item < ruled.now.layout.shape.items) }
    requires place { place ≡ recency_place ruled.now.layout.width ruled.now.layout.shape item }
    requires bit { (bit ≡ recency_bit item) × (bit < 64) }
    ensures table { (seat.new.table_id ≡ seat.old.table_id) × (seat.new.id ≡ seat.old.id) }
    ensures one { seat.new.me ≡ (
      reader_view ruled.now.layout (number_of seat.old.me.0) (front_of seat.old.me.0)
          (done_of seat.old.me.0 ++ mark_at item (front_of seat.old.me.0) ∷ []),
      [],
    ) }
{
    let found = ruled.load::<MarksIfSet<J>>(seat, place);
    if (found >> bit) & 1 == 0 {
        mark_as_reader::<J>(ruled, seat, item, place, bit);
    }
}
