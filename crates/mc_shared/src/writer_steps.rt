//! The steps of the writer's seat.
ghost use Rattle.std.specs.Prelude.{◌≡◌, ◌+◌, ◌^◌, ◌<◌, ◌≤◌, [], ◌∷◌, ◌++◌, Some};
ghost use Rattle.mc_words.specs.Places.{word_count, recency_place};
ghost use Rattle.mc_words.specs.Recency.{recency_bit};
ghost use Rattle.mc_theory.specs.declared.act.Act.TheVariants.{Hand, Mark};
ghost use Rattle.mc_shared.specs.Views.{writer_view, acts_of, tally_of, with_bit};
ghost use Rattle.mc_shared.specs.TableRule.{word_after};
ghost use Rattle.mc_shared.specs.Inside.Steps.{WritesAt, IsOffBits, AddsNote};
ghost use Rattle.mc_shared.specs.Inside.Seats.{MayMake, opening_of};

use crate::plays::{
    Fetches, Known, Makes, MakesMarkIfSet, MakesReadingIfClear, NamesAct, TurnsHand,
};
use crate::ruled_words::RuledWords;
use atomic_table::Seat;
use mc_theory::Act;

/// A load of the writer.
pub(crate) fn load_as_writer(ruled: &RuledWords, seat: &mut Seat<(), Known>, place: usize) -> u64
    requires of { opening_of seat.old.table_id seat.old.me.0.layout ≡ ruled.now }
    requires seat { seat.old.me ≡ (writer_view ruled.now.layout (acts_of seat.old.me.0) (tally_of seat.old.me.0), []) }
    requires place { place < word_count ruled.now.layout.width ruled.now.layout.shape }
    ensures seat { (seat.new.table_id ≡ seat.old.table_id) × (seat.new.id ≡ seat.old.id) × (seat.new.me ≡ seat.old.me) }
    ensures word { result ≡ word_after ruled.now.layout (acts_of seat.old.me.0) place }
{
    ruled.load::<Fetches>(seat, place)
}

/// A store of the writer that makes the act.
pub(crate) fn store_as_writer<J: NamesAct>(
    ruled: &RuledWords,
    seat: &mut Seat<(), Known>,
    act: Act,
    place: usize,
    word: u64,
)
    requires of { opening_of seat.old.table_id seat.old.me.0.layout ≡ ruled.now }
    requires seat { seat.old.me ≡ (writer_view ruled.now.layout (acts_of seat.old.me.0) (tally_of seat.old.me.0), []) }
    requires act { J.act ≡ act }
    requires may { MayMake ruled.now.layout (acts_of seat.old.me.0) act }
    requires low { IsOffBits act }
    requires writes { WritesAt ruled.now.layout (acts_of seat.old.me.0) act place word }
    ensures table { (seat.new.table_id ≡ seat.old.table_id) × (seat.new.id ≡ seat.old.id) }
    ensures acts { seat.new.me ≡ (writer_view ruled.now.layout (acts_of seat.old.me.0 ++ with_bit act 0 ∷ []) (tally_of seat.new.me.0), []) }
    ensures noted { AddsNote seat.old.me seat.new.me }
{
    let _ = act;
    ruled.store::<Makes<J>>(seat, place, word);
}

/// A step of the writer that clears one bit of a word and makes the act of the hand. Returns the bit that it found.
pub(crate) fn turn_hand_as_writer<J: NamesAct>(
    ruled: &RuledWords,
    seat: &mut Seat<(), Known>,
    item: u32,
    place: usize,
    bit: u8,
) -> u64
    requires of { opening_of seat.old.table_id seat.old.me.0.layout ≡ ruled.now }
    requires seat { seat.old.me ≡ (writer_view ruled.now.layout (acts_of seat.old.me.0) (tally_of seat.old.me.0), []) }
    requires act { J.act ≡ Hand item }
    requires may { MayMake ruled.now.layout (acts_of seat.old.me.0) (Hand item) }
    requires place { place ≡ recency_place ruled.now.layout.width ruled.now.layout.shape item }
    requires bit { (bit ≡ recency_bit item) × (bit < 64) }
    ensures table { (seat.new.table_id ≡ seat.old.table_id) × (seat.new.id ≡ seat.old.id) }
    ensures acts { seat.new.me ≡ (writer_view ruled.now.layout (acts_of seat.old.me.0 ++ with_bit (Hand item) result ∷ []) (tally_of seat.new.me.0), []) }
    ensures noted { AddsNote seat.old.me seat.new.me }
{
    let _ = item;
    let found = ruled.fetch_and::<TurnsHand<J>>(seat, place, !(1u64 << bit));
    (found >> bit) & 1
}

/// The hand's reading. If the bit is clear, the load that found it so is the reading. If it is set, the step that clears it is made.
pub(crate) fn turn_hand_unless_clear_as_writer<J: NamesAct>(
    ruled: &RuledWords,
    seat: &mut Seat<(), Known>,
    item: u32,
    place: usize,
    bit: u8,
) -> u64
    requires of { opening_of seat.old.table_id seat.old.me.0.layout ≡ ruled.now }
    requires seat { seat.old.me ≡ (writer_view ruled.now.layout (acts_of seat.old.me.0) (tally_of seat.old.me.0), []) }
    requires act { J.act ≡ Hand item }
    requires may { MayMake ruled.now.layout (acts_of seat.old.me.0) (Hand item) }
    requires place { place ≡ recency_place ruled.now.layout.width ruled.now.layout.shape item }
    requires bit { (bit ≡ recency_bit item) × (bit < 64) }
    ensures table { (seat.new.table_id ≡ seat.old.table_id) × (seat.new.id ≡ seat.old.id) }
    ensures acts { seat.new.me ≡ (writer_view ruled.now.layout (acts_of seat.old.me.0 ++ with_bit (Hand item) result ∷ []) (tally_of seat.new.me.0), []) }
    ensures noted { AddsNote seat.old.me seat.new.me }
{
    let found = ruled.load::<MakesReadingIfClear<J>>(seat, place);
    if (found >> bit) & 1 == 0 {
        return 0;
    }
    turn_hand_as_writer::<J>(ruled, seat, item, place, bit)
}

/// A step of the writer that sets one bit of a word and makes a mark.
pub(crate) fn set_mark_as_writer<J: NamesAct>(
    ruled: &RuledWords,
    seat: &mut Seat<(), Known>,
    item: u32,
    place: usize,
    bit: u8,
)
    requires of { opening_of seat.old.table_id seat.old.me.0.layout ≡ ruled.now }
    requires seat { seat.old.me ≡ (writer_view ruled.now.layout (acts_of seat.old.me.0) (tally_of seat.old.me.0), []) }
    requires act { J.act ≡ Mark item }
    requires may { MayMake ruled.now.layout (acts_of seat.old.me.0) (Mark item) }
    requires place { place ≡ recency_place ruled.now.layout.width ruled.now.layout.shape item }
    requires bit { (bit ≡ recency_bit item) × (bit < 64) }
    ensures table { (seat.new.table_id ≡ seat.old.table_id) × (seat.new.id ≡ seat.old.id) }
    ensures acts { seat.new.me ≡ (writer_view ruled.now.layout (acts_of seat.old.me.0 ++ with_bit (Mark item) 0 ∷ []) (tally_of seat.new.me.0), []) }
    ensures noted { AddsNote seat.old.me seat.new.me }
{
    let _ = item;
    ruled.fetch_or::<Makes<J>>(seat, place, 1u64 << bit);
}

/// The writer's mark. If the bit is set, the load that found it so is the mark. If it is clear, the step that sets it is made.
pub(crate) fn set_mark_unless_set_as_writer<J: NamesAct>(
    ruled: &RuledWords,
    seat: &mut Seat<(), Known>,
    item: u32,
    place: usize,
    bit: u8,
)
    requires of { opening_of seat.old.table_id seat.old.me.0.layout ≡ ruled.now }
    requires seat { seat.old.me ≡ (writer_view ruled.now.layout (acts_of seat.old.me.0) (tally_of seat.old.me.0), []) }
    requires act { J.act ≡ Mark item }
    requires may { MayMake ruled.now.layout (acts_of seat.old.me.0) (Mark item) }
    requires place { place ≡ recency_place ruled.now.layout.width ruled.now.layout.shape item }
    requires bit { (bit ≡ recency_bit item) × (bit < 64) }
    ensures table { (seat.new.table_id ≡ seat.old.table_id) × (seat.new.id ≡ seat.old.id) }
    ensures acts { seat.new.me ≡ (writer_view ruled.now.layout (acts_of seat.old.me.0 ++ with_bit (Mark item) 0 ∷ []) (tally_of seat.new.me.0), []) }
    ensures noted { AddsNote seat.old.me seat.new.me }
{
    let found = ruled.load::<MakesMarkIfSet<J>>(seat, place);
    if (found >> bit) & 1 == 0 {
        set_mark_as_writer::<J>(ruled, seat, item, place, bit);
    }
}
