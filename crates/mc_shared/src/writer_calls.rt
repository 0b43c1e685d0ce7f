//! The writer's steps on shared words: one call an act, and a load that changes no record.
ghost use Rattle.std.specs.Prelude.{◌≡◌, ◌^◌, ◌<◌, slice_index};
ghost use Rattle.mc_words.specs.KeyParts.{HasParts};
ghost use Rattle.mc_words.specs.Places.{IsWidth, item_place, word_count};
ghost use Rattle.mc_theory.specs.Acts.{IsAllowed, IsAllowedByClock};
ghost use Rattle.mc_theory.specs.Lists.{state_of};
ghost use Rattle.mc_theory.specs.Traces.{HasVersionSteps};
ghost use Rattle.mc_theory.specs.declared.act.Act.TheVariants.{Open, Slot, Item, Moment, Close, Hand, Mark};
ghost use Rattle.mc_shared.specs.Steps.{IsStored};
ghost use Rattle.mc_shared.specs.Records.{HasActed};
ghost use Rattle.mc_shared.specs.Running.{IsRunning};

use crate::cells::Cells;
use crate::running::Running;
use crate::seats::WriterSeat;
use crate::writer_steps::{
    load_as_writer, set_mark_as_writer, set_mark_unless_set_as_writer, store_as_writer,
    turn_hand_as_writer, turn_hand_unless_clear_as_writer,
};
use mc_theory::{Act, Deed};
use mc_words::{KeyParts, Place};
use std::marker::Brand;

/// Opens a deed on a key: a load of its version, and a store of one more.
/// Condition: the seat is that of these words, the act is allowed now, and leaves room for its close within the limit.
pub fn open_deed<const V: usize>(
    cells: &Cells<V>,
    writer: &mut WriterSeat,
    key: u64,
    deed: Deed,
) -> Running
    requires of { writer.old.of ≡ cells.now }
    requires allowed { IsAllowed cells.now.layout.shape (state_of V cells.now.layout.shape writer.old.acts) (Open key deed) }
    requires limit { HasVersionSteps cells.now.layout.shape.limit (state_of V cells.now.layout.shape writer.old.acts).version_steps (Open key deed) }
    ensures acted { HasActed writer.old writer.new (Open key deed) 0 }
    ensures running { IsRunning V writer.new result }
{
    let parts = cells.parts(key);
    open_deed_by(cells, writer, key, deed, parts)
}

/// Like `open_deed`, for a caller that has computed the key's parts. Condition: as for `open_deed`, and the parts are the key's.
#[inline(always)]
pub fn open_deed_by<const V: usize>(
    cells: &Cells<V>,
    writer: &mut WriterSeat,
    key: u64,
    deed: Deed,
    parts: KeyParts,
) -> Running
    requires of { writer.old.of ≡ cells.now }
    requires parts { HasParts cells.now.layout.shape key parts }
    requires allowed { IsAllowed cells.now.layout.shape (state_of V cells.now.layout.shape writer.old.acts) (Open key deed) }
    requires limit { HasVersionSteps cells.now.layout.shape.limit (state_of V cells.now.layout.shape writer.old.acts).version_steps (Open key deed) }
    ensures acted { HasActed writer.old writer.new (Open key deed) 0 }
    ensures running { IsRunning V writer.new result }
{
    let place = cells.checked.version_place(parts.stripe);
    let count = load_as_writer(&cells.ruled, &mut writer.seat, place) + 1;
    let act = Act::Open(key, deed);
    store_as_writer::<Brand>(&cells.ruled, &mut writer.seat, act, place, count);
    Running { place, count }
}

/// Writes a slot word: one store. Condition: the seat is that of these words, and the act is allowed now.
pub fn write_slot<const V: usize>(
    cells: &Cells<V>,
    writer: &mut WriterSeat,
    place: Place,
    word: u64,
)
    requires of { writer.old.of ≡ cells.now }
    requires allowed { IsAllowed cells.now.layout.shape (state_of V cells.now.layout.shape writer.old.acts) (Slot place word) }
    ensures acted { HasActed writer.old writer.new (Slot place word) 0 }
{
    writer.known();
    let at = cells.checked.slot_place(place);
    let act = Act::Slot(place, word);
    store_as_writer::<Brand>(&cells.ruled, &mut writer.seat, act, at, word);
}

/// Writes word `j` of an item, where word 0 is its key: one store.
/// Condition: the seat is that of these words, and the act is allowed now.
pub fn write_item<const V: usize>(
    cells: &Cells<V>,
    writer: &mut WriterSeat,
    i: u32,
    j: u8,
    word: u64,
)
    requires of { writer.old.of ≡ cells.now }
    requires allowed { IsAllowed cells.now.layout.shape (state_of V cells.now.layout.shape writer.old.acts) (Item i j word) }
    ensures acted { HasActed writer.old writer.new (Item i j word) 0 }
{
    writer.known();
    let at = cells.checked.item_place::<V>(i, j);
    let act = Act::Item(i, j, word);
    store_as_writer::<Brand>(&cells.ruled, &mut writer.seat, act, at, word);
}

/// Like `write_item`, for a caller that has computed where the items begin.
#[inline(always)]
pub fn write_item_from<const V: usize>(
    cells: &Cells<V>,
    writer: &mut WriterSeat,
    items: usize,
    i: u32,
    j: u8,
    word: u64,
)
    requires width { IsWidth V }
    requires of { writer.old.of ≡ cells.now }
    requires items { (items ≡ item_place V cells.now.layout.shape 0 0) × (items < 2 ^ 40) }
    requires allowed { IsAllowed cells.now.layout.shape (state_of V cells.now.layout.shape writer.old.acts) (Item i j word) }
    ensures acted { HasActed writer.old writer.new (Item i j word) 0 }
{
    let at = cells.checked.item_from::<V>(items, i, j);
    let act = Act::Item(i, j, word);
    store_as_writer::<Brand>(&cells.ruled, &mut writer.seat, act, at, word);
}

/// Counts the change of the deed that runs: a load of the moment, and a store of one more.
/// Condition: the seat is that of these words, and the act is allowed now.
pub fn count_moment<const V: usize>(cells: &Cells<V>, writer: &mut WriterSeat)
    requires of { writer.old.of ≡ cells.now }
    requires allowed { IsAllowed cells.now.layout.shape (state_of V cells.now.layout.shape writer.old.acts) Moment }
    ensures acted { HasActed writer.old writer.new Moment 0 }
{
    let at = load_as_writer(&cells.ruled, &mut writer.seat, 0) + 1;
    store_as_writer::<Brand>(&cells.ruled, &mut writer.seat, Act::Moment, 0, at);
}

/// Closes the deed that runs: one store of its version.
/// Condition: the seat is that of these words, the act is allowed now, and the version is that of the running deed.
pub fn close_deed<const V: usize>(cells: &Cells<V>, writer: &mut WriterSeat, running: Running)
    requires of { writer.old.of ≡ cells.now }
    requires running { IsRunning V writer.old running }
    requires allowed { IsAllowed cells.now.layout.shape (state_of V cells.now.layout.shape writer.old.acts) Close }
    ensures acted { HasActed writer.old writer.new Close 0 }
{
    let Running { place, count } = running;
    store_as_writer::<Brand>(&cells.ruled, &mut writer.seat, Act::Close, place, count + 1);
}

/// Sets the recency bit of an item: one `fetch_or`.
/// Condition: the seat is that of these words, and the act is allowed now.
pub fn set_mark<const V: usize>(cells: &Cells<V>, writer: &mut WriterSeat, i: u32)
    requires of { writer.old.of ≡ cells.now }
    requires allowed { IsAllowed cells.now.layout.shape (state_of V cells.now.layout.shape writer.old.acts) (Mark i) }
    ensures acted { HasActed writer.old writer.new (Mark i) 0 }
{
    let place = cells.recency_place(i);
    let bit = cells.checked.recency_bit(i);
    set_mark_as_writer::<Brand>(&cells.ruled, &mut writer.seat, i, place, bit);
}

/// Like `set_mark`. If the bit is set already, the load that finds it so is the mark, and nothing is written.
pub fn set_mark_unless_set<const V: usize>(cells: &Cells<V>, writer: &mut WriterSeat, i: u32)
    requires of { writer.old.of ≡ cells.now }
    requires allowed { IsAllowed cells.now.layout.shape (state_of V cells.now.layout.shape writer.old.acts) (Mark i) }
    ensures acted { HasActed writer.old writer.new (Mark i) 0 }
{
    let place = cells.recency_place(i);
    let bit = cells.checked.recency_bit(i);
    set_mark_unless_set_as_writer::<Brand>(&cells.ruled, &mut writer.seat, i, place, bit);
}

/// Reads the recency bit of an item, and clears it: one `fetch_and`.
/// Condition: the seat is that of these words, and the act is allowed now.
pub fn turn_hand<const V: usize>(cells: &Cells<V>, writer: &mut WriterSeat, i: u32) -> u64
    requires of { writer.old.of ≡ cells.now }
    requires allowed { IsAllowed cells.now.layout.shape (state_of V cells.now.layout.shape writer.old.acts) (Hand i) }
    ensures acted { HasActed writer.old writer.new (Hand i) result }
{
    let place = cells.recency_place(i);
    let bit = cells.checked.recency_bit(i);
    turn_hand_as_writer::<Brand>(&cells.ruled, &mut writer.seat, i, place, bit)
}

/// Like `turn_hand`, for a caller that has computed where the recency words begin. If the bit is clear already, the load
/// that finds it so is the reading, and nothing is written.
#[inline(always)]
#[tactic(auto, unfolding(mc_words::specs::Recency::recency_word))]
pub fn turn_hand_unless_clear<const V: usize>(
    cells: &Cells<V>,
    writer: &mut WriterSeat,
    start: usize,
    i: u32,
) -> u64
    requires of { writer.old.of ≡ cells.now }
    requires start { (start ≡ word_count V cells.now.layout.shape) × (start < 2 ^ 40) }
    requires allowed { IsAllowed cells.now.layout.shape (state_of V cells.now.layout.shape writer.old.acts) (Hand i) }
    ensures acted { HasActed writer.old writer.new (Hand i) result }
{
    let place = start + i as usize / 64;
    let bit = cells.checked.recency_bit(i);
    turn_hand_unless_clear_as_writer::<Brand>(&cells.ruled, &mut writer.seat, i, place, bit)
}

// The version of the running deed: the odd one.
fn running_deed<const V: usize>(cells: &Cells<V>, writer: &mut WriterSeat) -> Running
    requires of { writer.old.of ≡ cells.now }
    ensures writer { writer.new ≡ writer.old }
    ensures running { IsRunning V writer.old result }
{
    writer.known();
    for stripe in 0..cells.checked.shape().stripes {
        let place = cells.checked.version_place(stripe);
        let count = fetch(cells, writer, place);
        if count % 2 == 1 {
            return Running { place, count };
        }
    }
    Running { place: 0, count: 0 }
}

/// Makes one act. Returns the bit that the hand read, or 0. A close first looks for the version that is odd: who makes many deeds calls
/// `open_deed` and `close_deed`.
/// Condition: the seat is that of these words, the act is allowed now and keeps CLOCK's order, and an opening leaves room for its close within
/// the limit.
pub fn perform<const V: usize>(cells: &Cells<V>, writer: &mut WriterSeat, act: Act) -> u64
    requires of { writer.old.of ≡ cells.now }
    requires allowed { IsAllowedByClock cells.now.layout.shape (state_of V cells.now.layout.shape writer.old.acts) act }
    requires limit { HasVersionSteps cells.now.layout.shape.limit (state_of V cells.now.layout.shape writer.old.acts).version_steps act }
    ensures acted { HasActed writer.old writer.new act result }
    ensures bit { IsStored act → result ≡ 0 }
{
    match act {
        Act::Open(key, deed) => {
            open_deed(cells, writer, key, deed);
        }
        Act::Slot(place, word) => write_slot(cells, writer, place, word),
        Act::Item(i, j, word) => write_item(cells, writer, i, j, word),
        Act::Moment => count_moment(cells, writer),
        Act::Close => {
            let running = running_deed(cells, writer);
            close_deed(cells, writer, running);
        }
        Act::Mark(i) => set_mark(cells, writer, i),
        Act::Hand(i) => return turn_hand(cells, writer, i),
    }
    0
}

/// A load by the writer of a word that only the writer changes. It changes no record.
/// Condition: the seat is that of these words, and the place is before the recency words.
pub fn fetch<const V: usize>(cells: &Cells<V>, writer: &mut WriterSeat, n: usize) -> u64
    requires of { writer.old.of ≡ cells.now }
    requires place { n < word_count V cells.now.layout.shape }
    ensures writer { writer.new ≡ writer.old }
    ensures word { result ≡ slice_index (state_of V cells.now.layout.shape writer.old.acts).words n }
{
    load_as_writer(&cells.ruled, &mut writer.seat, n)
}
