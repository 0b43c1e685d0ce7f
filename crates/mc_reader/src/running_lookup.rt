//! A lookup: version, slots, key words, value words, moment, version, mark.
ghost use Rattle.std.specs.Prelude.{◌≡◌, ◌+◌, ◌<◌, ◌≤◌, ◌⊎◌, length, Some, MatchOption};
ghost use Rattle.mc_theory.specs.Lists.{state_of};
ghost use Rattle.mc_theory.specs.Plain.{IsBetween};
ghost use Rattle.mc_words.specs.History.{IsTrueAnswer};
ghost use Rattle.mc_words.specs.Keys.{stripe_of};
ghost use Rattle.mc_words.specs.Places.{item_place, version_place};
ghost use Rattle.mc_lookup.specs.Machine.{shape_for, stage_of, slots_from, steps_left, IsRestart};
ghost use Rattle.mc_lookup.specs.declared.stage.Stage.{Stage};
ghost use Rattle.mc_reader.specs.Records.{HasLooked};
ghost use Rattle.mc_reader.specs.Inside.Course.{Leads, stage_after_scan};
ghost use Rattle.mc_reader.specs.Inside.Rows.{row_of, ArePlacesOf};

use crate::places::Places;
use mc_lookup::{Lookup, Stage};
use mc_shared::{Cells, ReaderSeat, mark_unless_set, read_at};
use mc_theory::Access;
use mc_words::{Reply, payload_words};

// Reads four slots, from this one of the eight on, which is at `row`, and the key of each item that a slot names under
// the key's tag. The item at which the key is found ends the scan.
#[inline(always)]
fn scan_four<const V: usize>(
    cells: &Cells<V>,
    seat: &mut ReaderSeat,
    lookup: &mut Lookup<V>,
    from: u8,
    row: usize,
    items: usize,
) -> Option<u32>
    requires of { seat.old.of ≡ cells.now }
    requires shape { shape_for {V = V} lookup.old ≡ cells.now.layout.shape }
    requires from { (from ≡ 0) ⊎ (from ≡ 4) }
    requires row { row ≡ row_of cells.now.layout.shape lookup.old.key from }
    requires items { items ≡ item_place V cells.now.layout.shape 0 0 }
    requires stage { stage_of {V = V} lookup.old ≡ slots_from from }
    ensures leads { Leads V cells.now.layout.shape seat.old lookup.old seat.new lookup.new }
    ensures stage { MatchOption result (stage_of {V = V} lookup.new ≡ slots_from (from + 4)) (λ i. stage_of {V = V} lookup.new ≡ Stage.Value i 0) }
{
    for j in 0..4u8 {
        let slot = Access::Slot(lookup.place(from + j));
        let word = read_at(cells, seat, slot, row + usize::from(j));
        if let Some(i) = lookup.after_slot(from + j, word) {
            let place = cells.checked().item_from::<V>(items, i, 0);
            let key = read_at(cells, seat, Access::Key(i), place);
            if lookup.after_key(from + j + 1, i, key) {
                return Some(i);
            }
        }
    }
    None
}

// Reads the eight slots.
#[inline(always)]
fn scan<const V: usize>(
    cells: &Cells<V>,
    seat: &mut ReaderSeat,
    lookup: &mut Lookup<V>,
    places: Places,
) -> Option<u32>
    requires of { seat.old.of ≡ cells.now }
    requires shape { shape_for {V = V} lookup.old ≡ cells.now.layout.shape }
    requires places { ArePlacesOf V cells.now.layout.shape lookup.old.key places }
    requires stage { stage_of {V = V} lookup.old ≡ Stage.Slot 0 }
    ensures leads { Leads V cells.now.layout.shape seat.old lookup.old seat.new lookup.new }
    ensures stage { stage_of {V = V} lookup.new ≡ stage_after_scan result }
{
    if let Some(i) = scan_four(cells, seat, lookup, 0, places.first, places.items) {
        return Some(i);
    }
    scan_four(cells, seat, lookup, 4, places.second, places.items)
}

// Reads the words of the value of the key's item.
#[inline(always)]
fn read_value<const V: usize>(
    cells: &Cells<V>,
    seat: &mut ReaderSeat,
    lookup: &mut Lookup<V>,
    items: usize,
    i: u32,
)
    requires of { seat.old.of ≡ cells.now }
    requires shape { shape_for {V = V} lookup.old ≡ cells.now.layout.shape }
    requires items { items ≡ item_place V cells.now.layout.shape 0 0 }
    requires stage { stage_of {V = V} lookup.old ≡ Stage.Value i 0 }
    ensures leads { Leads V cells.now.layout.shape seat.old lookup.old seat.new lookup.new }
    ensures stage { stage_of {V = V} lookup.new ≡ Stage.Stamp i }
{
    for count in 0..V as u8 {
        let place = cells.checked().item_from::<V>(items, i, count + 1);
        let word = read_at(cells, seat, Access::Value(i, count + 1), place);
        lookup.after_value(i, count, word);
    }
}

// Reads the stamp of the key's item.
#[inline(always)]
fn read_stamp<const V: usize>(
    cells: &Cells<V>,
    seat: &mut ReaderSeat,
    lookup: &mut Lookup<V>,
    items: usize,
    i: u32,
)
    requires of { seat.old.of ≡ cells.now }
    requires shape { shape_for {V = V} lookup.old ≡ cells.now.layout.shape }
    requires items { items ≡ item_place V cells.now.layout.shape 0 0 }
    requires stage { stage_of {V = V} lookup.old ≡ Stage.Stamp i }
    ensures leads { Leads V cells.now.layout.shape seat.old lookup.old seat.new lookup.new }
    ensures stage { stage_of {V = V} lookup.new ≡ Stage.Moment (Some i) }
{
    let place = cells
        .checked()
        .item_from::<V>(items, i, payload_words::<V>() as u8);
    let word = read_at(cells, seat, Access::Stamp(i), place);
    lookup.after_stamp(i, word);
}

// Reads all that the key's item holds after its key.
#[inline(always)]
fn read_held<const V: usize>(
    cells: &Cells<V>,
    seat: &mut ReaderSeat,
    lookup: &mut Lookup<V>,
    items: usize,
    i: u32,
)
    requires of { seat.old.of ≡ cells.now }
    requires shape { shape_for {V = V} lookup.old ≡ cells.now.layout.shape }
    requires items { items ≡ item_place V cells.now.layout.shape 0 0 }
    requires stage { stage_of {V = V} lookup.old ≡ Stage.Value i 0 }
    ensures leads { Leads V cells.now.layout.shape seat.old lookup.old seat.new lookup.new }
    ensures stage { stage_of {V = V} lookup.new ≡ Stage.Moment (Some i) }
{
    read_value(cells, seat, lookup, items, i);
    read_stamp(cells, seat, lookup, items, i);
}

// Reads the moment and the version again, and marks the item of a hit.
#[inline(always)]
fn conclude<const V: usize>(
    cells: &Cells<V>,
    seat: &mut ReaderSeat,
    lookup: &mut Lookup<V>,
    version: usize,
    hit: Option<u32>,
)
    requires of { seat.old.of ≡ cells.now }
    requires shape { shape_for {V = V} lookup.old ≡ cells.now.layout.shape }
    requires stage { stage_of {V = V} lookup.old ≡ Stage.Moment hit }
    requires version { version ≡ version_place (stripe_of cells.now.layout.shape lookup.old.key) }
    ensures leads { Leads V cells.now.layout.shape seat.old lookup.old seat.new lookup.new }
    ensures stage { IsRestart (stage_of {V = V} lookup.new) }
{
    // The moment before the version: if the version is unchanged after it, the moment is in the window in which nothing of the key changed.
    let at = read_at(cells, seat, Access::Moment, 0);
    lookup.after_moment(hit, at);
    let stripe = lookup.stripe();
    let last = read_at(cells, seat, Access::Version(stripe), version);
    if lookup.after_last(hit, at, last) {
        if let Some(i) = hit {
            mark_unless_set(cells, seat, i);
            lookup.after_mark(i);
        }
    }
}

// A whole try, from its first version on.
#[inline(always)]
fn try_once<const V: usize>(
    cells: &Cells<V>,
    seat: &mut ReaderSeat,
    lookup: &mut Lookup<V>,
    places: Places,
)
    requires of { seat.old.of ≡ cells.now }
    requires shape { shape_for {V = V} lookup.old ≡ cells.now.layout.shape }
    requires stage { stage_of {V = V} lookup.old ≡ Stage.First }
    requires places { ArePlacesOf V cells.now.layout.shape lookup.old.key places }
    ensures leads { Leads V cells.now.layout.shape seat.old lookup.old seat.new lookup.new }
    ensures fewer { steps_left {V = V} lookup.new < steps_left {V = V} lookup.old }
    ensures stage { IsRestart (stage_of {V = V} lookup.new) }
{
    let stripe = lookup.stripe();
    let version = read_at(cells, seat, Access::Version(stripe), places.version);
    if lookup.after_first(version) {
        let hit = scan(cells, seat, lookup, places);
        if let Some(i) = hit {
            read_held(cells, seat, lookup, places.items, i);
        }
        conclude(cells, seat, lookup, places.version, hit);
    }
}

/// What the table holds of the key, read beside the writer. `Busy` if each try was spoiled by a change of a key of
/// the same stripe. It makes at most as many steps as its tries allow (section 4 of the paper of Fan, Andersen and
/// Kaminsky), and takes no memory. Condition: the seat is one of these words.
#[inline(always)]
pub fn get<const V: usize>(cells: &Cells<V>, seat: &mut ReaderSeat, key: u64) -> Reply<V>
    requires of { seat.old.of ≡ cells.now }
    ensures looked { HasLooked V cells.now.layout.shape key seat.old seat.new result }
    ensures truth { IsTrueAnswer (state_of V cells.now.layout.shape seat.new.front).history key result }
    ensures between { IsBetween (length (state_of V cells.now.layout.shape seat.old.front).history)
        (length (state_of V cells.now.layout.shape seat.new.front).history) result }
{
    let checked = cells.checked();
    let mut lookup = Lookup::<V>::begin(checked, key);
    let places = Places::of(checked, &lookup);
    while let Stage::First = lookup.stage() {
        try_once(cells, seat, &mut lookup, places);
    }
    seat.known();
    let Some(reply) = lookup.reply() else {
        unreachable!()
    };
    reply
}
