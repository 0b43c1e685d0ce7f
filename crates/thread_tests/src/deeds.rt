//! Deeds of a writer beside a reader's lookups in another thread, made by `get` and by single reads. Each answer is what the map held
//! at its moment, and the last ones see all deeds.
ghost use Rattle.std.specs.Prelude.{◌≡◌};
ghost use Rattle.thread_tests.specs.Twins.{IsTwinOf};

use crate::single_reads::look_up;
use crate::truth::is_true;
use crate::twin::{make_all, small_shape};
use crate::waiting::is_set;
use mc_core::World;
use mc_reader::get;
use mc_shared::{Cells, ReaderSeat, WriterSeat, open};
use mc_theory::{Act, Deed};
use mc_words::{Change, Place, Reply};
use std::alloc::Global;
use std::sync::atomic::{AtomicBool, Ordering};
use std::test::Fail;
use std::thread::{Threads, join};

const DEEDS: u64 = 200;

/// Lookups beside the deeds, and once all are made.
const LOOKUPS: usize = 2000;

const LAST: usize = 16;

/// Key number `n` of eight. Its stripe is `n`, if there are eight stripes.
fn key_of(n: u64) -> u64 {
    n % 8 * ((1 << 32) + 1)
}

// The acts of deed `n` on a key, counted from 0, with its mark. It makes change number `n + 1`. None if the key is there no more.
fn make_deed(
    cells: &Cells<1>,
    writer: &mut WriterSeat,
    world: &mut World<1>,
    n: u64,
    deed: Deed,
) -> bool
    requires of { writer.old.of ≡ cells.now }
    requires twin { IsTwinOf 1 world.old writer.old }
    ensures of { writer.new.of ≡ writer.old.of }
    ensures twin { IsTwinOf 1 world.new writer.new }
{
    let key = key_of(n);
    let item = (n % 8) as u32;
    let place = Place {
        bucket: item % 4,
        slot: (item / 4) as u8,
    };
    let open = Act::Open(key, deed);
    let value = Act::Item(item, 1, n);
    let stamp = Act::Item(item, 2, n.wrapping_add(1));
    let mark = Act::Mark(item);
    match deed {
        Deed::Fill => {
            let name = Act::Item(item, 0, key);
            let slot = Act::Slot(place, u64::from(item) + 1);
            let acts = [
                open,
                name,
                value,
                stamp,
                slot,
                Act::Moment,
                Act::Close,
                mark,
            ];
            make_all(cells, writer, world, &acts)
        }
        Deed::Renew => {
            let acts = [open, value, stamp, Act::Moment, Act::Close, mark];
            make_all(cells, writer, world, &acts)
        }
        _ => {
            let acts = [open, Act::Slot(place, 0), Act::Moment, Act::Close];
            make_all(cells, writer, world, &acts)
        }
    }
}

// Fills, renews and removes the keys in turn, and says so at the end. Whether all acts were allowed.
fn write_deeds(
    cells: &Cells<1>,
    writer: &mut WriterSeat,
    world: &mut World<1>,
    ended: &AtomicBool,
) -> bool
    requires of { writer.old.of ≡ cells.now }
    requires twin { IsTwinOf 1 world.old writer.old }
    ensures of { writer.new.of ≡ writer.old.of }
    ensures twin { IsTwinOf 1 world.new writer.new }
{
    let mut there = [false; 8];
    for n in 0..DEEDS {
        let here = (n % 8) as usize;
        let deed = if !there[here] {
            Deed::Fill
        } else if n % 3 == 0 {
            Deed::Remove
        } else {
            Deed::Renew
        };
        there[here] = deed != Deed::Remove;
        if !make_deed(cells, writer, world, n, deed) {
            return false;
        }
    }
    ended.store(true, Ordering::SeqCst);
    true
}

// Looks the keys up in turn, into a list that has room, all eight by `get` and then all eight by single reads. The last of them once
// all deeds are made, or none.
fn look_all(cells: &Cells<1>, reader: &mut ReaderSeat, ended: &AtomicBool, replies: &mut [Reply<1>])
    requires of { reader.old.of ≡ cells.now }
    ensures of { reader.new.of ≡ reader.old.of }
{
    for i in 0..replies.len() {
        if i == LOOKUPS && !is_set(ended) {
            return;
        }
        let key = key_of(i as u64);
        replies[i] = if i / 8 % 2 == 0 {
            get(cells, reader, key)
        } else {
            look_up(cells, reader, key)
        };
    }
}

/// Whether the answer has the moment after all deeds.
fn is_of_the_end(reply: Reply<1>) -> bool {
    match reply {
        Reply::Found { at, .. } | Reply::Absent { at } => at == DEEDS,
        Reply::Busy => false,
    }
}

// The writer makes its deeds, each in the world first, while the reader looks. Whether all acts were allowed.
fn look_beside<R: Threads + Sync>(
    rt: &R,
    cells: &Cells<1>,
    writer: &mut WriterSeat,
    world: &mut World<1>,
    reader: &mut ReaderSeat,
    replies: &mut [Reply<1>],
) -> bool
    requires of { (writer.old.of ≡ cells.now) × (reader.old.of ≡ cells.now) }
    requires twin { IsTwinOf 1 world.old writer.old }
{
    let ended = AtomicBool::new(false);
    let (made, ()) = join(
        rt,
        || write_deeds(cells, writer, world, &ended),
        || look_all(cells, reader, &ended, replies),
    );
    made
}

// Whether the answers are true of the changes, and the last of them see all.
fn are_true(changes: &[Change<1>], replies: &[Reply<1>]) -> bool {
    let mut right = changes.len() as u64 == DEEDS;
    for i in 0..replies.len() {
        right = right && is_true(changes, key_of(i as u64), replies[i]);
        right = right && (i < LOOKUPS || is_of_the_end(replies[i]));
    }
    right
}

// Whether all answers of a reader beside the writer are true, in a table of `stripes` stripes.
fn are_answers_true<R: Threads + Sync>(rt: &R, alloc: Global, stripes: u32) -> Result<bool, Fail> {
    let checked = small_shape(stripes).check()?;
    let mut replies = vec![in alloc; Reply::Busy; LOOKUPS + LAST]?;
    let mut world = World::<1>::new(alloc, &checked, 1)?;
    let (cells, mut writer, mut readers) = open::<1>(alloc, &checked, 1)?;
    let told = replies.as_mut_slice();
    let made = match readers.pop() {
        Some(mut reader) => look_beside(rt, &cells, &mut writer, &mut world, &mut reader, told),
        None => false,
    };
    Ok(made && are_true(world.history(), replies.as_slice()))
}

#[test]
fn answers_beside_a_writer_are_true(rt: HostRuntime) -> Result<(), Fail> {
    for stripes in [1, 64] {
        let right = are_answers_true(&rt, rt.alloc(), stripes)?;
        assert!(rt; right, "{stripes} stripes");
    }
    Ok(())
}
