//! The acts of a put, read back word by word by a reader, and the words when the table is closed.
ghost use Rattle.std.specs.Prelude.{◌≡◌, ◌<◌};
ghost use Rattle.thread_tests.specs.Twins.{IsTwinOf};

use crate::twin::{make_all, small_shape};
use mc_core::World;
use mc_shared::{Cells, ReaderSeat, WriterSeat, catch, close, open, read};
use mc_theory::{Access, Act, Deed};
use mc_words::Place;
use std::alloc::Global;
use std::test::Fail;

const PLACE: Place = Place { bucket: 0, slot: 0 };

const ACTS: [Act; 7] = [
    Act::Open(0, Deed::Fill),
    Act::Item(0, 0, 0),
    Act::Item(0, 1, 7),
    Act::Item(0, 2, 1),
    Act::Slot(PLACE, 1),
    Act::Moment,
    Act::Close,
];

// Makes the acts of the put. Whether all were made.
fn put(cells: &Cells<1>, writer: &mut WriterSeat, world: &mut World<1>) -> bool
    requires of { writer.old.of ≡ cells.now }
    requires twin { IsTwinOf 1 world.old writer.old }
    ensures of { writer.new.of ≡ writer.old.of }
{
    make_all(cells, writer, world, &ACTS)
}

// What the reader reads where the put wrote, and the moment that it catches up with.
#[tactic(auto, unfolding(mc_words::specs::Places::payload))]
fn read_back(cells: &Cells<1>, reader: &mut ReaderSeat, writer: &mut WriterSeat) -> [u64; 8]
    requires of { (reader.old.of ≡ cells.now) × (writer.old.of ≡ cells.now) }
    requires stripe { 0 < cells.now.layout.shape.stripes }
    requires bucket { 0 < cells.now.layout.shape.buckets }
    requires item { 0 < cells.now.layout.shape.items }
    ensures of { (reader.new.of ≡ reader.old.of) × (writer.new.of ≡ writer.old.of) }
{
    [
        read(cells, reader, Access::Version(0)),
        read(cells, reader, Access::Slot(PLACE)),
        read(cells, reader, Access::Key(0)),
        read(cells, reader, Access::Value(0, 1)),
        read(cells, reader, Access::Stamp(0)),
        read(cells, reader, Access::Moment),
        read(cells, reader, Access::Version(0)),
        catch(cells, reader, writer),
    ]
}

// Closes the table. The moment, and the version of the first stripe.
fn first_words(cells: Cells<1>, writer: WriterSeat, readers: Vec<ReaderSeat>) -> [u64; 2]
    requires of { writer.of ≡ cells }
    requires stripe { 0 < cells.layout.shape.stripes }
{
    let words = close(cells, writer, readers);
    [words.word(0), words.word(1)]
}

// Puts a key beside a world, reads it back, and closes the table. Whether all acts were made, what was read, and the
// first words that are left.
fn put_and_read(alloc: Global) -> Result<(bool, [u64; 8], [u64; 2]), Fail> {
    let checked = small_shape(1).check()?;
    let mut world = World::<1>::new(alloc, &checked, 1)?;
    let (cells, mut writer, mut readers) = open::<1>(alloc, &checked, 1)?;
    let Some(mut reader) = readers.pop() else {
        return Err(Fail::new("no reader"));
    };
    let made = put(&cells, &mut writer, &mut world);
    let told = read_back(&cells, &mut reader, &mut writer);
    Ok((made, told, first_words(cells, writer, readers)))
}

#[test]
fn the_acts_of_a_put_are_read_back(rt: HostRuntime) -> Result<(), Fail> {
    let (made, told, left) = put_and_read(rt.alloc())?;
    assert!(rt; made);
    assert_eq!(rt; told, [2, 1, 0, 7, 1, 1, 2, 1]);
    assert_eq!(rt; left, [1, 2]);
    Ok(())
}
