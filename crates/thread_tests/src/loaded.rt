//! Caches that are opened with entries.
ghost use Rattle.std.specs.Prelude.{◌≡◌};

use mc_cache::{Cache, Mix, OpenError, Put, Shape, ShapeError, Why, Writer, open_with};
use std::alloc::Global;
use std::test::Fail;

/// `buckets` buckets, `items` items, one stripe, and chains of at most two.
fn shape(buckets: u32, items: u32, limit: u64) -> Shape {
    Shape {
        buckets,
        items,
        stripes: 1,
        depth: 2,
        tries: 2,
        limit,
        mix: Mix::Plain,
    }
}

const MOST: u64 = 1 << 62;

/// Nine keys of bucket 0 in tables of two buckets, of which eight have the tag 0.
const NINE: [(u64, [u64; 1]); 9] = [
    (0, [0]),
    (4, [4]),
    (8, [8]),
    (12, [12]),
    (16, [16]),
    (20, [20]),
    (24, [24]),
    (28, [28]),
    (2, [2]),
];

const WITHOUT_ITEMS: [(usize, Why); 5] = [
    (3, Why::NoItem),
    (4, Why::NoItem),
    (5, Why::NoItem),
    (6, Why::NoItem),
    (7, Why::NoItem),
];

// Opens a cache with the entries. Those that are left, and the moment.
fn load(
    alloc: Global,
    shape: Shape,
    entries: &[(u64, [u64; 1])],
) -> Result<(Vec<(usize, Why)>, u64), Fail> {
    let opened = open_with::<1>(alloc, shape, 1, entries)?;
    let moment = opened.writer.moment();
    Ok((opened.left, moment))
}

// Whether the keys 0, put at 3, and 1 can be renewed.
fn is_renewed(cache: &Cache<1>, writer: &mut Writer<1>) -> bool
    requires { writer.old.of ≡ cache.now }
    ensures { writer.new.of ≡ writer.old.of }
{
    writer.put_if(cache, 0, 3, [10]) == Ok(4)
        && writer.put(cache, 1, [8]) == Ok(Put::Renewed { at: 5 })
}

// Whether a closed cache has left these entries.
fn are<E: Drop>(closed: Result<Vec<(u64, [u64; 1])>, E>, due: &[(u64, [u64; 1])]) -> bool {
    match closed {
        Ok(entries) => entries.as_slice() == due,
        Err(_) => false,
    }
}

#[test]
fn entries_come_back_in_their_order(rt: HostRuntime) -> Result<(), Fail> {
    let entries = [(2, [12]), (1, [11])];
    let opened = open_with::<1>(rt.alloc(), shape(4, 2, MOST), 1, entries.as_slice())?;
    let none = opened.left.is_empty();
    let moment = opened.writer.moment();
    let closed = opened
        .cache
        .close(rt.alloc(), opened.writer, opened.readers);
    assert!(rt; none && moment == 2);
    assert!(rt; are(closed, entries.as_slice()));
    Ok(())
}

#[test]
fn entries_are_left_where_there_is_no_item(rt: HostRuntime) -> Result<(), Fail> {
    let (left, moment) = load(rt.alloc(), shape(4, 3, MOST), &NINE[0..8])?;
    assert!(rt; left.as_slice() == WITHOUT_ITEMS.as_slice() && moment == 3);
    Ok(())
}

#[test]
fn an_entry_is_left_where_there_is_no_path(rt: HostRuntime) -> Result<(), Fail> {
    let (left, moment) = load(rt.alloc(), shape(2, 8, MOST), NINE.as_slice())?;
    assert!(rt; left.as_slice() == [(8, Why::NoPath)].as_slice() && moment == 8);
    Ok(())
}

#[test]
fn entries_are_left_once_the_limit_could_be_passed(rt: HostRuntime) -> Result<(), Fail> {
    let (left, _) = load(rt.alloc(), shape(4, 16, 10), &NINE[0..3])?;
    assert!(rt; left.as_slice() == [(2, Why::Spent)].as_slice());
    Ok(())
}

#[test]
fn a_key_that_is_named_twice_is_put_again(rt: HostRuntime) -> Result<(), Fail> {
    let entries = [(0, [7]), (1, [8]), (0, [9])];
    let opened = open_with::<1>(rt.alloc(), shape(4, 2, MOST), 1, entries.as_slice())?;
    let mut writer = opened.writer;
    let none = opened.left.is_empty();
    let right = is_renewed(&opened.cache, &mut writer);
    let closed = opened.cache.close(rt.alloc(), writer, opened.readers);
    assert!(rt; none && right);
    assert!(rt; are(closed, [(0, [10]), (1, [8])].as_slice()));
    Ok(())
}

#[test]
fn a_refused_shape_and_number_of_readers_are_told(rt: HostRuntime) -> Result<(), Fail> {
    let refused = open_with::<1>(rt.alloc(), shape(3, 3, MOST), 0, NINE.as_slice());
    assert!(rt; matches!(refused, Err(OpenError::Shape(ShapeError::Buckets))));
    let refused = open_with::<1>(rt.alloc(), shape(4, 3, MOST), 0, NINE.as_slice());
    assert!(rt; matches!(refused, Err(OpenError::Readers)));
    Ok(())
}
