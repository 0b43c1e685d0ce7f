//! Calls of the writer, and what they answer: rows worked out by hand.
ghost use Rattle.std.specs.Prelude.{◌≡◌};

use crate::calls::{Call, Told, make};
use crate::opened::open_for_one_by;
use mc_cache::{AbsentError, Cache, IfError, Mix, Policy, PutError, Reader, Shape, Writer, open};
use std::alloc::Global;
use std::test::Fail;

/// The most changes of key versions.
const MOST: u64 = 1 << 62;

/// Four buckets, one stripe, and chains of at most two.
fn shape(items: u32, limit: u64, mix: Mix) -> Shape {
    Shape {
        buckets: 4,
        items,
        stripes: 1,
        depth: 2,
        tries: 2,
        limit,
        mix,
    }
}

/// A key whose first bucket is 0 and whose second is another than that of the keys below it.
const FAR: u64 = 1 << 56;

// Makes the calls in turn. Each has to answer what is due.
fn check_rows_of(
    cache: &Cache<1>,
    writer: &mut Writer<1>,
    reader: &mut Reader<1>,
    rows: &[(Call, Told)],
) -> Result<(), Fail>
    requires of { (writer.old.of ≡ cache.now) × (reader.old.of ≡ cache.now) }
    ensures of { (writer.new.of ≡ writer.old.of) × (reader.new.of ≡ reader.old.of) }
{
    for n in 0..rows.len() {
        let (call, due) = rows[n];
        if make(cache, writer, reader, call) != due {
            return Err(Fail::new(format_args!("row {n} answers something else")));
        }
    }
    Ok(())
}

/// Makes the calls in turn, in a new cache with one reader, with CLOCK. Each has to answer what is due.
pub fn check_rows(alloc: Global, shape: Shape, rows: &[(Call, Told)]) -> Result<(), Fail> {
    check_rows_by(alloc, Policy::Clock, shape, rows)
}

/// The same in a cache of this policy.
pub fn check_rows_by(
    alloc: Global,
    policy: Policy,
    shape: Shape,
    rows: &[(Call, Told)],
) -> Result<(), Fail> {
    let (cache, mut writer, mut reader) = open_for_one_by(alloc, policy, shape)?;
    check_rows_of(&cache, &mut writer, &mut reader, rows)
}

const FIRST_EIGHT: [u64; 8] = [0, 4, 8, 12, 16, 20, 24, 28];

/// As many items as slots, and keys as they are.
pub fn small() -> Shape {
    with_items(16)
}

/// Four buckets, `items` items, and keys as they are.
pub fn with_items(items: u32) -> Shape {
    shape(items, MOST, Mix::Plain)
}

/// As many items as slots, keys as they are, and this limit.
pub fn with_limit(limit: u64) -> Shape {
    shape(16, limit, Mix::Plain)
}

const A_KEY_NEVER_PUT: [(Call, Told); 1] = [(Call::Get(0), Told::Absent(0))];

const ONE_KEY: [(Call, Told); 6] = [
    (Call::Put(0, 7), Told::Stored(1)),
    (Call::Get(0), Told::Found(7, 1, 1)),
    (Call::Put(0, 9), Told::Renewed(2)),
    (Call::Get(0), Told::Found(9, 2, 2)),
    (Call::Remove(0), Told::Removed(3)),
    (Call::Get(0), Told::Absent(3)),
];

const A_REMOVAL_OF_NOTHING: [(Call, Told); 2] = [
    (Call::Remove(5), Told::NotThere(0)),
    (Call::Get(5), Told::Absent(0)),
];

#[test]
fn one_key_is_put_renewed_and_removed(rt: HostRuntime) -> Result<(), Fail> {
    let alloc = rt.alloc();
    check_rows(alloc, small(), &A_KEY_NEVER_PUT)?;
    check_rows(alloc, small(), &ONE_KEY)?;
    check_rows(alloc, small(), &A_REMOVAL_OF_NOTHING)
}

#[test]
fn a_key_without_a_path_is_refused(rt: HostRuntime) -> Result<(), Fail> {
    let mut rows = [(Call::Get(32), Told::Absent(8)); 10];
    for n in 0..8 {
        let key = FIRST_EIGHT[n];
        rows[n] = (Call::Put(key, key), Told::Stored(n as u64 + 1));
    }
    rows[8] = (Call::Put(32, 32), Told::Refused(PutError::NoPath));
    check_rows(rt.alloc(), small(), &rows)
}

// Three items, of which this call looks up the first that would be evicted next, key 1. After it this key is evicted.
fn check_use(alloc: Global, look: Call, evicted: u64) -> Result<(), Fail> {
    let rows = [
        (Call::Put(0, 0), Told::Stored(1)),
        (Call::Put(1, 1), Told::Stored(2)),
        (Call::Put(2, 2), Told::Stored(3)),
        (Call::Put(3, 3), Told::StoredAfter(0, 5)),
        (look, Told::Found(1, 5, 2)),
        (Call::Put(4, 4), Told::StoredAfter(evicted, 7)),
    ];
    check_rows(alloc, with_items(3), &rows)
}

const NOT_USED: [(Call, Told); 4] = [
    (Call::Put(0, 10), Told::Stored(1)),
    (Call::Put(1, 11), Told::Stored(2)),
    (Call::Put(2, 12), Told::StoredAfter(0, 4)),
    (Call::Get(0), Told::Absent(4)),
];

#[test]
fn the_hand_evicts_what_was_not_used(rt: HostRuntime) -> Result<(), Fail> {
    let alloc = rt.alloc();
    check_rows(alloc, with_items(2), &NOT_USED)?;
    for get in [Call::Get(1), Call::Look(1), Call::LookBeside(1)] {
        check_use(alloc, get, 2)?;
    }
    check_use(alloc, Call::Peek(1), 1)
}

#[test]
fn an_eviction_cuts_the_path(rt: HostRuntime) -> Result<(), Fail> {
    let mut rows = [(Call::Get(FAR), Told::Absent(10)); 10];
    rows[0] = (Call::Put(FAR, 1), Told::Stored(1));
    for n in 1..8 {
        let key = FIRST_EIGHT[n - 1];
        rows[n] = (Call::Put(key, key), Told::Stored(n as u64 + 1));
    }
    rows[8] = (Call::Put(28, 28), Told::StoredAfter(FAR, 10));
    check_rows(rt.alloc(), with_items(8), &rows)
}

const SPENT_AT_FIRST: [(Call, Told); 2] = [
    (Call::Put(0, 7), Told::Refused(PutError::Spent)),
    (Call::Get(0), Told::Absent(0)),
];

const SPENT_AFTER_A_PUT: [(Call, Told); 3] = [
    (Call::Put(0, 7), Told::Stored(1)),
    (Call::Put(1, 1), Told::Refused(PutError::Spent)),
    (Call::Remove(0), Told::Removed(2)),
];

#[test]
fn a_call_that_could_pass_the_limit_is_refused(rt: HostRuntime) -> Result<(), Fail> {
    check_rows(rt.alloc(), with_limit(7), &SPENT_AT_FIRST)?;
    check_rows(rt.alloc(), with_limit(8), &SPENT_AFTER_A_PUT)
}

const BY_THE_STAMP: [(Call, Told); 7] = [
    (Call::Put(0, 7), Told::Stored(1)),
    (Call::Put(1, 8), Told::Stored(2)),
    (Call::PutIf(0, 1, 9), Told::RenewedIf(3)),
    (
        Call::PutIf(0, 1, 10),
        Told::RefusedIf(IfError::Changed { since: 3 }),
    ),
    (
        Call::PutIf(5, 0, 1),
        Told::RefusedIf(IfError::NotThere { at: 3 }),
    ),
    (Call::Get(0), Told::Found(9, 3, 3)),
    (Call::LookBeside(0), Told::Found(9, 3, 3)),
];

const BY_THE_STAMP_AND_NOT_THE_VALUE: [(Call, Told); 4] = [
    (Call::Put(0, 7), Told::Stored(1)),
    (Call::Put(0, 7), Told::Renewed(2)),
    (
        Call::PutIf(0, 1, 9),
        Told::RefusedIf(IfError::Changed { since: 2 }),
    ),
    (Call::Get(0), Told::Found(7, 2, 2)),
];

#[test]
fn a_put_on_a_condition_goes_by_the_stamp(rt: HostRuntime) -> Result<(), Fail> {
    check_rows(rt.alloc(), small(), &BY_THE_STAMP)?;
    check_rows(rt.alloc(), small(), &BY_THE_STAMP_AND_NOT_THE_VALUE)
}

const TWO_CHANGES_LEFT: [(Call, Told); 5] = [
    (Call::Put(0, 7), Told::Stored(1)),
    (Call::PutIf(0, 1, 1), Told::RenewedIf(2)),
    (Call::PutIf(0, 2, 2), Told::RenewedIf(3)),
    (Call::PutIf(0, 3, 3), Told::RenewedIf(4)),
    (Call::PutIf(9, 0, 0), Told::RefusedIf(IfError::Spent)),
];

#[test]
fn a_put_on_a_condition_asks_two_changes_of_the_limit(rt: HostRuntime) -> Result<(), Fail> {
    check_rows(rt.alloc(), with_limit(9), &TWO_CHANGES_LEFT)
}

const ONLY_IF_ABSENT: [(Call, Told); 7] = [
    (Call::PutIfAbsent(0, 7), Told::Stored(1)),
    (Call::PutIfAbsent(0, 8), PRESENT_SINCE_1),
    (Call::Get(0), Told::Found(7, 1, 1)),
    (Call::Put(0, 9), Told::Renewed(2)),
    (
        Call::PutIfAbsent(0, 8),
        Told::RefusedIfAbsent(AbsentError::Present { since: 2 }),
    ),
    (Call::Remove(0), Told::Removed(3)),
    (Call::PutIfAbsent(0, 8), Told::Stored(4)),
];

const PRESENT_SINCE_1: Told = Told::RefusedIfAbsent(AbsentError::Present { since: 1 });

// As in `check_use`: the key 1 would be evicted next, but it is found there.
const A_KEY_THAT_IS_THERE_IS_USED: [(Call, Told); 6] = [
    (Call::PutIfAbsent(0, 0), Told::Stored(1)),
    (Call::PutIfAbsent(1, 1), Told::Stored(2)),
    (Call::PutIfAbsent(2, 2), Told::Stored(3)),
    (Call::PutIfAbsent(3, 3), Told::StoredAfter(0, 5)),
    (
        Call::PutIfAbsent(1, 9),
        Told::RefusedIfAbsent(AbsentError::Present { since: 2 }),
    ),
    (Call::PutIfAbsent(4, 4), Told::StoredAfter(2, 7)),
];

#[test]
fn a_key_is_put_only_if_it_is_absent(rt: HostRuntime) -> Result<(), Fail> {
    check_rows(rt.alloc(), small(), &ONLY_IF_ABSENT)?;
    check_rows(rt.alloc(), with_items(3), &A_KEY_THAT_IS_THERE_IS_USED)
}

// The limit has room for no put more, and says nothing of a key that is there.
const PRESENT_COMES_BEFORE_SPENT: [(Call, Told); 3] = [
    (Call::Put(0, 7), Told::Stored(1)),
    (Call::PutIfAbsent(0, 1), PRESENT_SINCE_1),
    (
        Call::PutIfAbsent(1, 1),
        Told::RefusedIfAbsent(AbsentError::Put(PutError::Spent)),
    ),
];

#[test]
fn a_key_that_is_there_asks_nothing_of_the_limit(rt: HostRuntime) -> Result<(), Fail> {
    check_rows(rt.alloc(), with_limit(8), &PRESENT_COMES_BEFORE_SPENT)
}

const MIXED: [(Call, Told); 3] = [
    (Call::Put(1, 5), Told::Stored(1)),
    (Call::Get(1), Told::Found(5, 1, 1)),
    (Call::Get(0), Told::Absent(1)),
];

#[test]
fn keys_are_mixed(rt: HostRuntime) -> Result<(), Fail> {
    check_rows(rt.alloc(), shape(16, MOST, Mix::Fmix), &MIXED)
}

const BESIDE_THE_WRITER: [(Call, Told); 11] = [
    (Call::CatchUp, Told::Moment(0)),
    (Call::LookBeside(0), Told::Absent(0)),
    (Call::Put(0, 7), Told::Stored(1)),
    (Call::LookBeside(0), Told::Found(7, 1, 1)),
    (Call::LookBeside(1), Told::Absent(1)),
    (Call::Put(0, 8), Told::Renewed(2)),
    (Call::CatchUp, Told::Moment(2)),
    (Call::Look(0), Told::Found(8, 2, 2)),
    (Call::Remove(0), Told::Removed(3)),
    (Call::LookBeside(0), Told::Absent(3)),
    (Call::CatchUp, Told::Moment(3)),
];

#[test]
fn a_reader_catches_up_and_looks_beside_the_writer(rt: HostRuntime) -> Result<(), Fail> {
    check_rows(rt.alloc(), small(), &BESIDE_THE_WRITER)
}

const COUNTED: [(Call, Told); 14] = [
    (Call::Len, Told::Keys(0)),
    (Call::Capacity, Told::Items(2)),
    (Call::Put(0, 10), Told::Stored(1)),
    (Call::Len, Told::Keys(1)),
    (Call::Put(1, 11), Told::Stored(2)),
    (Call::Put(1, 12), Told::Renewed(3)),
    (Call::Len, Told::Keys(2)),
    (Call::Put(2, 12), Told::StoredAfter(0, 5)),
    (Call::Len, Told::Keys(2)),
    (Call::Remove(1), Told::Removed(6)),
    (Call::Len, Told::Keys(1)),
    (Call::Remove(1), Told::NotThere(6)),
    (Call::Put(1, 13), Told::Stored(7)),
    (Call::Len, Told::Keys(2)),
];

#[test]
fn the_writer_counts_its_keys(rt: HostRuntime) -> Result<(), Fail> {
    check_rows(rt.alloc(), with_items(2), &COUNTED)
}

/// The puts of `NOT_USED`, which answer as is said there.
pub fn put_three(cache: &Cache<1>, writer: &mut Writer<1>)
    requires { writer.old.of ≡ cache.now }
    ensures { writer.new.of ≡ writer.old.of }
{
    let _ = writer.put(cache, 0, [10]);
    let _ = writer.put(cache, 1, [11]);
    let _ = writer.put(cache, 2, [12]);
}

#[test]
fn a_closed_cache_gives_its_entries(rt: HostRuntime) -> Result<(), Fail> {
    let (cache, mut writer, readers) = open::<1>(rt.alloc(), with_items(2), 1)?;
    put_three(&cache, &mut writer);
    match cache.close(rt.alloc(), writer, readers) {
        Ok(entries) => {
            assert!(rt; entries.as_slice() == [(2, [12]), (1, [11])].as_slice());
            Ok(())
        }
        Err(_) => Err(Fail::new("no memory")),
    }
}
