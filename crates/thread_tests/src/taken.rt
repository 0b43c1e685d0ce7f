//! Calls that return the entry that gives way, and a program that keeps objects behind the index.
ghost use Rattle.std.specs.Prelude.{◌≡◌};
ghost use Rattle.mc_shards.specs.Sharded.{ArePassOf};

use crate::calls::{Call, Told};
use crate::opened::open_for_one;
use crate::rows::{check_rows, small, with_items};
use mc_cache::calls::{Swapping, SwappingIf, SwappingIfAbsent, Taking};
use mc_cache::{
    AbsentError, Cache, Desk, DeskError, Entry, IfError, Mix, Put, Reader, Replaced, Reply, Shape,
    Swapped, Take, Writer,
};
use mc_shards::{Pass, Shards, open_shards};
use std::test::Fail;

const ONE_KEY: [(Call, Told); 9] = [
    (Call::Swap(0, 7), Told::Stored(1)),
    (Call::Swap(0, 9), Told::RenewedFrom([0, 7, 1], 2)),
    (Call::SwapIf(0, 2, 10), Told::RenewedFrom([0, 9, 2], 3)),
    (
        Call::SwapIf(0, 2, 11),
        Told::RefusedIf(IfError::Changed { since: 3 }),
    ),
    (
        Call::SwapIf(5, 0, 1),
        Told::RefusedIf(IfError::NotThere { at: 3 }),
    ),
    (Call::Get(0), Told::Found(10, 3, 3)),
    (Call::Take(0), Told::Taken([0, 10, 3], 4)),
    (Call::Take(0), Told::NotThere(4)),
    (Call::Get(0), Told::Absent(4)),
];

// Two items. Each put marks its item, so the hand passes all items once and evicts from the item at which it began.
const AN_EVICTED_KEY: [(Call, Told); 6] = [
    (Call::Swap(0, 10), Told::Stored(1)),
    (Call::Swap(1, 11), Told::Stored(2)),
    (Call::Swap(0, 20), Told::RenewedFrom([0, 10, 1], 3)),
    (Call::Swap(2, 12), Told::StoredFor([0, 20, 3], 5)),
    (Call::Get(0), Told::Absent(5)),
    (Call::Swap(3, 13), Told::StoredFor([1, 11, 2], 7)),
];

#[test]
fn the_entry_that_gives_way_is_returned(rt: HostRuntime) -> Result<(), Fail> {
    check_rows(rt.alloc(), small(), &ONE_KEY)?;
    check_rows(rt.alloc(), with_items(2), &AN_EVICTED_KEY)
}

fn entry(key: u64, value: u64, since: u64) -> Entry<1> {
    Entry {
        key,
        value: [value],
        since,
    }
}

// A new key is stored as the first change.
fn first() -> Swapped<1> {
    let put = Put::Stored {
        at: 1,
        moves: 0,
        evicted: None,
    };
    Swapped { put, old: None }
}

// It is overwritten by the second change.
fn second(old: Entry<1>) -> Swapped<1> {
    Swapped {
        put: Put::Renewed { at: 2 },
        old: Some(old),
    }
}

// Whether each call by a turn returns the entry that gives way.
fn returns_entries(cache: &Cache<1>, desk: &Desk<1>, pass: &mut Reader<1>) -> bool
    requires { (desk.now ≡ cache.now) × (pass.old.of ≡ cache.now) }
{
    let (at, old) = (3, entry(6, 8, 2));
    let changed = Err(DeskError::Call(IfError::Changed { since: 3 }));
    desk.try_call(cache, pass, Swapping(6, &[7])) == Ok(first())
        && desk.try_call(cache, pass, Swapping(6, &[8])) == Ok(second(entry(6, 7, 1)))
        && desk.try_call(cache, pass, SwappingIf(6, 2, &[9])) == Ok(Replaced { at, old })
        && desk.try_call(cache, pass, SwappingIf(6, 2, &[10])) == changed
        && pass.get(cache, 6) == found()
        && desk.try_call(cache, pass, Taking(6)) == Ok(taken())
        && desk.try_call(cache, pass, Taking(6)) == Ok(Take::NotThere { at: 4 })
}

// Whether a key is put if it is absent, and otherwise its stamp is told. Two keys are more than the cache has items.
fn puts_absent_keys(cache: &Cache<1>, desk: &Desk<1>, pass: &mut Reader<1>) -> bool
    requires { (desk.now ≡ cache.now) × (pass.old.of ≡ cache.now) }
{
    let present = Err(DeskError::Call(AbsentError::Present { since: 1 }));
    let evicting = Swapped {
        put: Put::Stored {
            at: 3,
            moves: 0,
            evicted: Some(6),
        },
        old: Some(entry(6, 7, 1)),
    };
    desk.try_call(cache, pass, SwappingIfAbsent(6, &[7])) == Ok(first())
        && desk.try_call(cache, pass, SwappingIfAbsent(6, &[8])) == present
        && desk.try_call(cache, pass, SwappingIfAbsent(5, &[9])) == Ok(evicting)
        && pass.get(cache, 6) == Reply::Absent { at: 3 }
}

// What the key has after the third change.
fn found() -> Reply<1> {
    Reply::Found {
        value: [9],
        at: 3,
        since: 3,
    }
}

// The key is taken out by the fourth change.
fn taken() -> Take<1> {
    Take::Taken {
        at: 4,
        old: entry(6, 9, 3),
    }
}

#[test]
fn a_turn_returns_the_entry_that_gives_way(rt: HostRuntime) -> Result<(), Fail> {
    let (cache, writer, mut pass) = open_for_one(rt.alloc(), small())?;
    let desk = Desk::new(writer);
    assert!(rt; returns_entries(&cache, &desk, &mut pass));
    Ok(())
}

#[test]
fn an_absent_key_is_put_and_what_it_evicts_is_returned(rt: HostRuntime) -> Result<(), Fail> {
    let one_item = with_items(1);
    let (cache, writer, mut pass) = open_for_one(rt.alloc(), one_item)?;
    let desk = Desk::new(writer);
    assert!(rt; puts_absent_keys(&cache, &desk, &mut pass));
    Ok(())
}

// Whether shards return entries, too. No other key has made a change in them.
fn returns_entries_in_shards(shards: &Shards<1>, pass: &mut Pass<1>) -> bool
    requires { ArePassOf shards.now pass.old }
{
    let (at, old) = (3, entry(6, 8, 2));
    let changed = Err(DeskError::Call(IfError::Changed { since: 3 }));
    pass.try_call(shards, Swapping(6, &[7])) == Ok(first())
        && pass.try_call(shards, Swapping(6, &[8])) == Ok(second(entry(6, 7, 1)))
        && pass.try_call(shards, SwappingIf(6, 2, &[9])) == Ok(Replaced { at, old })
        && pass.try_call(shards, SwappingIf(6, 2, &[10])) == changed
        && pass.try_peek(shards, 6) == Some(found())
        && pass.try_call(shards, Taking(6)) == Ok(taken())
        && pass.try_call(shards, Taking(6)) == Ok(Take::NotThere { at: 4 })
}

#[test]
fn a_call_to_shards_returns_the_entry_that_gives_way(rt: HostRuntime) -> Result<(), Fail> {
    let (shards, mut passes) = open_shards::<1>(rt.alloc(), FEW, 4, 1)?;
    let Some(mut pass) = passes.pop() else {
        return Err(Fail::new("no pass"));
    };
    assert!(rt; returns_entries_in_shards(&shards, &mut pass));
    Ok(())
}

/// Fewer items than there are keys of objects.
const FEW: Shape = Shape {
    buckets: 32,
    items: 16,
    stripes: 4,
    depth: 2,
    tries: 2,
    limit: 1 << 62,
    mix: Mix::Fmix,
};

const OBJECTS: usize = 100;

/// How often each object, by its number, was found in the map at the end or came back from a call.
type Found = [u32; OBJECTS];

fn find(found: &mut Found, object: u64) {
    let n = object as usize;
    if n < OBJECTS {
        found[n] = found[n].wrapping_add(1);
    }
}

// The key of an object: one of five that are overwritten again and again, or one of 24 in turn.
fn key_for(object: u64) -> u64 {
    if object % 2 == 0 {
        object % 5
    } else {
        object % 48
    }
}

// Puts each object under its key, and takes a key out after every seventh put. Notes the object of each entry that gives way. Returns whether
// no call was refused.
fn put_objects(cache: &Cache<1>, writer: &mut Writer<1>, found: &mut Found) -> bool
    requires { writer.old.of ≡ cache.now }
    ensures { writer.new.of ≡ writer.old.of }
{
    for object in 0..OBJECTS as u64 {
        match writer.swap(cache, key_for(object), [object]) {
            Ok(Swapped { old: Some(old), .. }) => find(found, old.value[0]),
            Ok(_) => (),
            Err(_) => return false,
        }
        if object % 7 == 6 {
            match writer.take(cache, key_for(object / 2)) {
                Ok(Take::Taken { old, .. }) => find(found, old.value[0]),
                Ok(_) => (),
                Err(_) => return false,
            }
        }
    }
    true
}

#[test]
fn no_object_behind_the_index_is_lost(rt: HostRuntime) -> Result<(), Fail> {
    let (cache, mut writer, _reader) = open_for_one(rt.alloc(), FEW)?;
    let mut found = [0; OBJECTS];
    assert!(rt; put_objects(&cache, &mut writer, &mut found));
    let Ok(entries) = writer.entries(rt.alloc(), &cache) else {
        return Err(Fail::new("no memory"));
    };
    for entry in entries.as_slice() {
        find(&mut found, entry.1[0]);
    }
    assert!(rt; found == [1; OBJECTS]);
    Ok(())
}
