//! Shards: the answers to one thread alone, and to many that take turns at several desks.
ghost use Rattle.std.specs.Prelude.{◌≡◌, All, IfOk};
ghost use Rattle.mc_shards.specs.Sharded.{ArePassOf};

use crate::shard_calls::{Caller, KEYS, call_in_threads, history_of};
use crate::truth::held_after;
use mc_shards::{
    Mix, OpenError, OpenShardsError, Pass, Put, Remove, Reply, Shape, Shards, open_shards,
    shard_shape,
};
use mc_words::Change;
use std::alloc::{AllocError, Global};
use std::test::Fail;
use std::thread::Threads;

/// More items than keys, so that none is evicted.
const WIDE: Shape = Shape {
    buckets: 32,
    items: 64,
    stripes: 4,
    depth: 2,
    tries: 2,
    limit: 1 << 62,
    mix: Mix::Fmix,
};

// Whether a new key is stored as the next change of its shard, and found with that stamp.
fn is_stored_next(shards: &Shards<1>, pass: &mut Pass<1>, key: u64, made: &mut [u64; 4]) -> bool
    requires { ArePassOf shards.now pass.old }
    ensures { ArePassOf shards.now pass.new }
{
    let shard = shards.shard_of(key) % 4;
    made[shard] = made[shard].wrapping_add(1);
    let at = made[shard];
    let stored = Put::Stored {
        at,
        moves: 0,
        evicted: None,
    };
    let found = Reply::Found {
        value: [key],
        at,
        since: at,
    };
    pass.try_put(shards, key, [key]) == Ok(stored) && pass.get(shards, key) == found
}

// Whether the keys below this number are stored one after the other. How many changes each shard has then.
fn store_all(shards: &Shards<1>, pass: &mut Pass<1>, keys: u64) -> Option<[u64; 4]>
    requires { ArePassOf shards.now pass.old }
    ensures { ArePassOf shards.now pass.new }
{
    let mut made = [0; 4];
    for key in 0..keys {
        if !is_stored_next(shards, pass, key, &mut made) {
            return None;
        }
    }
    Some(made)
}

#[test]
fn a_thread_alone_is_answered_shard_by_shard(rt: HostRuntime) -> Result<(), Fail> {
    let (shards, mut passes) = open_shards::<1>(rt.alloc(), WIDE, 4, 1)?;
    let Some(mut pass) = passes.pop() else {
        return Err(Fail::new("no pass"));
    };
    let Some(made) = store_all(&shards, &mut pass, 32) else {
        return Err(Fail::new("a key was not stored"));
    };
    assert!(rt; made.iter().all(|many: &u64| -> bool { *many > 0 }));
    assert_eq!(rt; pass.try_len(&shards), Some(32));
    let at = made[shards.shard_of(5) % 4].wrapping_add(1);
    assert_eq!(rt; pass.try_remove(&shards, 5), Ok(Remove::Removed { at }));
    assert_eq!(rt; pass.get_or_desk(&shards, 5), Reply::Absent { at });
    assert_eq!(rt; pass.try_len(&shards), Some(31));
    match shards.close(rt.alloc(), pass) {
        Ok(entries) => assert_eq!(rt; entries.len(), 31),
        Err(_) => return Err(Fail::new("still open")),
    }
    Ok(())
}

#[test]
fn a_fault_of_what_is_opened_is_told(rt: HostRuntime) -> Result<(), Fail> {
    let three = open_shards::<1>(rt.alloc(), WIDE, 3, 1);
    assert!(rt; matches!(three, Err(OpenShardsError::Shards)));
    let none = open_shards::<1>(rt.alloc(), WIDE, 4, 0);
    assert!(rt; matches!(none, Err(OpenShardsError::Open(OpenError::Readers))));
    assert!(rt; shard_shape(1000, 5).is_err());
    Ok(())
}

// A caller for each pass: `writers` of them write, the others only look keys up.
fn callers_of(
    alloc: Global,
    shards: &Shards<1>,
    mut passes: Vec<Pass<1>>,
    writers: u64,
) -> Result<Vec<Caller>, AllocError>
    requires { All (ArePassOf shards.now) passes.items }
    ensures { IfOk result (λ callers. All (λ c. ArePassOf shards.now c.pass) callers.items) }
{
    let _shards = shards;
    let mut callers = Vec::new(alloc);
    let mut who = 0u64;
    while let Some(pass) = passes.pop() {
        callers.push(Caller::new(alloc, pass, who, who < writers)?)?;
        who = who.wrapping_add(1);
    }
    Ok(callers)
}

/// What the histories of all shards say of the keys.
type Held = [Option<[u64; 1]>; 64];

// Adds what the history of a shard holds of its keys.
fn hold(shards: &Shards<1>, shard: usize, history: &[Change<1>], held: &mut Held) {
    for key in 0..KEYS {
        if shards.shard_of(key) == shard {
            held[key as usize % 64] = held_after(history, key).map(|found: (
                [u64; 1],
                u64,
            )| found.0);
        }
    }
}

// Whether these entries are what is held, each key once.
fn are_entries(entries: &[(u64, [u64; 1])], mut held: Held) -> bool {
    for entry in entries {
        let n = entry.0 as usize;
        if n >= 64 || held[n] != Some(entry.1) {
            return false;
        }
        held[n] = None;
    }
    held == [None; 64]
}

#[test]
fn four_threads_write_beside_two_that_read(rt: HostRuntime) -> Result<(), Fail> {
    let (shards, mut passes) = open_shards::<1>(rt.alloc(), WIDE, 4, 7)?;
    let Some(last) = passes.pop() else {
        return Err(Fail::new("no pass"));
    };
    let callers = callers_of(rt.alloc(), &shards, passes, 4)?;
    let callers = call_in_threads(&rt, &shards, callers)?;
    let mut held = [None; 64];
    for shard in 0..4 {
        let Some(history) = history_of(rt.alloc(), &shards, shard, callers.as_slice())? else {
            return Err(Fail::new("a moment is missing, or there twice"));
        };
        for caller in callers.as_slice() {
            assert!(rt; caller.was_told_the_truth(&shards, shard, history.as_slice()));
        }
        hold(&shards, shard, history.as_slice(), &mut held);
    }
    match shards.close(rt.alloc(), last) {
        Ok(entries) => assert!(rt; are_entries(entries.as_slice(), held)),
        Err(_) => return Err(Fail::new("still open")),
    }
    Ok(())
}
