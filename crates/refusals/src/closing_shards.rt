//! Shards that can't be closed for lack of memory say so, and answer as if nobody had tried.
ghost use Rattle.mc_shards.specs.Sharded.{ArePassOf};

use crate::opening::SHAPE;
use crate::seen::Seen;
use mc_shards::{DeskError, NoMemory, Reply, StillOpen, open_shards};
use std::alloc::Global;

/// A key of shard 0 and one of shard 1, with their values.
const PUT: [(u64, [u64; 1]); 2] = [(1, [11]), (1 << 48, [21])];

// Whether the entries are those that were put, in some order.
fn are_put(entries: &[(u64, [u64; 1])]) -> bool {
    entries == [PUT[0], PUT[1]].as_slice() || entries == [PUT[1], PUT[0]].as_slice()
}

// The shards could not be closed: they answer, and are closed once more.
fn close_again(alloc: Global, still: StillOpen<1>) -> Seen
    requires { ArePassOf still.shards still.pass }
{
    let StillOpen {
        shards,
        mut pass,
        why,
    } = still;
    let found = Reply::Found {
        value: [21],
        at: 1,
        since: 1,
    };
    if why != DeskError::Call(NoMemory) || pass.get(&shards, PUT[1].0) != found {
        return Seen::Wrong;
    }
    match shards.close(alloc, pass) {
        Ok(entries) => Seen::of_two(None, Some(are_put(entries.as_slice()))),
        Err(again) if again.why == DeskError::Call(NoMemory) => Seen::RefusedTwice,
        Err(_) => Seen::Wrong,
    }
}

/// Puts a key into each of two shards and closes them.
pub(crate) fn see_closing_shards(alloc: Global) -> Seen {
    let Ok((shards, mut passes)) = open_shards::<1>(alloc, SHAPE, 2, 1) else {
        return Seen::Before;
    };
    let Some(mut pass) = passes.pop() else {
        return Seen::Wrong;
    };
    let _ = pass.try_put(&shards, PUT[0].0, PUT[0].1);
    let _ = pass.try_put(&shards, PUT[1].0, PUT[1].1);
    match shards.close(alloc, pass) {
        Ok(entries) => Seen::of_two(Some(are_put(entries.as_slice())), None),
        Err(still) => close_again(alloc, still),
    }
}
