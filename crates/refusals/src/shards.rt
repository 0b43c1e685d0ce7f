//! If opening shards with entries fails, nothing is kept and the caller still has the entries.
ghost use Rattle.std.specs.Prelude.{All};
ghost use Rattle.mc_shards.specs.Sharded.{ArePassOf};

use crate::opening::SHAPE;
use crate::seen::Seen;
use mc_shards::{OpenError, OpenShardsError, OpenedShards, Reply, Shape, Why, open_shards_with};
use std::alloc::Global;

/// Three keys of shard 0, whose items are only two, and one of shard 1.
const ENTRIES: [(u64, [u64; 1]); 4] = [(2, [12]), (1 << 48, [21]), (1, [11]), (3, [13])];

// Opens two shards of two items with the entries, and looks one up.
fn load(alloc: Global) -> Option<bool> {
    let shape = Shape { items: 2, ..SHAPE };
    match open_shards_with::<1>(alloc, shape, 2, 2, ENTRIES.as_slice()) {
        Ok(opened) => Some(is_loaded(opened)),
        Err(OpenShardsError::Open(OpenError::NoMemory)) => None,
        Err(_) => Some(false),
    }
}

// Whether all but the last entry were taken, and the last is named.
fn is_loaded(opened: OpenedShards<1>) -> bool
    requires { All (ArePassOf opened.shards) opened.passes.items }
{
    let OpenedShards {
        shards,
        mut passes,
        left,
    } = opened;
    let Some(mut pass) = passes.pop() else {
        return false;
    };
    let found = Reply::Found {
        value: [11],
        at: 2,
        since: 2,
    };
    let named = left.as_slice() == [(3, Why::NoItem)].as_slice();
    named && pass.get(&shards, 1) == found
}

/// Opens shards with entries, and once more if memory was refused.
pub(crate) fn see_shards(alloc: Global) -> Seen {
    let first = load(alloc);
    if first.is_some() {
        return Seen::of_two(first, None);
    }
    Seen::of_two(None, load(alloc))
}
