//! Shards that are opened with entries.
ghost use Rattle.std.specs.Prelude.{All};
ghost use Rattle.mc_shards.specs.Sharded.{ArePassOf};

use mc_shards::{
    Mix, OpenError, OpenShardsError, OpenedShards, Reply, Shape, Why, open_shards_with,
};
use std::test::Fail;

/// Two items per shard. Keys are not mixed, so their bits 48 and up choose the shard.
const SMALL: Shape = Shape {
    buckets: 4,
    items: 2,
    stripes: 1,
    depth: 2,
    tries: 2,
    limit: 1 << 62,
    mix: Mix::Plain,
};

/// A key of shard 1. Small keys are in shard 0.
const OTHER: u64 = 1 << 48;

/// Key 1 is there twice. With keys 1 and 2 shard 0 is full.
const ENTRIES: [(u64, [u64; 1]); 5] = [(1, [11]), (OTHER, [21]), (1, [12]), (2, [13]), (3, [14])];

// Whether the first lookups of a pass find what the entries put, at the moments that follow from their order.
fn are_found(opened: OpenedShards<1>) -> bool
    requires { All (ArePassOf opened.shards) opened.passes.items }
{
    let OpenedShards {
        shards,
        mut passes,
        ..
    } = opened;
    let Some(mut pass) = passes.pop() else {
        return false;
    };
    let again = Reply::Found {
        value: [12],
        at: 3,
        since: 2,
    };
    let other = Reply::Found {
        value: [21],
        at: 1,
        since: 1,
    };
    pass.get(&shards, OTHER) == other
        && pass.get(&shards, 1) == again
        && pass.get(&shards, 3) == Reply::Absent { at: 3 }
}

#[test]
fn entries_are_put_in_the_shards_of_their_keys(rt: HostRuntime) -> Result<(), Fail> {
    let opened = open_shards_with::<1>(rt.alloc(), SMALL, 2, 2, ENTRIES.as_slice())?;
    assert!(rt; opened.left.as_slice() == [(4, Why::NoItem)].as_slice());
    assert!(rt; are_found(opened));
    Ok(())
}

#[test]
fn a_fault_of_what_is_opened_comes_before_the_entries(rt: HostRuntime) -> Result<(), Fail> {
    let three = open_shards_with::<1>(rt.alloc(), SMALL, 3, 1, ENTRIES.as_slice());
    assert!(rt; matches!(three, Err(OpenShardsError::Shards)));
    let none = open_shards_with::<1>(rt.alloc(), SMALL, 2, 0, ENTRIES.as_slice());
    assert!(rt; matches!(none, Err(OpenShardsError::Open(OpenError::Readers))));
    Ok(())
}
