//! Memory suffices for a large cache, and for a long list of its entries.
ghost use Rattle.std.specs.Prelude.{◌≡◌};

use crate::opened::open_for_one;
use mc_cache::{Cache, Mix, Put, Reply, Shape, Writer};
use std::test::Fail;

/// The most buckets, and an item for each slot: words of 134 MB.
const LARGEST: Shape = Shape {
    buckets: 1 << 20,
    items: 1 << 22,
    stripes: 1 << 16,
    depth: 8,
    tries: 64,
    limit: 1 << 62,
    mix: Mix::Fmix,
};

const KEYS: u64 = 10_000;

#[test]
fn the_largest_cache_is_opened(rt: HostRuntime) -> Result<(), Fail> {
    let (cache, mut writer, mut reader) = open_for_one(rt.alloc(), LARGEST)?;
    let stored = Put::Stored {
        at: 1,
        moves: 0,
        evicted: None,
    };
    let found = Reply::Found {
        value: [7],
        at: 1,
        since: 1,
    };
    assert!(rt; writer.put(&cache, 5, [7]) == Ok(stored));
    assert!(rt; reader.get(&cache, 5) == found);
    Ok(())
}

// How many of the keys are stored.
fn put_keys(cache: &Cache<1>, writer: &mut Writer<1>) -> u64
    requires { writer.old.of ≡ cache.now }
    ensures { writer.new.of ≡ writer.old.of }
{
    let mut stored: u64 = 0;
    for key in 0..KEYS {
        if writer.put(cache, key, [key]).is_ok() {
            stored = stored.wrapping_add(1);
        }
    }
    stored
}

#[test]
fn a_long_list_has_all_entries(rt: HostRuntime) -> Result<(), Fail> {
    let (cache, mut writer, _reader) = open_for_one(rt.alloc(), Shape::for_items(20_000)?)?;
    assert!(rt; put_keys(&cache, &mut writer) == KEYS);
    let listed = writer.entries(rt.alloc(), &cache)?.len();
    assert!(rt; listed as u64 == KEYS);
    Ok(())
}
