//! Caches of the most readers.
ghost use Rattle.std.specs.Prelude.{◌≡◌};

use mc_cache::{Cache, Mix, OpenError, Put, Reader, Reply, Shape, Writer, open};
use std::alloc::Global;
use std::test::Fail;

const SHAPE: Shape = Shape {
    buckets: 4,
    items: 16,
    stripes: 1,
    depth: 2,
    tries: 2,
    limit: 1 << 62,
    mix: Mix::Plain,
};

// Whether the first put is stored, and found by this reader.
fn is_found(cache: &Cache<1>, writer: &mut Writer<1>, reader: &mut Reader<1>) -> bool
    requires { (writer.old.of ≡ cache.now) × (reader.old.of ≡ cache.now) }
{
    let stored = Put::Stored {
        at: 1,
        moves: 0,
        evicted: None,
    };
    let due = Reply::Found {
        value: [7],
        at: 1,
        since: 1,
    };
    writer.put(cache, 0, [7]) == Ok(stored) && reader.get(cache, 0) == due
}

// Whether a cache has `many` readers, and the last one finds what is put.
fn has_readers(alloc: Global, many: u32) -> Result<bool, Fail> {
    let (cache, mut writer, mut readers) = open::<1>(alloc, SHAPE, many)?;
    let all = readers.len() == many as usize;
    let found = match readers.pop() {
        Some(mut last) => is_found(&cache, &mut writer, &mut last),
        None => false,
    };
    Ok(all && found)
}

#[test]
fn a_cache_has_so_many_readers(rt: HostRuntime) -> Result<(), Fail> {
    for many in [1, 1024] {
        assert!(rt; has_readers(rt.alloc(), many)?, "{many} readers");
    }
    for number in [0, 1025] {
        let refused = open::<1>(rt.alloc(), SHAPE, number);
        assert!(rt; matches!(refused, Err(OpenError::Readers)));
    }
    Ok(())
}
