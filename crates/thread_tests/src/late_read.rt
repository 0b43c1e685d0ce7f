//! A reader that never caught up with the writer finds in the end what the writer has put.
ghost use Rattle.std.specs.Prelude.{◌≡◌};

use crate::opened::open_for_one;
use crate::waiting::{TURNS, is_set};
use mc_cache::{Cache, Mix, Put, Reader, Reply, Shape, Writer};
use std::sync::atomic::{AtomicBool, Ordering};
use std::test::Fail;
use std::thread::join;

const SHAPE: Shape = Shape {
    buckets: 4,
    items: 16,
    stripes: 1,
    depth: 2,
    tries: 2,
    limit: 1 << 62,
    mix: Mix::Plain,
};

// Misses the key, says so, and looks until it is there. `None` if the first look didn't miss, or none found it.
fn look_until_found(
    cache: &Cache<1>,
    reader: &mut Reader<1>,
    missed: &AtomicBool,
) -> Option<Reply<1>>
    requires { reader.old.of ≡ cache.now }
    ensures { reader.new.of ≡ reader.old.of }
{
    let Reply::Absent { at: 0 } = reader.get(cache, 0) else {
        return None;
    };
    missed.store(true, Ordering::SeqCst);
    for _turn in 0..TURNS {
        let reply = reader.get(cache, 0);
        if let Reply::Found { .. } = reply {
            return Some(reply);
        }
    }
    None
}

// Waits until the key was missed, and puts it. Whether it was missed in time, and stored.
fn put_when_missed(cache: &Cache<1>, writer: &mut Writer<1>, missed: &AtomicBool) -> bool
    requires { writer.old.of ≡ cache.now }
{
    let stored = Put::Stored {
        at: 1,
        moves: 0,
        evicted: None,
    };
    is_set(missed) && writer.put(cache, 0, [7]) == Ok(stored)
}

// Whether the first put was found.
fn is_first_put(reply: Option<Reply<1>>) -> bool {
    let due = Reply::Found {
        value: [7],
        at: 1,
        since: 1,
    };
    reply == Some(due)
}

#[test]
fn a_late_reader_finds_the_key(rt: HostRuntime) -> Result<(), Fail> {
    let (cache, mut writer, mut reader) = open_for_one(rt.alloc(), SHAPE)?;
    let missed = AtomicBool::new(false);
    let (reply, stored) = join(
        &rt,
        || look_until_found(&cache, &mut reader, &missed),
        || put_when_missed(&cache, &mut writer, &missed),
    );
    assert!(rt; stored && is_first_put(reply));
    Ok(())
}
