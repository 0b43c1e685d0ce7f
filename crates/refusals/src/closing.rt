//! A cache that can't be closed because there is no memory answers as if nobody had tried.
ghost use Rattle.std.specs.Prelude.{◌≡◌};

use crate::opening::SHAPE;
use crate::seen::Seen;
use mc_cache::{Cache, Put, Reader, Reply, StillOpen, Writer, open};
use std::alloc::Global;

// Whether the entries are those of the puts of keys 1, 2 and so on, with values 11, 12 and so on, `many` of them.
fn are_first(entries: &[(u64, [u64; 1])], many: usize) -> bool {
    let first = [(1, [11]), (2, [12]), (3, [13])];
    entries == &first[..many.min(3)]
}

// A second key was put into a cache; a reader finds the first one, and a third is put.
fn still_answers(cache: &Cache<1>, writer: &mut Writer<1>, reader: &mut Reader<1>) -> bool
    requires { (writer.old.of ≡ cache.now) × (reader.old.of ≡ cache.now) }
    ensures { writer.new.of ≡ writer.old.of }
{
    let first = Reply::Found {
        value: [11],
        at: 2,
        since: 1,
    };
    let found = reader.get(cache, 1) == first;
    let stored = matches!(
        writer.put(cache, 3, [13]),
        Ok(Put::Stored {
            at: 3,
            moves: 0,
            evicted: None
        })
    );
    found && stored
}

// The cache could not be closed: it answers, and is closed once more.
fn close_again(alloc: Global, still: StillOpen<1>, mut reader: Reader<1>) -> Seen
    requires { (still.writer.of ≡ still.cache) × (reader.of ≡ still.cache) }
{
    let StillOpen {
        cache,
        mut writer,
        readers,
    } = still;
    if readers.len() != 1 || !still_answers(&cache, &mut writer, &mut reader) {
        return Seen::Wrong;
    }
    match cache.close(alloc, writer, readers) {
        Ok(entries) => Seen::of_two(None, Some(are_first(entries.as_slice(), 3))),
        Err(_) => Seen::RefusedTwice,
    }
}

/// Puts two keys and closes the cache. One of its two readers is kept back, for what follows a refusal.
pub(crate) fn see_closing(alloc: Global) -> Seen {
    let Ok((cache, mut writer, mut readers)) = open::<1>(alloc, SHAPE, 2) else {
        return Seen::Before;
    };
    let Some(reader) = readers.pop() else {
        return Seen::Wrong;
    };
    let _ = writer.put(&cache, 1, [11]);
    let _ = writer.put(&cache, 2, [12]);
    match cache.close(alloc, writer, readers) {
        Ok(entries) => Seen::of_two(Some(are_first(entries.as_slice(), 2)), None),
        Err(still) => close_again(alloc, still, reader),
    }
}
