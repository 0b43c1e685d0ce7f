//! Entries that can't be listed with their stamps leave the cache as it is.
ghost use Rattle.std.specs.Prelude.{◌≡◌};

use crate::opening::SHAPE;
use crate::seen::Seen;
use mc_cache::{Cache, Entry, NoMemory, Writer, open};
use std::alloc::Global;

/// What two puts leave.
const ENTRIES: [Entry<1>; 2] = [
    Entry {
        key: 2,
        value: [12],
        since: 1,
    },
    Entry {
        key: 1,
        value: [11],
        since: 2,
    },
];

// Lists what the cache holds. Whether it is the two entries, or `None` if memory was refused.
fn list(alloc: Global, cache: &Cache<1>, writer: &mut Writer<1>) -> Option<bool>
    requires { writer.old.of ≡ cache.now }
    ensures { writer.new ≡ writer.old }
{
    match writer.stamped_entries(alloc, cache) {
        Ok(listed) => Some(listed.as_slice() == ENTRIES.as_slice()),
        Err(NoMemory) => None,
    }
}

/// Lists what the cache holds, and once more if memory was refused.
pub(crate) fn see_stamped(alloc: Global) -> Seen {
    let Ok((cache, mut writer, _readers)) = open::<1>(alloc, SHAPE, 1) else {
        return Seen::Before;
    };
    let _ = writer.put(&cache, 2, [12]);
    let _ = writer.put(&cache, 1, [11]);
    let first = list(alloc, &cache, &mut writer);
    if first.is_some() {
        return Seen::of_two(first, None);
    }
    Seen::of_two(None, list(alloc, &cache, &mut writer))
}
