//! A list of entries with their stamps.
use crate::opened::open_for_one;
use crate::rows::{put_three, with_items};
use mc_cache::Entry;
use std::test::Fail;

/// What three puts leave of two items. The third evicts key 0, as the third change, and its own is the fourth.
const LEFT: [Entry<1>; 2] = [
    Entry {
        key: 2,
        value: [12],
        since: 4,
    },
    Entry {
        key: 1,
        value: [11],
        since: 2,
    },
];

#[test]
fn a_list_has_stamps(rt: HostRuntime) -> Result<(), Fail> {
    let (cache, mut writer, _reader) = open_for_one(rt.alloc(), with_items(2))?;
    put_three(&cache, &mut writer);
    let Ok(listed) = writer.stamped_entries(rt.alloc(), &cache) else {
        return Err(Fail::new("no memory"));
    };
    assert!(rt; listed.as_slice() == LEFT.as_slice());
    Ok(())
}
