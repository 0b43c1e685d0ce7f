//! Which key gives way where new keys give way before those that were used again: rows worked out by hand, in a table of four items, of
//! which three may be proven.
use crate::calls::{Call, Told};
use crate::rows::{check_rows_by, with_items, with_limit};
use mc_cache::{EvictError, Policy};
use std::test::Fail;

/// The first key; its multiples are the others. The note of the `n`-th key has a place of four by `n`, and says `n`.
const K: u64 = 0x1_4000_0001;

const NEW_KEYS: [(Call, Told); 13] = [
    (Call::Put(K, 10), Told::Stored(1)),
    (Call::Put(2 * K, 20), Told::Stored(2)),
    (Call::Put(3 * K, 30), Told::Stored(3)),
    (Call::Put(4 * K, 40), Told::Stored(4)),
    (Call::Get(K), Told::Found(10, 4, 1)),
    (Call::Put(5 * K, 50), Told::StoredAfter(2 * K, 6)),
    (Call::Put(6 * K, 60), Told::StoredAfter(3 * K, 8)),
    (Call::Put(2 * K, 21), Told::StoredAfter(4 * K, 10)),
    (Call::Put(7 * K, 70), Told::StoredAfter(5 * K, 12)),
    (Call::Put(8 * K, 80), Told::StoredAfter(6 * K, 14)),
    (Call::Put(9 * K, 90), Told::StoredAfter(7 * K, 16)),
    (Call::Get(2 * K), Told::Found(21, 16, 10)),
    (Call::Get(K), Told::Found(10, 16, 1)),
];

// Key 1 is used while it is new, so its item is proven, and key 2 gives way. Key 2 comes back while it is noted: its item is proven too. From
// then on new keys give way.
#[test]
fn new_keys_give_way_before_keys_that_were_used_again(rt: HostRuntime) -> Result<(), Fail> {
    check_rows_by(rt.alloc(), Policy::ScanResistant, with_items(4), &NEW_KEYS)
}

const TOO_MANY_PROVEN: [(Call, Told); 13] = [
    (Call::Put(K, 10), Told::Stored(1)),
    (Call::Put(2 * K, 20), Told::Stored(2)),
    (Call::Put(3 * K, 30), Told::Stored(3)),
    (Call::Put(4 * K, 40), Told::Stored(4)),
    (Call::Get(K), Told::Found(10, 4, 1)),
    (Call::Put(2 * K, 21), Told::Renewed(5)),
    (Call::Get(3 * K), Told::Found(30, 5, 3)),
    (Call::Put(5 * K, 50), Told::StoredAfter(4 * K, 7)),
    (Call::Get(K), Told::Found(10, 7, 1)),
    (Call::Get(5 * K), Told::Found(50, 7, 7)),
    (Call::Put(6 * K, 60), Told::StoredAfter(2 * K, 9)),
    (Call::Put(2 * K, 22), Told::StoredAfter(6 * K, 11)),
    (Call::Put(7 * K, 70), Told::StoredAfter(2 * K, 13)),
];

// Four items are proven in the end, one more than may be, so a proven key gives way: the first that was not used since it was looked at. It is
// not noted, so it comes back as a new key, and gives way next.
#[test]
fn a_proven_key_gives_way_if_too_many_are(rt: HostRuntime) -> Result<(), Fail> {
    check_rows_by(
        rt.alloc(),
        Policy::ScanResistant,
        with_items(4),
        &TOO_MANY_PROVEN,
    )
}

const WITH_CLOCK: [(Call, Told); 6] = [
    (Call::Put(K, 10), Told::Stored(1)),
    (Call::Put(2 * K, 20), Told::Stored(2)),
    (Call::Get(K), Told::Found(10, 2, 1)),
    (Call::Remove(K), Told::Removed(3)),
    (Call::Put(3 * K, 30), Told::Stored(4)),
    (Call::Put(4 * K, 40), Told::StoredAfter(3 * K, 6)),
];

const CHOSEN: [(Call, Told); 7] = [
    (Call::Put(K, 10), Told::Stored(1)),
    (Call::Put(2 * K, 20), Told::Stored(2)),
    (Call::Get(K), Told::Found(10, 2, 1)),
    (Call::Put(3 * K, 30), Told::StoredAfter(2 * K, 4)),
    (Call::Remove(K), Told::Removed(5)),
    (Call::Put(4 * K, 40), Told::Stored(6)),
    (Call::Put(5 * K, 50), Told::StoredAfter(4 * K, 8)),
];

// With CLOCK a new key counts as used. A removal takes its key out of the choice.
#[test]
fn each_policy_chooses_for_itself(rt: HostRuntime) -> Result<(), Fail> {
    check_rows_by(rt.alloc(), Policy::Clock, with_items(2), &WITH_CLOCK)?;
    check_rows_by(rt.alloc(), Policy::ScanResistant, with_items(2), &CHOSEN)
}

const EVICTED: [(Call, Told); 13] = [
    (Call::Evict, Told::Empty(0)),
    (Call::Put(K, 10), Told::Stored(1)),
    (Call::Put(2 * K, 20), Told::Stored(2)),
    (Call::Put(3 * K, 30), Told::Stored(3)),
    (Call::Get(K), Told::Found(10, 3, 1)),
    (Call::Evict, Told::Evicted([2 * K, 20, 2], 4)),
    (Call::Get(2 * K), Told::Absent(4)),
    (Call::Evict, Told::Evicted([3 * K, 30, 3], 5)),
    (Call::Evict, Told::Evicted([K, 10, 1], 6)),
    (Call::Evict, Told::Empty(6)),
    (Call::Put(2 * K, 21), Told::Stored(7)),
    (Call::Put(4 * K, 40), Told::Stored(8)),
    (Call::Evict, Told::Evicted([4 * K, 40, 8], 9)),
];

// The keys that were not used since their puts go first, then the one that was. Key 2 is noted when it goes, so it comes back proven, and key 4
// goes before it.
#[test]
fn keys_are_evicted_without_a_put(rt: HostRuntime) -> Result<(), Fail> {
    check_rows_by(rt.alloc(), Policy::ScanResistant, with_items(4), &EVICTED)
}

const EVICTED_BY_CLOCK: [(Call, Told); 11] = [
    (Call::Evict, Told::Empty(0)),
    (Call::Put(K, 10), Told::Stored(1)),
    (Call::Put(2 * K, 20), Told::Stored(2)),
    (Call::Put(3 * K, 30), Told::Stored(3)),
    (Call::Evict, Told::Evicted([K, 10, 1], 4)),
    (Call::Evict, Told::Evicted([2 * K, 20, 2], 5)),
    (Call::Get(3 * K), Told::Found(30, 5, 3)),
    (Call::Put(4 * K, 40), Told::Stored(6)),
    (Call::Evict, Told::Evicted([3 * K, 30, 3], 7)),
    (Call::Evict, Told::Evicted([4 * K, 40, 6], 8)),
    (Call::Evict, Told::Empty(8)),
];

// The hand clears three bits before it evicts the first key, and passes over free items. Key 4 takes the item of key 1, and the hand is then at
// that of key 3.
#[test]
fn the_hand_evicts_without_a_put(rt: HostRuntime) -> Result<(), Fail> {
    check_rows_by(rt.alloc(), Policy::Clock, with_items(4), &EVICTED_BY_CLOCK)
}

const SPENT: [(Call, Told); 5] = [
    (Call::Put(K, 10), Told::Stored(1)),
    (Call::PutIf(K, 1, 11), Told::RenewedIf(2)),
    (Call::PutIf(K, 2, 12), Told::RenewedIf(3)),
    (Call::PutIf(K, 3, 13), Told::RenewedIf(4)),
    (Call::Evict, Told::NotEvicted(EvictError::Spent)),
];

// Each of the four writes made two version changes, and the limit is eight.
#[test]
fn an_eviction_keeps_the_limit(rt: HostRuntime) -> Result<(), Fail> {
    for policy in [Policy::Clock, Policy::ScanResistant] {
        check_rows_by(rt.alloc(), policy, with_limit(8), &SPENT)?;
    }
    Ok(())
}
