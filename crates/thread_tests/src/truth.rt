//! What a history says of a key.
use mc_words::{Change, Reply};

/// The value that the map holds of the key after these changes, and the moment of its put.
pub fn held_after(changes: &[Change<1>], key: u64) -> Option<([u64; 1], u64)> {
    let mut held = None;
    for i in 0..changes.len() {
        match changes[i] {
            Change::Put(k, v) if k == key => held = Some((v, i as u64 + 1)),
            Change::Remove(k) | Change::Evict(k) if k == key => held = None,
            _ => {}
        }
    }
    held
}

/// Whether the reply is what the map held at its moment. One that has none says nothing, and is true.
pub fn is_true(changes: &[Change<1>], key: u64, reply: Reply<1>) -> bool {
    let (held, at) = match reply {
        Reply::Found { value, at, since } => (Some((value, since)), at),
        Reply::Absent { at } => (None, at),
        Reply::Busy => return true,
    };
    at as usize <= changes.len() && held_after(&changes[..at as usize], key) == held
}
