//! Changes of the map, and replies.
/// One change of the map. The list of all changes since opening is the history, and its length is the moment.
#[derive(Clone, Copy, Debug, PartialEq, Eq)]
pub enum Change<const V: usize> {
    /// The key holds this value from now on.
    Put(u64, [u64; V]),
    /// The key was taken out because a caller asked for it.
    Remove(u64),
    /// The key was taken out to make room for another.
    Evict(u64),
}

/// What a lookup answers. `at` is the moment at which the answer held, and `since` that of the key's last put before it.
#[derive(Clone, Copy, Debug, PartialEq, Eq)]
pub enum Reply<const V: usize> {
    Found {
        value: [u64; V],
        at: u64,
        since: u64,
    },
    Absent {
        at: u64,
    },
    /// Every try was spoiled by the writer.
    Busy,
}
