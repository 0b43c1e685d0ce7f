//! Waiting for what another thread does.
use std::sync::atomic::{AtomicBool, Ordering};

/// How often a waiting loop runs at most: for seconds, since a busy machine may keep a thread from the processor so long.
pub const TURNS: u32 = 1 << 31;

/// Waits until the flag is set. Whether it was in time.
pub fn is_set(flag: &AtomicBool) -> bool {
    for _turn in 0..TURNS {
        if flag.load(Ordering::SeqCst) {
            return true;
        }
    }
    false
}
