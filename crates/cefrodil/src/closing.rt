//! A handle is closed.
ghost use Rattle.std.specs.Prelude.{◌≡◌, false, true};

use crate::raw_handle::RawHandle;
use mc_door::status::{CLOSED, OK};
use std::alloc::Global;

/// Closes a handle. Closing the last handle frees the cache.
#[unsafe(no_mangle)]
pub extern "C" fn cefrodil_close(alloc: Global, handle: &mut RawHandle) -> u32
    ensures closed { handle.new.live ≡ false }
    ensures done { handle.old.live ≡ true → result ≡ OK }
    ensures twice { handle.old.live ≡ false → result ≡ CLOSED }
{
    match handle.take(alloc) {
        Some(held) => {
            drop(held);
            OK
        }
        None => CLOSED,
    }
}
