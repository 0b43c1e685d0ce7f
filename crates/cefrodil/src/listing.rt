//! The entries of a cache that stays open, as C asks for them.
ghost use Rattle.std.specs.Prelude.{◌≡◌};
ghost use Rattle.cefrodil.specs.Listing.{ListGives, StampedListGives, TellsList};
ghost use Rattle.cefrodil.specs.Open.{kept};

use crate::raw_handle::RawHandle;
use mc_door::ListError;
use mc_door::status::{CLOSED, COUNT, HELD, NO_MEMORY, OK};
use std::alloc::Global;

// Writes how many entries there are, if that is known.
fn tell(listed: Result<usize, ListError>, count: &mut u64) -> u32
    ensures { TellsList listed count.old count.new result }
{
    match listed {
        Ok(many) => {
            *count = many as u64;
            OK
        }
        Err(ListError::Held) => HELD,
        Err(ListError::Count(many)) => {
            *count = many as u64;
            COUNT
        }
        Err(ListError::NoMemory) => NO_MEMORY,
    }
}

/// Each key of the cache with its value, one entry after the other: its key, and then its value.
#[tactic(auto, using(crate::proofs::Gives::gives_open, crate::proofs::Gives::gives_closed))]
#[unsafe(no_mangle)]
pub extern "C" fn cefrodil_entries(
    alloc: Global,
    handle: &mut RawHandle,
    entries: &mut [u64],
    count: &mut u64,
) -> u32
    ensures open { handle.new.live ≡ handle.old.live }
    ensures told { ListGives (kept handle.old) (kept handle.new) entries.old entries.new count.old count.new result }
{
    if !handle.live {
        return CLOSED;
    }
    let listed = handle.handle.held().entries(alloc, entries);
    tell(listed, count)
}

/// Each entry of the cache with its stamp: its key, its value, and then its stamp. A handle that holds no turns takes them for this.
#[tactic(auto, using(crate::proofs::Gives::gives_open, crate::proofs::Gives::gives_closed))]
#[unsafe(no_mangle)]
pub extern "C" fn cefrodil_stamped_entries(
    alloc: Global,
    handle: &mut RawHandle,
    entries: &mut [u64],
    count: &mut u64,
) -> u32
    ensures open { handle.new.live ≡ handle.old.live }
    ensures told { StampedListGives (kept handle.old) (kept handle.new) entries.old entries.new count.old count.new result }
{
    if !handle.live {
        return CLOSED;
    }
    let listed = handle.handle.held().stamped_entries(alloc, entries);
    tell(listed, count)
}
