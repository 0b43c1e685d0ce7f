//! More handles of a cache that is open.
ghost use Rattle.std.specs.Prelude.{◌≡◌, ◌≢◌, All};
ghost use Rattle.cefrodil.specs.More.{MoreGives, RefusesMore, more_status};
ghost use Rattle.cefrodil.specs.Open.{kept};
ghost use Rattle.cefrodil.specs.Openings.{IsClosed, RefusesHandles};

use crate::opening::{all_closed, fill};
use crate::raw_handle::RawHandle;
use mc_door::MoreError;
use mc_door::status::{CLOSED, HANDLES, HELD, IN_USE, NO_MEMORY, OK};
use std::alloc::Global;

fn status_of(why: MoreError) -> u32
    ensures { result ≡ more_status why }
{
    match why {
        MoreError::Count => HANDLES,
        MoreError::Held => HELD,
        MoreError::NoMemory => NO_MEMORY,
    }
}

// The handles are closed.
fn open_more(alloc: Global, handle: &mut RawHandle, handles: &mut [RawHandle]) -> u32
    requires { All IsClosed handles.old }
    ensures same { handle.new ≡ handle.old }
    ensures opened { result ≡ OK → MoreGives (kept handle.old) handles.new }
    ensures refused { result ≢ OK → RefusesMore (kept handle.old) result }
    ensures closed { result ≢ OK → All IsClosed handles.new }
{
    if !handle.live {
        return CLOSED;
    }
    let rest = match handle.handle.held().more(alloc, handles.len()) {
        Ok(rest) => rest,
        Err(why) => return status_of(why),
    };
    if !fill(alloc, rest, handles) {
        return NO_MEMORY;
    }
    OK
}

/// Opens more handles of the same cache, from its spare ones.
#[unsafe(no_mangle)]
pub extern "C" fn cefrodil_more(
    alloc: Global,
    handle: &mut RawHandle,
    handles: &mut [RawHandle],
) -> u32
    ensures same { handle.new ≡ handle.old }
    ensures opened { result ≡ OK → MoreGives (kept handle.old) handles.new }
    ensures refused { result ≢ OK → RefusesHandles (All IsClosed handles.old) (RefusesMore (kept handle.old)) result }
    ensures in_use { result ≡ IN_USE → handles.new ≡ handles.old }
    ensures closed { result ≢ OK → result ≢ IN_USE → All IsClosed handles.new }
{
    if !all_closed(handles) {
        return IN_USE;
    }
    open_more(alloc, handle, handles)
}
