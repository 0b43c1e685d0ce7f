//! A handle takes the turn of every shard and holds them, or gives them back.
ghost use Rattle.std.specs.Prelude.{◌≡◌};
ghost use Rattle.cefrodil.specs.Holding.{HoldGives, ReleaseGives, hold_told, release_told};
ghost use Rattle.cefrodil.specs.Open.{kept};

use crate::raw_handle::RawHandle;
use mc_door::HoldError;
use mc_door::status::{CLOSED, HELD, HOLDS, HOLDS_NOT, OK};

fn tell_hold(held: Result<(), HoldError>) -> u32
    ensures { result ≡ hold_told held }
{
    match held {
        Ok(()) => OK,
        Err(HoldError::Holds) => HOLDS,
        Err(HoldError::Held) => HELD,
    }
}

fn tell_release(released: bool) -> u32
    ensures { result ≡ release_told released }
{
    if released { OK } else { HOLDS_NOT }
}

/// Takes the turn of every shard, and holds it until `cefrodil_release` or `cefrodil_close`.
#[tactic(auto, using(crate::proofs::Gives::gives_open, crate::proofs::Gives::gives_closed))]
#[unsafe(no_mangle)]
pub extern "C" fn cefrodil_hold(handle: &mut RawHandle) -> u32
    ensures open { handle.new.live ≡ handle.old.live }
    ensures held { HoldGives (kept handle.old) (kept handle.new) result }
{
    if !handle.live {
        return CLOSED;
    }
    let held = handle.handle.held().hold();
    tell_hold(held)
}

/// Gives the turn of every shard back.
#[tactic(auto, using(crate::proofs::Gives::gives_open, crate::proofs::Gives::gives_closed))]
#[unsafe(no_mangle)]
pub extern "C" fn cefrodil_release(handle: &mut RawHandle) -> u32
    ensures open { handle.new.live ≡ handle.old.live }
    ensures released { ReleaseGives (kept handle.old) (kept handle.new) result }
{
    if !handle.live {
        return CLOSED;
    }
    let released = handle.handle.held().release();
    tell_release(released)
}
