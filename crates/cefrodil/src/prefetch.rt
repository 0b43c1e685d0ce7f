//! Words that are loaded ahead of a lookup, as C asks for them.
ghost use Rattle.std.specs.Prelude.{◌≡◌};
ghost use Rattle.cefrodil.specs.Counts.{PrefetchGives};
ghost use Rattle.cefrodil.specs.Open.{kept};

use crate::raw_handle::RawHandle;
use mc_door::status::{CLOSED, OK};

/// Loads the words that a lookup of the key will read. No answer depends on it.
#[tactic(auto, using(crate::proofs::Gives::gives_open, crate::proofs::Gives::gives_closed))]
#[unsafe(no_mangle)]
pub extern "C" fn cefrodil_prefetch(handle: &mut RawHandle, key: u64) -> u32
    ensures open { handle.new.live ≡ handle.old.live }
    ensures told { PrefetchGives (kept handle.old) (kept handle.new) result }
{
    if !handle.live {
        return CLOSED;
    }
    handle.handle.held().prefetch(key);
    OK
}
