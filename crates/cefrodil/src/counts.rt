//! Numbers of a cache, as C asks for them.
ghost use Rattle.std.specs.Prelude.{◌≡◌, MatchOption};
ghost use Rattle.cefrodil.specs.Counts.{CapacityGives, LenGives, MomentGives};
ghost use Rattle.cefrodil.specs.Open.{kept};

use crate::raw_handle::RawHandle;
use mc_door::status::{CLOSED, HELD, OK};

// Writes the number, if no try was held.
fn tell(known: Option<u64>, number: &mut u64) -> u32
    ensures { MatchOption known ((result ≡ HELD) × (number.new ≡ number.old)) (λ n. (result ≡ OK) × (number.new ≡ n)) }
{
    match known {
        Some(told) => {
            *number = told;
            OK
        }
        None => HELD,
    }
}

/// The number of changes made to all shards. A handle that holds no turns takes them for this.
#[tactic(auto, using(crate::proofs::Gives::gives_open, crate::proofs::Gives::gives_closed))]
#[unsafe(no_mangle)]
pub extern "C" fn cefrodil_moment(handle: &mut RawHandle, moment: &mut u64) -> u32
    ensures open { handle.new.live ≡ handle.old.live }
    ensures told { MomentGives (kept handle.old) (kept handle.new) moment.old moment.new result }
{
    if !handle.live {
        return CLOSED;
    }
    let told = handle.handle.held().moment();
    tell(told, moment)
}

/// How many keys the cache holds at most, shards all together.
#[tactic(auto, using(crate::proofs::Gives::gives_open, crate::proofs::Gives::gives_closed))]
#[unsafe(no_mangle)]
pub extern "C" fn cefrodil_capacity(handle: &mut RawHandle, capacity: &mut u64) -> u32
    ensures open { handle.new.live ≡ handle.old.live }
    ensures told { CapacityGives (kept handle.old) (kept handle.new) capacity.old capacity.new result }
{
    if !handle.live {
        return CLOSED;
    }
    *capacity = handle.handle.held().capacity();
    OK
}

/// How many keys the cache holds, by a handle that holds the turns, or in a turn at each shard: then it adds numbers of several moments.
#[tactic(auto, using(crate::proofs::Gives::gives_open, crate::proofs::Gives::gives_closed))]
#[unsafe(no_mangle)]
pub extern "C" fn cefrodil_len(handle: &mut RawHandle, len: &mut u64) -> u32
    ensures open { handle.new.live ≡ handle.old.live }
    ensures told { LenGives (kept handle.old) (kept handle.new) len.old len.new result }
{
    if !handle.live {
        return CLOSED;
    }
    let counted = handle.handle.held().len();
    tell(counted, len)
}
