//! Lookups, as C calls them.
ghost use Rattle.std.specs.Prelude.{◌≡◌};
ghost use Rattle.cefrodil.specs.Calls.{GetGives, GetOrTurnGives, PeekGives};
ghost use Rattle.cefrodil.specs.Open.{kept};

use crate::raw_handle::{RawHandle, told_of_handle};
use mc_door::RawReply;

/// Looks the key up. The value is written only if the key was found.
#[tactic(auto, using(crate::proofs::Gives::gives_open, crate::proofs::Gives::gives_closed))]
#[unsafe(no_mangle)]
pub extern "C" fn cefrodil_get(
    handle: &mut RawHandle,
    key: u64,
    value: &mut [u64],
    reply: &mut RawReply,
) -> u32
    ensures open { handle.new.live ≡ handle.old.live }
    ensures told { GetGives (kept handle.old) (kept handle.new) key value.old value.new (record { status = result; reply = reply.new }) }
{
    told_of_handle!(handle, reply, held => held.get(key, value, reply))
}

/// Looks the key up. If the lookup is busy, tries once for the turn of the key's shard. With the turn, it always gets an answer.
#[tactic(auto, using(crate::proofs::Gives::gives_open, crate::proofs::Gives::gives_closed))]
#[unsafe(no_mangle)]
pub extern "C" fn cefrodil_get_or_turn(
    handle: &mut RawHandle,
    key: u64,
    value: &mut [u64],
    reply: &mut RawReply,
) -> u32
    ensures open { handle.new.live ≡ handle.old.live }
    ensures told { GetOrTurnGives (kept handle.old) (kept handle.new) key value.old value.new (record { status = result; reply = reply.new }) }
{
    told_of_handle!(handle, reply, held => held.get_or_turn(key, value, reply))
}

/// What the map holds of the key, by a handle that holds the turns, or in a turn. It marks nothing.
#[tactic(auto, using(crate::proofs::Gives::gives_open, crate::proofs::Gives::gives_closed))]
#[unsafe(no_mangle)]
pub extern "C" fn cefrodil_peek(
    handle: &mut RawHandle,
    key: u64,
    value: &mut [u64],
    reply: &mut RawReply,
) -> u32
    ensures open { handle.new.live ≡ handle.old.live }
    ensures told { PeekGives (kept handle.old) (kept handle.new) key value.old value.new (record { status = result; reply = reply.new }) }
{
    told_of_handle!(handle, reply, held => held.peek(key, value, reply))
}
