//! Writes, as C makes them: by a handle that holds the turns, or by one that tries for the turn of the key's shard.
ghost use Rattle.std.specs.Prelude.{◌≡◌, []};
ghost use Rattle.cefrodil.specs.Calls.{WriteGives};
ghost use Rattle.cefrodil.specs.Open.{kept};

use crate::raw_handle::{RawHandle, told_of_handle};
use mc_door::{RawReply, Write};

/// Puts a key.
#[tactic(auto, using(crate::proofs::Gives::gives_open, crate::proofs::Gives::gives_closed))]
#[unsafe(no_mangle)]
pub extern "C" fn cefrodil_put(
    handle: &mut RawHandle,
    key: u64,
    value: &[u64],
    reply: &mut RawReply,
) -> u32
    ensures open { handle.new.live ≡ handle.old.live }
    ensures told { WriteGives (kept handle.old) (kept handle.new) key Write.Put value.now (record { status = result; reply = reply.new }) }
{
    told_of_handle!(handle, reply, held => held.put(key, value, reply))
}

/// Puts a key anew, if its last put was at the moment `since`.
#[tactic(auto, using(crate::proofs::Gives::gives_open, crate::proofs::Gives::gives_closed))]
#[unsafe(no_mangle)]
pub extern "C" fn cefrodil_put_if(
    handle: &mut RawHandle,
    key: u64,
    since: u64,
    value: &[u64],
    reply: &mut RawReply,
) -> u32
    ensures open { handle.new.live ≡ handle.old.live }
    ensures told { WriteGives (kept handle.old) (kept handle.new) key (Write.PutIf since) value.now (record { status = result; reply = reply.new }) }
{
    told_of_handle!(handle, reply, held => held.write(key, Write::PutIf(since), value, reply))
}

/// Puts a key if it is absent.
#[tactic(auto, using(crate::proofs::Gives::gives_open, crate::proofs::Gives::gives_closed))]
#[unsafe(no_mangle)]
pub extern "C" fn cefrodil_put_if_absent(
    handle: &mut RawHandle,
    key: u64,
    value: &[u64],
    reply: &mut RawReply,
) -> u32
    ensures open { handle.new.live ≡ handle.old.live }
    ensures told { WriteGives (kept handle.old) (kept handle.new) key Write.PutIfAbsent value.now (record { status = result; reply = reply.new }) }
{
    told_of_handle!(handle, reply, held => held.write(key, Write::PutIfAbsent, value, reply))
}

/// Takes a key out.
#[tactic(auto, using(crate::proofs::Gives::gives_open, crate::proofs::Gives::gives_closed))]
#[unsafe(no_mangle)]
pub extern "C" fn cefrodil_remove(handle: &mut RawHandle, key: u64, reply: &mut RawReply) -> u32
    ensures open { handle.new.live ≡ handle.old.live }
    ensures told { WriteGives (kept handle.old) (kept handle.new) key Write.Remove [] (record { status = result; reply = reply.new }) }
{
    told_of_handle!(handle, reply, held => held.write(key, Write::Remove, &[], reply))
}

/// Puts a key. A handle that holds no turns tries at most `tries` times, and at least once.
#[tactic(auto, using(crate::proofs::Gives::gives_open, crate::proofs::Gives::gives_closed))]
#[unsafe(no_mangle)]
pub extern "C" fn cefrodil_put_within(
    handle: &mut RawHandle,
    tries: u32,
    key: u64,
    value: &[u64],
    reply: &mut RawReply,
) -> u32
    ensures open { handle.new.live ≡ handle.old.live }
    ensures told { WriteGives (kept handle.old) (kept handle.new) key (Write.PutWithin tries) value.now (record { status = result; reply = reply.new }) }
{
    told_of_handle!(handle, reply, held => held.write(key, Write::PutWithin(tries), value, reply))
}

/// Puts a key into a shard that is to hold at most `most` keys: if the key is new and the shard holds as many, and at least one, another key
/// leaves first. `EVICTED` in the reply says so, also if the put then failed.
#[tactic(auto, using(crate::proofs::Gives::gives_open, crate::proofs::Gives::gives_closed))]
#[unsafe(no_mangle)]
pub extern "C" fn cefrodil_put_bounded(
    handle: &mut RawHandle,
    key: u64,
    most: u32,
    value: &[u64],
    reply: &mut RawReply,
) -> u32
    ensures open { handle.new.live ≡ handle.old.live }
    ensures told { WriteGives (kept handle.old) (kept handle.new) key (Write.PutBounded most) value.now (record { status = result; reply = reply.new }) }
{
    told_of_handle!(handle, reply, held => held.write(key, Write::PutBounded(most), value, reply))
}

/// Puts a key as `cefrodil_put_bounded` does, but only if it is absent.
#[tactic(auto, using(crate::proofs::Gives::gives_open, crate::proofs::Gives::gives_closed))]
#[unsafe(no_mangle)]
pub extern "C" fn cefrodil_put_if_absent_bounded(
    handle: &mut RawHandle,
    key: u64,
    most: u32,
    value: &[u64],
    reply: &mut RawReply,
) -> u32
    ensures open { handle.new.live ≡ handle.old.live }
    ensures told { WriteGives (kept handle.old) (kept handle.new) key (Write.PutIfAbsentBounded most) value.now (record { status = result; reply = reply.new }) }
{
    told_of_handle!(handle, reply, held => held.write(key, Write::PutIfAbsentBounded(most), value, reply))
}
