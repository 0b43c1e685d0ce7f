//! Writes that also return the entry which gives way, as C makes them.
ghost use Rattle.std.specs.Prelude.{◌≡◌, []};
ghost use Rattle.cefrodil.specs.Calls.{SwapGives};
ghost use Rattle.cefrodil.specs.Open.{kept};

use crate::raw_handle::{RawHandle, told_of_handle};
use mc_door::{RawReply, Swap};

/// Puts a key, and returns the entry that gives way. Its value is written to `old`.
#[tactic(auto, using(crate::proofs::Gives::gives_open, crate::proofs::Gives::gives_closed))]
#[unsafe(no_mangle)]
pub extern "C" fn cefrodil_swap(
    handle: &mut RawHandle,
    key: u64,
    value: &[u64],
    old: &mut [u64],
    reply: &mut RawReply,
) -> u32
    ensures open { handle.new.live ≡ handle.old.live }
    ensures told { SwapGives (kept handle.old) (kept handle.new) key Swap.Put value.now old.old old.new (record { status = result; reply = reply.new }) }
{
    told_of_handle!(handle, reply, held => held.swap(key, Swap::Put, value, old, reply))
}

/// Puts a key anew, if its last put was at the moment `since`, and returns the earlier entry.
#[tactic(auto, using(crate::proofs::Gives::gives_open, crate::proofs::Gives::gives_closed))]
#[unsafe(no_mangle)]
pub extern "C" fn cefrodil_swap_if(
    handle: &mut RawHandle,
    key: u64,
    since: u64,
    value: &[u64],
    old: &mut [u64],
    reply: &mut RawReply,
) -> u32
    ensures open { handle.new.live ≡ handle.old.live }
    ensures told { SwapGives (kept handle.old) (kept handle.new) key (Swap.PutIf since) value.now old.old old.new (record { status = result; reply = reply.new }) }
{
    told_of_handle!(handle, reply, held => held.swap(key, Swap::PutIf(since), value, old, reply))
}

/// Puts a key only if it is absent, and returns the entry that gives way: that of the key that is evicted.
#[tactic(auto, using(crate::proofs::Gives::gives_open, crate::proofs::Gives::gives_closed))]
#[unsafe(no_mangle)]
pub extern "C" fn cefrodil_swap_if_absent(
    handle: &mut RawHandle,
    key: u64,
    value: &[u64],
    old: &mut [u64],
    reply: &mut RawReply,
) -> u32
    ensures open { handle.new.live ≡ handle.old.live }
    ensures told { SwapGives (kept handle.old) (kept handle.new) key Swap.PutIfAbsent value.now old.old old.new (record { status = result; reply = reply.new }) }
{
    told_of_handle!(handle, reply, held => held.swap(key, Swap::PutIfAbsent, value, old, reply))
}

/// Puts a key into a shard that is to hold at most `most` keys, and returns the entry that gives way: if the key is new and the shard holds
/// as many, and at least one, another entry leaves first. `EVICTED` in the reply says so, also if the put then failed.
#[tactic(auto, using(crate::proofs::Gives::gives_open, crate::proofs::Gives::gives_closed))]
#[unsafe(no_mangle)]
pub extern "C" fn cefrodil_swap_bounded(
    handle: &mut RawHandle,
    key: u64,
    most: u32,
    value: &[u64],
    old: &mut [u64],
    reply: &mut RawReply,
) -> u32
    ensures open { handle.new.live ≡ handle.old.live }
    ensures told { SwapGives (kept handle.old) (kept handle.new) key (Swap.PutBounded most) value.now old.old old.new (record { status = result; reply = reply.new }) }
{
    told_of_handle!(handle, reply, held => held.swap(key, Swap::PutBounded(most), value, old, reply))
}

/// Puts a key as `cefrodil_swap_bounded` does, but only if it is absent.
#[tactic(auto, using(crate::proofs::Gives::gives_open, crate::proofs::Gives::gives_closed))]
#[unsafe(no_mangle)]
pub extern "C" fn cefrodil_swap_if_absent_bounded(
    handle: &mut RawHandle,
    key: u64,
    most: u32,
    value: &[u64],
    old: &mut [u64],
    reply: &mut RawReply,
) -> u32
    ensures open { handle.new.live ≡ handle.old.live }
    ensures told { SwapGives (kept handle.old) (kept handle.new) key (Swap.PutIfAbsentBounded most) value.now old.old old.new (record { status = result; reply = reply.new }) }
{
    told_of_handle!(handle, reply, held => held.swap(key, Swap::PutIfAbsentBounded(most), value, old, reply))
}

/// Takes a key out, if its last put was at the moment `since`, and returns its entry.
#[tactic(auto, using(crate::proofs::Gives::gives_open, crate::proofs::Gives::gives_closed))]
#[unsafe(no_mangle)]
pub extern "C" fn cefrodil_take_if(
    handle: &mut RawHandle,
    key: u64,
    since: u64,
    old: &mut [u64],
    reply: &mut RawReply,
) -> u32
    ensures open { handle.new.live ≡ handle.old.live }
    ensures told { SwapGives (kept handle.old) (kept handle.new) key (Swap.RemoveIf since) [] old.old old.new (record { status = result; reply = reply.new }) }
{
    told_of_handle!(handle, reply, held => held.swap(key, Swap::RemoveIf(since), &[], old, reply))
}

/// Takes out the entry that a full shard would give up next, in the shard of the key `near`, and returns it. Its value is written to `old`.
#[tactic(auto, using(crate::proofs::Gives::gives_open, crate::proofs::Gives::gives_closed))]
#[unsafe(no_mangle)]
pub extern "C" fn cefrodil_evict(
    handle: &mut RawHandle,
    near: u64,
    old: &mut [u64],
    reply: &mut RawReply,
) -> u32
    ensures open { handle.new.live ≡ handle.old.live }
    ensures told { SwapGives (kept handle.old) (kept handle.new) near Swap.Evict [] old.old old.new (record { status = result; reply = reply.new }) }
{
    told_of_handle!(handle, reply, held => held.swap(near, Swap::Evict, &[], old, reply))
}

/// Takes a key out, and returns its entry.
#[tactic(auto, using(crate::proofs::Gives::gives_open, crate::proofs::Gives::gives_closed))]
#[unsafe(no_mangle)]
pub extern "C" fn cefrodil_take(
    handle: &mut RawHandle,
    key: u64,
    old: &mut [u64],
    reply: &mut RawReply,
) -> u32
    ensures open { handle.new.live ≡ handle.old.live }
    ensures told { SwapGives (kept handle.old) (kept handle.new) key Swap.Remove [] old.old old.new (record { status = result; reply = reply.new }) }
{
    told_of_handle!(handle, reply, held => held.swap(key, Swap::Remove, &[], old, reply))
}

/// Shows the entry that lies in this item, in the shard of the key `near`. It is no use of the entry's key. Its value is written to `value`.
#[tactic(auto, using(crate::proofs::Gives::gives_open, crate::proofs::Gives::gives_closed))]
#[unsafe(no_mangle)]
pub extern "C" fn cefrodil_entry_at(
    handle: &mut RawHandle,
    near: u64,
    item: u32,
    value: &mut [u64],
    reply: &mut RawReply,
) -> u32
    ensures open { handle.new.live ≡ handle.old.live }
    ensures told { SwapGives (kept handle.old) (kept handle.new) near (Swap.Show item) [] value.old value.new (record { status = result; reply = reply.new }) }
{
    told_of_handle!(handle, reply, held => held.swap(near, Swap::Show(item), &[], value, reply))
}
