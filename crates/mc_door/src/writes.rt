//! Writes of one key, generic over the side that makes them.
ghost use Rattle.std.specs.Prelude.{◌≡◌, [], length};
ghost use Rattle.mc_cache.specs.CallContracts.{put_contract};
ghost use Rattle.mc_door.specs.Turns.{HasCalledBy};
ghost use Rattle.mc_door.specs.Writes.{WriteMeans, words_in};

use crate::caller::Caller;
use crate::outcome::RawReply;
use crate::tell;
use crate::tell::in_turn;
use crate::words::array_of;
use crate::write::Write;
use mc_cache::calls::{
    Putting, PuttingBounded, PuttingIf, PuttingIfAbsent, PuttingIfAbsentBounded, Removing,
};
use mc_cache::{DeskError, Put, PutError};

/// A put that is compiled into its caller.
#[inline(always)]
pub(crate) fn put<const V: usize, S: Caller<V>>(
    side: &mut S,
    key: u64,
    value: &[u64],
    reply: &mut RawReply,
) -> u32
    requires { length value.now ≡ V }
    ensures { WriteMeans V (S.role side.old) (S.role side.new) key Write.Put value.now (record { status = result; reply = reply.new }) }
{
    let value = array_of::<V>(value);
    let tried = side.try_call(Putting(key, &value));
    in_turn!(tried, reply, made => tell::put(made, reply))
}

#[inline(never)]
fn put_apart<const V: usize, S: Caller<V>>(
    side: &mut S,
    key: u64,
    value: &[u64],
    reply: &mut RawReply,
) -> u32
    requires { length value.now ≡ V }
    ensures { WriteMeans V (S.role side.old) (S.role side.new) key Write.Put value.now (record { status = result; reply = reply.new }) }
{
    put(side, key, value, reply)
}

// Tries at most `tries` times, and at least once, one after the other without a pause.
fn try_within<const V: usize, S: Caller<V>>(
    side: &mut S,
    tries: u32,
    key: u64,
    value: &[u64; V],
) -> Result<Put, DeskError<PutError>>
    ensures { HasCalledBy (S.role side.old) (S.role side.new) key (put_contract V key value.now) result }
{
    for _ in 1..tries {
        match side.try_call(Putting(key, value)) {
            Err(DeskError::Held) => {}
            told => return told,
        }
    }
    side.try_call(Putting(key, value))
}

#[inline(never)]
fn put_within<const V: usize, S: Caller<V>>(
    side: &mut S,
    tries: u32,
    key: u64,
    value: &[u64],
    reply: &mut RawReply,
) -> u32
    requires { length value.now ≡ V }
    ensures { WriteMeans V (S.role side.old) (S.role side.new) key (Write.PutWithin tries) value.now (record { status = result; reply = reply.new }) }
{
    let value = array_of::<V>(value);
    let tried = try_within(side, tries, key, &value);
    in_turn!(tried, reply, made => tell::put(made, reply))
}

#[inline(never)]
fn put_if<const V: usize, S: Caller<V>>(
    side: &mut S,
    key: u64,
    since: u64,
    value: &[u64],
    reply: &mut RawReply,
) -> u32
    requires { length value.now ≡ V }
    ensures { WriteMeans V (S.role side.old) (S.role side.new) key (Write.PutIf since) value.now (record { status = result; reply = reply.new }) }
{
    let value = array_of::<V>(value);
    let tried = side.try_call(PuttingIf(key, since, &value));
    in_turn!(tried, reply, made => tell::put_if(made, reply))
}

#[inline(never)]
fn put_if_absent<const V: usize, S: Caller<V>>(
    side: &mut S,
    key: u64,
    value: &[u64],
    reply: &mut RawReply,
) -> u32
    requires { length value.now ≡ V }
    ensures { WriteMeans V (S.role side.old) (S.role side.new) key Write.PutIfAbsent value.now (record { status = result; reply = reply.new }) }
{
    let value = array_of::<V>(value);
    let tried = side.try_call(PuttingIfAbsent(key, &value));
    in_turn!(tried, reply, made => tell::put_if_absent(made, reply))
}

#[inline(never)]
fn put_bounded<const V: usize, S: Caller<V>>(
    side: &mut S,
    key: u64,
    most: u32,
    value: &[u64],
    reply: &mut RawReply,
) -> u32
    requires { length value.now ≡ V }
    ensures { WriteMeans V (S.role side.old) (S.role side.new) key (Write.PutBounded most) value.now (record { status = result; reply = reply.new }) }
{
    let value = array_of::<V>(value);
    let tried = side.try_call(PuttingBounded(key, most, &value));
    in_turn!(tried, reply, made => tell::put_bounded(made, reply))
}

#[inline(never)]
fn put_if_absent_bounded<const V: usize, S: Caller<V>>(
    side: &mut S,
    key: u64,
    most: u32,
    value: &[u64],
    reply: &mut RawReply,
) -> u32
    requires { length value.now ≡ V }
    ensures { WriteMeans V (S.role side.old) (S.role side.new) key (Write.PutIfAbsentBounded most) value.now (record { status = result; reply = reply.new }) }
{
    let value = array_of::<V>(value);
    let tried = side.try_call(PuttingIfAbsentBounded(key, most, &value));
    in_turn!(tried, reply, made => tell::put_if_absent_bounded(made, reply))
}

#[inline(never)]
fn remove<const V: usize, S: Caller<V>>(side: &mut S, key: u64, reply: &mut RawReply) -> u32
    ensures { WriteMeans V (S.role side.old) (S.role side.new) key Write.Remove [] (record { status = result; reply = reply.new }) }
{
    let tried = side.try_call(Removing(key));
    in_turn!(tried, reply, made => tell::removal(made, reply))
}

/// Any write.
#[inline(always)]
pub(crate) fn write<const V: usize, S: Caller<V>>(
    side: &mut S,
    key: u64,
    call: Write,
    value: &[u64],
    reply: &mut RawReply,
) -> u32
    requires { words_in V call value.now ≡ V }
    ensures { WriteMeans V (S.role side.old) (S.role side.new) key call value.now (record { status = result; reply = reply.new }) }
{
    match call {
        Write::Put => put_apart(side, key, value, reply),
        Write::PutWithin(tries) => put_within(side, tries, key, value, reply),
        Write::PutIf(since) => put_if(side, key, since, value, reply),
        Write::PutIfAbsent => put_if_absent(side, key, value, reply),
        Write::PutBounded(most) => put_bounded(side, key, most, value, reply),
        Write::PutIfAbsentBounded(most) => put_if_absent_bounded(side, key, most, value, reply),
        Write::Remove => remove::<V, S>(side, key, reply),
    }
}
