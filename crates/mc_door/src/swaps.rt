//! Writes of one key that also return the entry which gives way, generic over the side that makes them.
ghost use Rattle.std.specs.Prelude.{◌≡◌, [], length};
ghost use Rattle.mc_words.specs.Places.{IsWidth};
ghost use Rattle.mc_door.specs.Swaps.{SwapMeans, swap_words};

use crate::caller::Caller;
use crate::outcome::RawReply;
use crate::tell;
use crate::tell::in_turn;
use crate::words::array_of;
use crate::write::Swap;
use mc_cache::DeskError;
use mc_cache::calls::{
    Evicting, Showing, Swapping, SwappingBounded, SwappingIf, SwappingIfAbsent,
    SwappingIfAbsentBounded, Taking, TakingIf,
};

#[inline(never)]
fn swap_in<const V: usize, S: Caller<V>>(
    side: &mut S,
    key: u64,
    value: &[u64],
    old: &mut [u64],
    reply: &mut RawReply,
) -> u32
    requires width { IsWidth V }
    requires value { length value.now ≡ V }
    requires old { length old.old ≡ V }
    ensures { SwapMeans V (S.role side.old) (S.role side.new) key Swap.Put value.now old.old old.new (record { status = result; reply = reply.new }) }
{
    let value = array_of::<V>(value);
    let tried = side.try_call(Swapping(key, &value));
    in_turn!(tried, reply, made => tell::swap(made, old, reply))
}

#[inline(never)]
fn swap_if<const V: usize, S: Caller<V>>(
    side: &mut S,
    key: u64,
    since: u64,
    value: &[u64],
    old: &mut [u64],
    reply: &mut RawReply,
) -> u32
    requires width { IsWidth V }
    requires value { length value.now ≡ V }
    requires old { length old.old ≡ V }
    ensures { SwapMeans V (S.role side.old) (S.role side.new) key (Swap.PutIf since) value.now old.old old.new (record { status = result; reply = reply.new }) }
{
    let value = array_of::<V>(value);
    let tried = side.try_call(SwappingIf(key, since, &value));
    in_turn!(tried, reply, made => tell::swap_if(made, old, reply))
}

#[inline(never)]
fn swap_if_absent<const V: usize, S: Caller<V>>(
    side: &mut S,
    key: u64,
    value: &[u64],
    old: &mut [u64],
    reply: &mut RawReply,
) -> u32
    requires width { IsWidth V }
    requires value { length value.now ≡ V }
    requires old { length old.old ≡ V }
    ensures { SwapMeans V (S.role side.old) (S.role side.new) key Swap.PutIfAbsent value.now old.old old.new (record { status = result; reply = reply.new }) }
{
    let value = array_of::<V>(value);
    let tried = side.try_call(SwappingIfAbsent(key, &value));
    in_turn!(tried, reply, made => tell::swap_if_absent(made, old, reply))
}

#[inline(never)]
fn swap_bounded<const V: usize, S: Caller<V>>(
    side: &mut S,
    key: u64,
    most: u32,
    value: &[u64],
    old: &mut [u64],
    reply: &mut RawReply,
) -> u32
    requires width { IsWidth V }
    requires value { length value.now ≡ V }
    requires old { length old.old ≡ V }
    ensures { SwapMeans V (S.role side.old) (S.role side.new) key (Swap.PutBounded most) value.now old.old old.new (record { status = result; reply = reply.new }) }
{
    let value = array_of::<V>(value);
    let tried = side.try_call(SwappingBounded(key, most, &value));
    in_turn!(tried, reply, made => tell::swap_bounded(made, old, reply))
}

#[inline(never)]
fn swap_if_absent_bounded<const V: usize, S: Caller<V>>(
    side: &mut S,
    key: u64,
    most: u32,
    value: &[u64],
    old: &mut [u64],
    reply: &mut RawReply,
) -> u32
    requires width { IsWidth V }
    requires value { length value.now ≡ V }
    requires old { length old.old ≡ V }
    ensures { SwapMeans V (S.role side.old) (S.role side.new) key (Swap.PutIfAbsentBounded most) value.now old.old old.new (record { status = result; reply = reply.new }) }
{
    let value = array_of::<V>(value);
    let tried = side.try_call(SwappingIfAbsentBounded(key, most, &value));
    in_turn!(tried, reply, made => tell::swap_if_absent_bounded(made, old, reply))
}

#[inline(never)]
fn take<const V: usize, S: Caller<V>>(
    side: &mut S,
    key: u64,
    old: &mut [u64],
    reply: &mut RawReply,
) -> u32
    requires width { IsWidth V }
    requires old { length old.old ≡ V }
    ensures { SwapMeans V (S.role side.old) (S.role side.new) key Swap.Remove [] old.old old.new (record { status = result; reply = reply.new }) }
{
    let tried = side.try_call(Taking(key));
    in_turn!(tried, reply, made => tell::take(made, old, reply))
}

#[inline(never)]
fn take_if<const V: usize, S: Caller<V>>(
    side: &mut S,
    key: u64,
    since: u64,
    old: &mut [u64],
    reply: &mut RawReply,
) -> u32
    requires width { IsWidth V }
    requires old { length old.old ≡ V }
    ensures { SwapMeans V (S.role side.old) (S.role side.new) key (Swap.RemoveIf since) [] old.old old.new (record { status = result; reply = reply.new }) }
{
    let tried = side.try_call(TakingIf(key, since));
    in_turn!(tried, reply, made => tell::take_if(made, old, reply))
}

#[inline(never)]
fn evict<const V: usize, S: Caller<V>>(
    side: &mut S,
    near: u64,
    old: &mut [u64],
    reply: &mut RawReply,
) -> u32
    requires width { IsWidth V }
    requires old { length old.old ≡ V }
    ensures { SwapMeans V (S.role side.old) (S.role side.new) near Swap.Evict [] old.old old.new (record { status = result; reply = reply.new }) }
{
    let tried = side.try_call(Evicting(near));
    in_turn!(tried, reply, made => tell::evict(made, old, reply))
}

#[inline(never)]
fn show<const V: usize, S: Caller<V>>(
    side: &mut S,
    near: u64,
    item: u32,
    old: &mut [u64],
    reply: &mut RawReply,
) -> u32
    requires width { IsWidth V }
    requires old { length old.old ≡ V }
    ensures { SwapMeans V (S.role side.old) (S.role side.new) near (Swap.Show item) [] old.old old.new (record { status = result; reply = reply.new }) }
{
    let tried = side.try_call(Showing(near, item));
    in_turn!(tried, reply, made => tell::shown(made, old, reply))
}

/// Any of them.
#[inline(always)]
pub(crate) fn swap<const V: usize, S: Caller<V>>(
    side: &mut S,
    key: u64,
    call: Swap,
    value: &[u64],
    old: &mut [u64],
    reply: &mut RawReply,
) -> u32
    requires width { IsWidth V }
    requires value { swap_words V call value.now ≡ V }
    requires old { length old.old ≡ V }
    ensures { SwapMeans V (S.role side.old) (S.role side.new) key call value.now old.old old.new (record { status = result; reply = reply.new }) }
{
    match call {
        Swap::Put => swap_in(side, key, value, old, reply),
        Swap::PutIf(since) => swap_if(side, key, since, value, old, reply),
        Swap::PutIfAbsent => swap_if_absent(side, key, value, old, reply),
        Swap::PutBounded(most) => swap_bounded(side, key, most, value, old, reply),
        Swap::PutIfAbsentBounded(most) => {
            swap_if_absent_bounded(side, key, most, value, old, reply)
        }
        Swap::Remove => take::<V, S>(side, key, old, reply),
        Swap::RemoveIf(since) => take_if::<V, S>(side, key, since, old, reply),
        Swap::Evict => evict::<V, S>(side, key, old, reply),
        Swap::Show(item) => show::<V, S>(side, key, item, old, reply),
    }
}
