//! Writes the answer of a write to C's reply, each form of it by itself. A refusal and a put that failed are out of line, which saves
//! registers.
ghost use Rattle.std.specs.Prelude.{◌≡◌, Err, length};
ghost use Rattle.mc_door.specs.Swaps.{left_by, old_of_absent_bounded, old_of_bounded, old_of_evict, old_of_shown, old_of_swap, old_of_swap_if, old_of_swap_if_absent, old_of_take};
ghost use Rattle.mc_door.specs.Tellings.{absent_bounded_told, absent_put_bounded_told, bounded_told, done_told, evict_told, kept_told, not_evicted_told, not_put_told, plain, put_bounded_told, put_if_absent_told, put_if_told, put_told, removal_told, shown_told, swap_if_absent_told, swap_if_told, swap_told, stamped, take_if_told, take_told, told_since};
ghost use Rattle.mc_door.specs.declared.status.TheConstants.{PRESENT};

use crate::outcome::{EVICTED, Outcome, RawReply};
use crate::status;
use mc_cache::{
    AbsentError, Bounded, BoundedError, BoundedPut, Entry, Evict, EvictError, IfError, Put,
    PutError, Remove, Replaced, Spent, Swapped, Take, Why,
};
use std::convert::Infallible;

/// A status alone.
#[cold]
#[inline(never)]
pub(crate) fn refused(status: u32, reply: &mut RawReply) -> u32
    ensures { record { status = result; reply = reply.new } ≡ plain status }
{
    Outcome::plain(status).tell(reply)
}

#[cold]
#[inline(never)]
fn not_put(why: PutError, reply: &mut RawReply) -> u32
    ensures { record { status = result; reply = reply.new } ≡ not_put_told why }
{
    Outcome::not_put(why).tell(reply)
}

#[inline(always)]
fn done(put: Put, reply: &mut RawReply) -> u32
    ensures { record { status = result; reply = reply.new } ≡ done_told put }
{
    match put {
        Put::Renewed { at } => Outcome::renewed(at).tell(reply),
        Put::Stored { at, moves, evicted } => match evicted {
            None => Outcome::stored(at, moves).tell(reply),
            Some(key) => Outcome::evicted(at, moves, key).tell(reply),
        },
    }
}

#[inline(always)]
pub(crate) fn put(made: Result<Put, PutError>, reply: &mut RawReply) -> u32
    ensures { record { status = result; reply = reply.new } ≡ put_told made }
{
    match made {
        Ok(put) => done(put, reply),
        Err(why) => not_put(why, reply),
    }
}

#[inline(always)]
pub(crate) fn put_if(made: Result<u64, IfError>, reply: &mut RawReply) -> u32
    ensures { record { status = result; reply = reply.new } ≡ put_if_told made }
{
    match made {
        Ok(at) => Outcome::renewed(at).tell(reply),
        Err(why) => Outcome::not_put_if(why).tell(reply),
    }
}

fn present(since: u64, reply: &mut RawReply) -> u32
    ensures { record { status = result; reply = reply.new } ≡ told_since PRESENT since }
{
    Outcome::since(status::PRESENT, since).tell(reply)
}

fn not_absent(why: AbsentError, reply: &mut RawReply) -> u32
    ensures { record { status = result; reply = reply.new } ≡ put_if_absent_told (Err why) }
{
    match why {
        AbsentError::Present { since } => present(since, reply),
        AbsentError::Put(why) => not_put(why, reply),
    }
}

#[inline(always)]
pub(crate) fn put_if_absent(made: Result<Put, AbsentError>, reply: &mut RawReply) -> u32
    ensures { record { status = result; reply = reply.new } ≡ put_if_absent_told made }
{
    match made {
        Ok(put) => done(put, reply),
        Err(why) => not_absent(why, reply),
    }
}

#[inline(always)]
pub(crate) fn removal(made: Result<Remove, Spent>, reply: &mut RawReply) -> u32
    ensures { record { status = result; reply = reply.new } ≡ removal_told made }
{
    match made {
        Ok(Remove::Removed { at }) => Outcome::at(status::OK, at).tell(reply),
        Ok(Remove::NotThere { at }) => Outcome::at(status::ABSENT, at).tell(reply),
        Err(Spent) => refused(status::SPENT, reply),
    }
}

// Writes the entry that gave way, if one did: its value apart, its stamp to the reply.
#[inline(always)]
fn give<const V: usize>(entry: Option<Entry<V>>, old: &mut [u64], reply: &mut RawReply)
    requires { length old.old ≡ V }
    ensures value { old.new ≡ left_by entry.entry old.old }
    ensures stamp { reply.new ≡ stamped entry.entry reply.old }
{
    if let Some(entry) = entry {
        let value = entry.value;
        old.copy_from_slice(&value);
        reply.since = entry.since;
    }
}

pub(crate) fn swap<const V: usize>(
    made: Result<Swapped<V>, PutError>,
    old: &mut [u64],
    reply: &mut RawReply,
) -> u32
    requires { length old.old ≡ V }
    ensures told { record { status = result; reply = reply.new } ≡ swap_told made.entry }
    ensures old { old.new ≡ left_by (old_of_swap made.entry) old.old }
{
    match made {
        Ok(swapped) => {
            let status = done(swapped.put, reply);
            give(swapped.old, old, reply);
            status
        }
        Err(why) => not_put(why, reply),
    }
}

// What a put did that evicts no other key. If every item is in use, none has given way.
fn kept(made: Result<Put, Why>, reply: &mut RawReply) -> u32
    ensures { record { status = result; reply = reply.new } ≡ kept_told made }
{
    match made {
        Ok(put) => done(put, reply),
        Err(Why::NoPath) => refused(status::NO_PATH, reply),
        Err(Why::NoItem) => refused(status::ALL_RECENT, reply),
        Err(Why::Spent) => refused(status::SPENT, reply),
    }
}

fn not_evicted(why: EvictError, reply: &mut RawReply) -> u32
    ensures { record { status = result; reply = reply.new } ≡ not_evicted_told why }
{
    match why {
        EvictError::AllRecent => refused(status::ALL_RECENT, reply),
        EvictError::Spent => refused(status::SPENT, reply),
    }
}

#[inline(always)]
pub(crate) fn put_bounded(made: Result<BoundedPut, EvictError>, reply: &mut RawReply) -> u32
    ensures { record { status = result; reply = reply.new } ≡ put_bounded_told made }
{
    match made {
        Ok(BoundedPut::Put(told)) => put(told, reply),
        Ok(BoundedPut::Evicted { key, put }) => {
            let status = kept(put, reply);
            reply.evicted = key;
            reply.put = EVICTED;
            status
        }
        Err(why) => not_evicted(why, reply),
    }
}

#[inline(always)]
pub(crate) fn put_if_absent_bounded(
    made: Result<BoundedPut, BoundedError>,
    reply: &mut RawReply,
) -> u32
    ensures { record { status = result; reply = reply.new } ≡ absent_put_bounded_told made }
{
    match made {
        Ok(done) => put_bounded(Ok(done), reply),
        Err(BoundedError::Present { since }) => present(since, reply),
        Err(BoundedError::Evict(why)) => not_evicted(why, reply),
    }
}

pub(crate) fn swap_bounded<const V: usize>(
    made: Result<Bounded<V>, EvictError>,
    old: &mut [u64],
    reply: &mut RawReply,
) -> u32
    requires { length old.old ≡ V }
    ensures told { record { status = result; reply = reply.new } ≡ bounded_told made.entry }
    ensures old { old.new ≡ left_by (old_of_bounded made.entry) old.old }
{
    match made {
        Ok(Bounded::Swapped(swapped)) => swap(swapped, old, reply),
        Ok(Bounded::Evicted { old: evicted, put }) => {
            let status = kept(put, reply);
            reply.evicted = evicted.key;
            reply.put = EVICTED;
            give(Some(evicted), old, reply);
            status
        }
        Err(why) => not_evicted(why, reply),
    }
}

pub(crate) fn swap_if_absent_bounded<const V: usize>(
    made: Result<Bounded<V>, BoundedError>,
    old: &mut [u64],
    reply: &mut RawReply,
) -> u32
    requires { length old.old ≡ V }
    ensures told { record { status = result; reply = reply.new } ≡ absent_bounded_told made.entry }
    ensures old { old.new ≡ left_by (old_of_absent_bounded made.entry) old.old }
{
    match made {
        Ok(done) => swap_bounded(Ok(done), old, reply),
        Err(BoundedError::Present { since }) => present(since, reply),
        Err(BoundedError::Evict(why)) => not_evicted(why, reply),
    }
}

pub(crate) fn swap_if_absent<const V: usize>(
    made: Result<Swapped<V>, AbsentError>,
    old: &mut [u64],
    reply: &mut RawReply,
) -> u32
    requires { length old.old ≡ V }
    ensures told { record { status = result; reply = reply.new } ≡ swap_if_absent_told made.entry }
    ensures old { old.new ≡ left_by (old_of_swap_if_absent made.entry) old.old }
{
    match made {
        Ok(swapped) => swap(Ok(swapped), old, reply),
        Err(why) => not_absent(why, reply),
    }
}

pub(crate) fn swap_if<const V: usize>(
    made: Result<Replaced<V>, IfError>,
    old: &mut [u64],
    reply: &mut RawReply,
) -> u32
    requires { length old.old ≡ V }
    ensures told { record { status = result; reply = reply.new } ≡ swap_if_told made.entry }
    ensures old { old.new ≡ left_by (old_of_swap_if made.entry) old.old }
{
    match made {
        Ok(replaced) => {
            let status = Outcome::renewed(replaced.at).tell(reply);
            give(Some(replaced.old), old, reply);
            status
        }
        Err(why) => Outcome::not_put_if(why).tell(reply),
    }
}

pub(crate) fn take<const V: usize>(
    made: Result<Take<V>, Spent>,
    old: &mut [u64],
    reply: &mut RawReply,
) -> u32
    requires { length old.old ≡ V }
    ensures told { record { status = result; reply = reply.new } ≡ take_told made.entry }
    ensures old { old.new ≡ left_by (old_of_take made.entry) old.old }
{
    match made {
        Ok(Take::Taken { at, old: taken }) => {
            let status = Outcome::at(status::OK, at).tell(reply);
            give(Some(taken), old, reply);
            status
        }
        Ok(Take::NotThere { at }) => Outcome::at(status::ABSENT, at).tell(reply),
        Err(Spent) => refused(status::SPENT, reply),
    }
}

pub(crate) fn take_if<const V: usize>(
    made: Result<Replaced<V>, IfError>,
    old: &mut [u64],
    reply: &mut RawReply,
) -> u32
    requires { length old.old ≡ V }
    ensures told { record { status = result; reply = reply.new } ≡ take_if_told made.entry }
    ensures old { old.new ≡ left_by (old_of_swap_if made.entry) old.old }
{
    match made {
        Ok(taken) => {
            let status = Outcome::at(status::OK, taken.at).tell(reply);
            give(Some(taken.old), old, reply);
            status
        }
        Err(why) => Outcome::not_put_if(why).tell(reply),
    }
}

pub(crate) fn evict<const V: usize>(
    made: Result<Evict<V>, EvictError>,
    old: &mut [u64],
    reply: &mut RawReply,
) -> u32
    requires { length old.old ≡ V }
    ensures told { record { status = result; reply = reply.new } ≡ evict_told made.entry }
    ensures old { old.new ≡ left_by (old_of_evict made.entry) old.old }
{
    match made {
        Ok(Evict::Evicted { at, old: evicted }) => {
            let status = Outcome::at(status::OK, at).tell(reply);
            reply.evicted = evicted.key;
            give(Some(evicted), old, reply);
            status
        }
        Ok(Evict::Empty { at }) => Outcome::at(status::ABSENT, at).tell(reply),
        Err(why) => not_evicted(why, reply),
    }
}

pub(crate) fn shown<const V: usize>(
    made: Result<Option<Entry<V>>, Infallible>,
    old: &mut [u64],
    reply: &mut RawReply,
) -> u32
    requires { length old.old ≡ V }
    ensures told { record { status = result; reply = reply.new } ≡ shown_told made.entry }
    ensures old { old.new ≡ left_by (old_of_shown made.entry) old.old }
{
    match made {
        Ok(Some(entry)) => {
            let status = Outcome::plain(status::OK).tell(reply);
            reply.evicted = entry.key;
            give(Some(entry), old, reply);
            status
        }
        Ok(None) => refused(status::ABSENT, reply),
        Err(never) => match never {},
    }
}

// What a turn returned: the answer of its call, or that the try for it did not win.
macro_rules! in_turn {
    ($tried:expr, $reply:ident, $made:ident => $told:expr) => {{
        let $made = match $tried {
            Ok(done) => Ok(done),
            Err(DeskError::Call(why)) => Err(why),
            Err(DeskError::Held) => return tell::refused(crate::status::HELD, $reply),
        };
        $told
    }};
}

pub(crate) use in_turn;
