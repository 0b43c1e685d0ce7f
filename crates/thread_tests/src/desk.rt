//! A writer on a desk: the answers to one thread alone, and to many that take turns.
ghost use Rattle.std.specs.Prelude.{◌≡◌, All, IfOk};

use crate::opened::open_for_one;
use crate::turns::{Caller, call_in_threads, history_of};
use mc_cache::calls::PuttingIfAbsent;
use mc_cache::{
    AbsentError, Cache, Desk, DeskError, IfError, Mix, Put, PutError, Reader, Remove, Reply, Shape,
    open,
};
use std::alloc::{AllocError, Global};
use std::test::Fail;
use std::thread;
use std::thread::Threads;

const SMALL: Shape = Shape {
    buckets: 4,
    items: 16,
    stripes: 1,
    depth: 2,
    tries: 2,
    limit: 1 << 62,
    mix: Mix::Plain,
};

fn stored(at: u64) -> Result<Put, DeskError<PutError>> {
    Ok(Put::Stored {
        at,
        moves: 0,
        evicted: None,
    })
}

fn found(value: u64, at: u64, since: u64) -> Reply<1> {
    Reply::Found {
        value: [value],
        at,
        since,
    }
}

// Whether a put, a lookup and a removal of a thread alone are answered, one after the other.
fn is_alone_answered(cache: &Cache<1>, desk: &Desk<1>, pass: &mut Reader<1>) -> bool
    requires { (desk.now ≡ cache.now) × (pass.old.of ≡ cache.now) }
{
    desk.try_put(cache, pass, 0, [7]) == stored(1)
        && pass.get_or_desk(cache, desk, 0) == found(7, 1, 1)
        && desk.try_remove(cache, pass, 0) == Ok(Remove::Removed { at: 2 })
}

#[test]
fn one_thread_is_never_held(rt: HostRuntime) -> Result<(), Fail> {
    let (cache, writer, mut pass) = open_for_one(rt.alloc(), SMALL)?;
    let desk = Desk::new(writer);
    let right = is_alone_answered(&cache, &desk, &mut pass);
    let moment = desk.end().map(|writer| writer.moment());
    assert!(rt; right && moment == Some(2));
    Ok(())
}

// Whether a put on a condition renews by the stamp, and otherwise returns why not.
fn goes_by_the_stamp(cache: &Cache<1>, desk: &Desk<1>, pass: &mut Reader<1>) -> bool
    requires { (desk.now ≡ cache.now) × (pass.old.of ≡ cache.now) }
{
    let changed = Err(DeskError::Call(IfError::Changed { since: 3 }));
    let not_there = Err(DeskError::Call(IfError::NotThere { at: 3 }));
    let present = Err(DeskError::Call(AbsentError::Present { since: 3 }));
    desk.try_put(cache, pass, 0, [7]) == stored(1)
        && desk.try_put(cache, pass, 1, [8]) == stored(2)
        && desk.try_put_if(cache, pass, 0, 1, [9]) == Ok(3)
        && desk.try_put_if(cache, pass, 0, 1, [10]) == changed
        && desk.try_put_if(cache, pass, 5, 0, [1]) == not_there
        && desk.try_call(cache, pass, PuttingIfAbsent(0, &[5])) == present
        && pass.get_or_desk(cache, desk, 0) == found(9, 3, 3)
}

#[test]
fn a_put_on_a_condition_is_told_why_not(rt: HostRuntime) -> Result<(), Fail> {
    let (cache, writer, mut pass) = open_for_one(rt.alloc(), SMALL)?;
    let desk = Desk::new(writer);
    assert!(rt; goes_by_the_stamp(&cache, &desk, &mut pass));
    Ok(())
}

/// Fewer keys than items, so that none is evicted.
fn wide(stripes: u32, tries: u8) -> Shape {
    Shape {
        buckets: 32,
        items: 64,
        stripes,
        depth: 2,
        tries,
        limit: 1 << 62,
        mix: Mix::Fmix,
    }
}

// A caller for each reader: `writers` of them write, the others only look keys up.
fn callers_of(
    alloc: Global,
    cache: &Cache<1>,
    mut readers: Vec<Reader<1>>,
    writers: u64,
) -> Result<Vec<Caller>, AllocError>
    requires { All (λ r. r.of ≡ cache.now) readers.items }
    ensures { IfOk result (λ callers. All (λ c. c.pass.of ≡ cache.now) callers.items) }
{
    let _cache = cache;
    let mut callers = Vec::new(alloc);
    let mut who = 0u64;
    while let Some(pass) = readers.pop() {
        callers.push(Caller::new(alloc, pass, who, who < writers)?)?;
        who = who.wrapping_add(1);
    }
    Ok(callers)
}

/// What came of the turns that threads took.
#[derive(Drop)]
struct Turns {
    /// All their answers are true of one history, which has each change that was made once.
    right: bool,
    /// A try was held.
    held: bool,
}

// `writers` writers have taken turns beside `readers` readers. Returns all of them, and the last moment.
fn callers_after<R: Threads + Sync>(
    rt: &R,
    alloc: Global,
    shape: Shape,
    writers: u32,
    readers: u32,
) -> Result<(Vec<Caller>, u64), Fail> {
    let (cache, writer, passes) = open::<1>(alloc, shape, writers.saturating_add(readers))?;
    let callers = callers_of(alloc, &cache, passes, writers as u64)?;
    let desk = Desk::new(writer);
    let callers = call_in_threads(rt, &cache, &desk, callers)?;
    match desk.end() {
        Some(writer) => Ok((callers, writer.moment())),
        None => Err(Fail::new("no writer")),
    }
}

// What came of the turns of these callers, after which this moment is the last.
fn turns_of(alloc: Global, callers: &[Caller], moment: u64) -> Result<Turns, Fail> {
    let Some(history) = history_of(alloc, callers, moment)? else {
        return Err(Fail::new("a moment is missing, or there twice"));
    };
    let mut right = history.len() > 0;
    let mut held = false;
    for caller in callers {
        right = right && caller.was_told_the_truth(history.as_slice());
        held = held || caller.was_held();
    }
    Ok(Turns { right, held })
}

/// How often threads take turns at most until a try is held.
const ROUNDS: u32 = 100;

// Whether a try is held in some round, and no thread gets an answer that isn't true. On one processor turns hardly ever meet, and none has
// to be held.
fn do_turns_meet<R: Threads + Sync>(
    rt: &R,
    alloc: Global,
    shape: Shape,
    writers: u32,
    readers: u32,
) -> Result<bool, Fail> {
    for _round in 0..ROUNDS {
        let (callers, moment) = callers_after(rt, alloc, shape, writers, readers)?;
        let turns = turns_of(alloc, callers.as_slice(), moment)?;
        if turns.held || !turns.right {
            return Ok(turns.right);
        }
    }
    Ok(thread::available_parallelism(rt)?.get() == 1)
}

#[test]
fn two_threads_take_turns_beside_two_readers(rt: HostRuntime) -> Result<(), Fail> {
    assert!(rt; do_turns_meet(&rt, rt.alloc(), wide(4, 2), 2, 2)?);
    Ok(())
}

#[test]
fn eight_threads_take_turns_beside_four_readers(rt: HostRuntime) -> Result<(), Fail> {
    assert!(rt; do_turns_meet(&rt, rt.alloc(), wide(4, 2), 8, 4)?);
    Ok(())
}

// One thread alone writes, so whoever holds it up looks a key up.
#[test]
fn a_busy_lookup_tries_for_the_turn(rt: HostRuntime) -> Result<(), Fail> {
    assert!(rt; do_turns_meet(&rt, rt.alloc(), wide(1, 1), 1, 3)?);
    Ok(())
}
