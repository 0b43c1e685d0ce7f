//! Threads that put keys, and look keys up between their puts.
use crate::callers::Caller;
use crate::keys::{Draw, key_of};
use crate::options::Options;
use crate::stopwatch::Stopwatch;
use crate::tally::Tally;
use crate::tasks::{Task, task_of};
use std::alloc::{AllocError, Global};
use std::thread::Threads;
use std::time::{Clock, CpuClock};
use std::{io, thread};

/// A caller, and what its thread is to do.
#[derive(Drop)]
struct Job<C: Caller> {
    caller: C,
    task: Task,
}

/// Makes 1024 calls, of which one in `every` tries once to put. The others look keys up.
#[inline(never)]
fn call_often<C: Caller>(caller: &mut C, task: Task, every: u32, draw: &mut Draw) -> Tally {
    let mut tally = Tally::default();
    let mut drawn = *draw;
    let mut left = every;
    for n in 0..1024u64 {
        let key = key_of(drawn.below(task.numbers));
        left = left.wrapping_sub(1);
        if left == 0 {
            left = every;
            tally.count_try(caller.try_put(key, [n; 4]));
        } else {
            tally.count_reply(caller.look_up(key));
        }
    }
    *draw = drawn;
    tally
}

/// Tries to put, and looks keys up, until the time is over.
fn call_on<C: Caller, R: Clock + CpuClock>(
    rt: &R,
    mut caller: C,
    task: Task,
    every: u32,
) -> io::Result<Tally> {
    let mut draw = Draw::new(task.seed);
    let mut tally = Tally::default();
    let watch = Stopwatch::start(rt, task.alone)?;
    for _ in 0..u64::MAX {
        let spent = watch.elapsed(rt)?;
        if spent >= task.time {
            return Ok(tally.over(spent));
        }
        tally = tally.and(call_often(&mut caller, task, every, &mut draw));
    }
    Ok(tally)
}

// A job for each caller. What they draw differs by their numbers.
fn jobs_of<C: Caller>(
    alloc: Global,
    mut callers: Vec<C>,
    options: &Options,
) -> Result<Vec<Job<C>>, AllocError> {
    let mut jobs = Vec::new(alloc);
    let mut number = 500;
    while let Some(caller) = callers.pop() {
        let task = task_of(options, number);
        jobs.push(Job { caller, task })?;
        number = number.wrapping_add(1);
    }
    Ok(jobs)
}

/// All callers make calls, each in a thread of its own.
pub(crate) fn call_in_threads<C: Caller, R: Threads + Sync + Clock + CpuClock>(
    rt: &R,
    alloc: Global,
    callers: Vec<C>,
    options: &Options,
) -> io::Result<Tally> {
    let jobs = jobs_of(alloc, callers, options)?;
    let every = options.write_every;
    let tallies = thread::map_vec(
        rt,
        jobs,
        &|job: Job<C>| -> io::Result<Tally> { call_on(rt, job.caller, job.task, every) },
    )?;
    let mut sum = Tally::default();
    for tally in tallies {
        sum = sum.and(tally?);
    }
    Ok(sum)
}
