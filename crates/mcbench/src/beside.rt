//! Readers and writers, each in a thread of its own.
ghost use Rattle.std.specs.Prelude.{◌≡◌, All, IfOk};

use crate::callers::{Alone, AtDesk, Caller};
use crate::calling::call_in_threads;
use crate::lookups::look_on;
use crate::memory::resident;
use crate::options::Options;
use crate::report::{Quotient, Report, bytes_a_key};
use crate::tally::Tally;
use crate::tasks::{Task, task_of};
use crate::writes::{get_all, put_all};
use mc_cache::{Cache, Desk, Reader, Writer, open_by};
use std::alloc::{AllocError, Global};
use std::rt::Files;
use std::thread::{Threads, join};
use std::time::{Clock, CpuClock};
use std::{io, thread};

/// A reader, and what it is to do.
#[derive(Drop)]
struct Job {
    pub reader: Reader<4>,
    pub task: Task,
}

// A job for each reader of the cache. What they draw differs by their numbers.
fn jobs_of(
    alloc: Global,
    cache: &Cache<4>,
    mut readers: Vec<Reader<4>>,
    options: &Options,
) -> Result<Vec<Job>, AllocError>
    requires { All (λ r. r.of ≡ cache.now) readers.items }
    ensures { IfOk result (λ jobs. All (λ job. job.reader.of ≡ cache.now) jobs.items) }
{
    let _cache = cache;
    let mut jobs = Vec::new(alloc);
    let mut number = 0;
    while let Some(reader) = readers.pop() {
        let task = task_of(options, number);
        jobs.push(Job { reader, task })?;
        number = number.wrapping_add(1);
    }
    Ok(jobs)
}

// All readers look keys up.
fn look_in_threads<R: Threads + Sync + Clock + CpuClock>(
    rt: &R,
    alloc: Global,
    cache: &Cache<4>,
    readers: Vec<Reader<4>>,
    options: &Options,
) -> io::Result<Tally>
    requires { All (λ r. r.of ≡ cache.now) readers.items }
{
    let jobs = jobs_of(alloc, cache, readers, options)?;
    let tallies = thread::map_vec(
        rt,
        jobs,
        &|job: Job| -> io::Result<Tally>
            requires { job.reader.of ≡ cache.now }
        { look_on(rt, cache, job.reader, job.task) },
    )?;
    let mut sum = Tally::default();
    for tally in tallies {
        sum = sum.and(tally?);
    }
    Ok(sum)
}

// The readers look keys up and the callers put them, each in a thread of its own: what the readers did, and what the callers did.
fn work<C: Caller, R: Threads + Sync + Clock + CpuClock>(
    rt: &R,
    alloc: Global,
    cache: &Cache<4>,
    callers: Vec<C>,
    readers: Vec<Reader<4>>,
    options: &Options,
) -> io::Result<(Tally, Tally)>
    requires { All (λ r. r.of ≡ cache.now) readers.items }
{
    if options.writers == 0 {
        let looked = look_in_threads(rt, alloc, cache, readers, options)?;
        return Ok((looked, Tally::default()));
    }
    if options.readers == 0 {
        let called = call_in_threads(rt, alloc, callers, options)?;
        return Ok((Tally::default(), called));
    }
    let (looked, called) = join(
        rt,
        || -> io::Result<Tally>
            requires { All (λ r. r.of ≡ cache.now) readers.items }
        { look_in_threads(rt, alloc, cache, readers, options) },
        || -> io::Result<Tally> { call_in_threads(rt, alloc, callers, options) },
    );
    Ok((looked?, called?))
}

// Takes `many` of the readers, for passes of the desk.
fn passes_of<'p>(
    alloc: Global,
    cache: &'p Cache<4>,
    desk: &'p Desk<4>,
    readers: &mut Vec<Reader<4>>,
    many: u32,
) -> Result<Vec<AtDesk<'p>>, AllocError>
    requires desk { desk.now ≡ cache.now }
    requires readers { All (λ r. r.of ≡ cache.now) readers.old.items }
    ensures left { All (λ r. r.of ≡ cache.now) readers.new.items }
{
    let mut passes = Vec::new(alloc);
    for _pass in 0..many {
        let Some(pass) = readers.pop() else {
            break;
        };
        passes.push(AtDesk { cache, desk, pass })?;
    }
    Ok(passes)
}

// The readers work beside the writer, or beside threads that share it by turns.
fn work_as_asked<R: Threads + Sync + Clock + CpuClock>(
    rt: &R,
    alloc: Global,
    cache: &Cache<4>,
    writer: Writer<4>,
    mut readers: Vec<Reader<4>>,
    options: &Options,
) -> io::Result<(Tally, Tally)>
    requires writer { writer.of ≡ cache.now }
    requires readers { All (λ r. r.of ≡ cache.now) readers.items }
{
    if options.writers > 1 {
        let desk = Desk::new(writer);
        let passes = passes_of(alloc, cache, &desk, &mut readers, options.writers)?;
        return work(rt, alloc, cache, passes, readers, options);
    }
    let mut alone = Vec::new(alloc);
    alone.push(Alone { cache, writer })?;
    work(rt, alloc, cache, alone, readers, options)
}

// Puts the keys and looks them up. Returns how many were refused, and the memory that the keys added to `before` bytes.
fn fill<R: Files + AllocGlobal>(
    rt: &R,
    cache: &Cache<4>,
    writer: &mut Writer<4>,
    keys: u32,
    before: u64,
) -> io::Result<(u64, Quotient)>
    requires { writer.old.of ≡ cache.now }
    ensures { writer.new.of ≡ writer.old.of }
{
    let filled = put_all(cache, writer, 0, keys);
    let bytes_key = bytes_a_key(before, resident(rt)?, keys);
    get_all(cache, writer, keys);
    Ok((filled.refused, bytes_key))
}

// Fills an open cache, and lets the threads work at it.
fn measure_open<R: Threads + Sync + Files + AllocGlobal + Clock + CpuClock>(
    rt: &R,
    alloc: Global,
    cache: &Cache<4>,
    mut writer: Writer<4>,
    readers: Vec<Reader<4>>,
    options: &Options,
    before: u64,
) -> io::Result<Report>
    requires writer { writer.of ≡ cache.now }
    requires readers { All (λ r. r.of ≡ cache.now) readers.items }
{
    let (refused, bytes_key) = fill(rt, cache, &mut writer, options.keys, before)?;
    let (looked, mut written) = work_as_asked(rt, alloc, cache, writer, readers, options)?;
    written.refused = written.refused.wrapping_add(refused);
    Ok(Report {
        looked,
        written,
        bytes_key,
        ..Report::default()
    })
}

/// Measures lookups and puts of keys that the cache holds, or lookups of keys of which it holds none or half.
pub(crate) fn measure<R: Threads + Sync + Files + AllocGlobal + Clock + CpuClock>(
    rt: &R,
    alloc: Global,
    options: &Options,
) -> io::Result<Report> {
    let before = resident(rt)?;
    let opened = open_by::<4>(alloc, options.policy, options.shape()?, options.seats());
    let Ok((cache, writer, readers)) = opened else {
        return Err(io::Error::other("the cache can't be opened"));
    };
    measure_open(rt, alloc, &cache, writer, readers, options, before)
}
