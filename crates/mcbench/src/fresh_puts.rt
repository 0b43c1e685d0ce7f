//! Fresh keys, put into caches by one thread: into empty ones up to their capacity, or into a full one, which evicts.
ghost use Rattle.std.specs.Prelude.{◌≡◌, IfOk};

use crate::memory::resident;
use crate::options::{Options, Workload};
use crate::report::{Quotient, Report, bytes_a_key};
use crate::stopwatch::Stopwatch;
use crate::tally::Tally;
use crate::writes::{put_all, put_until_refused};
use mc_cache::{Cache, Writer, open_by};
use std::alloc::Global;
use std::io;
use std::rt::Files;
use std::time::{Clock, CpuClock, Duration};

/// A new cache, without readers.
pub(crate) fn open_for(alloc: Global, options: &Options) -> io::Result<(Cache<4>, Writer<4>)>
    ensures { IfOk result (λ r. r.1.of ≡ r.0) }
{
    let Ok((cache, writer, _readers)) = open_by::<4>(alloc, options.policy, options.shape()?, 1)
    else {
        return Err(io::Error::other("the cache can't be opened"));
    };
    Ok((cache, writer))
}

// Fills an open cache; `before` bytes were in memory before it was opened. Returns what was done, how long it took, and the memory by keys.
fn fill_open<R: Files + AllocGlobal + Clock + CpuClock>(
    rt: &R,
    cache: &Cache<4>,
    writer: &mut Writer<4>,
    first: u64,
    keys: u32,
    before: u64,
) -> io::Result<(Tally, Duration, Quotient)>
    requires { writer.old.of ≡ cache.now }
{
    let watch = Stopwatch::start(rt, true)?;
    let puts = put_all(cache, writer, first, keys);
    let took = watch.elapsed(rt)?;
    let bytes = bytes_a_key(before, resident(rt)?, keys);
    Ok((puts, took, bytes))
}

// Opens a cache and fills it. What was done, how long it took, and the memory by keys.
fn fill_one<R: Files + AllocGlobal + Clock + CpuClock>(
    rt: &R,
    alloc: Global,
    options: &Options,
    first: u64,
) -> io::Result<(Tally, Duration, Quotient)> {
    let before = resident(rt)?;
    let (cache, mut writer) = open_for(alloc, options)?;
    fill_open(rt, &cache, &mut writer, first, options.capacity, before)
}

// Fills caches until the time is over.
fn fill<R: Files + AllocGlobal + Clock + CpuClock>(
    rt: &R,
    alloc: Global,
    options: &Options,
) -> io::Result<Report> {
    let mut first = options.fresh();
    let (mut written, mut spent, bytes_key) = fill_one(rt, alloc, options, first)?;
    for _ in 0..u64::MAX {
        if spent >= options.time {
            break;
        }
        first = first.wrapping_add(u64::from(options.capacity));
        let (puts, took, _) = fill_one(rt, alloc, options, first)?;
        written = written.and(puts);
        spent = spent.saturating_add(took);
    }
    Ok(Report {
        written: written.over(spent),
        bytes_key,
        ..Report::default()
    })
}

// Puts fresh keys into a full cache until the time is over.
fn evict_on<R: Clock + CpuClock>(
    rt: &R,
    cache: &Cache<4>,
    writer: &mut Writer<4>,
    mut first: u64,
    time: Duration,
) -> io::Result<Tally>
    requires { writer.old.of ≡ cache.now }
{
    let mut written = Tally::default();
    let watch = Stopwatch::start(rt, true)?;
    for _ in 0..u64::MAX {
        let spent = watch.elapsed(rt)?;
        if spent >= time {
            return Ok(written.over(spent));
        }
        written = written.and(put_all(cache, writer, first, 1000));
        first = first.wrapping_add(1000);
    }
    Ok(written)
}

// Fills an open cache, puts as many keys again so that the hand has passed all items, and measures the evictions that follow.
fn evict_open<R: Clock + CpuClock>(
    rt: &R,
    cache: &Cache<4>,
    writer: &mut Writer<4>,
    options: &Options,
) -> io::Result<Tally>
    requires { writer.old.of ≡ cache.now }
{
    let capacity = options.capacity;
    let first = options.fresh();
    put_all(cache, writer, first, capacity);
    let first = first.wrapping_add(u64::from(capacity));
    put_all(cache, writer, first, capacity);
    let first = first.wrapping_add(u64::from(capacity));
    evict_on(rt, cache, writer, first, options.time)
}

// The evictions of a cache that is opened for them.
fn evict_one<R: Clock + CpuClock>(rt: &R, alloc: Global, options: &Options) -> io::Result<Tally> {
    let (cache, mut writer) = open_for(alloc, options)?;
    evict_open(rt, &cache, &mut writer, options)
}

fn evict<R: Clock + CpuClock>(rt: &R, alloc: Global, options: &Options) -> io::Result<Report> {
    let written = evict_one(rt, alloc, options)?;
    Ok(Report {
        written,
        ..Report::default()
    })
}

// Puts fresh keys into an open cache until one is refused, and at most `most`.
fn load_open<R: Clock + CpuClock>(
    rt: &R,
    cache: &Cache<4>,
    writer: &mut Writer<4>,
    first: u64,
    most: u32,
) -> io::Result<Tally>
    requires { writer.old.of ≡ cache.now }
{
    let watch = Stopwatch::start(rt, true)?;
    let written = put_until_refused(cache, writer, first, most);
    let spent = watch.elapsed(rt)?;
    Ok(written.over(spent))
}

// Puts fresh keys into a cache that is opened for them, until one is refused, and at most `most`.
fn load_one<R: Clock + CpuClock>(
    rt: &R,
    alloc: Global,
    options: &Options,
    most: u32,
) -> io::Result<Tally> {
    let (cache, mut writer) = open_for(alloc, options)?;
    load_open(rt, &cache, &mut writer, options.fresh(), most)
}

// Puts fresh keys until one is refused.
fn load<R: Clock + CpuClock>(rt: &R, alloc: Global, options: &Options) -> io::Result<Report> {
    let slots = options.shape()?.items;
    let written = load_one(rt, alloc, options, slots)?;
    Ok(Report {
        written,
        load_factor: Quotient {
            top: written.writes,
            bottom: u64::from(slots),
        },
        ..Report::default()
    })
}

/// Measures puts of fresh keys.
pub(crate) fn measure<R: Files + AllocGlobal + Clock + CpuClock>(
    rt: &R,
    alloc: Global,
    options: &Options,
) -> io::Result<Report> {
    match options.workload {
        Workload::Fill => fill(rt, alloc, options),
        Workload::Evict => evict(rt, alloc, options),
        _ => load(rt, alloc, options),
    }
}
