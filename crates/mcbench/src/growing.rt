//! A full cache is closed, and its entries are taken into one with twice the buckets and items.
ghost use Rattle.std.specs.Prelude.{◌≡◌, IfOk};

use crate::fresh_puts::open_for;
use crate::options::Options;
use crate::report::Report;
use crate::stopwatch::Stopwatch;
use crate::tally::{Tally, nanos_of};
use crate::writes::put_all;
use mc_cache::{Cache, Opened, Shape, Writer, open_with};
use std::alloc::Global;
use std::io;
use std::time::{Clock, CpuClock};

// The shape with twice the buckets and items.
fn doubled(shape: Shape) -> Shape {
    Shape {
        buckets: shape.buckets.saturating_mul(2),
        items: shape.items.saturating_mul(2),
        ..shape
    }
}

// A cache that was filled, and its writer.
fn filled(alloc: Global, options: &Options) -> io::Result<(Cache<4>, Writer<4>)>
    ensures { IfOk result (λ r. r.1.of ≡ r.0) }
{
    let (cache, mut writer) = open_for(alloc, options)?;
    put_all(&cache, &mut writer, options.fresh(), options.capacity);
    Ok((cache, writer))
}

// The entries of a cache, and how many nanoseconds it took to list them.
fn listed<R: Clock + CpuClock>(
    rt: &R,
    alloc: Global,
    cache: Cache<4>,
    writer: Writer<4>,
) -> io::Result<(Vec<(u64, [u64; 4])>, u64)>
    requires { writer.of ≡ cache }
{
    let watch = Stopwatch::start(rt, true)?;
    let Ok(entries) = cache.close(alloc, writer, Vec::new(alloc)) else {
        return Err(io::Error::other("the cache can't be closed"));
    };
    let took = watch.elapsed(rt)?;
    Ok((entries, nanos_of(took)))
}

// The entries of a cache that is opened and filled for them.
fn entries_of<R: Clock + CpuClock>(
    rt: &R,
    alloc: Global,
    options: &Options,
) -> io::Result<(Vec<(u64, [u64; 4])>, u64)> {
    let (cache, writer) = filled(alloc, options)?;
    listed(rt, alloc, cache, writer)
}

// How many entries were put into a cache, and how many were left.
fn loaded(opened: Opened<4>) -> Tally {
    Tally {
        writes: opened.writer.moment(),
        refused: opened.left.len() as u64,
        ..Tally::default()
    }
}

// Opens a cache with the entries.
fn open_larger<R: Clock + CpuClock>(
    rt: &R,
    alloc: Global,
    larger: Shape,
    entries: &[(u64, [u64; 4])],
) -> io::Result<Tally> {
    let watch = Stopwatch::start(rt, true)?;
    let Ok(opened) = open_with::<4>(alloc, larger, 1, entries) else {
        return Err(io::Error::other("the larger cache can't be opened"));
    };
    let took = watch.elapsed(rt);
    let puts = loaded(opened);
    Ok(puts.over(took?))
}

/// Measures how long it takes to list the entries, and then to open a cache with them.
pub(crate) fn measure<R: Clock + CpuClock>(
    rt: &R,
    alloc: Global,
    options: &Options,
) -> io::Result<Report> {
    let (entries, listed_ns) = entries_of(rt, alloc, options)?;
    let written = open_larger(rt, alloc, doubled(options.shape()?), entries.as_slice())?;
    Ok(Report {
        written,
        listed_ns,
        ..Report::default()
    })
}
