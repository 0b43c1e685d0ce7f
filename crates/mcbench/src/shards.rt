//! Threads that write to a cache of shards.
ghost use Rattle.std.specs.Prelude.{All};
ghost use Rattle.mc_shards.specs.Sharded.{ArePassOf};

use crate::callers::InShards;
use crate::calling::call_in_threads;
use crate::keys::key_of;
use crate::memory::resident;
use crate::options::Options;
use crate::report::{Report, bytes_a_key};
use crate::tally::Tally;
use mc_shards::{Pass, Shards, open_spared, shard_shape};
use std::alloc::{AllocError, Global};
use std::io;
use std::rt::Files;
use std::thread::Threads;
use std::time::{Clock, CpuClock};

// Puts all keys.
fn fill(shards: &Shards<4>, pass: &mut Pass<4>, keys: u32) -> Tally
    requires { ArePassOf shards.now pass.old }
    ensures { ArePassOf shards.now pass.new }
{
    let mut tally = Tally::default();
    for n in 0..keys {
        tally.count_try(pass.try_put(shards, key_of(u64::from(n)), [0; 4]));
    }
    tally
}

// A caller for each pass.
fn callers_of<'p>(
    alloc: Global,
    shards: &'p Shards<4>,
    mut passes: Vec<Pass<4>>,
) -> Result<Vec<InShards<'p>>, AllocError>
    requires { All (ArePassOf shards.now) passes.items }
{
    let mut callers = Vec::new(alloc);
    while let Some(pass) = passes.pop() {
        callers.push(InShards { shards, pass })?;
    }
    Ok(callers)
}

// Fills open shards, and lets the threads work at them.
fn measure_open<R: Threads + Sync + Files + AllocGlobal + Clock + CpuClock>(
    rt: &R,
    alloc: Global,
    shards: &Shards<4>,
    mut passes: Vec<Pass<4>>,
    options: &Options,
    before: u64,
) -> io::Result<Report>
    requires { All (ArePassOf shards.now) passes.items }
{
    let Some(mut pass) = passes.pop() else {
        return Err(io::Error::other("no pass"));
    };
    let filled = fill(shards, &mut pass, options.keys);
    let bytes_key = bytes_a_key(before, resident(rt)?, options.keys);
    let mut written = call_in_threads(rt, alloc, callers_of(alloc, shards, passes)?, options)?;
    written.refused = written.refused.wrapping_add(filled.refused);
    written.evicted = written.evicted.wrapping_add(filled.evicted);
    Ok(Report {
        written,
        bytes_key,
        ..Report::default()
    })
}

/// Measures lookups and puts of keys that the shards hold, by threads that do both.
pub(crate) fn measure<R: Threads + Sync + Files + AllocGlobal + Clock + CpuClock>(
    rt: &R,
    alloc: Global,
    options: &Options,
) -> io::Result<Report> {
    let before = resident(rt)?;
    let Ok(shape) = shard_shape(options.capacity, options.shards) else {
        return Err(io::Error::other("there is no such shape"));
    };
    let seats = options.writers.saturating_add(1);
    let opened = open_spared::<4>(alloc, options.policy, shape, options.shards, seats, seats);
    let Ok((shards, passes, _)) = opened else {
        return Err(io::Error::other("the shards can't be opened"));
    };
    measure_open(rt, alloc, &shards, passes, options, before)
}
