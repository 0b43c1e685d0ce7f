//! Loads whose writers take turns.
ghost use Rattle.std.specs.Prelude.{ℕ, ◌≡◌, ◌+◌, All, MatchResult, length, vec_len};
ghost use Rattle.mc_words.specs.Places.{IsWidth};
ghost use Rattle.mc_shards.specs.Sharded.{Sharded};
ghost use Rattle.mc_load.specs.Loads.{HasKeys};
ghost use Rattle.mc_load.specs.ShardLoads.{CanTakeTurns, HasWriters, RefusesTurns, ReportsTurns, RunsTurns};
ghost use Rattle.mc_load.specs.Inside.Handles.{place_of};

use crate::asked::Load;
use crate::error::LoadError;
use crate::gate::Gate;
use crate::handle::Handle;
use crate::handles::{desk_handles, shard_handles};
use crate::refusing::{refused_lookup, refused_try};
use crate::run::run_all;
use crate::turns::{DeskReport, MOST_WRITERS, TurnsRun};
use crate::turns_ready::{Seated, seat_workers, seats_of};
use crate::turns_summing::run_of;
use mc_cache::{Desk, open_by};
use mc_shards::{OpenShardsError, open_spared};
use mc_words::Policy;
use std::alloc::Global;
use std::thread::Threads;

/// Whether a load in turns has writers and keys.
fn check_asked(load: Load, writers: u32) -> Result<(), LoadError>
    ensures { MatchResult result (λ _. HasWriters writers × HasKeys load.keys)
        (λ why. (shards : ℕ) → RefusesTurns (λ _ _. ⊥) load shards writers why) }
{
    if writers == 0 || writers as usize > MOST_WRITERS {
        return Err(LoadError::Writers);
    }
    if load.keys == 0 || load.keys > 1 << 32 {
        return Err(LoadError::Keys);
    }
    Ok(())
}

/// Runs workers with these handles, and checks their answers.
fn run_workers<const V: usize, R: Threads + Sync, G: Gate>(
    rt: &R,
    alloc: Global,
    load: Load,
    shards: u32,
    writers: u32,
    gate: &G,
    handles: Vec<Handle<'_, V>>,
) -> Result<TurnsRun, LoadError>
    requires width { IsWidth V }
    requires asked { CanTakeTurns load shards writers }
    requires handles { vec_len handles ≡ load.readers + writers }
    requires opened { (s : Sharded) × (s.shape ≡ load.shape) × (length s.tables ≡ shards) × All (λ h. place_of h ≡ s) handles.items }
    ensures { MatchResult result (RunsTurns V load shards writers) (RefusesTurns (G.may_refuse gate.now) load shards writers) }
{
    let Ok(seated) = seat_workers(alloc, load, writers, handles) else {
        return Err(LoadError::NoMemory);
    };
    let Seated {
        mut turn_threads,
        mut reader_threads,
        audit,
    } = seated;
    run_all(rt, gate, load, &mut turn_threads, &mut reader_threads);
    if let Some(refused) = refused_try(turn_threads.as_slice()) {
        return Err(refused);
    }
    if let Some(refused) = refused_lookup(reader_threads.as_slice()) {
        return Err(refused);
    }
    let seated = Seated {
        turn_threads,
        reader_threads,
        audit,
    };
    Ok(run_of(alloc, load, shards, seated))
}

/// Like `load_desk`. It also returns what came of each writer's tries.
/// Condition: a value has from 1 to 8 words.
pub fn run_desk<const V: usize, R: Threads + Sync, G: Gate>(
    rt: &R,
    alloc: Global,
    policy: Policy,
    load: Load,
    writers: u32,
    gate: &G,
) -> Result<TurnsRun, LoadError>
    requires width { IsWidth V }
    ensures { MatchResult result (RunsTurns V load 1 writers) (RefusesTurns (G.may_refuse gate.now) load 1 writers) }
{
    if let Err(why) = check_asked(load, writers) {
        return Err(why);
    }
    let seats = seats_of(load.readers, writers);
    let (cache, writer, readers) = match open_by::<V>(alloc, policy, load.shape, seats) {
        Ok(opened) => opened,
        Err(why) => return Err(LoadError::Open(why)),
    };
    let desk = Desk::new(writer);
    match desk_handles(alloc, &cache, &desk, readers) {
        Ok(handles) => run_workers(rt, alloc, load, 1, writers, gate, handles),
        Err(_) => Err(LoadError::NoMemory),
    }
}

/// Like `load_shards`. It also returns what came of each writer's tries.
/// Condition: a value has from 1 to 8 words.
pub fn run_shards<const V: usize, R: Threads + Sync, G: Gate>(
    rt: &R,
    alloc: Global,
    policy: Policy,
    load: Load,
    shards: u32,
    writers: u32,
    gate: &G,
) -> Result<TurnsRun, LoadError>
    requires width { IsWidth V }
    ensures { MatchResult result (RunsTurns V load shards writers) (RefusesTurns (G.may_refuse gate.now) load shards writers) }
{
    if let Err(why) = check_asked(load, writers) {
        return Err(why);
    }
    let seats = seats_of(load.readers, writers);
    let (opened, passes, _) = match open_spared::<V>(
        alloc, policy, load.shape, shards, seats, seats,
    ) {
        Ok(opened) => opened,
        Err(OpenShardsError::Shards) => return Err(LoadError::Shards),
        Err(OpenShardsError::Open(why)) => return Err(LoadError::Open(why)),
    };
    match shard_handles(alloc, &opened, passes) {
        Ok(handles) => run_workers(rt, alloc, load, shards, writers, gate, handles),
        Err(_) => Err(LoadError::NoMemory),
    }
}

/// Opens a cache with its writer on a desk, runs from 1 to 8 writers and the readers, each in a thread of its own, and checks their
/// answers. Each writer makes the load's number of calls, each by one try for the turn, and each word of a value that it puts names
/// the call and the writer. A reader whose lookup is `Busy` tries for the turn too. All memory is allocated before a worker starts; between
/// two calls a worker waits for nothing but the gate.
///
/// Writer 0 is worker 0, and the others follow the readers. Readers and writers are at most 1024 together. Only tests show that the
/// report's `wrong` is 0.
/// Condition: a value has from 1 to 8 words.
pub fn load_desk<const V: usize, R: Threads + Sync, G: Gate>(
    rt: &R,
    alloc: Global,
    load: Load,
    writers: u32,
    gate: &G,
) -> Result<DeskReport, LoadError>
    requires width { IsWidth V }
    ensures { MatchResult result (ReportsTurns V load 1 writers) (RefusesTurns (G.may_refuse gate.now) load 1 writers) }
{
    match run_desk::<V, R, G>(rt, alloc, Policy::Clock, load, writers, gate) {
        Ok(run) => Ok(run.report),
        Err(why) => Err(why),
    }
}

/// Like `load_desk`, on `shards` shards, each of the load's shape: a writer tries for the turn of its key's shard, and the answers are
/// checked shard by shard.
/// Condition: a value has from 1 to 8 words.
pub fn load_shards<const V: usize, R: Threads + Sync, G: Gate>(
    rt: &R,
    alloc: Global,
    load: Load,
    shards: u32,
    writers: u32,
    gate: &G,
) -> Result<DeskReport, LoadError>
    requires width { IsWidth V }
    ensures { MatchResult result (ReportsTurns V load shards writers) (RefusesTurns (G.may_refuse gate.now) load shards writers) }
{
    match run_shards::<V, R, G>(rt, alloc, Policy::Clock, load, shards, writers, gate) {
        Ok(run) => Ok(run.report),
        Err(why) => Err(why),
    }
}
