//! A load with a single writer.
ghost use Rattle.std.specs.Prelude.{◌≡◌, [], All, MatchResult, Some, vec_len};
ghost use Rattle.mc_words.specs.Places.{IsWidth};
ghost use Rattle.mc_words.specs.Readers.{HasReaders};
ghost use Rattle.mc_words.specs.Shapes.{IsShape};
ghost use Rattle.mc_load.specs.Loads.{HasKeys, MayAskAtOnce, RefusesLoad, Reports};
ghost use Rattle.mc_load.specs.Inside.Handles.{cache_of};

use crate::asked::Load;
use crate::error::LoadError;
use crate::gate::Gate;
use crate::handle::Handle;
use crate::handles::cache_handles;
use crate::ready::{reader_threads_of, writer_thread_of};
use crate::refusing::refused_lookup;
use crate::report::Report;
use crate::run::run_all;
use crate::summing::report_of;
use mc_cache::{Cache, Writer, open_by};
use mc_words::Policy;
use std::alloc::Global;
use std::thread::Threads;

/// Runs the writer, and readers with these handles, and checks their answers.
fn run_workers<const V: usize, R: Threads + Sync, G: Gate>(
    rt: &R,
    alloc: Global,
    load: Load,
    many: u32,
    gate: &G,
    cache: &Cache<V>,
    writer: Writer<V>,
    handles: Vec<Handle<'_, V>>,
) -> Result<Report, LoadError>
    requires width { IsWidth V }
    requires keys { HasKeys load.keys }
    requires many { MayAskAtOnce many }
    requires asked { IsShape load.shape × HasReaders load.readers × (cache.now.layout.shape ≡ load.shape) }
    requires writer { (writer.of ≡ cache.now) × (writer.acts ≡ []) }
    requires handles { vec_len handles ≡ load.readers }
    requires of { All (λ h. cache_of h ≡ Some cache.now) handles.items }
    ensures { MatchResult result (Reports V load) (RefusesLoad (G.may_refuse gate.now) load) }
{
    let Ok(mut writer_threads) = writer_thread_of(alloc, load, cache, writer) else {
        return Err(LoadError::NoMemory);
    };
    let Ok(mut reader_threads) = reader_threads_of(alloc, load, many, handles) else {
        return Err(LoadError::NoMemory);
    };
    run_all(rt, gate, load, &mut writer_threads, &mut reader_threads);
    let Some(writer_thread) = writer_threads.pop() else {
        unreachable!();
    };
    if let Some(call) = writer_thread.refused {
        return Err(LoadError::Gate { who: 0, call });
    }
    match refused_lookup(reader_threads.as_slice()) {
        Some(refused) => Err(refused),
        None => Ok(report_of(alloc, load, writer_thread, reader_threads)),
    }
}

/// Runs a writer and its readers, each in a thread of its own, and checks the readers' answers. All memory is allocated before a worker
/// starts; between two calls a worker waits for nothing but the gate. A load whose gate may refuse no call, as `Free`, isn't refused by it.
/// Condition: a value has from 1 to 8 words.
pub fn load<const V: usize, R: Threads + Sync, G: Gate>(
    rt: &R,
    alloc: Global,
    load: Load,
    gate: &G,
) -> Result<Report, LoadError>
    requires width { IsWidth V }
    ensures { MatchResult result (Reports V load) (RefusesLoad (G.may_refuse gate.now) load) }
{
    load_many::<V, R, G>(rt, alloc, Policy::Clock, load, gate, 1)
}

/// Like `load`, but a reader looks `many` keys up by one call of `Reader::get_many`, in the order in which it draws them. The gate is asked
/// for each of them before that call, and gets each answer after it. If it refuses one, those before it are still looked up.
/// Condition: a value has from 1 to 8 words, and `many` is from 1 to 64.
pub fn load_many<const V: usize, R: Threads + Sync, G: Gate>(
    rt: &R,
    alloc: Global,
    policy: Policy,
    load: Load,
    gate: &G,
    many: u32,
) -> Result<Report, LoadError>
    requires width { IsWidth V }
    requires many { MayAskAtOnce many }
    ensures { MatchResult result (Reports V load) (RefusesLoad (G.may_refuse gate.now) load) }
{
    if load.keys == 0 || load.keys > 1 << 32 {
        return Err(LoadError::Keys);
    }
    let (cache, writer, readers) = match open_by::<V>(alloc, policy, load.shape, load.readers) {
        Ok(opened) => opened,
        Err(why) => return Err(LoadError::Open(why)),
    };
    match cache_handles(alloc, &cache, readers) {
        Ok(handles) => run_workers(rt, alloc, load, many, gate, &cache, writer, handles),
        Err(_) => Err(LoadError::NoMemory),
    }
}
