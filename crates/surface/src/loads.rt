//! The loads and the programs: their calls, as in `calls`, and their types, as in `types`. Streams are queues of bytes here.
use mc_cache::OpenError;
use mc_core::{Change, Reply};
use mc_load::{
    DeskReport, Free, Gate, Load, LoadError, Record, ReplayError, Report, check, load, load_desk,
    replay, run_load, run_step,
};
use mc_words::{Checked, Shape};
use std::alloc::Global;
use std::collections::VecDeque;
use std::marker::Sync;
use std::thread::Threads;
use std::time::Clock;

/// `mc_load`: the loads and the programs, but for those that start threads.
pub fn calls_of_load() {
    const _: fn(
        Global,
        &Checked,
        u32,
        &mut VecDeque<u8>,
        &mut VecDeque<u8>,
    ) -> Result<(), ReplayError> = replay::<1, VecDeque<u8>, VecDeque<u8>>;
    const _: fn(&Free, u32, u64) -> bool = <Free as Gate>::before;
    const _: fn(&Free, u32, u64, Option<u64>) = <Free as Gate>::after;
    const _: fn(&[Change<1>], &[Record<1>]) -> u64 = check::<1>;
    const _: fn(Global, &[String], &mut VecDeque<u8>, &mut VecDeque<u8>, &mut VecDeque<u8>) -> u8 =
        run_step::<String, VecDeque<u8>, VecDeque<u8>, VecDeque<u8>>;
}

// Outside `main` no runtime is known to start threads, so these three are called, by functions of their signatures.

pub fn call_load<R: Threads + Sync, G: Gate>(
    rt: &R,
    alloc: Global,
    asked: Load,
    gate: &G,
) -> Result<Report, LoadError> {
    load::<1, R, G>(rt, alloc, asked, gate)
}

pub fn call_load_desk<R: Threads + Sync, G: Gate>(
    rt: &R,
    alloc: Global,
    asked: Load,
    writers: u32,
    gate: &G,
) -> Result<DeskReport, LoadError> {
    load_desk::<1, R, G>(rt, alloc, asked, writers, gate)
}

pub fn call_run_load<R: Threads + Sync + Clock>(
    rt: &R,
    alloc: Global,
    words: &[String],
    output: &mut VecDeque<u8>,
    errors: &mut VecDeque<u8>,
) -> u8 {
    run_load::<String, R, VecDeque<u8>, VecDeque<u8>>(rt, alloc, words, output, errors)
}

const _: Free = Free;

pub fn load_fields(load: Load) -> (Shape, u32, u32, u32, u64, u64) {
    let Load {
        shape,
        readers,
        lookups,
        writes,
        keys,
        seed,
    } = load;
    (shape, readers, lookups, writes, keys, seed)
}

pub fn record_fields(record: Record<1>) -> (u32, u64, Reply<1>) {
    let Record { reader, key, reply } = record;
    (reader, key, reply)
}

pub fn report_fields(report: Report) -> [u64; 7] {
    let Report {
        lookups,
        found,
        absent,
        busy,
        writes,
        changes,
        wrong,
    } = report;
    [lookups, found, absent, busy, writes, changes, wrong]
}

pub fn desk_report_fields(report: DeskReport) -> [u64; 9] {
    let DeskReport {
        lookups,
        found,
        absent,
        busy,
        calls,
        held,
        answered,
        changes,
        wrong,
    } = report;
    [
        lookups, found, absent, busy, calls, held, answered, changes, wrong,
    ]
}

pub fn replay_error_fields(error: ReplayError) -> (u64, u8) {
    let ReplayError { line, number } = error;
    (line, number)
}

pub fn load_error_variants(error: LoadError) {
    match error {
        LoadError::Open(error) => {
            let _: OpenError = error;
        }
        LoadError::Gate { who, call } => {
            let _: (u32, u64) = (who, call);
        }
        LoadError::NoMemory | LoadError::Keys | LoadError::Writers | LoadError::Shards => {}
    }
}
