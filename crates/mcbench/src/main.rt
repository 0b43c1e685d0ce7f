//! Measures the cache: times lookups and puts of many keys, in one thread or in several, and prints one line of JSON.
#![tactic(auto)]

mod beside;
mod callers;
mod calling;
mod fresh_puts;
mod growing;
mod keys;
mod lookups;
mod memory;
mod options;
mod report;
mod shards;
mod stopwatch;
mod tally;
mod tasks;
mod writes;

use crate::options::{Options, Workload, options_of};
use crate::report::Report;
use std::alloc::Global;
use std::process::ExitCode;
use std::rt::Runtime;
use std::thread::Threads;
use std::time::CpuClock;
use std::{env, io};

/// Measures what the options ask for.
fn measure<R: Runtime + AllocGlobal + CpuClock + Threads + Sync>(
    rt: &R,
    alloc: Global,
    options: &Options,
) -> io::Result<Report> {
    if options.shards > 0 {
        return shards::measure(rt, alloc, options);
    }
    match options.workload {
        Workload::Mixed | Workload::Half | Workload::Absent => beside::measure(rt, alloc, options),
        Workload::Grow => growing::measure(rt, alloc, options),
        _ => fresh_puts::measure(rt, alloc, options),
    }
}

/// Measures what the words ask for and prints it, or reports what is wrong with them. Returns the exit status.
fn answer<R: Runtime + AllocGlobal + CpuClock + Threads + Sync>(
    rt: &R,
    alloc: Global,
    words: &[String],
) -> io::Result<u8> {
    match options_of(alloc, words) {
        Ok(options) => {
            let report = measure(rt, alloc, &options)?;
            println!(rt; "{report}")?;
            Ok(0)
        }
        Err(error) => {
            error.print(rt)?;
            Ok(2)
        }
    }
}

/// The program over the words of the command line.
fn run<R: Runtime + AllocGlobal + CpuClock + Threads + Sync>(rt: &R) -> io::Result<u8> {
    let alloc = rt.alloc();
    let words: Vec<String> = env::args(rt)?.collect(alloc)?;
    answer(rt, alloc, words.as_slice())
}

fn main(rt: HostRuntime) -> ExitCode {
    match run(&rt) {
        Ok(status) => ExitCode::from(status),
        Err(error) => {
            let _ = eprintln!(rt; "mcbench: {error}");
            ExitCode::from(3)
        }
    }
}
