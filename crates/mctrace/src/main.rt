//! Writes each step of a script of cache calls from standard input.
#![tactic(auto)]

use mc_trace::run_trace;
use std::io::BufReader;
use std::process::ExitCode;
use std::{env, io};

/// The program over the process's own words and streams.
fn run(rt: &HostRuntime) -> io::Result<u8> {
    let alloc = rt.alloc();
    let words: Vec<String> = env::args(rt)?.collect(alloc)?;
    let mut input = BufReader::new(alloc, rt.reader())?;
    Ok(run_trace(
        alloc,
        words.as_slice(),
        &mut input,
        &mut io::writer(rt),
        &mut rt.stderr(),
    ))
}

fn main(rt: HostRuntime) -> ExitCode {
    match run(&rt) {
        Ok(status) => ExitCode::from(status),
        Err(_) => {
            let _ = eprintln!(rt; "refused: no memory");
            ExitCode::from(3)
        }
    }
}
