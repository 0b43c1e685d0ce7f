//! Runs one writer and several readers of a cache in threads, and checks every answer.
#![tactic(auto)]

use mc_load::run_load;
use std::process::ExitCode;
use std::{env, io};

/// The words of the command line.
fn words_of(rt: &HostRuntime) -> io::Result<Vec<String>> {
    Ok(env::args(rt)?.collect(rt.alloc())?)
}

fn main(rt: HostRuntime) -> ExitCode {
    let Ok(words) = words_of(&rt) else {
        let _ = eprintln!(rt; "refused: no memory");
        return ExitCode::from(3);
    };
    let mut output = io::writer(&rt);
    let mut errors = rt.stderr();
    let status = run_load(&rt, rt.alloc(), words.as_slice(), &mut output, &mut errors);
    ExitCode::from(status)
}
