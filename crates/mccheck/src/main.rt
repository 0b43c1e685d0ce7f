//! Checks logs of a program: whether each answer is what the map held after the changes that it names.
#![tactic(auto)]

mod audit;
mod line;
mod reading;

use audit::{Report, audit};
use reading::{Refused, width_of};
use std::alloc::Global;
use std::process::ExitCode;
use std::{env, fs, io};

const VERSION: &str = "0.3.0";

const USAGE: &str = "usage: mccheck LOG..";

/// The exit statuses of answers that are wrong, of a log that is refused, and of a failure.
const WRONG: u8 = 1;

const REFUSED: u8 = 2;

const FAILED: u8 = 3;

/// The files that the command line names.
fn files_of(rt: &HostRuntime) -> io::Result<Vec<String>> {
    Ok(env::args(rt)?.skip(1).collect(rt.alloc())?)
}

/// The texts of the files, or the number of the first that can't be read.
fn texts_of(rt: &HostRuntime, files: &[String]) -> Result<Vec<String>, usize> {
    let mut texts = Vec::new(rt.alloc());
    for n in 0..files.len() {
        let Ok(text) = fs::read_to_string(rt, files[n].as_str()) else {
            return Err(n);
        };
        if texts.push(text).is_err() {
            return Err(n);
        }
    }
    Ok(texts)
}

/// Checks the logs, whose values have as many words as the first says.
fn check_all(alloc: Global, texts: &[String]) -> Result<Report, Refused> {
    match width_of(texts) {
        Some(1) => audit::<1>(alloc, texts),
        Some(2) => audit::<2>(alloc, texts),
        Some(3) => audit::<3>(alloc, texts),
        Some(4) => audit::<4>(alloc, texts),
        Some(5) => audit::<5>(alloc, texts),
        Some(6) => audit::<6>(alloc, texts),
        Some(7) => audit::<7>(alloc, texts),
        Some(8) => audit::<8>(alloc, texts),
        _ => Err(Refused::Line { file: 0, line: 1 }),
    }
}

/// Prints what was checked. The exit status is 0 if nothing is wrong.
fn print(rt: &HostRuntime, report: Report) -> io::Result<u8> {
    let Report {
        changes,
        answers,
        wrong,
    } = report;
    println!(rt; "changes {changes}\nanswers {answers}\nwrong {wrong}")?;
    Ok(if wrong == 0 { 0 } else { WRONG })
}

/// Says why nothing was checked.
fn refuse(rt: &HostRuntime, why: Refused, files: &[String]) -> u8 {
    match why {
        Refused::NoMemory => {
            let _ = eprintln!(rt; "refused: no memory");
            FAILED
        }
        Refused::Line { file, line } => {
            if file < files.len() {
                let _ = eprintln!(rt; "{}: line {line}: not a line of a log", files[file]);
            } else {
                let _ = eprintln!(rt; "{USAGE}");
            }
            REFUSED
        }
    }
}

/// Prints the version or the usage, if the command line asks for nothing else. Says whether it did.
fn tell_of_itself(rt: &HostRuntime, words: &[String]) -> io::Result<bool> {
    if words.len() != 1 {
        return Ok(false);
    }
    let word = words[0].as_str();
    if word == "--version" || word == "-V" {
        println!(rt; "mccheck {VERSION}")?;
        return Ok(true);
    }
    if word == "--help" || word == "-h" {
        println!(rt; "{USAGE}")?;
        return Ok(true);
    }
    Ok(false)
}

fn run(rt: &HostRuntime) -> io::Result<u8> {
    let files = files_of(rt)?;
    if tell_of_itself(rt, files.as_slice())? {
        return Ok(0);
    }
    match texts_of(rt, files.as_slice()) {
        Err(n) => {
            if n < files.len() {
                let _ = eprintln!(rt; "refused: cannot read {}", files[n]);
            }
            Ok(FAILED)
        }
        Ok(texts) => match check_all(rt.alloc(), texts.as_slice()) {
            Ok(report) => print(rt, report),
            Err(why) => Ok(refuse(rt, why, files.as_slice())),
        },
    }
}

fn main(rt: HostRuntime) -> ExitCode {
    ExitCode::from(run(&rt).unwrap_or(FAILED))
}
