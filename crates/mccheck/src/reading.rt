//! What logs say: changes and answers.
ghost use Rattle.mc_words.specs.Places.{IsWidth};

use crate::line::{Said, parse};
use mc_check::Record;
use mc_words::Change;
use std::alloc::Global;

/// A change with its number.
#[derive(Clone, Copy)]
pub struct Dated<const V: usize> {
    pub at: u64,
    pub change: Change<V>,
}

/// The changes and answers of some logs.
#[derive(Drop)]
pub struct Log<const V: usize> {
    pub changes: Vec<Dated<V>>,
    pub answers: Vec<Record<V>>,
}

/// Why logs are not checked.
#[derive(Clone, Copy)]
pub enum Refused {
    NoMemory,
    /// This line of this file doesn't belong to a log whose values have this many words.
    Line { file: usize, line: u64 },
}

/// How many words a value has by the first line of the first log.
pub fn width_of(texts: &[String]) -> Option<u64> {
    let line = texts.first()?.as_str().lines().next()?;
    match parse::<1>(line) {
        Some(Said::Width(words)) => Some(words),
        _ => None,
    }
}

/// Adds one line. `false` if it is no line of a log.
fn take_line<const V: usize>(log: &mut Log<V>, line: &str) -> Result<bool, Refused>
    requires { IsWidth V }
{
    match parse::<V>(line) {
        Some(Said::Change(at, change)) => match log.changes.push(Dated { at, change }) {
            Ok(()) => Ok(true),
            Err(_) => Err(Refused::NoMemory),
        },
        Some(Said::Answer(record)) => match log.answers.push(record) {
            Ok(()) => Ok(true),
            Err(_) => Err(Refused::NoMemory),
        },
        Some(Said::Width(words)) => Ok(words == V as u64),
        Some(Said::Nothing) => Ok(true),
        None => Ok(false),
    }
}

/// Adds the lines of one file.
fn take_file<const V: usize>(log: &mut Log<V>, file: usize, text: &str) -> Result<(), Refused>
    requires { IsWidth V }
{
    let mut number = 0u64;
    for line in text.lines() {
        number = number.saturating_add(1);
        if !take_line(log, line)? {
            return Err(Refused::Line { file, line: number });
        }
    }
    Ok(())
}

/// Reads logs of values of `V` words.
pub fn read_all<const V: usize>(alloc: Global, texts: &[String]) -> Result<Log<V>, Refused>
    requires { IsWidth V }
{
    let mut log = Log {
        changes: Vec::new(alloc),
        answers: Vec::new(alloc),
    };
    for file in 0..texts.len() {
        take_file(&mut log, file, texts[file].as_str())?;
    }
    Ok(log)
}
