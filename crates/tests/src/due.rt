//! The line that a plain map expects, compared word by word as it is written.
use std::fmt;
use std::fmt::Write;

/// What a line of a script answers.
#[derive(Clone, Copy)]
pub(crate) enum Due {
    /// The moment, the moves, and the key that was evicted.
    Stored(usize, u64, Option<u64>),
    Renewed(usize),
    /// The stamp that the key has.
    Changed(usize),
    Removed(usize),
    NotThere(usize),
    /// The value and the moment.
    Found(u64, usize),
    /// Like `Found`, and the stamp.
    Stamped(u64, usize, usize),
    Absent(usize),
    /// The key of an entry that is left, as no path leads to a hole, or no item is free.
    NoPath(u64),
    NoItem(u64),
    /// The moment of another world, and how many entries were left.
    Reopened(usize, usize),
    /// The start of the line that reports what a lookup of this reader found.
    Reader(usize),
}

impl fmt::Display for Due {
    fn fmt<W: fmt::Write>(&self, f: &mut fmt::Formatter<W>) -> fmt::Result {
        match self {
            Due::Stored(at, moves, None) => write!(f, "stored at {at} moves {moves}"),
            Due::Stored(at, moves, Some(key)) => {
                write!(f, "stored at {at} moves {moves} evicted {key}")
            }
            Due::Renewed(at) => write!(f, "renewed at {at}"),
            Due::Changed(since) => write!(f, "refused changed since {since}"),
            Due::Removed(at) => write!(f, "removed at {at}"),
            Due::NotThere(at) => write!(f, "not there at {at}"),
            Due::Found(value, at) => write!(f, "found {value} at {at}"),
            Due::Stamped(value, at, since) => write!(f, "found {value} at {at} since {since}"),
            Due::Absent(at) => write!(f, "absent at {at}"),
            Due::NoPath(key) => write!(f, "left {key} no path"),
            Due::NoItem(key) => write!(f, "left {key} no item"),
            Due::Reopened(at, left) => write!(f, "reopened at {at} left {left}"),
            Due::Reader(reader) => write!(f, "reader {reader} "),
        }
    }
}

/// The part of a line that is not written yet. It takes only the text that comes next in the line.
#[derive(Drop)]
struct Rest<'a>(&'a str);

impl<'a> Write for Rest<'a> {
    fn write_str(&mut self, s: &str) -> fmt::Result {
        match self.0.strip_prefix(s) {
            Some(rest) => {
                self.0 = rest;
                Ok(())
            }
            None => Err(fmt::Error),
        }
    }
}

/// The rest of a line that begins so.
pub(crate) fn rest_behind(due: Due, told: &str) -> Option<&str> {
    let mut rest = Rest(told);
    match rest.write(due) {
        Ok(()) => Some(rest.0),
        Err(_) => None,
    }
}

impl Due {
    /// Whether this is the line.
    pub(crate) fn is(self, told: &str) -> bool {
        match rest_behind(self, told) {
            Some(rest) => rest.is_empty(),
            None => false,
        }
    }
}
