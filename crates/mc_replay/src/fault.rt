//! Why a script stops, and at which line.
ghost use Rattle.std.specs.Prelude.{◌≡◌, Some};
ghost use Rattle.mc_replay.specs.Faults.{fault_at, fault_number, fault_of};
ghost use Rattle.mc_replay.specs.FaultTexts.{error_text, fault_text, refusal_text, stop_text};

use mc_script::LineFault;
use std::error::Error;
use std::fmt;

/// Why a script stops at a line.
#[derive(Clone, Copy)]
pub enum Fault {
    ReadFailed,
    NoMemory,
    TooLong,
    NotACommand,
    BadNumber,
    NoSuchReader,
    StillRunning,
    NothingToStep,
    WriteFailed,
    BadShape,
}

/// The line at which a script stopped, numbered from 1, and why. Line 0: no line was read.
#[derive(Clone, Copy)]
pub struct Stop {
    pub line: u64,
    pub fault: Fault,
}

/// The line at which a script stopped, numbered from 1, and the number of the fault. Line 0: no line was read.
///
/// 1 the input failed, 2 memory was refused, 3 the line is too long, 4 it is no command, 5 a word of it is no number,
/// 6 there is no such reader, 7 a call or a lookup still runs, 8 none runs, 9 the output failed, 10 there is no table of
/// this shape. At line 0, 6 says that there are not from 1 to 1024 readers.
#[derive(Clone, Copy, Debug, PartialEq, Eq)]
pub struct ReplayError {
    pub line: u64,
    pub number: u8,
}

impl Fault {
    pub fn number(self) -> u8
        ensures { result ≡ fault_number self }
    {
        match self {
            Fault::ReadFailed => 1,
            Fault::NoMemory => 2,
            Fault::TooLong => 3,
            Fault::NotACommand => 4,
            Fault::BadNumber => 5,
            Fault::NoSuchReader => 6,
            Fault::StillRunning => 7,
            Fault::NothingToStep => 8,
            Fault::WriteFailed => 9,
            Fault::BadShape => 10,
        }
    }

    pub fn of_line(fault: LineFault) -> Fault
        ensures { result ≡ fault_of fault }
    {
        match fault {
            LineFault::NotACommand => Fault::NotACommand,
            LineFault::BadNumber => Fault::BadNumber,
        }
    }
}

impl fmt::Display for Fault {
    ghost output = { λ fault. Some (fault_text fault) };

    fn fmt<W: fmt::Write>(&self, f: &mut fmt::Formatter<W>) -> fmt::Result {
        match self {
            Fault::ReadFailed => write!(f, "read failed"),
            Fault::NoMemory => write!(f, "no memory"),
            Fault::TooLong => write!(f, "too long"),
            Fault::NotACommand => write!(f, "not a command"),
            Fault::BadNumber => write!(f, "bad number"),
            Fault::NoSuchReader => write!(f, "no such reader"),
            Fault::StillRunning => write!(f, "still running"),
            Fault::NothingToStep => write!(f, "nothing to step"),
            Fault::WriteFailed => write!(f, "write failed"),
            Fault::BadShape => write!(f, "bad shape"),
        }
    }
}

/// A fault before any line.
#[derive(Clone, Copy)]
struct Opening(Fault);

impl fmt::Display for Opening {
    ghost output = { λ opening. Some (refusal_text opening.0) };

    fn fmt<W: fmt::Write>(&self, f: &mut fmt::Formatter<W>) -> fmt::Result {
        match self.0 {
            Fault::NoSuchReader => write!(f, "readers must be from 1 to 1024"),
            fault => write!(f, "{fault}"),
        }
    }
}

impl fmt::Display for Stop {
    ghost output = { λ stop. Some (stop_text stop) };

    fn fmt<W: fmt::Write>(&self, f: &mut fmt::Formatter<W>) -> fmt::Result {
        let line = self.line;
        let fault = self.fault;
        if line == 0 {
            let opening = Opening(fault);
            write!(f, "refused: {opening}")
        } else {
            write!(f, "line {line}: {fault}")
        }
    }
}

impl ReplayError {
    /// The fault, if there is one of this number.
    fn fault(self) -> Option<Fault>
        ensures { result ≡ fault_at self.number }
    {
        match self.number {
            1 => Some(Fault::ReadFailed),
            2 => Some(Fault::NoMemory),
            3 => Some(Fault::TooLong),
            4 => Some(Fault::NotACommand),
            5 => Some(Fault::BadNumber),
            6 => Some(Fault::NoSuchReader),
            7 => Some(Fault::StillRunning),
            8 => Some(Fault::NothingToStep),
            9 => Some(Fault::WriteFailed),
            10 => Some(Fault::BadShape),
            _ => None,
        }
    }
}

impl fmt::Display for ReplayError {
    ghost output = { λ error. Some (error_text error) };

    fn fmt<W: fmt::Write>(&self, f: &mut fmt::Formatter<W>) -> fmt::Result {
        let line = self.line;
        match self.fault() {
            Some(fault) => {
                let stop = Stop { line, fault };
                write!(f, "{stop}")
            }
            None => write!(f, "line {line}"),
        }
    }
}

impl Error for ReplayError {}
