//! Transcripts one after the other: which of them passed.
use crate::transcript::{Outcome, Transcript};
use std::alloc::Global;
use std::{io, str};

/// The transcript that is being read, and how many before it passed and failed.
#[derive(Drop)]
pub(crate) struct Player {
    alloc: Global,
    current: Option<Transcript>,
    /// Whether the current one failed.
    has_failed: bool,
    /// The line for which answers are due.
    asked: u64,
    line: u64,
    passed: u64,
    failed: u64,
}

/// Prints what a run left.
fn print(rt: &impl Print, name: &str, outcome: &Outcome) -> io::Result<()> {
    let output = str::from_utf8(outcome.output.as_slice()).unwrap_or("no text");
    let errors = str::from_utf8(outcome.errors.as_slice()).unwrap_or("no text");
    let status = outcome.status;
    println!(rt; "{name}, with status {status}, and on standard error {errors:?}:\n{output}")
}

impl Player {
    pub(crate) fn new(alloc: Global) -> Player {
        Player {
            alloc,
            current: None,
            has_failed: false,
            asked: 0,
            line: 0,
            passed: 0,
            failed: 0,
        }
    }

    /// Takes the next line.
    pub(crate) fn take(&mut self, rt: &impl Print, line: &str) -> io::Result<()> {
        self.line = self.line.saturating_add(1);
        match line.as_bytes() {
            [] | [b'#', ..] => Ok(()),
            [b'$', ..] => {
                self.close(rt)?;
                self.begin(rt, line)
            }
            [b'>', ..] => {
                self.compare(rt)?;
                self.asked = self.line;
                self.add(rt, line)
            }
            _ => self.add(rt, line),
        }
    }

    /// Begins a transcript, if this is the command line of one.
    fn begin(&mut self, rt: &impl Print, line: &str) -> io::Result<()> {
        self.asked = self.line;
        let command = line.strip_prefix("$ ").unwrap_or("");
        let is_traced = match command.split(' ').next() {
            Some("mcstep") => false,
            Some("mctrace") => true,
            _ => return self.refuse(rt),
        };
        self.current = Some(Transcript::new(self.alloc, command, is_traced)?);
        Ok(())
    }

    /// Adds a line to the current transcript.
    fn add(&mut self, rt: &impl Print, line: &str) -> io::Result<()> {
        let is_added = match &mut self.current {
            Some(transcript) => transcript.add(line.as_bytes())?,
            None => false,
        };
        if is_added { Ok(()) } else { self.refuse(rt) }
    }

    /// The line is none of a transcript.
    fn refuse(&mut self, rt: &impl Print) -> io::Result<()> {
        self.has_failed = true;
        let line = self.line;
        println!(rt; "line {line}: not a line of a transcript")
    }

    /// Compares what is due for the lines so far with what a run of them leaves.
    fn compare(&mut self, rt: &impl Print) -> io::Result<()> {
        let Some(transcript) = &self.current else {
            return Ok(());
        };
        if self.has_failed {
            return Ok(());
        }
        let came = transcript.run()?;
        if came == transcript.due {
            return Ok(());
        }
        self.has_failed = true;
        let asked = self.asked;
        println!(rt; "line {asked}: other answers than these are due up to here")?;
        print(rt, "due", &transcript.due)?;
        print(rt, "came", &came)
    }

    /// Ends the current transcript.
    fn close(&mut self, rt: &impl Print) -> io::Result<()> {
        self.compare(rt)?;
        if self.has_failed {
            self.failed = self.failed.saturating_add(1);
        } else if self.current.is_some() {
            self.passed = self.passed.saturating_add(1);
        }
        self.current = None;
        self.has_failed = false;
        Ok(())
    }

    /// Ends the last transcript, and returns whether all passed.
    pub(crate) fn end(mut self, rt: &impl Print) -> io::Result<bool> {
        self.close(rt)?;
        let passed = self.passed;
        let failed = self.failed;
        println!(rt; "{passed} passed, {failed} failed")?;
        Ok(failed == 0)
    }
}
