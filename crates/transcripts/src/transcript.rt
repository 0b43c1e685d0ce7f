//! A script with its answers.
use crate::escape::add_line;
use mc_step::run_step;
use mc_trace::run_trace;
use std::alloc::{AllocError, Global};
use std::str;

/// What a run writes, what it prints on standard error, and its status.
#[derive(PartialEq, Drop)]
pub(crate) struct Outcome {
    pub(crate) output: Vec<u8>,
    pub(crate) errors: Vec<u8>,
    pub(crate) status: u8,
}

/// A transcript as far as it was read: its command line, the lines of its script, and what is due for them.
#[derive(Drop)]
pub(crate) struct Transcript {
    alloc: Global,
    command: String,
    /// Whether `mctrace` plays the script.
    is_traced: bool,
    script: Vec<u8>,
    pub(crate) due: Outcome,
}

impl Transcript {
    pub(crate) fn new(
        alloc: Global,
        command: &str,
        is_traced: bool,
    ) -> Result<Transcript, AllocError> {
        Ok(Transcript {
            alloc,
            command: String::from_str(alloc, command)?,
            is_traced,
            script: Vec::new(alloc),
            due: Outcome {
                output: Vec::new(alloc),
                errors: Vec::new(alloc),
                status: 0,
            },
        })
    }

    /// Adds a line of the script, or one that is due for it; `false` if it is neither.
    pub(crate) fn add(&mut self, line: &[u8]) -> Result<bool, AllocError> {
        match line {
            [b'>', b' ', text @ ..] => add_line(&mut self.script, text),
            [b'!', b' ', text @ ..] => add_line(&mut self.due.errors, text),
            [b'=', b' ', status @ ..] => Ok(self.set_status(status)),
            [b'>'] => add_line(&mut self.script, b""),
            [b'!'] => add_line(&mut self.due.errors, b""),
            text => add_line(&mut self.due.output, text),
        }
    }

    fn set_status(&mut self, text: &[u8]) -> bool {
        let status = str::from_utf8(text)
            .ok()
            .and_then(|digits| digits.parse::<u8>().ok());
        self.due.status = status.unwrap_or(0);
        status.is_some()
    }

    /// Runs the program with the lines of the script so far.
    pub(crate) fn run(&self) -> Result<Outcome, AllocError> {
        let alloc = self.alloc;
        let words: Vec<&str> = self.command.as_str().split(' ').collect(alloc)?;
        let words = words.as_slice();
        let mut input = self.script.as_slice();
        let mut output = Vec::new(alloc);
        let mut errors = Vec::new(alloc);
        let status = if self.is_traced {
            run_trace(alloc, words, &mut input, &mut output, &mut errors)
        } else {
            run_step(alloc, words, &mut input, &mut output, &mut errors)
        };
        Ok(Outcome {
            output,
            errors,
            status,
        })
    }
}
