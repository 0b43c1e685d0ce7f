//! A script, line by line, and what its lines ask for.
use crate::plain::{Asked, number_behind};
use mc_replay::{ReplayError, replay};
use mc_words::Checked;
use rand_core::Rng;
use rand_pcg::Lcg64Xsh32;
use std::alloc::{AllocError, Global};
use std::io::BufReader;
use std::{io, str};

/// A put that evicts a key and moves none makes this many acts after its sweep.
const ACTS_AFTER_SWEEP: u64 = 12;

/// The stamp in the last of these lines, or 0.
fn stamp_in(told: &str) -> u64 {
    let last = told.lines().last().unwrap_or("");
    number_behind(last, " since ").unwrap_or(0)
}

/// A script, and what its lines ask for.
#[derive(Drop)]
pub(crate) struct Script {
    alloc: Global,
    checked: Checked,
    pub(crate) text: String,
    lines: u64,
    pub(crate) asked: Vec<Asked>,
    /// Which of the readers run a lookup.
    runs: [bool; 2],
}

/// What a replay writes, and where it is refused.
pub(crate) fn play(
    alloc: Global,
    checked: &Checked,
    text: &str,
) -> io::Result<(Vec<u8>, Result<(), ReplayError>)> {
    let mut input = BufReader::new(alloc, text.as_bytes())?;
    let mut output = Vec::new(alloc);
    let result = replay::<1, BufReader<&[u8]>, Vec<u8>>(alloc, checked, 2, &mut input, &mut output);
    Ok((output, result))
}

impl Script {
    pub(crate) fn new(alloc: Global, checked: &Checked) -> Script {
        Script {
            alloc,
            checked: *checked,
            text: String::new(alloc),
            lines: 0,
            asked: Vec::new(alloc),
            runs: [false; 2],
        }
    }

    fn add(&mut self, line: String) -> Result<(), AllocError> {
        self.text.push_str(line.as_str())?;
        self.text.push('\n')?;
        self.lines = self.lines.saturating_add(1);
        Ok(())
    }

    fn ask(&mut self, asked: Asked, line: String) -> Result<(), AllocError> {
        self.asked.push(asked)?;
        self.add(line)
    }

    /// How many of these steps are left, up to the end of their call or lookup, if nothing comes between them.
    fn left(&self, step: &str) -> io::Result<u64> {
        let mut text = String::from_str(self.alloc, self.text.as_str())?;
        for _ in 0..64 {
            text.push_str(step)?;
            text.push('\n')?;
        }
        match play(self.alloc, &self.checked, text.as_str())?.1 {
            Err(ReplayError { line, number: 8 }) => Ok(line.saturating_sub(
                self.lines.saturating_add(1),
            )),
            _ => Ok(0),
        }
    }

    /// How many accesses of the reader are left, up to the end of its lookup.
    fn left_of(&self, reader: usize) -> io::Result<u64> {
        let step = format!(in self.alloc; "r {reader}")?;
        self.left(step.as_str())
    }

    /// A whole call of the writer, whose number is the value of a put.
    pub(crate) fn call(&mut self, kind: u32, key: u64, number: u64) -> Result<(), AllocError> {
        match kind % 8 {
            0 => {
                let line = format!(in self.alloc; "remove {key}")?;
                self.ask(Asked::Remove(key), line)
            }
            1 | 2 => {
                let line = format!(in self.alloc; "get {key}")?;
                self.ask(Asked::Get(key), line)
            }
            _ => {
                let line = format!(in self.alloc; "put {key} {number}")?;
                self.ask(Asked::Put(key, number), line)
            }
        }
    }

    /// The key's present stamp, or 0.
    fn stamp_of(&self, key: u64) -> io::Result<u64> {
        let line = format!(in self.alloc; "{}stamp {key}\n", self.text)?;
        let (output, _) = play(self.alloc, &self.checked, line.as_str())?;
        Ok(stamp_in(str::from_utf8(output.as_slice()).unwrap_or("")))
    }

    /// A put on the condition that the key has this stamp, whole or act by act.
    fn put_if(&mut self, slowly: bool, key: u64, since: u64, number: u64) -> io::Result<()> {
        let asked = Asked::PutIf(key, since, number);
        let line = format!(in self.alloc; "putif {key} {since} {number}")?;
        if !slowly {
            self.ask(asked, line)?;
            return Ok(());
        }
        let line = format!(in self.alloc; "begin {line}")?;
        self.ask(asked, line)?;
        let left = self.left("w")?;
        if left > 0 {
            let line = format!(in self.alloc; "w {left}")?;
            self.add(line)?;
        }
        Ok(())
    }

    /// A whole get that reports the stamp, or a put on the condition that it is a drawn one or the present one.
    pub(crate) fn stamp_call(&mut self, draw: u32, key: u64, number: u64) -> io::Result<()> {
        if draw % 4 == 0 {
            let line = format!(in self.alloc; "stamp {key}")?;
            self.ask(Asked::Stamp(key), line)?;
            return Ok(());
        }
        let since = if draw % 4 == 1 {
            u64::from(draw / 8).checked_rem(number).unwrap_or(0)
        } else {
            self.stamp_of(key)?
        };
        self.put_if(draw / 4 % 2 == 0, key, since, number)
    }

    /// A reader begins a lookup, or continues the one that it runs. An odd draw continues to its end.
    pub(crate) fn read(&mut self, reader: usize, key: u64, draw: u32) -> io::Result<()> {
        let Some(runs) = self.runs.get(reader).copied() else {
            return Ok(());
        };
        if !runs {
            self.set(reader, true);
            let line = format!(in self.alloc; "begin {reader} get {key}")?;
            self.ask(Asked::Begin(reader, key), line)?;
            return Ok(());
        }
        let left = self.left_of(reader)?;
        let some = u64::from(draw / 2).checked_rem(left).unwrap_or(0);
        if draw % 2 == 1 || some == 0 {
            self.set(reader, false);
            let line = format!(in self.alloc; "r {reader} {left}")?;
            self.ask(Asked::End(reader), line)?;
            return Ok(());
        }
        let line = format!(in self.alloc; "r {reader} {some}")?;
        self.add(line)?;
        Ok(())
    }

    /// A put act by act, with lookups of drawn keys between the hand's readings.
    pub(crate) fn put_slowly(
        &mut self,
        rng: &mut Lcg64Xsh32,
        keys: u64,
        key: u64,
        number: u64,
    ) -> io::Result<()> {
        let line = format!(in self.alloc; "begin put {key} {number}")?;
        self.add(line)?;
        let mut left = self.left("w")?;
        if left == 0 {
            self.asked.push(Asked::Put(key, number))?;
            return Ok(());
        }
        for _ in 0..64 {
            // One reading of these is the last: its bit is clear, or it ends the second round.
            if left <= ACTS_AFTER_SWEEP + 1 {
                break;
            }
            let line = String::from_str(self.alloc, "w")?;
            self.ask(Asked::Reading, line)?;
            for _ in 0..6 {
                let reader = (rng.next_u32() % 2) as usize;
                let other = drawn_key(rng, keys);
                self.read(reader, other, 1)?;
            }
            left = self.left("w")?;
        }
        let line = format!(in self.alloc; "w {left}")?;
        self.ask(Asked::Put(key, number), line)?;
        Ok(())
    }

    /// Opens another world of drawn sizes, unless a lookup runs.
    pub(crate) fn reopen(&mut self, rng: &mut Lcg64Xsh32) -> Result<(), AllocError> {
        if self.runs != [false; 2] {
            return Ok(());
        }
        let (buckets, items) = drawn_sizes(rng);
        let line = format!(in self.alloc; "reopen {buckets} {items}")?;
        self.ask(Asked::Reopen(buckets, items), line)
    }

    fn set(&mut self, reader: usize, runs: bool) {
        if let Some(place) = self.runs.get_mut(reader) {
            *place = runs;
        }
    }
}

/// One of `keys` keys. Keys of several tags move to several buckets, and the keys have several stripes.
pub(crate) fn drawn_key(rng: &mut Lcg64Xsh32, keys: u64) -> u64 {
    let draw = u64::from(rng.next_u32()).checked_rem(keys).unwrap_or(0);
    draw | ((draw % 4) << 56) | ((draw / 2 % 64) << 32)
}

/// From 2 to 8 buckets, and at most 16 items.
pub(crate) fn drawn_sizes(rng: &mut Lcg64Xsh32) -> (u32, u32) {
    let buckets = 1 << (1 + rng.next_u32() % 3);
    (buckets, 1 + rng.next_u32() % (4 * buckets).min(16))
}
