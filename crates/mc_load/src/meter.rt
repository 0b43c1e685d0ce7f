//! A gate that lets every call through and measures how the workers fare.
ghost use Rattle.std.specs.Prelude.{◌<◌};

use crate::gate::Gate;
use std::alloc::{AllocError, Global};
use std::marker::Sync;
use std::sync::atomic::{AtomicU64, Ordering};
use std::time::Clock;

/// How many classes there are of how far answers are behind the newest change: 0, 1 to 9, 10 to 99, 100 to 999, more.
pub const DELAYS: usize = 5;

/// The clock is read at each of a worker's first calls, and then at one in this many.
const CALLS_A_READING: u64 = 256;

/// What is known of one worker. It alone writes here.
#[derive(Drop)]
struct Counts {
    /// The clock at the first call, and at the last call after which it was read, in nanoseconds.
    began: AtomicU64,
    ended: AtomicU64,
    /// How many calls were made by then.
    timed: AtomicU64,
    /// Answers without a moment.
    busy: AtomicU64,
    behind: [AtomicU64; DELAYS],
}

/// How a worker fared.
#[derive(Clone, Copy)]
pub struct Figures {
    pub calls_a_second: u64,
    /// Answers without a moment.
    pub busy: u64,
    /// Answers by how far they were behind the newest change that the writer knew of.
    pub behind: [u64; DELAYS],
}

/// Measures the writers and the readers. A writer is worker 0; the readers come after it, and then the other writers.
#[derive(Drop)]
pub struct Meter<'c, C> {
    clock: &'c C,
    readers: u32,
    newest: AtomicU64,
    workers: Vec<Counts>,
}

impl Counts {
    fn new() -> Counts {
        Counts {
            began: AtomicU64::new(0),
            ended: AtomicU64::new(0),
            timed: AtomicU64::new(0),
            busy: AtomicU64::new(0),
            behind: [
                AtomicU64::new(0),
                AtomicU64::new(0),
                AtomicU64::new(0),
                AtomicU64::new(0),
                AtomicU64::new(0),
            ],
        }
    }

    fn figures(&self) -> Figures {
        let began = self.began.load(Ordering::SeqCst);
        let ended = self.ended.load(Ordering::SeqCst);
        let nanos = u128::from(ended.saturating_sub(began).max(1));
        let calls = u128::from(self.timed.load(Ordering::SeqCst));
        Figures {
            calls_a_second: u64::try_from(calls * 1_000_000_000 / nanos).unwrap_or(u64::MAX),
            busy: self.busy.load(Ordering::SeqCst),
            behind: [
                self.behind[0].load(Ordering::SeqCst),
                self.behind[1].load(Ordering::SeqCst),
                self.behind[2].load(Ordering::SeqCst),
                self.behind[3].load(Ordering::SeqCst),
                self.behind[4].load(Ordering::SeqCst),
            ],
        }
    }
}

/// The clock, in nanoseconds, or 0 if it can't be read.
fn now<C: Clock>(clock: &C) -> u64 {
    match clock.monotonic() {
        Ok(now) => u64::try_from(now.as_nanos()).unwrap_or(u64::MAX),
        Err(_) => 0,
    }
}

/// The place of a delay among those that are counted.
fn class_of(behind: u64) -> usize
    ensures { result < 5 }
{
    match behind {
        0 => 0,
        1..=9 => 1,
        10..=99 => 2,
        100..=999 => 3,
        _ => 4,
    }
}

impl<'c, C> Meter<'c, C> {
    /// For `readers` readers and `writers` writers, of which there is at least one.
    pub fn new(
        alloc: Global,
        clock: &'c C,
        readers: u32,
        writers: u32,
    ) -> Result<Meter<'c, C>, AllocError> {
        let mut workers = Vec::new(alloc);
        for _worker in 0..=readers {
            workers.push(Counts::new())?;
        }
        for _writer in 1..writers {
            workers.push(Counts::new())?;
        }
        Ok(Meter {
            clock,
            readers,
            newest: AtomicU64::new(0),
            workers,
        })
    }

    /// How many readers there are.
    pub fn readers(&self) -> u32 {
        self.readers
    }

    /// How a worker fared, if there is one.
    pub fn figures(&self, who: usize) -> Option<Figures> {
        self.workers.get(who).map(|counts| counts.figures())
    }
}

impl<'c, C: Clock + Sync> Gate for Meter<'c, C> {
    ghost may_refuse = { λ _ _ _. ⊥ };

    fn before(&self, who: u32, call: u64) -> bool {
        if call == 1 {
            if let Some(counts) = self.workers.get(who as usize) {
                counts.began.store(now(self.clock), Ordering::SeqCst);
            }
        }
        true
    }

    fn after(&self, who: u32, call: u64, at: Option<u64>) {
        let Some(counts) = self.workers.get(who as usize) else {
            return;
        };
        match at {
            Some(moment) if who == 0 || who > self.readers => {
                self.newest.fetch_max(moment, Ordering::SeqCst);
            }
            Some(moment) => {
                let behind = self.newest.load(Ordering::SeqCst).saturating_sub(moment);
                counts.behind[class_of(behind)].fetch_add(1, Ordering::SeqCst);
            }
            None => {
                counts.busy.fetch_add(1, Ordering::SeqCst);
            }
        }
        if call < CALLS_A_READING || call % CALLS_A_READING == 0 {
            counts.ended.store(now(self.clock), Ordering::SeqCst);
            counts.timed.store(call, Ordering::SeqCst);
        }
    }
}

/// An optional meter measures nothing if there is none.
impl<'c, C: Clock + Sync> Gate for Option<Meter<'c, C>> {
    ghost may_refuse = { λ _ _ _. ⊥ };

    fn before(&self, who: u32, call: u64) -> bool {
        if let Some(meter) = self {
            meter.before(who, call);
        }
        true
    }

    fn after(&self, who: u32, call: u64, at: Option<u64>) {
        if let Some(meter) = self {
            meter.after(who, call, at);
        }
    }
}
