//! How long a thread works.
use std::io;
use std::time::{Clock, CpuClock, Duration};

/// Runs from its start on. It measures the thread's own processor time if no other thread works, since other programs
/// then don't count, and otherwise the time on the clock.
#[derive(Clone, Copy)]
pub(crate) struct Stopwatch {
    alone: bool,
    began: Duration,
}

/// The time that the thread has used, or the time on the clock.
fn now<R: Clock + CpuClock>(rt: &R, alone: bool) -> io::Result<Duration> {
    if alone {
        rt.thread_cpu_time()
    } else {
        rt.monotonic()
    }
}

impl Stopwatch {
    pub(crate) fn start<R: Clock + CpuClock>(rt: &R, alone: bool) -> io::Result<Stopwatch> {
        let began = now(rt, alone)?;
        Ok(Stopwatch { alone, began })
    }

    pub(crate) fn elapsed<R: Clock + CpuClock>(&self, rt: &R) -> io::Result<Duration> {
        Ok(now(rt, self.alone)?.saturating_sub(self.began))
    }
}
