//! What a thread is to do.
use crate::options::{Options, Workload};
use std::time::Duration;

#[derive(Clone, Copy)]
pub(crate) struct Task {
    /// The keys are those of `numbers` numbers, from this one on.
    pub first: u64,
    pub numbers: u32,
    pub seed: u64,
    pub time: Duration,
    /// No other thread works.
    pub alone: bool,
    /// One call looks up this many keys, at most 64.
    pub many: u32,
}

/// The task of the thread with this number.
pub(crate) fn task_of(options: &Options, number: u64) -> Task {
    Task {
        first: match options.workload {
            Workload::Absent => 1 << 40,
            _ => 0,
        },
        numbers: match options.workload {
            Workload::Half => options.keys.saturating_mul(2),
            _ => options.keys,
        },
        seed: u64::from(options.seed) * 1000 ^ number,
        time: options.time,
        many: options.many,
        alone: options.readers.saturating_add(options.writers) <= 1,
    }
}
