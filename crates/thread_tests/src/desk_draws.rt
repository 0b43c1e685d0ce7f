//! Loads in turns whose workers run one after the other: what comes of them is known beforehand.
//!
//! The expected numbers are computed separately: the generator's words, and a plain map.
use crate::waiting::TURNS;
use mc_load::{DeskReport, Gate, Load, LoadError, load_desk, load_shards};
use mc_words::{Mix, Shape};
use std::alloc::Global;
use std::sync::atomic::{AtomicU64, Ordering};
use std::test::Fail;
use std::thread;
use std::thread::Threads;

/// Lets the writers work one after the other, and then the readers. If it is to refuse a call of a worker, it holds nobody.
#[derive(Drop)]
struct OneByOne {
    load: Load,
    writers: u32,
    refused: Option<(u32, u64)>,
    /// The calls of writers that were answered.
    answered: AtomicU64,
}

impl OneByOne {
    /// How many calls of writers are answered before this worker begins.
    fn due(&self, who: u32) -> u64 {
        let before = if who == 0 {
            0
        } else if who <= self.load.readers {
            self.writers
        } else {
            who.wrapping_sub(self.load.readers)
        };
        u64::from(before).wrapping_mul(u64::from(self.load.writes))
    }

    // Waits until the workers before this one have ended. Whether they did in time.
    fn wait_for_others(&self, who: u32) -> bool {
        let due = self.due(who);
        for _turn in 0..TURNS {
            if self.answered.load(Ordering::SeqCst) >= due {
                return true;
            }
            thread::yield_now();
        }
        false
    }
}

impl Gate for OneByOne {
    fn before(&self, who: u32, call: u64) -> bool {
        match self.refused {
            Some(refused) => (who, call) != refused,
            None => call > 1 || self.wait_for_others(who),
        }
    }

    fn after(&self, who: u32, _call: u64, _at: Option<u64>) {
        if who == 0 || who > self.load.readers {
            self.answered.fetch_add(1, Ordering::SeqCst);
        }
    }
}

fn asked(seed: u64, readers: u32, lookups: u32, writes: u32, keys: u64) -> Load {
    Load {
        shape: Shape {
            buckets: 1024,
            items: 3072,
            stripes: 64,
            depth: 5,
            tries: 8,
            limit: 1 << 62,
            mix: Mix::Fmix,
        },
        readers,
        lookups,
        writes,
        keys,
        seed,
    }
}

fn one_by_one(load: Load, writers: u32, refused: Option<(u32, u64)>) -> OneByOne {
    OneByOne {
        load,
        writers,
        refused,
        answered: AtomicU64::new(0),
    }
}

/// A load at the desk of one cache, or at those of shards.
fn load_at<R: Threads + Sync>(
    rt: &R,
    alloc: Global,
    load: Load,
    shards: Option<u32>,
    writers: u32,
    gate: &OneByOne,
) -> Result<DeskReport, LoadError> {
    match shards {
        Some(many) => load_shards::<4, _, _>(rt, alloc, load, many, writers, gate),
        None => load_desk::<4, _, _>(rt, alloc, load, writers, gate),
    }
}

#[test]
fn writers_make_the_calls_that_are_drawn(rt: HostRuntime) -> Result<(), Fail> {
    for (load, shards, writers, due) in [
        (asked(1, 2, 500, 300, 64), None, 2, [575, 872, 128]),
        (asked(1, 2, 500, 300, 64), Some(1), 2, [575, 872, 128]),
        (asked(2, 2, 500, 300, 64), Some(256), 2, [571, 833, 167]),
        (asked(3, 2, 500, 300, 64), None, 8, [2354, 871, 129]),
        (asked(1, 3, 2000, 500, 1000), Some(16), 8, [3822, 5079, 921]),
    ] {
        let gate = one_by_one(load, writers, None);
        let report = load_at(&rt, rt.alloc(), load, shards, writers, &gate)?;
        let calls = u64::from(writers).wrapping_mul(u64::from(load.writes));
        let lookups = u64::from(load.readers).wrapping_mul(u64::from(load.lookups));
        let told = [report.changes, report.found, report.absent];
        let counted = [report.lookups, report.calls, report.answered];
        let seed = load.seed;
        assert!(rt; told == due, "seed {seed}, {writers} writers");
        assert_eq!(rt; counted, [lookups, calls, calls]);
        assert_eq!(rt; [report.busy, report.held, report.wrong], [0; 3]);
    }
    Ok(())
}

#[test]
fn a_refused_call_of_a_writer_is_told(rt: HostRuntime) -> Result<(), Fail> {
    for (who, call) in [(1, 7), (3, 2), (4, 50)] {
        let load = asked(1, 2, 50, 50, 64);
        let gate = one_by_one(load, 3, Some((who, call)));
        for shards in [None, Some(4)] {
            let told = load_at(&rt, rt.alloc(), load, shards, 3, &gate);
            assert!(rt; told == Err(LoadError::Gate { who, call }), "worker {who}");
        }
    }
    Ok(())
}
