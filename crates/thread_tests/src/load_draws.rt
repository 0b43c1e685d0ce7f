//! Loads whose readers begin once the writer has ended: all of them but the threads' order is known beforehand.
//!
//! The expected numbers are computed separately: the generator's words, and a plain map.
use crate::late_gate::Late;
use mc_load::{Gate, Load, LoadError, load, load_many};
use mc_words::{Mix, Policy, Shape};
use std::alloc::Global;
use std::sync::atomic::{AtomicU64, Ordering};
use std::test::Fail;
use std::thread::Threads;

/// A load of 1,024 buckets.
fn asked(seed: u64, readers: u32, lookups: u32, writes: u32, keys: u64) -> Load {
    Load {
        shape: Shape {
            buckets: 1024,
            items: 3072,
            stripes: 64,
            depth: 5,
            tries: 8,
            limit: 1 << 62,
            mix: Mix::Fmix,
        },
        readers,
        lookups,
        writes,
        keys,
        seed,
    }
}

#[test]
fn calls_and_keys_are_those_that_are_drawn(rt: HostRuntime) -> Result<(), Fail> {
    for (late, due, calls) in [
        (
            asked(1, 2, 500, 1000, 64),
            [967, 928, 72],
            [1000, 1000, 1000],
        ),
        (
            asked(2, 2, 500, 1000, 64),
            [972, 902, 98],
            [1000, 1000, 1000],
        ),
        (
            asked(3, 2, 500, 1000, 64),
            [976, 888, 112],
            [1000, 1000, 1000],
        ),
        (
            asked(1, 3, 2000, 2000, 1000),
            [1864, 4533, 1467],
            [2000, 6000, 6000],
        ),
    ] {
        let gate = Late::new(late.writes, 4, 0);
        let report = load::<4, _, _>(&rt, rt.alloc(), late, &gate)?;
        let seed = late.seed;
        let told = [report.changes, report.found, report.absent];
        assert!(rt; told == due, "seed {seed}");
        assert!(rt; gate.calls() == calls, "calls past the gate, seed {seed}");
    }
    Ok(())
}

#[test]
fn many_keys_of_a_call_are_those_that_are_drawn(rt: HostRuntime) -> Result<(), Fail> {
    for (late, many, due) in [
        (asked(1, 2, 500, 1000, 64), 32, [967, 928, 72]),
        (asked(2, 2, 500, 1000, 64), 64, [972, 902, 98]),
        (asked(3, 2, 500, 1000, 64), 49, [976, 888, 112]),
        (asked(1, 3, 2000, 2000, 1000), 7, [1864, 4533, 1467]),
    ] {
        let gate = Late::new(late.writes, 4, 0);
        let report = load_many::<4, _, _>(&rt, rt.alloc(), Policy::Clock, late, &gate, many)?;
        let told = [report.changes, report.found, report.absent];
        assert!(rt; told == due, "calls for {many} keys");
        let lookups = u64::from(late.readers) * u64::from(late.lookups);
        let calls = [u64::from(late.writes), lookups, lookups];
        assert!(rt;
            gate.calls() == calls,
            "each lookup passes the gate, calls for {many} keys"
        );
    }
    Ok(())
}

#[test]
fn the_least_worker_is_told_that_the_gate_refused(rt: HostRuntime) -> Result<(), Fail> {
    for (many, first, call, answered) in [
        (1, 0, 3, [2, 4]),
        (1, 1, 2, [40, 2]),
        (1, 2, 50, [40, 99]),
        (32, 0, 3, [2, 4]),
        (32, 1, 2, [40, 2]),
        (32, 2, 50, [40, 99]),
    ] {
        let gate = Late::new(40, first, call);
        let load = asked(1, 2, 50, 40, 64);
        let told = load_many::<4, _, _>(&rt, rt.alloc(), Policy::Clock, load, &gate, many);
        let due = LoadError::Gate { who: first, call };
        assert!(rt; told == Err(due), "worker {first}, calls for {many} keys");
        let [writes, _, lookups] = gate.calls();
        assert!(rt;
            [writes, lookups] == answered,
            "the others go on, calls for {many} keys"
        );
    }
    Ok(())
}

/// Lets every call through, and counts the readers' answers without a moment.
#[derive(Drop)]
struct Counting {
    busy: AtomicU64,
}

impl Gate for Counting {
    fn before(&self, _who: u32, _call: u64) -> bool {
        true
    }

    fn after(&self, who: u32, _call: u64, at: Option<u64>) {
        if who > 0 && at.is_none() {
            self.busy.fetch_add(1, Ordering::SeqCst);
        }
    }
}

// How many busy answers a load reports, and how many its gate saw.
fn busy_of<R: Threads + Sync>(rt: &R, alloc: Global, asked: Load) -> Result<(u64, u64), LoadError> {
    let gate = Counting {
        busy: AtomicU64::new(0),
    };
    let report = load::<4, _, _>(rt, alloc, asked, &gate)?;
    Ok((report.busy, gate.busy.load(Ordering::SeqCst)))
}

#[test]
fn busy_answers_are_counted_where_there_are_some(rt: HostRuntime) -> Result<(), Fail> {
    let many = asked(1, 2, 200_000, 200_000, 2);
    let one_try = Load {
        shape: Shape {
            stripes: 1,
            tries: 1,
            ..many.shape
        },
        ..many
    };
    // Nobody can make a lookup fall into a deed: the load is made until one did.
    for _load in 0..100 {
        let (told, busy) = busy_of(&rt, rt.alloc(), one_try)?;
        assert!(rt; told == busy);
        if busy > 0 {
            return Ok(());
        }
    }
    Err(Fail::new("no answer was busy"))
}
