//! A load at a desk whose workers are held back: each waits for what another has answered, so they run at once.
ghost use Rattle.std.specs.Prelude.{◌<◌};

use crate::waiting::TURNS;
use mc_load::{Gate, Load, load_desk};
use mc_words::{Mix, Shape};
use std::sync::atomic::{AtomicBool, AtomicU64, Ordering};
use std::test::Fail;

/// The readers are workers 1 to 3, and the writers workers 0 and 4.
const WORKERS: u32 = 5;

/// What one worker has done.
#[derive(Drop)]
struct Worker {
    /// The number of its last call that was let through, and of the last that was answered.
    asked: AtomicU64,
    answered: AtomicU64,
    /// The last moment that its answers gave, and how many gave none.
    moment: AtomicU64,
    without: AtomicU64,
}

impl Worker {
    fn new() -> Worker {
        Worker {
            asked: AtomicU64::new(0),
            answered: AtomicU64::new(0),
            moment: AtomicU64::new(0),
            without: AtomicU64::new(0),
        }
    }

    /// Waits until this call is at the gate, or is answered. Whether it was in time.
    fn wait_for(calls: &AtomicU64, call: u64) -> bool {
        for _turn in 0..TURNS {
            if calls.load(Ordering::SeqCst) >= call {
                return true;
            }
        }
        false
    }

    /// Whether this is the worker's next call.
    fn begins(&self, call: u64) -> bool {
        let last = self.answered.load(Ordering::SeqCst);
        self.asked.store(call, Ordering::SeqCst);
        call == last.wrapping_add(1)
    }

    /// Whether this is the call that was let through, and its moment isn't before the last one's.
    fn ends(&self, call: u64, at: Option<u64>) -> bool {
        let due = self.asked.load(Ordering::SeqCst);
        let last = self.moment.load(Ordering::SeqCst);
        match at {
            Some(moment) => self.moment.store(moment, Ordering::SeqCst),
            None => {
                self.without.fetch_add(1, Ordering::SeqCst);
            }
        }
        self.answered.store(call, Ordering::SeqCst);
        call == due && at.unwrap_or(last) >= last
    }
}

/// Lets the first calls through one after the other: a writer's, and then a reader's that is to see it.
#[derive(Drop)]
struct Held {
    workers: [Worker; 5],
    /// A call came out of its order, or was answered at another moment than the calls before it allow.
    wrong: AtomicBool,
}

impl Held {
    fn new() -> Held {
        Held {
            workers: [
                Worker::new(),
                Worker::new(),
                Worker::new(),
                Worker::new(),
                Worker::new(),
            ],
            wrong: AtomicBool::new(false),
        }
    }

    fn wait_for_answer(&self, who: usize, call: u64) -> bool
        requires { who < 5 }
    {
        Worker::wait_for(&self.workers[who].answered, call)
    }

    /// Waits until every worker's first call is at the gate. Whether they came in time.
    fn wait_for_all(&self) -> bool {
        for who in 0..5 {
            if !Worker::wait_for(&self.workers[who].asked, 1) {
                return false;
            }
        }
        true
    }

    /// The last moment that a writer got as an answer.
    fn last_moment(&self) -> u64 {
        let first = self.workers[0].moment.load(Ordering::SeqCst);
        let second = self.workers[4].moment.load(Ordering::SeqCst);
        first.max(second)
    }

    /// The answers without a moment: those of the readers, and those of the writers.
    fn without_moment(&self) -> [u64; 2] {
        let mut counts = [0; 5];
        for who in 0..5 {
            counts[who] = self.workers[who].without.load(Ordering::SeqCst);
        }
        let [first, one, two, three, second] = counts;
        let readers = one.wrapping_add(two).wrapping_add(three);
        [readers, first.wrapping_add(second)]
    }

    /// How many calls of each worker were answered.
    fn answered(&self) -> [u64; 5] {
        let mut counts = [0; 5];
        for who in 0..5 {
            counts[who] = self.workers[who].answered.load(Ordering::SeqCst);
        }
        counts
    }
}

/// The moment of an answer to a call that is held back. Each of these writers' calls puts a key.
fn moment_due(who: u32, call: u64) -> Option<u64> {
    match (who, call) {
        (0 | 1, 1) => Some(1),
        (4 | 2, 1) => Some(2),
        (0, 2) | (3, 1) => Some(3),
        _ => None,
    }
}

impl Gate for Held {
    fn before(&self, who: u32, call: u64) -> bool {
        if who >= WORKERS {
            self.wrong.store(true, Ordering::SeqCst);
            return true;
        }
        if !self.workers[who as usize].begins(call) {
            self.wrong.store(true, Ordering::SeqCst);
        }
        if call == 1 && !self.wait_for_all() {
            return false;
        }
        match (who, call) {
            (1, 1) => self.wait_for_answer(0, 1),
            (4, 1) => self.wait_for_answer(1, 1),
            (2, 1) => self.wait_for_answer(4, 1),
            (0, 2) => self.wait_for_answer(2, 1),
            (3, 1) => self.wait_for_answer(0, 2),
            (_, 2) | (0, 3) => self.wait_for_answer(3, 1),
            _ => true,
        }
    }

    fn after(&self, who: u32, call: u64, at: Option<u64>) {
        let due = moment_due(who, call);
        let is_due = due.is_none() || at == due;
        if who >= WORKERS || !self.workers[who as usize].ends(call, at) || !is_due {
            self.wrong.store(true, Ordering::SeqCst);
        }
    }
}

/// A load of three readers, whose seed draws puts first.
fn held_load(seed: u64, stripes: u32) -> Load {
    Load {
        shape: Shape {
            buckets: 1024,
            items: 3072,
            stripes,
            depth: 5,
            tries: 8,
            limit: 1 << 62,
            mix: Mix::Fmix,
        },
        readers: 3,
        lookups: 200,
        writes: 150,
        keys: 64,
        seed,
    }
}

#[test]
fn writers_and_readers_run_at_once(rt: HostRuntime) -> Result<(), Fail> {
    for (seed, stripes) in [(1, 1), (1, 8192), (2, 64)] {
        let gate = Held::new();
        let load = held_load(seed, stripes);
        let report = load_desk::<4, _, _>(&rt, rt.alloc(), load, 2, &gate)?;
        let answers = report.found + report.absent + report.busy;
        let told = [report.lookups, answers, report.calls, report.wrong];
        let without = [report.busy, report.held];
        assert!(rt; !gate.wrong.load(Ordering::SeqCst), "seed {seed}");
        assert_eq!(rt; gate.answered(), [150, 200, 200, 200, 150]);
        assert_eq!(rt; told, [600, 600, 300, 0]);
        assert_eq!(rt; without, gate.without_moment());
        assert_eq!(rt; report.changes, gate.last_moment());
    }
    Ok(())
}
