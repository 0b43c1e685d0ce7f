//! A load whose workers are held back: each waits for what another has answered, so they run at once.
ghost use Rattle.std.specs.Prelude.{◌<◌};

use crate::waiting::TURNS;
use mc_load::{Gate, Load, load};
use mc_words::{Mix, Shape};
use std::sync::atomic::{AtomicBool, AtomicU64, Ordering};
use std::test::Fail;

/// What the workers have answered: worker 0 is the writer, 1 and 2 are the readers.
#[derive(Drop)]
struct Held {
    started: [AtomicBool; 3],
    /// The number of the last call that was answered, by worker.
    answered: [AtomicU64; 3],
    /// The last moment that the writer's answers gave.
    moment: AtomicU64,
    /// Answers of readers without a moment.
    busy: AtomicU64,
    /// The writer's first call put nothing, or a reader's first answer was busy or of a moment before the writer's last.
    wrong: AtomicBool,
}

impl Held {
    fn new() -> Held {
        Held {
            started: [
                AtomicBool::new(false),
                AtomicBool::new(false),
                AtomicBool::new(false),
            ],
            answered: [AtomicU64::new(0), AtomicU64::new(0), AtomicU64::new(0)],
            moment: AtomicU64::new(0),
            busy: AtomicU64::new(0),
            wrong: AtomicBool::new(false),
        }
    }

    /// Whether all three workers have started.
    fn have_started(&self) -> bool {
        self.started[0].load(Ordering::SeqCst)
            && self.started[1].load(Ordering::SeqCst)
            && self.started[2].load(Ordering::SeqCst)
    }

    /// Waits until all three have started. Whether they did in time.
    fn wait_for_all(&self) -> bool {
        for _turn in 0..TURNS {
            if self.have_started() {
                return true;
            }
        }
        false
    }

    /// Waits until the worker has answered this call. Whether it did in time.
    fn wait_for(&self, who: usize, call: u64) -> bool
        requires { who < 3 }
    {
        for _turn in 0..TURNS {
            if self.answered[who].load(Ordering::SeqCst) >= call {
                return true;
            }
        }
        false
    }
}

impl Gate for Held {
    fn before(&self, who: u32, call: u64) -> bool {
        if call == 1 && who < 3 {
            self.started[who as usize].store(true, Ordering::SeqCst);
            if !self.wait_for_all() {
                return false;
            }
        }
        match (who, call) {
            (1, 1) => self.wait_for(0, 1),
            (0, 2) => self.wait_for(1, 1),
            (2, 1) => self.wait_for(0, 2),
            (0, 3) | (1, 2) => self.wait_for(2, 1),
            _ => true,
        }
    }

    fn after(&self, who: u32, call: u64, at: Option<u64>) {
        if who == 0 {
            if let Some(moment) = at {
                self.moment.store(moment, Ordering::SeqCst);
            }
            if call == 1 && at != Some(1) {
                self.wrong.store(true, Ordering::SeqCst);
            }
        } else {
            let last = self.moment.load(Ordering::SeqCst);
            if at.is_none() {
                self.busy.fetch_add(1, Ordering::SeqCst);
            }
            if call == 1 && at.unwrap_or(0) < last {
                self.wrong.store(true, Ordering::SeqCst);
            }
        }
        if who < 3 {
            self.answered[who as usize].store(call, Ordering::SeqCst);
        }
    }
}

/// A load of two readers, whose seed draws a put first.
fn held_load(stripes: u32) -> Load {
    Load {
        shape: Shape {
            buckets: 1024,
            items: 3072,
            stripes,
            depth: 5,
            tries: 8,
            limit: 1 << 62,
            mix: Mix::Fmix,
        },
        readers: 2,
        lookups: 100,
        writes: 100,
        keys: 64,
        seed: 1,
    }
}

#[test]
fn workers_run_at_once(rt: HostRuntime) -> Result<(), Fail> {
    for stripes in [1, 8192] {
        let gate = Held::new();
        let report = load::<4, _, _>(&rt, rt.alloc(), held_load(stripes), &gate)?;
        let answers = report.found + report.absent + report.busy;
        let told = [report.lookups, answers, report.writes, report.wrong];
        let counted = [report.changes, report.busy];
        let moment = gate.moment.load(Ordering::SeqCst);
        let busy = gate.busy.load(Ordering::SeqCst);
        assert!(rt; !gate.wrong.load(Ordering::SeqCst));
        assert_eq!(rt; told, [200, 200, 100, 0]);
        assert_eq!(rt; counted, [moment, busy]);
    }
    Ok(())
}
