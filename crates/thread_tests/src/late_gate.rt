//! A gate that holds the readers of a load until its writer has ended.
use crate::waiting::TURNS;
use mc_load::Gate;
use std::sync::atomic::{AtomicU64, Ordering};

/// Holds the readers until the writer's last call is answered, and refuses one call of each worker from `first` on. If it
/// refuses the writer's, it holds nobody.
#[derive(Drop)]
pub struct Late {
    writes: u32,
    first: u32,
    refused: u64,
    /// The writer's calls that were answered.
    answered: AtomicU64,
    /// The readers' calls that the gate was asked for, and those that were answered.
    asked: AtomicU64,
    told: AtomicU64,
}

impl Late {
    pub fn new(writes: u32, first: u32, refused: u64) -> Late {
        Late {
            writes,
            first,
            refused,
            answered: AtomicU64::new(0),
            asked: AtomicU64::new(0),
            told: AtomicU64::new(0),
        }
    }

    /// The writer's calls that were answered, the readers' that the gate was asked for, and those of these that were answered.
    pub fn calls(&self) -> [u64; 3] {
        [
            self.answered.load(Ordering::SeqCst),
            self.asked.load(Ordering::SeqCst),
            self.told.load(Ordering::SeqCst),
        ]
    }

    // Waits until the writer has ended. Whether it did in time.
    fn wait_for_writer(&self) -> bool {
        for _turn in 0..TURNS {
            if self.answered.load(Ordering::SeqCst) == u64::from(self.writes) {
                return true;
            }
        }
        false
    }
}

impl Gate for Late {
    fn before(&self, who: u32, call: u64) -> bool {
        if who >= self.first && call == self.refused {
            return false;
        }
        if who == 0 {
            return true;
        }
        self.asked.fetch_add(1, Ordering::SeqCst);
        call > 1 || self.first == 0 || self.wait_for_writer()
    }

    fn after(&self, who: u32, _call: u64, _at: Option<u64>) {
        if who == 0 {
            self.answered.fetch_add(1, Ordering::SeqCst);
        } else {
            self.told.fetch_add(1, Ordering::SeqCst);
        }
    }
}
