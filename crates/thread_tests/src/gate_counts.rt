//! What the gate of a load is asked and told: how many keys before one answer, and the moment of each change.
use mc_load::{Gate, Load, load_many};
use mc_words::{Mix, Policy, Shape};
use std::sync::atomic::{AtomicU64, Ordering};
use std::test::Fail;

/// Lets every call through, and counts. There is one reader.
#[derive(Drop)]
struct Counts {
    /// The reader's calls that were asked for, those that were answered, and the most that waited for their answers together.
    asked: AtomicU64,
    told: AtomicU64,
    most: AtomicU64,
    /// The moment of the writer's last answer, its answers without one, and its calls that made two changes.
    moment: AtomicU64,
    without: AtomicU64,
    twice: AtomicU64,
}

impl Counts {
    fn new() -> Counts {
        Counts {
            asked: AtomicU64::new(0),
            told: AtomicU64::new(0),
            most: AtomicU64::new(0),
            moment: AtomicU64::new(0),
            without: AtomicU64::new(0),
            twice: AtomicU64::new(0),
        }
    }
}

impl Gate for Counts {
    fn before(&self, who: u32, _call: u64) -> bool {
        if who == 1 {
            let asked = self.asked.fetch_add(1, Ordering::SeqCst).wrapping_add(1);
            let waiting = asked.wrapping_sub(self.told.load(Ordering::SeqCst));
            if waiting > self.most.load(Ordering::SeqCst) {
                self.most.store(waiting, Ordering::SeqCst);
            }
        }
        true
    }

    fn after(&self, who: u32, _call: u64, at: Option<u64>) {
        if who == 1 {
            self.told.fetch_add(1, Ordering::SeqCst);
            return;
        }
        match at {
            Some(moment) => {
                let last = self.moment.load(Ordering::SeqCst);
                if moment.wrapping_sub(last) == 2 {
                    self.twice.fetch_add(1, Ordering::SeqCst);
                }
                self.moment.store(moment, Ordering::SeqCst);
            }
            None => {
                self.without.fetch_add(1, Ordering::SeqCst);
            }
        }
    }
}

/// 100 writes and 100 lookups of 64 keys, in a cache with room for 8.
fn crowded() -> Load {
    Load {
        shape: Shape {
            buckets: 64,
            items: 8,
            stripes: 1,
            depth: 5,
            tries: 8,
            limit: 1 << 62,
            mix: Mix::Fmix,
        },
        readers: 1,
        lookups: 100,
        writes: 100,
        keys: 64,
        seed: 1,
    }
}

#[test]
fn keys_are_looked_up_together(rt: HostRuntime) -> Result<(), Fail> {
    for many in [1, 2, 8, 64] {
        let gate = Counts::new();
        let report = load_many::<1, _, _>(&rt, rt.alloc(), Policy::Clock, crowded(), &gate, many)?;
        assert_eq!(rt; report.lookups, 100);
        assert_eq!(rt; gate.most.load(Ordering::SeqCst), u64::from(many));
    }
    Ok(())
}

#[test]
fn put_that_evicts_has_a_moment(rt: HostRuntime) -> Result<(), Fail> {
    for policy in [Policy::Clock, Policy::ScanResistant] {
        let gate = Counts::new();
        let report = load_many::<1, _, _>(&rt, rt.alloc(), policy, crowded(), &gate, 1)?;
        assert!(rt; gate.twice.load(Ordering::SeqCst) > 0);
        let told = [
            gate.without.load(Ordering::SeqCst),
            gate.moment.load(Ordering::SeqCst),
        ];
        assert_eq!(rt; [report.wrong, told[0], told[1]], [0, 0, report.changes]);
    }
    Ok(())
}
