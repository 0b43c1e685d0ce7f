//! Loads that go before lookups in shards. They change nothing, and no answer depends on them.
//!
//! They are made in loops, each of which waits for nothing: so the processor waits for many words at once. The fewer steps there are between two
//! loads, the more of them it has under way. So where the lookups look is found before the first load.
ghost use Rattle.std.specs.Prelude.{◌≡◌, ◌≤◌, ℕ, All, length};
ghost use Rattle.mc_reader.specs.Aims.{IsAimIn};
ghost use Rattle.mc_shards.specs.Inside.Targets.{IsTarget};

use crate::shards::Shards;
use mc_cache::GROUP;
use mc_reader::{Aim, pays_ahead};

/// A key's shard, and where a lookup of the key looks there.
#[derive(Clone, Copy)]
struct Target {
    shard: usize,
    aim: Aim,
}

impl<const V: usize> Shards<V> {
    /// Loads ahead the words that lookups of the first of these keys will read, of `GROUP` keys at most, where the shards together are large
    /// enough for it to pay.
    pub fn touch_ahead(&self, keys: &[u64]) {
        if self.is_single() {
            self.cache(0).touch_ahead(keys);
            return;
        }
        let buckets = u64::from(self.shape.buckets) * u64::from(self.count());
        if pays_ahead(buckets, keys.len()) {
            self.touch_each(&keys[..keys.len().min(GROUP)]);
        }
    }

    /// Loads ahead the words that a lookup of this key will read.
    #[inline(always)]
    pub fn prefetch(&self, key: u64) {
        let cache = self.cache(self.shard_of(key));
        cache.touch_guessed(cache.guess_named(cache.aim_of(key)));
    }

    // The slots of all the keys first, and then the items that they name.
    #[inline(never)]
    fn touch_each(&self, keys: &[u64])
        requires { length keys.now ≤ 16 }
    {
        let Some(&first) = keys.first() else { return };
        let mut targets = [self.target(first); GROUP];
        let mut items = [0u32; GROUP];
        self.target_each(keys, &mut targets);
        self.touch_slots(&targets[..keys.len()]);
        self.guess_each(&targets[..keys.len()], &mut items);
        for i in 0..keys.len() {
            self.cache(targets[i].shard).touch_guessed(items[i]);
        }
    }

    // Where a lookup of the key looks.
    #[inline(always)]
    fn target(&self, key: u64) -> Target
        ensures { IsTarget V self.now result }
    {
        let shard = self.shard_of(key);
        Target {
            shard,
            aim: self.cache(shard).aim_of(key),
        }
    }

    // Where a lookup of each of the keys looks.
    #[inline(always)]
    fn target_each(&self, keys: &[u64], targets: &mut [Target])
        requires many { length keys.now ≤ length targets.old }
        requires targets { All (IsTarget V self.now) targets.old }
        ensures targets { All (IsTarget V self.now) targets.new }
    {
        for i in 0..keys.len() {
            targets[i] = self.target(keys[i]);
        }
    }

    #[inline(always)]
    fn touch_slots(&self, targets: &[Target])
        requires { All (IsTarget V self.now) targets.now }
    {
        for &target in targets {
            self.cache(target.shard).touch_slots(target.aim);
        }
    }

    #[inline(always)]
    fn guess_each(&self, targets: &[Target], items: &mut [u32])
        requires many { length targets.now ≤ length items.old }
        requires targets { All (IsTarget V self.now) targets.now }
    {
        for i in 0..targets.len() {
            items[i] = self.cache(targets[i].shard).guess_named(targets[i].aim);
        }
    }
}
