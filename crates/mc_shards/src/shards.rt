//! The caches of the shards, and where their writers are.
ghost use Rattle.std.specs.Prelude.{ℕ, ◌≡◌, ◌<◌, ◌*◌, ◌≤◌, Some, true, length, map, slice_get};
ghost use Rattle.mc_shards.specs.Lending.{table_of};
ghost use Rattle.mc_shards.specs.Sharded.{shard_in};

use crate::lender::Lender;
use mc_cache::{Cache, Shape};
use std::marker::Model;

/// A cache of shards: caches of one shape, each with its writer, which is lent for a turn. Lend it to every thread. In contracts it is the tables that
/// were opened, and the shape of each.
#[derive(Drop)]
pub struct Shards<const V: usize> {
    pub(crate) shape: Shape,
    // A lookup that isn't busy reads these alone.
    pub(crate) caches: Vec<Cache<V>>,
    pub(crate) lenders: Vec<Lender<V>>,
}

impl<const V: usize> Model for Shards<V> {
    ghost use Rattle.mc_shards.specs.Sharded.{Sharded};
    ghost use Rattle.mc_shards.specs.Inside.Dealt.{AreShards, sharded};

    ghost Value = { Sharded };

    ghost view = { λ s. sharded s.shape s.caches.items s.lenders.items };

    ghost invariant = { λ s. AreShards V s.shape s.caches.items s.lenders.items };
}

impl<const V: usize> Shards<V> {
    ghost use Rattle.mc_words.specs.Shapes.{HasShards};

    /// The number of shards.
    #[inline(always)]
    pub fn count(&self) -> u32
        ensures count { result ≡ length self.now.tables }
        ensures power { HasShards result }
    {
        self.caches.len() as u32
    }

    // What always holds of shards, for proofs: each lock is that of its table's writer. Does nothing at run time.
    #[inline(always)]
    pub(crate) fn known(&self)
        ensures { map table_of self.now.locks ≡ self.now.tables }
    {
        let _shape = self.shape;
    }

    /// How many keys the shards hold at most, all together: the items of the shape, times the shards.
    pub fn capacity(&self) -> usize
        ensures { result ≡ self.now.shape.items * length self.now.tables }
    {
        self.shape.items as usize * self.count() as usize
    }

    /// Whether there is one shard alone, which has every key.
    #[inline(always)]
    pub fn is_single(&self) -> bool
        ensures every { result ≡ true → (key : ℕ) → shard_in self.now key ≡ 0 }
        ensures one { result ≡ true → 1 ≡ length self.now.tables }
    {
        self.count() == 1
    }

    /// The number of the key's shard, from 0.
    #[inline(always)]
    pub fn shard_of(&self, key: u64) -> usize
        ensures shard { result ≡ shard_in self.now key }
        ensures range { result < length self.now.tables }
    {
        // Nothing is mixed for one shard.
        if self.is_single() {
            return 0;
        }
        self.shape.mix.shard(key, self.count()) as usize
    }

    // The cache of a shard.
    #[inline(always)]
    pub(crate) fn cache(&self, n: usize) -> &Cache<V>
        requires { n < length self.now.tables }
        ensures table { slice_get self.now.tables n ≡ Some result.now }
        ensures shape { result.now.layout.shape ≡ self.now.shape }
    {
        &self.caches[n]
    }

    // Where the writer of a shard is.
    #[inline(always)]
    pub(crate) fn lender(&self, n: usize) -> &Lender<V>
        requires { n < length self.now.tables }
        ensures table { slice_get self.now.tables n ≡ Some (table_of result.now) }
        ensures lock { slice_get self.now.locks n ≡ Some result.now }
    {
        &self.lenders[n]
    }
}
