//! What a worker looks keys up with, and a writer in turns tries for turns with.
ghost use Rattle.std.specs.Prelude.{ℕ, ◌≡◌, IfOk, length};
ghost use Rattle.mc_plan.specs.WholeCalls.Call.{PutCall, RemoveCall};
ghost use Rattle.mc_plan.specs.declared.answer.Answer.TheVariants as answer;
ghost use Rattle.mc_cache.specs.Turns.{HasTried};
ghost use Rattle.mc_shards.specs.Sharded.{ArePassOf, ChangesAt, shard_in};
ghost use Rattle.mc_load.specs.Inside.Dates.{IsAfterEviction};

use mc_cache::{Cache, Desk, DeskError, Put, PutError, Reader, Remove, Reply, Spent};
use mc_shards::{Pass, Shards};

/// A reader of a cache whose writer is on no desk.
#[derive(Drop)]
pub(crate) struct CacheReader<'p, const V: usize> {
    pub(crate) cache: &'p Cache<V>,
    pub(crate) reader: Reader<V>,
    ghost belongs: { reader.of ≡ cache.now },
}

/// A reader that is the pass of a desk.
#[derive(Drop)]
pub(crate) struct DeskPass<'p, const V: usize> {
    pub(crate) cache: &'p Cache<V>,
    pub(crate) desk: &'p Desk<V>,
    pub(crate) pass: Reader<V>,
    ghost belongs: { (desk.now ≡ cache.now) × (pass.of ≡ cache.now) },
}

/// A pass of shards.
#[derive(Drop)]
pub(crate) struct ShardPass<'p, const V: usize> {
    pub(crate) shards: &'p Shards<V>,
    pub(crate) pass: Pass<V>,
    ghost belongs: { ArePassOf shards.now pass },
}

/// What one worker holds.
#[derive(Drop)]
pub(crate) enum Handle<'p, const V: usize> {
    Cache(CacheReader<'p, V>),
    Desk(DeskPass<'p, V>),
    Shards(ShardPass<'p, V>),
}

impl<'p, const V: usize> Handle<'p, V> {
    ghost use Rattle.mc_load.specs.Inside.Handles.{AreTold, IsTold, cache_of, place_of, records_of};
    ghost use Rattle.mc_load.specs.Lookups.{HasLookedIn, HaveLookedIn};

    /// Looks a key up. If the lookup is busy and there is a desk, tries for a turn.
    pub(crate) fn get(&mut self, key: u64) -> Reply<V>
        ensures cache { cache_of self.new ≡ cache_of self.old }
        ensures place { place_of self.new ≡ place_of self.old }
        ensures looked { HasLookedIn V (place_of self.old) key (records_of self.old) (records_of self.new) result }
        ensures told { IsTold V self.new key result }
        ensures later { (k : ℕ) (reply : Reply V) → IsTold V self.old k reply → IsTold V self.new k reply }
    {
        match self {
            Handle::Cache(held) => {
                let cache = held.cache;
                held.reader.get(cache, key)
            }
            Handle::Desk(held) => {
                let (cache, desk) = (held.cache, held.desk);
                held.pass.get_or_desk(cache, desk, key)
            }
            Handle::Shards(held) => {
                let shards = held.shards;
                held.pass.get_or_desk(shards, key)
            }
        }
    }

    /// Looks keys up. In a cache with no desk, one call looks up several.
    pub(crate) fn get_many(&mut self, keys: &[u64], replies: &mut [Reply<V>])
        requires many { length replies.old ≡ length keys.now }
        ensures many { length replies.new ≡ length keys.now }
        ensures cache { cache_of self.new ≡ cache_of self.old }
        ensures place { place_of self.new ≡ place_of self.old }
        ensures looked { HaveLookedIn V (place_of self.old) keys.now (records_of self.old) (records_of self.new) replies.new }
        ensures told { AreTold V self.new keys.now replies.new }
        ensures later { (k : ℕ) (reply : Reply V) → IsTold V self.old k reply → IsTold V self.new k reply }
    {
        if keys.len() > 1 {
            if let Handle::Cache(held) = self {
                let cache = held.cache;
                held.reader.get_many(cache, keys, replies);
                return;
            }
        }
        for n in 0..keys.len() {
            replies[n] = self.get(keys[n]);
        }
    }

    /// Tries once for the turn, to put a key. With no desk no try wins.
    pub(crate) fn try_put(&mut self, key: u64, value: [u64; V]) -> Result<Put, DeskError<PutError>>
        ensures place { place_of self.new ≡ place_of self.old }
        ensures turn { ChangesAt (shard_in (place_of self.old) key) (records_of self.old) (records_of self.new)
            (λ r r'. HasTried V (place_of self.old).shape (PutCall key value.entry) answer.Put r r' result) }
        ensures moment { IfOk result IsAfterEviction }
    {
        match self {
            Handle::Cache(_) => Err(DeskError::Held),
            Handle::Desk(held) => {
                let (cache, desk) = (held.cache, held.desk);
                desk.try_put(cache, &mut held.pass, key, value)
            }
            Handle::Shards(held) => {
                let shards = held.shards;
                held.pass.try_put(shards, key, value)
            }
        }
    }

    /// Tries once for the turn, to remove a key. With no desk no try wins.
    pub(crate) fn try_remove(&mut self, key: u64) -> Result<Remove, DeskError<Spent>>
        ensures place { place_of self.new ≡ place_of self.old }
        ensures turn { ChangesAt (shard_in (place_of self.old) key) (records_of self.old) (records_of self.new)
            (λ r r'. HasTried V (place_of self.old).shape (RemoveCall key) answer.Remove r r' result) }
    {
        match self {
            Handle::Cache(_) => Err(DeskError::Held),
            Handle::Desk(held) => {
                let (cache, desk) = (held.cache, held.desk);
                desk.try_remove(cache, &mut held.pass, key)
            }
            Handle::Shards(held) => {
                let shards = held.shards;
                held.pass.try_remove(shards, key)
            }
        }
    }
}
