//! A pass: a reader of each shard, for one thread at a time.
ghost use Rattle.std.specs.Prelude.{◌≡◌, ◌≤◌, [], IfOk, length, vec_capacity};
ghost use Rattle.mc_reader.specs.Records.{HasLooked};
ghost use Rattle.mc_cache.specs.CallContracts.{put_contract, remove_contract};
ghost use Rattle.mc_cache.specs.Turns.{HasLookedOrMet, HasTriedTo, HasTriedToPeek};
ghost use Rattle.mc_cache.specs.Failing.{TurnFails, versions_seen};
ghost use Rattle.mc_cache.specs.Plain.{seen};
ghost use Rattle.mc_shards.specs.Plain.{AllAnswered, AllBegin, HasAnswered, PeekMeans, TurnMeans, seens};
ghost use Rattle.mc_shards.specs.Sharded.{ArePassOf, ChangesAt, HaveLookedAt, shard_in};

use crate::lending::Turn;
use crate::shards::Shards;
use mc_cache::calls::{Putting, Removing};
use mc_cache::keyed::Keyed;
use mc_cache::turn::TurnCall;
use mc_cache::{DeskError, Put, PutError, Reader, Remove, Reply, Spent};
use std::alloc::{AllocError, Global};
use std::marker::Model;

// The most shards that there are.
const MOST_SHARDS: usize = 256;

/// A thread's handle: a reader of each shard, with which it looks up and tries for turns. In contracts it is the records of the readers.
pub struct Pass<const V: usize> {
    pub(crate) readers: Vec<Reader<V>>,
    // Room for the turn of every shard, so that `hold` takes no memory.
    pub(crate) room: Vec<Turn<V>>,
}

impl<const V: usize> Model for Pass<V> {
    ghost use Rattle.std.specs.Prelude.{◌≡◌, ◌≤◌, [], List, vec_capacity};
    ghost use Rattle.mc_shared.specs.Records.{ReaderRecord};

    ghost Value = { List ReaderRecord };

    ghost view = { λ p. p.readers.items };

    ghost invariant = { λ p. (p.room.items ≡ []) × (256 ≤ vec_capacity p.room) };
}

impl<const V: usize> Drop for Pass<V> {
    fn drop(self) {
        let Pass { readers: _, room } = self;
        room.destroy_empty();
    }
}

impl<const V: usize> Pass<V> {
    // A pass without a reader.
    pub(crate) fn blank(alloc: Global) -> Result<Pass<V>, AllocError>
        ensures { IfOk result (λ pass. pass ≡ []) }
    {
        Ok(Pass {
            readers: Vec::new(alloc),
            room: Vec::with_capacity(alloc, MOST_SHARDS)?,
        })
    }

    // Its readers, and the room for its turns.
    pub(crate) fn into_parts(self) -> (Vec<Reader<V>>, Vec<Turn<V>>)
        ensures readers { result.0.items ≡ self.entry }
        ensures room { (result.1.items ≡ []) × (256 ≤ vec_capacity result.1) }
    {
        let Pass { readers, room } = self;
        (readers, room)
    }
}

impl<const V: usize> Pass<V> {
    /// Looks the key up in its shard, as `Reader::get` does. Condition: the pass belongs to these shards.
    #[inline(always)]
    pub fn get(&mut self, shards: &Shards<V>, key: u64) -> Reply<V>
        requires of { ArePassOf shards.now self.old }
        ensures of { ArePassOf shards.now self.new }
        ensures looked { ChangesAt (shard_in shards.now key) self.old self.new (λ r r'. HasLooked V shards.now.shape key r r' result) }
        ensures plain { ChangesAt (shard_in shards.now key) (seens V self.old) (seens V self.new) (λ h h'. HasAnswered V h h' key result) }
    {
        let n = shards.shard_of(key);
        let cache = shards.cache(n);
        let reader = &mut self.readers[n];
        reader.get(cache, key)
    }

    /// Looks the key up in its shard, as `Reader::get_or_desk` does. Condition: the pass belongs to these shards.
    #[inline(always)]
    pub fn get_or_desk(&mut self, shards: &Shards<V>, key: u64) -> Reply<V>
        requires of { ArePassOf shards.now self.old }
        ensures of { ArePassOf shards.now self.new }
        ensures looked { ChangesAt (shard_in shards.now key) self.old self.new (λ r r'. HasLookedOrMet V shards.now.shape key r r' result) }
        ensures plain { ChangesAt (shard_in shards.now key) (seens V self.old) (seens V self.new) (λ h h'. HasAnswered V h h' key result) }
    {
        let n = shards.shard_of(key);
        let cache = shards.cache(n);
        let lender = shards.lender(n);
        let reader = &mut self.readers[n];
        lender.get_or_lend(cache, reader, key)
    }

    /// Tries once for the turn of the key's shard, and with it calls `Writer::peek`. Condition: the pass belongs to these shards.
    pub fn try_peek(&mut self, shards: &Shards<V>, key: u64) -> Option<Reply<V>>
        requires of { ArePassOf shards.now self.old }
        ensures of { ArePassOf shards.now self.new }
        ensures turn { ChangesAt (shard_in shards.now key) self.old self.new (λ r r'. HasTriedToPeek V r r' result) }
        ensures plain { ChangesAt (shard_in shards.now key) (seens V self.old) (seens V self.new) (λ h h'. PeekMeans V h h' key result) }
    {
        let n = shards.shard_of(key);
        let cache = shards.cache(n);
        let lender = shards.lender(n);
        let reader = &mut self.readers[n];
        lender.try_peek(cache, reader, key)
    }

    /// Tries once for the turn of the shard that the call's key selects, and with it makes the call, as `Desk::try_call` does. Condition: the
    /// pass belongs to these shards.
    #[inline(always)]
    pub fn try_call<T, E, C: TurnCall<V, T, E> + Keyed>(
        &mut self,
        shards: &Shards<V>,
        call: C,
    ) -> Result<T, DeskError<E>>
        requires of { ArePassOf shards.now self.old }
        ensures of { ArePassOf shards.now self.new }
        ensures turn { ChangesAt (shard_in shards.now (C.key_of call)) self.old self.new (λ r r'. HasTriedTo V shards.now.shape ((C.contract call).called shards.now.shape) r r' result) }
        ensures plain { ChangesAt (shard_in shards.now (C.key_of call)) (seens V self.old) (seens V self.new)
            (λ h h'. TurnMeans ((C.contract call).means) h h' result) }
        ensures fails { ChangesAt (shard_in shards.now (C.key_of call)) self.old self.new (λ r r'. TurnFails ((C.contract call).fails shards.now.shape (seen V r') (versions_seen V r')) result) }
    {
        let n = shards.shard_of(call.key());
        let cache = shards.cache(n);
        let lender = shards.lender(n);
        let reader = &mut self.readers[n];
        lender.try_call(cache, reader, call)
    }

    /// Tries once for the turn of the key's shard, and with it puts the key, as `Desk::try_put` does. Condition: the pass belongs to these
    /// shards.
    #[inline(always)]
    pub fn try_put(
        &mut self,
        shards: &Shards<V>,
        key: u64,
        value: [u64; V],
    ) -> Result<Put, DeskError<PutError>>
        requires of { ArePassOf shards.now self.old }
        ensures of { ArePassOf shards.now self.new }
        ensures turn { ChangesAt (shard_in shards.now key) self.old self.new (λ r r'. HasTriedTo V shards.now.shape ((put_contract V key value.entry).called shards.now.shape) r r' result) }
        ensures plain { ChangesAt (shard_in shards.now key) (seens V self.old) (seens V self.new)
            (λ h h'. TurnMeans (put_contract V key value.entry).means h h' result) }
        ensures fails { ChangesAt (shard_in shards.now key) self.old self.new (λ r r'. TurnFails ((put_contract V key value.entry).fails shards.now.shape (seen V r') (versions_seen V r')) result) }
    {
        self.try_call(shards, Putting(key, &value))
    }

    /// Like `try_put`, with `Desk::try_remove`.
    #[inline(always)]
    pub fn try_remove(&mut self, shards: &Shards<V>, key: u64) -> Result<Remove, DeskError<Spent>>
        requires of { ArePassOf shards.now self.old }
        ensures of { ArePassOf shards.now self.new }
        ensures turn { ChangesAt (shard_in shards.now key) self.old self.new (λ r r'. HasTriedTo V shards.now.shape ((remove_contract V key).called shards.now.shape) r r' result) }
        ensures plain { ChangesAt (shard_in shards.now key) (seens V self.old) (seens V self.new)
            (λ h h'. TurnMeans (remove_contract V key).means h h' result) }
        ensures fails { ChangesAt (shard_in shards.now key) self.old self.new (λ r r'. TurnFails ((remove_contract V key).fails shards.now.shape (seen V r') (versions_seen V r')) result) }
    {
        self.try_call(shards, Removing(key))
    }

    /// Looks the keys up. Equivalent to calling `get` for each key in order.
    /// Condition: the pass belongs to these shards, and there are as many replies as keys.
    pub fn get_many(&mut self, shards: &Shards<V>, keys: &[u64], replies: &mut [Reply<V>])
        requires of { ArePassOf shards.now self.old }
        requires many { length replies.old ≡ length keys.now }
        ensures of { ArePassOf shards.now self.new }
        ensures looked { HaveLookedAt V shards.now keys.now self.old self.new replies.new }
        ensures plain { AllBegin (seens V self.old) (seens V self.new) × AllAnswered V shards.now.shape.mix (seens V self.old) (seens V self.new) keys.now replies.new }
    {
        for n in 0..keys.len() {
            replies[n] = self.get(shards, keys[n]);
        }
    }
}
