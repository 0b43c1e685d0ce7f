//! The writer's put into a table that is to hold at most so many keys.
ghost use Rattle.std.specs.Prelude.{◌≡◌, IsSome, IsTrue, None};
ghost use Rattle.mc_words.specs.History.{map_value};
ghost use Rattle.mc_words.specs.Places.{IsWidth};
ghost use Rattle.mc_cache.specs.Bounding.{AbsentBoundedFails, AbsentBoundedMeans, BoundedFails, BoundedMeans, HasPutAbsentBounded, HasPutAbsentWithin, HasPutBounded, HasPutWithin, PutAbsentWithinFails, PutAbsentWithinMeans, PutWithinFails, PutWithinMeans};
ghost use Rattle.mc_cache.specs.Failing.{version_changes};
ghost use Rattle.mc_cache.specs.Plain.{history};

use crate::cache::Cache;
use crate::writer::Writer;
use mc_plan::{EvictError, Put, PutError, Why};
use mc_words::Reply;
use mc_writer::{Entry, Evict, Swapped, look};

/// What a put did in a table that is to hold at most so many keys.
#[derive(Clone, Copy, Debug, PartialEq, Eq)]
pub enum Bounded<const V: usize> {
    /// The key was there, or there were fewer keys: this is the answer of `Writer::swap`.
    Swapped(Result<Swapped<V>, PutError>),
    /// This entry left first. Then the key was put, or not: no path leads to an empty slot, or the limit on version changes could be exceeded.
    Evicted {
        old: Entry<V>,
        put: Result<Put, Why>,
    },
}

/// The same without the entries that gave way. It is quicker to return.
#[derive(Clone, Copy, Debug, PartialEq, Eq)]
pub enum BoundedPut {
    /// The answer of `Writer::put`.
    Put(Result<Put, PutError>),
    /// This key left first.
    Evicted { key: u64, put: Result<Put, Why> },
}

/// Why a put of a key that must be absent did nothing.
#[derive(Clone, Copy, Debug, PartialEq, Eq)]
pub enum BoundedError {
    /// The key is there. Its last put was at this moment.
    Present { since: u64 },
    /// No entry gave way.
    Evict(EvictError),
}

impl<const V: usize> Writer<V> {
    // Whether the key is there. It is no use of the key.
    fn has(&mut self, cache: &Cache<V>, key: u64) -> bool
        requires of { self.old.of ≡ cache.now }
        ensures width { IsWidth V }
        ensures same { self.new ≡ self.old }
        ensures there { IsTrue result → IsSome (map_value (history V self.old) key) }
        ensures absent { (IsTrue result → ⊥) → map_value (history V self.old) key ≡ None }
    {
        match look(&cache.cells, &mut self.seat, &self.books, key) {
            Some(_held) => true,
            None => false,
        }
    }

    // Puts a key that is absent.
    fn swap_absent(
        &mut self,
        cache: &Cache<V>,
        key: u64,
        most: u32,
        value: [u64; V],
    ) -> Result<Bounded<V>, EvictError>
        requires of { self.old.of ≡ cache.now }
        requires absent { map_value (history V self.old) key ≡ None }
        ensures of { self.new.of ≡ self.old.of }
        ensures called { HasPutBounded V cache.now.layout.shape key value.entry most self.old self.new result }
        ensures plain { BoundedMeans V (history V self.old) (history V self.new) key value.entry most result }
        ensures fails { BoundedFails cache.now.layout.shape (history V self.new) (version_changes V self.new) key result }
    {
        let keys = self.len();
        if keys == 0 || keys < most as usize {
            return Ok(Bounded::Swapped(self.swap(cache, key, value)));
        }
        match self.evict(cache) {
            Ok(Evict::Evicted { old, .. }) => Ok(Bounded::Evicted {
                old,
                put: self.put_kept_absent(cache, key, value),
            }),
            Ok(Evict::Empty { .. }) => unreachable!(),
            Err(why) => Err(why),
        }
    }

    // Puts a key that is absent, and returns no entry.
    fn put_absent(
        &mut self,
        cache: &Cache<V>,
        key: u64,
        most: u32,
        value: [u64; V],
    ) -> Result<BoundedPut, EvictError>
        requires width { IsWidth V }
        requires of { self.old.of ≡ cache.now }
        requires absent { map_value (history V self.old) key ≡ None }
        ensures of { self.new.of ≡ self.old.of }
        ensures called { HasPutWithin V cache.now.layout.shape key value.entry most self.old self.new result }
        ensures plain { PutWithinMeans V (history V self.old) (history V self.new) key value.entry most result }
        ensures fails { PutWithinFails V cache.now.layout.shape (history V self.new) (version_changes V self.new) key result }
    {
        let keys = self.len();
        if keys == 0 || keys < most as usize {
            return Ok(BoundedPut::Put(self.put(cache, key, value)));
        }
        match self.evict(cache) {
            Ok(Evict::Evicted { old, .. }) => Ok(BoundedPut::Evicted {
                key: old.key,
                put: self.put_kept_absent(cache, key, value),
            }),
            Ok(Evict::Empty { .. }) => unreachable!(),
            Err(why) => Err(why),
        }
    }

    /// Puts the key as `swap_bounded` does, and returns no entry.
    pub fn put_bounded(
        &mut self,
        cache: &Cache<V>,
        key: u64,
        most: u32,
        value: [u64; V],
    ) -> Result<BoundedPut, EvictError>
        requires of { self.old.of ≡ cache.now }
        ensures of { self.new.of ≡ self.old.of }
        ensures called { HasPutWithin V cache.now.layout.shape key value.entry most self.old self.new result }
        ensures plain { PutWithinMeans V (history V self.old) (history V self.new) key value.entry most result }
        ensures fails { PutWithinFails V cache.now.layout.shape (history V self.new) (version_changes V self.new) key result }
    {
        match self.put_if_present(cache, key, value) {
            Some(told) => Ok(BoundedPut::Put(told)),
            None => self.put_absent(cache, key, most, value),
        }
    }

    /// Puts the key as `swap_if_absent_bounded` does, and returns no entry.
    pub fn put_if_absent_bounded(
        &mut self,
        cache: &Cache<V>,
        key: u64,
        most: u32,
        value: [u64; V],
    ) -> Result<BoundedPut, BoundedError>
        requires of { self.old.of ≡ cache.now }
        ensures of { self.new.of ≡ self.old.of }
        ensures called { HasPutAbsentWithin V cache.now.layout.shape key value.entry most self.old self.new result }
        ensures plain { PutAbsentWithinMeans V (history V self.old) (history V self.new) key value.entry most result }
        ensures fails { PutAbsentWithinFails V cache.now.layout.shape (history V self.new) (version_changes V self.new) key result }
    {
        if self.has(cache, key) {
            return match self.get(cache, key) {
                Reply::Found { since, .. } => Err(BoundedError::Present { since }),
                _ => unreachable!(),
            };
        }
        match self.put_absent(cache, key, most, value) {
            Ok(done) => Ok(done),
            Err(why) => Err(BoundedError::Evict(why)),
        }
    }

    /// Puts the key as `swap` does, in a table that is to hold at most `most` keys: if the key is new, and there are as many, another entry
    /// leaves first, though items are free. An `Err` says that none gave way, and nothing has changed.
    pub fn swap_bounded(
        &mut self,
        cache: &Cache<V>,
        key: u64,
        most: u32,
        value: [u64; V],
    ) -> Result<Bounded<V>, EvictError>
        requires of { self.old.of ≡ cache.now }
        ensures of { self.new.of ≡ self.old.of }
        ensures called { HasPutBounded V cache.now.layout.shape key value.entry most self.old self.new result }
        ensures plain { BoundedMeans V (history V self.old) (history V self.new) key value.entry most result }
        ensures fails { BoundedFails cache.now.layout.shape (history V self.new) (version_changes V self.new) key result }
    {
        match self.swap_if_present(cache, key, value) {
            Some(told) => Ok(Bounded::Swapped(told)),
            None => self.swap_absent(cache, key, most, value),
        }
    }

    /// Puts the key as `swap_bounded` does, but only if it is absent. A key that is there is marked, as by a hit.
    pub fn swap_if_absent_bounded(
        &mut self,
        cache: &Cache<V>,
        key: u64,
        most: u32,
        value: [u64; V],
    ) -> Result<Bounded<V>, BoundedError>
        requires of { self.old.of ≡ cache.now }
        ensures of { self.new.of ≡ self.old.of }
        ensures called { HasPutAbsentBounded V cache.now.layout.shape key value.entry most self.old self.new result }
        ensures plain { AbsentBoundedMeans V (history V self.old) (history V self.new) key value.entry most result }
        ensures fails { AbsentBoundedFails cache.now.layout.shape (history V self.new) (version_changes V self.new) key result }
    {
        if self.has(cache, key) {
            return match self.get(cache, key) {
                Reply::Found { since, .. } => Err(BoundedError::Present { since }),
                _ => unreachable!(),
            };
        }
        match self.swap_absent(cache, key, most, value) {
            Ok(done) => Ok(done),
            Err(why) => Err(BoundedError::Evict(why)),
        }
    }
}
