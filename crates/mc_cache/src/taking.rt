//! The writer's calls that also return the entry which they take out of the map.
ghost use Rattle.std.specs.Prelude.{◌≡◌, IfNone, IfSome, IsSome, None};
ghost use Rattle.mc_words.specs.History.{map_value};
ghost use Rattle.mc_cache.specs.Failing.{PutIfAbsentFails, SwapFails, SwapIfFails, TakeFails, TakeIfFails, version_changes};
ghost use Rattle.mc_cache.specs.Plain.{history};
ghost use Rattle.mc_cache.specs.Taking.{HasTakenIf, SwapIfAbsentMeans, SwapIfMeans, SwapMeans, TakeIfMeans, TakeMeans, absent_of, swap_answer, swap_if_answer, take_answer};
ghost use Rattle.mc_plan.specs.WholeCalls.{PutCall, PutIfCall, RemoveCall};
ghost use Rattle.mc_writer.specs.WriterCalls.{HasCalled, HasPutIfAbsent};

use crate::cache::Cache;
use crate::writer::{Writer, at};
use mc_plan::{AbsentError, IfError, PutError, Spent};
use mc_words::Reply;
use mc_writer::{Replaced, Swapped, Take, look, swap, swap_if, swap_if_present, take};

impl<const V: usize> Writer<V> {
    /// Puts the key as `put` does, and returns the entry that gives way: the key's earlier one, or that of the key that is evicted.
    pub fn swap(
        &mut self,
        cache: &Cache<V>,
        key: u64,
        value: [u64; V],
    ) -> Result<Swapped<V>, PutError>
        requires of { self.old.of ≡ cache.now }
        ensures called { HasCalled V cache.now.layout.shape (PutCall key value.entry) self.old self.new (swap_answer result) }
        ensures plain { SwapMeans V (history V self.old) (history V self.new) key value.entry result }
        ensures fails { SwapFails cache.now.layout.shape (history V self.new) (version_changes V self.new) key result }
    {
        match swap(&cache.cells, &mut self.seat, &mut self.books, key, &value) {
            Ok(swapped) => {
                self.moment = at(&swapped.put);
                Ok(swapped)
            }
            Err(why) => Err(why),
        }
    }

    /// Puts the key as `swap` does, if it is there. `None`: it is absent, and nothing has changed.
    pub(crate) fn swap_if_present(
        &mut self,
        cache: &Cache<V>,
        key: u64,
        value: [u64; V],
    ) -> Option<Result<Swapped<V>, PutError>>
        requires of { self.old.of ≡ cache.now }
        ensures called { IfSome result (λ told. HasCalled V cache.now.layout.shape (PutCall key value.entry) self.old self.new (swap_answer told)) }
        ensures plain { IfSome result (λ told. SwapMeans V (history V self.old) (history V self.new) key value.entry told) }
        ensures fails { IfSome result (λ told. SwapFails cache.now.layout.shape (history V self.new) (version_changes V self.new) key told) }
        ensures present { IfSome result (λ told. IsSome (map_value (history V self.old) key)) }
        ensures same { IfNone result (self.new ≡ self.old) }
        ensures absent { IfNone result (map_value (history V self.old) key ≡ None) }
    {
        match swap_if_present(&cache.cells, &mut self.seat, &mut self.books, key, &value) {
            Some(Ok(swapped)) => {
                self.moment = at(&swapped.put);
                Some(Ok(swapped))
            }
            Some(Err(why)) => Some(Err(why)),
            None => None,
        }
    }

    /// Overwrites the key's value as `put_if` does, and returns the earlier entry.
    pub fn swap_if(
        &mut self,
        cache: &Cache<V>,
        key: u64,
        since: u64,
        value: [u64; V],
    ) -> Result<Replaced<V>, IfError>
        requires of { self.old.of ≡ cache.now }
        ensures called { HasCalled V cache.now.layout.shape (PutIfCall key since value.entry) self.old self.new (swap_if_answer result) }
        ensures plain { SwapIfMeans V (history V self.old) (history V self.new) key since value.entry result }
        ensures fails { SwapIfFails cache.now.layout.shape (history V self.new) (version_changes V self.new) result }
    {
        match swap_if(
            &cache.cells,
            &mut self.seat,
            &mut self.books,
            key,
            since,
            &value,
        ) {
            Ok(replaced) => {
                self.moment = replaced.at;
                Ok(replaced)
            }
            Err(why) => Err(why),
        }
    }

    /// Puts the key only if it is absent, as `put_if_absent` does, and returns the entry that gives way: that of the key that is evicted.
    pub fn swap_if_absent(
        &mut self,
        cache: &Cache<V>,
        key: u64,
        value: [u64; V],
    ) -> Result<Swapped<V>, AbsentError>
        requires of { self.old.of ≡ cache.now }
        ensures of { self.new.of ≡ self.old.of }
        ensures called { HasPutIfAbsent V cache.now.layout.shape key value.entry self.old self.new (absent_of result) }
        ensures plain { SwapIfAbsentMeans V (history V self.old) (history V self.new) key value.entry result }
        ensures fails { PutIfAbsentFails cache.now.layout.shape (history V self.new) (version_changes V self.new) key (absent_of result) }
    {
        match look(&cache.cells, &mut self.seat, &self.books, key) {
            Some(_) => match self.get(cache, key) {
                Reply::Found { since, .. } => Err(AbsentError::Present { since }),
                _ => unreachable!(),
            },
            None => match self.swap(cache, key, value) {
                Ok(swapped) => Ok(swapped),
                Err(why) => Err(AbsentError::Put(why)),
            },
        }
    }

    /// Removes the key as `remove` does, and returns its entry.
    pub fn take(&mut self, cache: &Cache<V>, key: u64) -> Result<Take<V>, Spent>
        requires of { self.old.of ≡ cache.now }
        ensures called { HasCalled V cache.now.layout.shape (RemoveCall key) self.old self.new (take_answer result) }
        ensures plain { TakeMeans V (history V self.old) (history V self.new) key result }
        ensures fails { TakeFails cache.now.layout.shape (history V self.new) (version_changes V self.new) result }
    {
        match take(&cache.cells, &mut self.seat, &mut self.books, key) {
            Ok(Take::Taken { at, old }) => {
                self.moment = at;
                Ok(Take::Taken { at, old })
            }
            Ok(Take::NotThere { at }) => Ok(Take::NotThere { at }),
            Err(spent) => Err(spent),
        }
    }

    /// Removes the key as `take` does, if its last put was at the moment `since`, as a lookup of the key returned it. Returns the moment of
    /// the removal, and the entry. After an `Err` nothing has changed: `Changed` with the moment of the key's last put if that is another,
    /// else `Spent` if the limit on version changes could be exceeded, or `NotThere`.
    pub fn take_if(
        &mut self,
        cache: &Cache<V>,
        key: u64,
        since: u64,
    ) -> Result<Replaced<V>, IfError>
        requires of { self.old.of ≡ cache.now }
        ensures called { HasTakenIf V cache.now.layout.shape key self.old self.new result }
        ensures plain { TakeIfMeans V (history V self.old) (history V self.new) key since result }
        ensures fails { TakeIfFails cache.now.layout.shape (history V self.new) (version_changes V self.new) result }
    {
        if let Some(held) = look(&cache.cells, &mut self.seat, &self.books, key) {
            if held.since != since {
                return Err(IfError::Changed { since: held.since });
            }
        }
        match self.take(cache, key) {
            Ok(Take::Taken { at, old }) => Ok(Replaced { at, old }),
            Ok(Take::NotThere { at }) => Err(IfError::NotThere { at }),
            Err(_) => Err(IfError::Spent),
        }
    }
}
