//! The writer.
ghost use Rattle.std.specs.Prelude.{◌≡◌, ◌++◌, IfNone, IfOk, IfSome, IsSome, None, length};
ghost use Rattle.mc_words.specs.History.{key_count, map_value};
ghost use Rattle.mc_words.specs.Places.{IsWidth};
ghost use Rattle.mc_theory.specs.Lists.{state_of};
ghost use Rattle.mc_shared.specs.SeatFacts.{IsRun};
ghost use Rattle.mc_cache.specs.Resting.{IsAtRest};
ghost use Rattle.mc_cache.specs.Failing.{PutFails, PutIfAbsentFails, PutIfFails, RemovalFails, version_changes};
ghost use Rattle.mc_cache.specs.Plain.{IsLegal, PutIfAbsentMeans, PutIfMeans, PutMeans, RemovalMeans, TellsNow, history, moment_of};
ghost use Rattle.mc_plan.specs.Loads.{changes_by};
ghost use Rattle.mc_plan.specs.WholeCalls.{KeptCall, PutCall, PutIfCall, RemoveCall};
ghost use Rattle.mc_plan.specs.declared.answer.Answer.TheVariants as answer;
ghost use Rattle.mc_writer.specs.WriterCalls.{HasCalled, HasGot, HasPutIfAbsent};

use crate::cache::Cache;
use mc_plan::{AbsentError, Books, IfError, Put, PutError, Remove, Spent, Why};
use mc_shared::WriterSeat;
use mc_words::Reply;
use mc_writer::{
    get, look, put, put_if, put_if_absent, put_if_present, put_kept, put_kept_absent, remove,
};
use std::marker::Model;

/// The one writer of a cache. In contracts it is its record: the acts that it has made.
#[derive(Drop)]
pub struct Writer<const V: usize> {
    pub(crate) seat: WriterSeat,
    /// The number of changes made to the map.
    pub(crate) moment: u64,
    pub(crate) books: Books,
}

impl<const V: usize> Model for Writer<V> {
    ghost use Rattle.mc_cache.specs.Inside.KeptMoments.{KeepsMoment};
    ghost use Rattle.mc_shared.specs.Records.{WriterRecord};
    ghost use Rattle.mc_writer.specs.WriterCalls.{IsRested};

    ghost Value = { WriterRecord };

    ghost view = { λ w. w.seat };

    ghost invariant = { λ w. IsRested V w.books w.seat × KeepsMoment V w.seat w.moment };
}

/// The moment of a put's change.
#[inline(always)]
pub(crate) fn at(done: &Put) -> u64
    ensures { result ≡ moment_of done.now }
{
    match done {
        Put::Renewed { at } => *at,
        Put::Stored { at, .. } => *at,
    }
}

impl<const V: usize> Writer<V> {
    /// Puts the key with this value. May evict another key (section 4.1 of the paper of Fan, Andersen and Kaminsky). After an
    /// `Err` the map is unchanged: `Spent` if the limit on version changes could be exceeded, `NoPath` if no path of
    /// displacements leads to an empty slot, `AllRecent` if every item was used since the hand passed it.
    #[inline(always)]
    pub fn put(&mut self, cache: &Cache<V>, key: u64, value: [u64; V]) -> Result<Put, PutError>
        requires of { self.old.of ≡ cache.now }
        ensures called { HasCalled V cache.now.layout.shape (PutCall key value.entry) self.old self.new (answer.Put result) }
        ensures plain { PutMeans V (history V self.old) (history V self.new) key value.entry result }
        ensures fails { PutFails cache.now.layout.shape (history V self.new) (version_changes V self.new) key result }
    {
        match put(&cache.cells, &mut self.seat, &mut self.books, key, &value) {
            Ok(done) => {
                self.moment = at(&done);
                Ok(done)
            }
            Err(why) => Err(why),
        }
    }

    /// Overwrites the key's value if its last put was at the moment `since`, as a lookup of the key returned it. Returns the
    /// moment of the new put. After an `Err` nothing has changed; the first that applies: `Spent` if the limit on version changes
    /// could be exceeded, `NotThere` if the key is absent, `Changed` with the moment of the key's last put if that is another.
    pub fn put_if(
        &mut self,
        cache: &Cache<V>,
        key: u64,
        since: u64,
        value: [u64; V],
    ) -> Result<u64, IfError>
        requires of { self.old.of ≡ cache.now }
        ensures called { HasCalled V cache.now.layout.shape (PutIfCall key since value.entry) self.old self.new (answer.PutIf result) }
        ensures plain { PutIfMeans V (history V self.old) (history V self.new) key since value.entry result }
        ensures fails { PutIfFails cache.now.layout.shape (history V self.new) (version_changes V self.new) result }
    {
        match put_if(
            &cache.cells,
            &mut self.seat,
            &mut self.books,
            key,
            since,
            &value,
        ) {
            Ok(at) => {
                self.moment = at;
                Ok(at)
            }
            Err(why) => Err(why),
        }
    }

    /// Puts the key only if it is absent. After an `Err` the map is unchanged. `Present` has the moment of the key's last put; the
    /// key's item is then marked, as by a hit. `Put` says why the put of the absent key failed.
    pub fn put_if_absent(
        &mut self,
        cache: &Cache<V>,
        key: u64,
        value: [u64; V],
    ) -> Result<Put, AbsentError>
        requires of { self.old.of ≡ cache.now }
        ensures of { self.new.of ≡ self.old.of }
        ensures called { HasPutIfAbsent V cache.now.layout.shape key value.entry self.old self.new result }
        ensures plain { PutIfAbsentMeans V (history V self.old) (history V self.new) key value.entry result }
        ensures fails { PutIfAbsentFails cache.now.layout.shape (history V self.new) (version_changes V self.new) key result }
    {
        match put_if_absent(&cache.cells, &mut self.seat, &mut self.books, key, &value) {
            Ok(done) => {
                self.moment = at(&done);
                Ok(done)
            }
            Err(why) => Err(why),
        }
    }

    /// Puts the key as `put` does, but evicts no other key. After an `Err` the map is unchanged. Returns the first that applies:
    /// `Spent` if the limit on version changes could be exceeded, `NoPath` if no path of at most `depth` moves leads to an empty
    /// slot, `NoItem` if every item is in use.
    pub fn put_kept(&mut self, cache: &Cache<V>, key: u64, value: [u64; V]) -> Result<Put, Why>
        requires of { self.old.of ≡ cache.now }
        ensures called { HasCalled V cache.now.layout.shape (KeptCall key value.entry) self.old self.new (answer.Kept result) }
        ensures plain { history V self.new ≡ history V self.old ++ changes_by key value.entry result }
        ensures at { IfOk result (λ done. moment_of done ≡ length (history V self.new)) }
    {
        match put_kept(&cache.cells, &mut self.seat, &mut self.books, key, &value) {
            Ok(done) => {
                self.moment = at(&done);
                Ok(done)
            }
            Err(why) => Err(why),
        }
    }

    /// Puts the key as `put` does, if it is there. `None`: it is absent, and nothing has changed.
    pub(crate) fn put_if_present(
        &mut self,
        cache: &Cache<V>,
        key: u64,
        value: [u64; V],
    ) -> Option<Result<Put, PutError>>
        requires of { self.old.of ≡ cache.now }
        ensures width { IsWidth V }
        ensures called { IfSome result (λ told. HasCalled V cache.now.layout.shape (PutCall key value.entry) self.old self.new (answer.Put told)) }
        ensures plain { IfSome result (λ told. PutMeans V (history V self.old) (history V self.new) key value.entry told) }
        ensures fails { IfSome result (λ told. PutFails cache.now.layout.shape (history V self.new) (version_changes V self.new) key told) }
        ensures present { IfSome result (λ told. IsSome (map_value (history V self.old) key)) }
        ensures same { IfNone result (self.new ≡ self.old) }
        ensures absent { IfNone result (map_value (history V self.old) key ≡ None) }
    {
        match put_if_present(&cache.cells, &mut self.seat, &mut self.books, key, &value) {
            Some(Ok(done)) => {
                self.moment = at(&done);
                Some(Ok(done))
            }
            Some(Err(why)) => Some(Err(why)),
            None => None,
        }
    }

    /// Puts a key that is absent as `put_kept` does, without a look for it. Condition: it is absent.
    pub(crate) fn put_kept_absent(
        &mut self,
        cache: &Cache<V>,
        key: u64,
        value: [u64; V],
    ) -> Result<Put, Why>
        requires of { self.old.of ≡ cache.now }
        requires absent { map_value (history V self.old) key ≡ None }
        ensures called { HasCalled V cache.now.layout.shape (KeptCall key value.entry) self.old self.new (answer.Kept result) }
        ensures plain { history V self.new ≡ history V self.old ++ changes_by key value.entry result }
        ensures at { IfOk result (λ done. moment_of done ≡ length (history V self.new)) }
    {
        match put_kept_absent(&cache.cells, &mut self.seat, &mut self.books, key, &value) {
            Ok(done) => {
                self.moment = at(&done);
                Ok(done)
            }
            Err(why) => Err(why),
        }
    }

    /// Removes the key. `Err(Spent)` if the limit on version changes could be exceeded: nothing has changed.
    pub fn remove(&mut self, cache: &Cache<V>, key: u64) -> Result<Remove, Spent>
        requires of { self.old.of ≡ cache.now }
        ensures called { HasCalled V cache.now.layout.shape (RemoveCall key) self.old self.new (answer.Remove result) }
        ensures plain { RemovalMeans V (history V self.old) (history V self.new) key result }
        ensures fails { RemovalFails cache.now.layout.shape (history V self.new) (version_changes V self.new) result }
    {
        match remove(&cache.cells, &mut self.seat, &mut self.books, key) {
            Ok(Remove::Removed { at }) => {
                self.moment = at;
                Ok(Remove::Removed { at })
            }
            Ok(Remove::NotThere { at }) => Ok(Remove::NotThere { at }),
            Err(spent) => Err(spent),
        }
    }

    /// Looks the key up at the writer's moment. Never `Busy`. A hit marks the key's item.
    pub fn get(&mut self, cache: &Cache<V>, key: u64) -> Reply<V>
        requires of { self.old.of ≡ cache.now }
        ensures got { HasGot V cache.now.layout.shape key self.old self.new result }
        ensures plain { TellsNow (history V self.old) key result × (history V self.new ≡ history V self.old) }
    {
        get(&cache.cells, &mut self.seat, &self.books, key)
    }

    /// Looks the key up as `get` does, but marks nothing: it doesn't count as a use of the key.
    pub fn peek(&mut self, cache: &Cache<V>, key: u64) -> Reply<V>
        requires of { self.old.of ≡ cache.now }
        ensures writer { self.new ≡ self.old }
        ensures plain { TellsNow (history V self.old) key result }
    {
        let at = self.moment;
        match look(&cache.cells, &mut self.seat, &self.books, key) {
            Some(held) => {
                let value = held.value;
                let since = held.since;
                Reply::Found { value, at, since }
            }
            None => Reply::Absent { at },
        }
    }

    /// The number of changes made to the map: the length of the history.
    pub fn moment(&self) -> u64
        ensures moment { result ≡ length (state_of V self.now.of.layout.shape self.now.acts).history }
        ensures plain { result ≡ length (history V self.now) }
    {
        self.moment
    }

    /// How many keys the cache holds. The call reads no word of the table, so it takes the same time for each size.
    pub fn len(&self) -> usize
        ensures plain { result ≡ key_count (history V self.now) }
    {
        self.books.key_count()
    }

    /// How many keys the cache holds at most: the items of its shape.
    pub fn capacity(&self) -> usize
        ensures { result ≡ self.now.of.layout.shape.items }
    {
        self.books.items() as usize
    }

    /// What always holds of a writer between two calls, for proofs: its acts are lawful and within the limit, each has its note,
    /// no deed runs, the words agree with the history, and the history is legal. Does nothing at run time.
    pub fn known(&self)
        ensures run { IsRun self.now.of.layout self.now.acts }
        ensures paired { length self.now.notes ≡ length self.now.acts }
        ensures rests { IsAtRest V self.now }
        ensures plain { IsLegal self.now.of.layout.shape.items (history V self.now) }
    {
        self.seat.known();
    }
}
