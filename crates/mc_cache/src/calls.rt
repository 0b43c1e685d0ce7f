//! The calls of the writer that a turn makes, as values.
ghost use Rattle.mc_cache.specs.TurnCalls.{CanMake, HasMade};
ghost use Rattle.mc_cache.specs.CallContracts.{evict_contract, put_contract, put_bounded_contract, put_if_absent_bounded_contract, put_if_absent_contract, put_if_contract, remove_contract, show_contract, swap_bounded_contract, swap_contract, swap_if_absent_bounded_contract, swap_if_absent_contract, swap_if_contract, take_contract, take_if_contract};

use crate::bounding::{Bounded, BoundedError, BoundedPut};
use crate::cache::Cache;
use crate::turn::{Answers, TurnCall};
use crate::writer::Writer;
use mc_plan::{AbsentError, EvictError, IfError, Put, PutError, Remove, Spent};
use mc_writer::{Entry, Evict, Replaced, Swapped, Take};
use std::convert::Infallible;

/// `Writer::put` of this key with this value.
#[derive(Clone, Copy)]
pub struct Putting<'a, const V: usize>(pub u64, pub &'a [u64; V]);

impl<const V: usize> TurnCall<V, Put, PutError> for Putting<'_, V> {
    ghost contract = { λ c. put_contract V c.0 c.1.now };

    #[inline(always)]
    fn make(self, cache: &Cache<V>, writer: &mut Writer<V>, _: Answers<V>) -> Result<Put, PutError>
        requires { CanMake V cache.now writer.old }
        ensures { HasMade (put_contract V self.entry.0 self.entry.1.now) cache.now result writer.old writer.new }
    {
        writer.put(cache, self.0, *self.1)
    }
}

/// `Writer::put_if` of this key with this stamp and value.
#[derive(Clone, Copy)]
pub struct PuttingIf<'a, const V: usize>(pub u64, pub u64, pub &'a [u64; V]);

impl<const V: usize> TurnCall<V, u64, IfError> for PuttingIf<'_, V> {
    ghost contract = { λ c. put_if_contract V c.0 c.1 c.2.now };

    #[inline(always)]
    fn make(self, cache: &Cache<V>, writer: &mut Writer<V>, _: Answers<V>) -> Result<u64, IfError>
        requires { CanMake V cache.now writer.old }
        ensures { HasMade (put_if_contract V self.entry.0 self.entry.1 self.entry.2.now) cache.now result writer.old writer.new }
    {
        writer.put_if(cache, self.0, self.1, *self.2)
    }
}

/// `Writer::put_if_absent` of this key with this value.
#[derive(Clone, Copy)]
pub struct PuttingIfAbsent<'a, const V: usize>(pub u64, pub &'a [u64; V]);

impl<const V: usize> TurnCall<V, Put, AbsentError> for PuttingIfAbsent<'_, V> {
    ghost contract = { λ c. put_if_absent_contract V c.0 c.1.now };

    #[inline(always)]
    fn make(
        self,
        cache: &Cache<V>,
        writer: &mut Writer<V>,
        _: Answers<V>,
    ) -> Result<Put, AbsentError>
        requires { CanMake V cache.now writer.old }
        ensures { HasMade (put_if_absent_contract V self.entry.0 self.entry.1.now) cache.now result writer.old writer.new }
    {
        writer.put_if_absent(cache, self.0, *self.1)
    }
}

/// `Writer::remove` of this key.
#[derive(Clone, Copy)]
pub struct Removing(pub u64);

impl<const V: usize> TurnCall<V, Remove, Spent> for Removing {
    ghost contract = { λ c. remove_contract V c.0 };

    #[inline(always)]
    fn make(self, cache: &Cache<V>, writer: &mut Writer<V>, _: Answers<V>) -> Result<Remove, Spent>
        requires { CanMake V cache.now writer.old }
        ensures { HasMade (remove_contract V self.0) cache.now result writer.old writer.new }
    {
        writer.remove(cache, self.0)
    }
}

/// `Writer::swap` of this key with this value.
#[derive(Clone, Copy)]
pub struct Swapping<'a, const V: usize>(pub u64, pub &'a [u64; V]);

impl<const V: usize> TurnCall<V, Swapped<V>, PutError> for Swapping<'_, V> {
    ghost contract = { λ c. swap_contract V c.0 c.1.now };

    #[inline(always)]
    fn make(
        self,
        cache: &Cache<V>,
        writer: &mut Writer<V>,
        _: Answers<V>,
    ) -> Result<Swapped<V>, PutError>
        requires { CanMake V cache.now writer.old }
        ensures { HasMade (swap_contract V self.entry.0 self.entry.1.now) cache.now result writer.old writer.new }
    {
        writer.swap(cache, self.0, *self.1)
    }
}

/// `Writer::swap_if` of this key with this stamp and value.
#[derive(Clone, Copy)]
pub struct SwappingIf<'a, const V: usize>(pub u64, pub u64, pub &'a [u64; V]);

impl<const V: usize> TurnCall<V, Replaced<V>, IfError> for SwappingIf<'_, V> {
    ghost contract = { λ c. swap_if_contract V c.0 c.1 c.2.now };

    #[inline(always)]
    fn make(
        self,
        cache: &Cache<V>,
        writer: &mut Writer<V>,
        _: Answers<V>,
    ) -> Result<Replaced<V>, IfError>
        requires { CanMake V cache.now writer.old }
        ensures { HasMade (swap_if_contract V self.entry.0 self.entry.1 self.entry.2.now) cache.now result writer.old writer.new }
    {
        writer.swap_if(cache, self.0, self.1, *self.2)
    }
}

/// `Writer::swap_if_absent` of this key with this value.
#[derive(Clone, Copy)]
pub struct SwappingIfAbsent<'a, const V: usize>(pub u64, pub &'a [u64; V]);

impl<const V: usize> TurnCall<V, Swapped<V>, AbsentError> for SwappingIfAbsent<'_, V> {
    ghost contract = { λ c. swap_if_absent_contract V c.0 c.1.now };

    #[inline(always)]
    fn make(
        self,
        cache: &Cache<V>,
        writer: &mut Writer<V>,
        _: Answers<V>,
    ) -> Result<Swapped<V>, AbsentError>
        requires { CanMake V cache.now writer.old }
        ensures { HasMade (swap_if_absent_contract V self.entry.0 self.entry.1.now) cache.now result writer.old writer.new }
    {
        writer.swap_if_absent(cache, self.0, *self.1)
    }
}

/// `Writer::put_bounded` of this key in a table that is to hold at most so many keys, with this value.
#[derive(Clone, Copy)]
pub struct PuttingBounded<'a, const V: usize>(pub u64, pub u32, pub &'a [u64; V]);

impl<const V: usize> TurnCall<V, BoundedPut, EvictError> for PuttingBounded<'_, V> {
    ghost contract = { λ c. put_bounded_contract V c.0 c.1 c.2.now };

    #[inline(always)]
    fn make(
        self,
        cache: &Cache<V>,
        writer: &mut Writer<V>,
        _: Answers<V>,
    ) -> Result<BoundedPut, EvictError>
        requires { CanMake V cache.now writer.old }
        ensures { HasMade (put_bounded_contract V self.entry.0 self.entry.1 self.entry.2.now) cache.now result writer.old writer.new }
    {
        writer.put_bounded(cache, self.0, self.1, *self.2)
    }
}

/// `Writer::put_if_absent_bounded` of this key in a table that is to hold at most so many keys, with this value.
#[derive(Clone, Copy)]
pub struct PuttingIfAbsentBounded<'a, const V: usize>(pub u64, pub u32, pub &'a [u64; V]);

impl<const V: usize> TurnCall<V, BoundedPut, BoundedError> for PuttingIfAbsentBounded<'_, V> {
    ghost contract = { λ c. put_if_absent_bounded_contract V c.0 c.1 c.2.now };

    #[inline(always)]
    fn make(
        self,
        cache: &Cache<V>,
        writer: &mut Writer<V>,
        _: Answers<V>,
    ) -> Result<BoundedPut, BoundedError>
        requires { CanMake V cache.now writer.old }
        ensures { HasMade (put_if_absent_bounded_contract V self.entry.0 self.entry.1 self.entry.2.now) cache.now result writer.old writer.new }
    {
        writer.put_if_absent_bounded(cache, self.0, self.1, *self.2)
    }
}

/// `Writer::swap_bounded` of this key in a table that is to hold at most so many keys, with this value.
#[derive(Clone, Copy)]
pub struct SwappingBounded<'a, const V: usize>(pub u64, pub u32, pub &'a [u64; V]);

impl<const V: usize> TurnCall<V, Bounded<V>, EvictError> for SwappingBounded<'_, V> {
    ghost contract = { λ c. swap_bounded_contract V c.0 c.1 c.2.now };

    #[inline(always)]
    fn make(
        self,
        cache: &Cache<V>,
        writer: &mut Writer<V>,
        _: Answers<V>,
    ) -> Result<Bounded<V>, EvictError>
        requires { CanMake V cache.now writer.old }
        ensures { HasMade (swap_bounded_contract V self.entry.0 self.entry.1 self.entry.2.now) cache.now result writer.old writer.new }
    {
        writer.swap_bounded(cache, self.0, self.1, *self.2)
    }
}

/// `Writer::swap_if_absent_bounded` of this key in a table that is to hold at most so many keys, with this value.
#[derive(Clone, Copy)]
pub struct SwappingIfAbsentBounded<'a, const V: usize>(pub u64, pub u32, pub &'a [u64; V]);

impl<const V: usize> TurnCall<V, Bounded<V>, BoundedError> for SwappingIfAbsentBounded<'_, V> {
    ghost contract = { λ c. swap_if_absent_bounded_contract V c.0 c.1 c.2.now };

    #[inline(always)]
    fn make(
        self,
        cache: &Cache<V>,
        writer: &mut Writer<V>,
        _: Answers<V>,
    ) -> Result<Bounded<V>, BoundedError>
        requires { CanMake V cache.now writer.old }
        ensures { HasMade (swap_if_absent_bounded_contract V self.entry.0 self.entry.1 self.entry.2.now) cache.now result writer.old writer.new }
    {
        writer.swap_if_absent_bounded(cache, self.0, self.1, *self.2)
    }
}

/// `Writer::take` of this key.
#[derive(Clone, Copy)]
pub struct Taking(pub u64);

impl<const V: usize> TurnCall<V, Take<V>, Spent> for Taking {
    ghost contract = { λ c. take_contract V c.0 };

    #[inline(always)]
    fn make(self, cache: &Cache<V>, writer: &mut Writer<V>, _: Answers<V>) -> Result<Take<V>, Spent>
        requires { CanMake V cache.now writer.old }
        ensures { HasMade (take_contract V self.0) cache.now result writer.old writer.new }
    {
        writer.take(cache, self.0)
    }
}

/// `Writer::take_if` of this key with this stamp.
#[derive(Clone, Copy)]
pub struct TakingIf(pub u64, pub u64);

impl<const V: usize> TurnCall<V, Replaced<V>, IfError> for TakingIf {
    ghost contract = { λ c. take_if_contract V c.0 c.1 };

    #[inline(always)]
    fn make(
        self,
        cache: &Cache<V>,
        writer: &mut Writer<V>,
        _: Answers<V>,
    ) -> Result<Replaced<V>, IfError>
        requires { CanMake V cache.now writer.old }
        ensures { HasMade (take_if_contract V self.0 self.1) cache.now result writer.old writer.new }
    {
        writer.take_if(cache, self.0, self.1)
    }
}

/// `Writer::evict`, in the shard of this key. The key alone is not asked for.
#[derive(Clone, Copy)]
pub struct Evicting(pub u64);

impl<const V: usize> TurnCall<V, Evict<V>, EvictError> for Evicting {
    ghost contract = { λ c. evict_contract V };

    #[inline(always)]
    fn make(
        self,
        cache: &Cache<V>,
        writer: &mut Writer<V>,
        _: Answers<V>,
    ) -> Result<Evict<V>, EvictError>
        requires { CanMake V cache.now writer.old }
        ensures { HasMade (evict_contract V) cache.now result writer.old writer.new }
    {
        writer.evict(cache)
    }
}

/// `Writer::entry_at` of this item, in the shard of this key: first the key, then the item. The key alone is not asked for.
#[derive(Clone, Copy)]
pub struct Showing(pub u64, pub u32);

impl<const V: usize> TurnCall<V, Option<Entry<V>>, Infallible> for Showing {
    ghost contract = { λ c. show_contract V c.1 };

    #[inline(always)]
    fn make(
        self,
        cache: &Cache<V>,
        writer: &mut Writer<V>,
        _: Answers<V>,
    ) -> Result<Option<Entry<V>>, Infallible>
        requires { CanMake V cache.now writer.old }
        ensures { HasMade (show_contract V self.1) cache.now result writer.old writer.new }
    {
        Ok(writer.entry_at(cache, self.1))
    }
}
