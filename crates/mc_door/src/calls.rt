//! The calls of a side.
ghost use Rattle.std.specs.Prelude.{◌≡◌, length};
ghost use Rattle.mc_words.specs.Places.{IsWidth};
ghost use Rattle.mc_door.specs.Means.{CapacityIs, GetOrTurnTells, GetTells};
ghost use Rattle.mc_door.specs.Roles.{role_of};
ghost use Rattle.mc_door.specs.Swaps.{SwapTells};
ghost use Rattle.mc_door.specs.Writes.{WriteTells};

use crate::outcome::RawReply;
use crate::side::{Hand, Side};
use crate::status::WIDTH;
use crate::tell::refused;
use crate::write::{Swap, Write};
use crate::{swaps, writes};

impl<const V: usize> Side<V> {
    pub(crate) fn words(&self) -> usize
        ensures { result ≡ V }
    {
        V
    }

    /// What the cache holds of the key: `Pass::get` or `Holder::get`. The value is written only if the key was found. The lookup of a
    /// pass of a single shard is compiled into its caller, and shares no registers with the others.
    #[inline(always)]
    pub fn get(&mut self, key: u64, value: &mut [u64], reply: &mut RawReply) -> u32
        requires { IsWidth V }
        ensures { GetTells V (role_of self.old) (role_of self.new) (self.new ≡ self.old) key value.old value.new (record { status = result; reply = reply.new }) }
    {
        if value.len() != V {
            return refused(WIDTH, reply);
        }
        match &mut self.hand {
            Hand::Pass(side) if side.shared.shards.is_single() => { side.get(key, value, reply) }
            _ => self.get_of_any(key, value, reply),
        }
    }

    #[inline(never)]
    fn get_of_any(&mut self, key: u64, value: &mut [u64], reply: &mut RawReply) -> u32
        requires width { IsWidth V }
        requires value { length value.old ≡ V }
        ensures { GetTells V (role_of self.old) (role_of self.new) (self.new ≡ self.old) key value.old value.new (record { status = result; reply = reply.new }) }
    {
        match &mut self.hand {
            Hand::Pass(side) => side.get_apart(key, value, reply),
            Hand::Holder(side) => side.get(key, value, reply),
            Hand::Nothing => unreachable!(),
        }
    }

    /// What the cache holds of the key: `Pass::get_or_desk` or `Holder::get`.
    #[inline(always)]
    pub fn get_or_turn(&mut self, key: u64, value: &mut [u64], reply: &mut RawReply) -> u32
        requires { IsWidth V }
        ensures { GetOrTurnTells V (role_of self.old) (role_of self.new) (self.new ≡ self.old) key value.old value.new (record { status = result; reply = reply.new }) }
    {
        if value.len() != V {
            return refused(WIDTH, reply);
        }
        match &mut self.hand {
            Hand::Pass(side) => side.get_or_turn(key, value, reply),
            Hand::Holder(side) => side.get(key, value, reply),
            Hand::Nothing => unreachable!(),
        }
    }

    /// `write` of a put. That of a holder of a single shard is compiled into its caller, and shares no registers with the others.
    #[inline(always)]
    pub fn put(&mut self, key: u64, value: &[u64], reply: &mut RawReply) -> u32
        ensures { WriteTells V (role_of self.old) (role_of self.new) (self.new ≡ self.old) key Write.Put value.now (record { status = result; reply = reply.new }) }
    {
        if value.len() != V {
            return refused(WIDTH, reply);
        }
        match &mut self.hand {
            Hand::Holder(side) if side.shared.shards.is_single() => {
                writes::put(side, key, value, reply)
            }
            _ => self.put_apart(key, value, reply),
        }
    }

    #[inline(never)]
    fn put_apart(&mut self, key: u64, value: &[u64], reply: &mut RawReply) -> u32
        requires { length value.now ≡ V }
        ensures { WriteTells V (role_of self.old) (role_of self.new) (self.new ≡ self.old) key Write.Put value.now (record { status = result; reply = reply.new }) }
    {
        match &mut self.hand {
            Hand::Pass(side) => writes::put(side, key, value, reply),
            Hand::Holder(side) => writes::put(side, key, value, reply),
            Hand::Nothing => unreachable!(),
        }
    }

    /// A write by a holder, or by a pass, which tries for the turn.
    #[inline(always)]
    pub(crate) fn write(
        &mut self,
        key: u64,
        call: Write,
        value: &[u64],
        reply: &mut RawReply,
    ) -> u32
        ensures { WriteTells V (role_of self.old) (role_of self.new) (self.new ≡ self.old) key call value.now (record { status = result; reply = reply.new }) }
    {
        if call.words(value, V) != V {
            return refused(WIDTH, reply);
        }
        match &mut self.hand {
            Hand::Pass(side) => writes::write(side, key, call, value, reply),
            Hand::Holder(side) => writes::write(side, key, call, value, reply),
            Hand::Nothing => unreachable!(),
        }
    }

    /// A write that also returns the entry which gives way. The old value is written only if one does.
    #[inline(always)]
    pub(crate) fn swap(
        &mut self,
        key: u64,
        call: Swap,
        value: &[u64],
        old: &mut [u64],
        reply: &mut RawReply,
    ) -> u32
        requires { IsWidth V }
        ensures { SwapTells V (role_of self.old) (role_of self.new) (self.new ≡ self.old) key call value.now old.old old.new (record { status = result; reply = reply.new }) }
    {
        if call.words(value, V) != V || old.len() != V {
            return refused(WIDTH, reply);
        }
        match &mut self.hand {
            Hand::Pass(side) => swaps::swap(side, key, call, value, old, reply),
            Hand::Holder(side) => swaps::swap(side, key, call, value, old, reply),
            Hand::Nothing => unreachable!(),
        }
    }
}

// Out of line: for a width that is not known before.
impl<const V: usize> Side<V> {
    #[inline(never)]
    pub(crate) fn get_apart(&mut self, key: u64, value: &mut [u64], reply: &mut RawReply) -> u32
        requires { IsWidth V }
        ensures { GetTells V (role_of self.old) (role_of self.new) (self.new ≡ self.old) key value.old value.new (record { status = result; reply = reply.new }) }
    {
        self.get(key, value, reply)
    }

    #[inline(never)]
    pub(crate) fn get_or_turn_apart(
        &mut self,
        key: u64,
        value: &mut [u64],
        reply: &mut RawReply,
    ) -> u32
        requires { IsWidth V }
        ensures { GetOrTurnTells V (role_of self.old) (role_of self.new) (self.new ≡ self.old) key value.old value.new (record { status = result; reply = reply.new }) }
    {
        self.get_or_turn(key, value, reply)
    }
}

impl<const V: usize> Side<V> {
    /// Loads ahead the words that lookups of the first of these keys will read, of `GROUP` keys at most: `Shards::touch_ahead`.
    pub fn touch_ahead(&self, keys: &[u64]) {
        match &self.hand {
            Hand::Pass(side) => side.shared.shards.touch_ahead(keys),
            Hand::Holder(side) => side.shared.shards.touch_ahead(keys),
            Hand::Nothing => {}
        }
    }

    /// Loads ahead the words that a lookup of the key will read: `Shards::prefetch`.
    #[inline(always)]
    pub fn prefetch(&self, key: u64) {
        match &self.hand {
            Hand::Pass(side) => side.shared.shards.prefetch(key),
            Hand::Holder(side) => side.shared.shards.prefetch(key),
            Hand::Nothing => {}
        }
    }

    /// How many keys the cache holds at most, shards all together: `Shards::capacity`.
    pub fn capacity(&self) -> u64
        ensures { CapacityIs V (role_of self.now) result }
    {
        match &self.hand {
            Hand::Pass(side) => side.shared.shards.capacity() as u64,
            Hand::Holder(side) => side.shared.shards.capacity() as u64,
            Hand::Nothing => unreachable!(),
        }
    }
}
