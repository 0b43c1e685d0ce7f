//! The calls of a holder: those of the writer of the key's shard.
ghost use Rattle.std.specs.Prelude.{◌≡◌};
ghost use Rattle.mc_cache.specs.Plain.{TellsNow, history};
ghost use Rattle.mc_cache.specs.Resting.{IsAtRest};
ghost use Rattle.mc_cache.specs.TurnCalls.{HasMade};
ghost use Rattle.mc_writer.specs.WriterCalls.{HasGot};
ghost use Rattle.mc_shards.specs.Holding.{IsHolderOf, histories};
ghost use Rattle.mc_shards.specs.Plain.{history_of};
ghost use Rattle.mc_shards.specs.Sharded.{ChangesAt, shard_in};

use crate::holding::Holder;
use crate::shards::Shards;
use mc_cache::keyed::Keyed;
use mc_cache::turn::TurnCall;
use mc_cache::{Cache, Reply, Writer};
use std::marker::PhantomData;

// A call by a writer in hand.
#[inline(always)]
fn make<const V: usize, T, E, C: TurnCall<V, T, E>>(
    cache: &Cache<V>,
    writer: &mut Writer<V>,
    call: C,
) -> Result<T, E>
    requires of { writer.old.of ≡ cache.now }
    ensures made { HasMade (C.contract call) cache.now result writer.old writer.new }
    ensures rests { IsAtRest V writer.new }
{
    cache.known();
    let answer = call.make(cache, writer, PhantomData);
    writer.known();
    answer
}

impl<const V: usize> Holder<V> {
    /// Makes the call with the writer of the shard that the call's key selects. It needs no try. Condition: the holder belongs to these shards.
    #[inline(always)]
    pub fn call<T, E, C: TurnCall<V, T, E> + Keyed>(
        &mut self,
        shards: &Shards<V>,
        call: C,
    ) -> Result<T, E>
        requires of { IsHolderOf shards.now self.old }
        ensures of { IsHolderOf shards.now self.new }
        ensures readers { self.new.readers ≡ self.old.readers }
        ensures made { ChangesAt (shard_in shards.now (C.key_of call)) self.old.writers self.new.writers (λ w w'. HasMade (C.contract call) w.of result w w') }
        ensures plain { ChangesAt (shard_in shards.now (C.key_of call)) (histories V self.old) (histories V self.new) (λ h h'. (C.contract call).means h h' result) }
    {
        let n = shards.shard_of(call.key());
        let writer = self.turns[n].writer(&shards.lender(n).table.shared);
        make(shards.cache(n), writer, call)
    }

    /// Looks the key up: what the map holds now. Never `Busy`. A hit marks the key's item. Condition: the holder belongs to these shards.
    pub fn get(&mut self, shards: &Shards<V>, key: u64) -> Reply<V>
        requires of { IsHolderOf shards.now self.old }
        ensures of { IsHolderOf shards.now self.new }
        ensures readers { self.new.readers ≡ self.old.readers }
        ensures got { ChangesAt (shard_in shards.now key) self.old.writers self.new.writers (λ w w'. HasGot V w.of.layout.shape key w w' result) }
        ensures plain { TellsNow (history_of shards.now.shape.mix (histories V self.old) key) key result × (histories V self.new ≡ histories V self.old) }
    {
        let n = shards.shard_of(key);
        let writer = self.turns[n].writer(&shards.lender(n).table.shared);
        let reply = writer.get(shards.cache(n), key);
        writer.known();
        reply
    }

    /// Looks the key up as `get` does, but marks nothing: it doesn't count as a use of the key. Condition: the holder belongs to these shards.
    pub fn peek(&mut self, shards: &Shards<V>, key: u64) -> Reply<V>
        requires of { IsHolderOf shards.now self.old }
        ensures same { self.new ≡ self.old }
        ensures plain { TellsNow (history_of shards.now.shape.mix (histories V self.old) key) key result }
    {
        let n = shards.shard_of(key);
        let writer = self.turns[n].writer(&shards.lender(n).table.shared);
        writer.peek(shards.cache(n), key)
    }
}
