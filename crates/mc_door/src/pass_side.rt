//! A handle that tries for turns: a pass, with what handles share.
ghost use Rattle.std.specs.Prelude.{◌≡◌, Err, length};
ghost use Rattle.mc_cache.specs.declared.desk.DeskError.TheVariants.{Held};
ghost use Rattle.mc_shards.specs.Sharded.{ArePassOf};

use crate::caller::Caller;
use crate::looked::Looked;
use crate::outcome::{Outcome, RawReply};
use crate::shared::Shared;
use mc_cache::DeskError;
use mc_cache::keyed::Keyed;
use mc_cache::turn::TurnCall;
use mc_shards::Pass;
use std::alloc::Global;
use std::sync::Arc;

/// A pass of shards.
#[derive(Drop)]
pub struct PassSide<const V: usize> {
    pub shared: Arc<Shared<V>, Global>,
    pub pass: Pass<V>,
    ghost belongs: { ArePassOf shared.value.shards pass },
}

impl<const V: usize> PassSide<V> {
    ghost use Rattle.mc_words.specs.Places.{IsWidth};
    ghost use Rattle.mc_door.specs.Means.{GetMeans, GetOrTurnMeans};
    ghost use Rattle.mc_door.specs.Roles.{Tries};
    ghost use Rattle.mc_door.specs.Tellings.{lookup_told};
    ghost use Rattle.mc_door.specs.Tells.{HasTold};

    #[inline(always)]
    pub(crate) fn get(&mut self, key: u64, value: &mut [u64], reply: &mut RawReply) -> u32
        requires width { IsWidth V }
        requires value { length value.old ≡ V }
        ensures { HasTold lookup_told (GetMeans V (Tries self.old.shared.value.shards self.old.pass) (Tries self.new.shared.value.shards self.new.pass) key value.old value.new) (record { status = result; reply = reply.new }) }
    {
        let answer = self.pass.get(&self.shared.shards, key);
        let looked = Looked::of(answer, value);
        Outcome::looked(looked).tell(reply)
    }

    // The same, out of line.
    #[inline(never)]
    pub(crate) fn get_apart(&mut self, key: u64, value: &mut [u64], reply: &mut RawReply) -> u32
        requires width { IsWidth V }
        requires value { length value.old ≡ V }
        ensures { HasTold lookup_told (GetMeans V (Tries self.old.shared.value.shards self.old.pass) (Tries self.new.shared.value.shards self.new.pass) key value.old value.new) (record { status = result; reply = reply.new }) }
    {
        self.get(key, value, reply)
    }

    #[inline(always)]
    pub(crate) fn get_or_turn(&mut self, key: u64, value: &mut [u64], reply: &mut RawReply) -> u32
        requires width { IsWidth V }
        requires value { length value.old ≡ V }
        ensures { HasTold lookup_told (GetOrTurnMeans V (Tries self.old.shared.value.shards self.old.pass) (Tries self.new.shared.value.shards self.new.pass) key value.old value.new) (record { status = result; reply = reply.new }) }
    {
        let answer = self.pass.get_or_desk(&self.shared.shards, key);
        let looked = Looked::of(answer, value);
        Outcome::looked(looked).tell(reply)
    }
}

impl<const V: usize> Caller<V> for PassSide<V> {
    ghost use Rattle.mc_door.specs.Roles.{Tries};
    ghost use Rattle.mc_door.specs.Turns.{HasCalledBy};

    ghost role = { λ s. Tries s.shared.value.shards s.pass };

    #[inline(always)]
    fn try_call<T, E, C: TurnCall<V, T, E> + Keyed>(&mut self, call: C) -> Result<T, DeskError<E>>
        ensures tried { HasCalledBy (Tries self.old.shared.value.shards self.old.pass) (Tries self.new.shared.value.shards self.new.pass) (C.key_of call) (C.contract call) result }
        ensures held { result ≡ Err Held → Tries self.new.shared.value.shards self.new.pass ≡ Tries self.old.shared.value.shards self.old.pass }
    {
        self.pass.try_call(&self.shared.shards, call)
    }
}
