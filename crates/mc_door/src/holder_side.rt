//! A handle that holds the turn of every shard, with what handles share.
ghost use Rattle.std.specs.Prelude.{◌≡◌, Err, length};
ghost use Rattle.mc_cache.specs.declared.desk.DeskError.TheVariants.{Held};
ghost use Rattle.mc_shards.specs.Holding.{IsHolderOf, histories};
ghost use Rattle.mc_shards.specs.Loadings.{HaveMet};
ghost use Rattle.mc_shards.specs.Plain.{AllBegin, seens};
ghost use Rattle.mc_shards.specs.Sharded.{ArePassOf};

use crate::caller::Caller;
use crate::looked::Looked;
use crate::outcome::{Outcome, RawReply};
use crate::shared::Shared;
use mc_cache::DeskError;
use mc_cache::keyed::Keyed;
use mc_cache::turn::TurnCall;
use mc_shards::{Holder, Pass};
use std::alloc::Global;
use std::sync::Arc;

/// A handle that holds the turn of every shard. When it is dropped, it gives them back.
pub struct HolderSide<const V: usize> {
    pub shared: Arc<Shared<V>, Global>,
    pub holder: Holder<V>,
    ghost belongs: { IsHolderOf shared.value.shards holder },
}

impl<const V: usize> Drop for HolderSide<V> {
    fn drop(self) {
        let (shared, pass) = self.release();
        drop(pass);
        drop(shared);
    }
}

impl<const V: usize> HolderSide<V> {
    ghost use Rattle.mc_words.specs.Places.{IsWidth};
    ghost use Rattle.mc_door.specs.Means.{GetMeans, GetOrTurnMeans};
    ghost use Rattle.mc_door.specs.Roles.{Holds};
    ghost use Rattle.mc_door.specs.Tellings.{lookup_told};
    ghost use Rattle.mc_door.specs.Tells.{HasTold};

    // Gives the turns back.
    pub(crate) fn release(self) -> (Arc<Shared<V>, Global>, Pass<V>)
        ensures shared { result.0 ≡ self.entry.shared }
        ensures of { ArePassOf self.entry.shared.value.shards result.1 }
        ensures met { HaveMet self.entry.holder.writers result.1 }
        ensures plain { AllBegin (seens V self.entry.holder.readers) (histories V self.entry.holder) × (seens V result.1 ≡ histories V self.entry.holder) }
    {
        let HolderSide { shared, holder } = self;
        let pass = holder.release(&shared.shards);
        (shared, pass)
    }

    #[inline(never)]
    pub(crate) fn get(&mut self, key: u64, value: &mut [u64], reply: &mut RawReply) -> u32
        requires width { IsWidth V }
        requires value { length value.old ≡ V }
        ensures got { HasTold lookup_told (GetMeans V (Holds self.old.shared.value.shards self.old.holder) (Holds self.new.shared.value.shards self.new.holder) key value.old value.new) (record { status = result; reply = reply.new }) }
        ensures turn { HasTold lookup_told (GetOrTurnMeans V (Holds self.old.shared.value.shards self.old.holder) (Holds self.new.shared.value.shards self.new.holder) key value.old value.new) (record { status = result; reply = reply.new }) }
    {
        let answer = self.holder.get(&self.shared.shards, key);
        let looked = Looked::of(answer, value);
        Outcome::looked(looked).tell(reply)
    }
}

impl<const V: usize> Caller<V> for HolderSide<V> {
    ghost use Rattle.mc_door.specs.Roles.{Holds};
    ghost use Rattle.mc_door.specs.Turns.{HasCalledBy};

    ghost role = { λ s. Holds s.shared.value.shards s.holder };

    #[inline(always)]
    fn try_call<T, E, C: TurnCall<V, T, E> + Keyed>(&mut self, call: C) -> Result<T, DeskError<E>>
        ensures tried { HasCalledBy (Holds self.old.shared.value.shards self.old.holder) (Holds self.new.shared.value.shards self.new.holder) (C.key_of call) (C.contract call) result }
        ensures held { result ≡ Err Held → Holds self.new.shared.value.shards self.new.holder ≡ Holds self.old.shared.value.shards self.old.holder }
    {
        match self.holder.call(&self.shared.shards, call) {
            Ok(done) => Ok(done),
            Err(why) => Err(DeskError::Call(why)),
        }
    }
}
