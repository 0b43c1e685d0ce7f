//! The entries of all shards.
ghost use Rattle.std.specs.Prelude.{◌≡◌, ◌<◌, ◌++◌, IfErr, IfOk, OnOk, length};
ghost use Rattle.mc_words.specs.Shapes.{HasShards};
ghost use Rattle.mc_cache.specs.Plain.{AreEntriesOf};
ghost use Rattle.mc_cache.specs.Turns.{HasTriedToList};
ghost use Rattle.mc_shards.specs.Inside.Listed.{AddsShard};
ghost use Rattle.mc_shards.specs.Own.{own_of};
ghost use Rattle.mc_shards.specs.Plain.{AllBegin, AreEntriesOfAll, Begins, seens};
ghost use Rattle.mc_shards.specs.Sharded.{ArePassOf, ChangesAt};
ghost use Rattle.mc_shards.specs.Unlisted.{HasStopped, StopsAt};

use crate::pass::Pass;
use crate::shards::Shards;
use mc_cache::{DeskError, Mix, NoMemory};
use std::alloc::{AllocError, Global};

// The shard that stopped a list, and why.
#[derive(Clone, Copy)]
struct Stopped {
    shard: usize,
    why: DeskError<NoMemory>,
}

// Adds those of the entries that belong to the shard.
pub(crate) fn list_own<const V: usize>(
    mix: Mix,
    many: u32,
    shard: u32,
    entries: Vec<(u64, [u64; V])>,
    all: &mut Vec<(u64, [u64; V])>,
) -> Result<(), AllocError>
    requires { HasShards many }
    ensures { OnOk result (all.new.items ≡ all.old.items ++ own_of mix many shard entries.entry.items) }
{
    for entry in entries {
        if mix.shard(entry.0, many) == shard {
            all.push(entry)?;
        }
    }
    Ok(())
}

impl<const V: usize> Pass<V> {
    // The entries of one shard's cache, by one try for its turn.
    fn entries_at(
        &mut self,
        alloc: Global,
        shards: &Shards<V>,
        n: usize,
    ) -> Result<Vec<(u64, [u64; V])>, DeskError<NoMemory>>
        requires of { ArePassOf shards.now self.old }
        requires range { n < length shards.now.tables }
        ensures of { ArePassOf shards.now self.new }
        ensures met { ChangesAt n self.old self.new (λ r r'. HasTriedToList V r r' result) }
        ensures plain { ChangesAt n (seens V self.old) (seens V self.new) (λ h h'. Begins h h' × IfOk result (λ es. AreEntriesOf V h' es.items)) }
    {
        let cache = shards.cache(n);
        let lender = shards.lender(n);
        let reader = &mut self.readers[n];
        lender.try_entries(alloc, cache, reader)
    }

    // Adds the entries of one shard.
    fn list_shard(
        &mut self,
        alloc: Global,
        shards: &Shards<V>,
        n: usize,
        all: &mut Vec<(u64, [u64; V])>,
    ) -> Result<(), DeskError<NoMemory>>
        requires of { ArePassOf shards.now self.old }
        requires range { n < length shards.now.tables }
        ensures of { ArePassOf shards.now self.new }
        ensures met { ChangesAt n self.old self.new (λ r r'. HasTriedToList V r r' result) }
        ensures begins { ChangesAt n (seens V self.old) (seens V self.new) (λ h h'. Begins h h') }
        ensures listed { OnOk result (ChangesAt n (seens V self.old) (seens V self.new)
            (λ h h'. AddsShard V shards.now.shape.mix (length shards.now.tables) n h' all.old.items all.new.items)) }
    {
        let entries = match self.entries_at(alloc, shards, n) {
            Ok(entries) => entries,
            Err(why) => return Err(why),
        };
        let Ok(()) = list_own(shards.shape.mix, shards.count(), n as u32, entries, all) else {
            return Err(DeskError::Call(NoMemory));
        };
        Ok(())
    }

    // Lists the shards, from the last one back. If one of them stops the list, the answer says which.
    fn list_all(
        &mut self,
        alloc: Global,
        shards: &Shards<V>,
    ) -> Result<Vec<(u64, [u64; V])>, Stopped>
        requires of { ArePassOf shards.now self.old }
        ensures of { ArePassOf shards.now self.new }
        ensures begins { AllBegin (seens V self.old) (seens V self.new) }
        ensures stopped { IfErr result (λ at. StopsAt V at.shard self.old self.new at.why) }
        ensures plain { IfOk result (λ es. AreEntriesOfAll V shards.now.shape.mix (seens V self.new) es.items) }
    {
        let mut all = Vec::new(alloc);
        let mut left = shards.count() as usize;
        while left > 0 {
            left -= 1;
            match self.list_shard(alloc, shards, left, &mut all) {
                Ok(()) => {}
                Err(why) => return Err(Stopped { shard: left, why }),
            }
        }
        Ok(all)
    }

    /// Lists each key that the shards hold with its value, in no stated order. It tries once for the turn of each shard, so it lists
    /// each at a moment of its own. `Held` if one of these tries did not win. Condition: the pass belongs to these shards.
    pub fn entries(
        &mut self,
        alloc: Global,
        shards: &Shards<V>,
    ) -> Result<Vec<(u64, [u64; V])>, DeskError<NoMemory>>
        requires of { ArePassOf shards.now self.old }
        ensures of { ArePassOf shards.now self.new }
        ensures begins { AllBegin (seens V self.old) (seens V self.new) }
        ensures stopped { IfErr result (λ why. HasStopped V self.old self.new why) }
        ensures plain { IfOk result (λ es. AreEntriesOfAll V shards.now.shape.mix (seens V self.new) es.items) }
    {
        match self.list_all(alloc, shards) {
            Ok(entries) => Ok(entries),
            Err(stopped) => Err(stopped.why),
        }
    }
}
