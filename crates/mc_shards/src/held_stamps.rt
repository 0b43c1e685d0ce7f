//! The entries of all shards with their stamps, as a holder lists them.
ghost use Rattle.std.specs.Prelude.{◌≡◌, ◌<◌, ◌++◌, [], IfOk, OnOk, length, slice_index_or};
ghost use Rattle.mc_words.specs.Shapes.{HasShards};
ghost use Rattle.mc_cache.specs.Stamped.{AreStampedEntriesOf};
ghost use Rattle.mc_shards.specs.Holding.{IsHolderOf, histories};
ghost use Rattle.mc_shards.specs.Inside.Listed.{AddsStamped, own_stamped_of};
ghost use Rattle.mc_shards.specs.Stamped.{AreStampedEntriesOfAll};

use crate::holding::Holder;
use crate::shards::Shards;
use mc_cache::{Entry, Mix, NoMemory};
use std::alloc::{AllocError, Global};

// Adds those of the entries that belong to the shard.
fn list_own_stamped<const V: usize>(
    mix: Mix,
    many: u32,
    shard: u32,
    entries: Vec<Entry<V>>,
    all: &mut Vec<Entry<V>>,
) -> Result<(), AllocError>
    requires { HasShards many }
    ensures { OnOk result (all.new.items ≡ all.old.items ++ own_stamped_of mix many shard entries.entry.items) }
{
    for entry in entries {
        if mix.shard(entry.key, many) == shard {
            all.push(entry)?;
        }
    }
    Ok(())
}

impl<const V: usize> Holder<V> {
    // The entries of one shard's cache.
    fn stamped_entries_at(
        &mut self,
        alloc: Global,
        shards: &Shards<V>,
        n: usize,
    ) -> Result<Vec<Entry<V>>, NoMemory>
        requires of { IsHolderOf shards.now self.old }
        requires range { n < length shards.now.tables }
        ensures same { self.new ≡ self.old }
        ensures plain { IfOk result (λ es. AreStampedEntriesOf V (slice_index_or (histories V self.old) n []) es.items) }
    {
        let writer = self.turns[n].writer(&shards.lender(n).table.shared);
        writer.stamped_entries(alloc, shards.cache(n))
    }

    // Adds the entries of one shard.
    fn list_stamped_shard(
        &mut self,
        alloc: Global,
        shards: &Shards<V>,
        n: usize,
        all: &mut Vec<Entry<V>>,
    ) -> Result<(), NoMemory>
        requires of { IsHolderOf shards.now self.old }
        requires range { n < length shards.now.tables }
        ensures same { self.new ≡ self.old }
        ensures listed { OnOk result (AddsStamped V shards.now.shape.mix (length shards.now.tables) n (slice_index_or (histories V self.old) n []) all.old.items all.new.items) }
    {
        let entries = self.stamped_entries_at(alloc, shards, n)?;
        let Ok(()) = list_own_stamped(shards.shape.mix, shards.count(), n as u32, entries, all)
        else {
            return Err(NoMemory);
        };
        Ok(())
    }

    /// Lists each entry that the shards hold, with the moment of its key's last put in the key's shard, in no stated order. `Err` only if the
    /// list can't be stored. Condition: the holder belongs to these shards.
    pub fn stamped_entries(
        &mut self,
        alloc: Global,
        shards: &Shards<V>,
    ) -> Result<Vec<Entry<V>>, NoMemory>
        requires of { IsHolderOf shards.now self.old }
        ensures same { self.new ≡ self.old }
        ensures plain { IfOk result (λ es. AreStampedEntriesOfAll V shards.now.shape.mix (histories V self.old) es.items) }
    {
        let mut all = Vec::new(alloc);
        let mut left = shards.count() as usize;
        while left > 0 {
            left -= 1;
            self.list_stamped_shard(alloc, shards, left, &mut all)?;
        }
        Ok(all)
    }
}
