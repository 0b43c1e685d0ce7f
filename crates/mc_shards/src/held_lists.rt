//! What a holder says of all shards. Nobody else writes meanwhile, so it is true of one moment.
ghost use Rattle.std.specs.Prelude.{◌≡◌, ◌<◌, ◌≤◌, [], IfOk, OnOk, length, min, slice_index_or};
ghost use Rattle.mc_words.specs.History.{key_count};
ghost use Rattle.mc_cache.specs.Plain.{AreEntriesOf};
ghost use Rattle.mc_shards.specs.Counted.{changes_in_all, keys_in_all};
ghost use Rattle.mc_shards.specs.Holding.{IsHolderOf, histories};
ghost use Rattle.mc_shards.specs.Inside.Listed.{AddsShard};
ghost use Rattle.mc_shards.specs.Plain.{AreEntriesOfAll};

use crate::holding::Holder;
use crate::listing::list_own;
use crate::shards::Shards;
use mc_cache::NoMemory;
use std::alloc::Global;

impl<const V: usize> Holder<V> {
    // The number of keys in one shard.
    fn len_at(&mut self, shards: &Shards<V>, n: usize) -> usize
        requires of { IsHolderOf shards.now self.old }
        requires range { n < length shards.now.tables }
        ensures same { self.new ≡ self.old }
        ensures plain { result ≡ key_count (slice_index_or (histories V self.old) n []) }
        ensures few { result ≤ shards.now.shape.items }
    {
        let cache = shards.cache(n);
        let writer = self.turns[n].writer(&shards.lender(n).table.shared);
        writer.known();
        let _cache = cache;
        writer.len()
    }

    // The number of changes made to one shard.
    fn moment_at(&mut self, shards: &Shards<V>, n: usize) -> u64
        requires of { IsHolderOf shards.now self.old }
        requires range { n < length shards.now.tables }
        ensures same { self.new ≡ self.old }
        ensures plain { result ≡ length (slice_index_or (histories V self.old) n []) }
    {
        let writer = self.turns[n].writer(&shards.lender(n).table.shared);
        writer.moment()
    }

    /// Counts the keys that the shards hold. Condition: the holder belongs to these shards.
    pub fn len(&mut self, shards: &Shards<V>) -> usize
        requires of { IsHolderOf shards.now self.old }
        ensures same { self.new ≡ self.old }
        ensures plain { result ≡ keys_in_all (histories V self.old) }
    {
        let most = shards.capacity();
        let mut many = 0;
        let mut left = shards.count() as usize;
        while left > 0 {
            left -= 1;
            many += self.len_at(shards, left);
        }
        many
    }

    /// The number of changes made to the map, in all shards. It is `u64::MAX` if there were more. Condition: the holder belongs to these
    /// shards.
    pub fn moment(&mut self, shards: &Shards<V>) -> u64
        requires of { IsHolderOf shards.now self.old }
        ensures same { self.new ≡ self.old }
        ensures plain { result ≡ min (changes_in_all (histories V self.old)) 18446744073709551615 }
    {
        let mut changes: u64 = 0;
        let mut left = shards.count() as usize;
        while left > 0 {
            left -= 1;
            changes = changes.saturating_add(self.moment_at(shards, left));
        }
        changes
    }

    // The entries of one shard's cache.
    fn entries_at(
        &mut self,
        alloc: Global,
        shards: &Shards<V>,
        n: usize,
    ) -> Result<Vec<(u64, [u64; V])>, NoMemory>
        requires of { IsHolderOf shards.now self.old }
        requires range { n < length shards.now.tables }
        ensures same { self.new ≡ self.old }
        ensures plain { IfOk result (λ es. AreEntriesOf V (slice_index_or (histories V self.old) n []) es.items) }
    {
        let writer = self.turns[n].writer(&shards.lender(n).table.shared);
        writer.entries(alloc, shards.cache(n))
    }

    // Adds the entries of one shard.
    fn list_shard(
        &mut self,
        alloc: Global,
        shards: &Shards<V>,
        n: usize,
        all: &mut Vec<(u64, [u64; V])>,
    ) -> Result<(), NoMemory>
        requires of { IsHolderOf shards.now self.old }
        requires range { n < length shards.now.tables }
        ensures same { self.new ≡ self.old }
        ensures listed { OnOk result (AddsShard V shards.now.shape.mix (length shards.now.tables) n (slice_index_or (histories V self.old) n []) all.old.items all.new.items) }
    {
        let entries = self.entries_at(alloc, shards, n)?;
        let Ok(()) = list_own(shards.shape.mix, shards.count(), n as u32, entries, all) else {
            return Err(NoMemory);
        };
        Ok(())
    }

    /// Lists each key that the shards hold with its value, in no stated order. `Err` only if the list can't be stored. Condition: the holder
    /// belongs to these shards.
    pub fn entries(
        &mut self,
        alloc: Global,
        shards: &Shards<V>,
    ) -> Result<Vec<(u64, [u64; V])>, NoMemory>
        requires of { IsHolderOf shards.now self.old }
        ensures same { self.new ≡ self.old }
        ensures plain { IfOk result (λ es. AreEntriesOfAll V shards.now.shape.mix (histories V self.old) es.items) }
    {
        let mut all = Vec::new(alloc);
        let mut left = shards.count() as usize;
        while left > 0 {
            left -= 1;
            self.list_shard(alloc, shards, left, &mut all)?;
        }
        Ok(all)
    }
}
