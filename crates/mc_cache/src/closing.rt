//! A cache is closed.
ghost use Rattle.std.specs.Prelude.{◌≡◌, IfOk, MatchResult};
ghost use Rattle.mc_theory.specs.Lists.{state_of};
ghost use Rattle.mc_search.specs.Entries.{AreEntriesOf, AreInOrder};
ghost use Rattle.mc_cache.specs.Plain.{history};

use crate::cache::Cache;
use crate::reader::Reader;
use crate::writer::Writer;
use mc_words::NoMemory;
use std::alloc::Global;

/// A cache that could not be closed, for lack of memory for the list of its entries. It is unchanged.
#[derive(Drop)]
pub struct StillOpen<const V: usize> {
    pub cache: Cache<V>,
    pub writer: Writer<V>,
    pub readers: Vec<Reader<V>>,
}

impl<const V: usize> Cache<V> {
    /// Closes the cache, and returns each of its keys with its value, in the order of their items. Readers that you have
    /// dropped need not be passed. `Err` only if the list can't be stored: everything is returned unchanged.
    /// Condition: the writer is this cache's.
    pub fn close(
        self,
        alloc: Global,
        mut writer: Writer<V>,
        readers: Vec<Reader<V>>,
    ) -> Result<Vec<(u64, [u64; V])>, StillOpen<V>>
        requires of { writer.of ≡ self }
        ensures entries { MatchResult result
            (λ es. AreEntriesOf V (state_of V self.entry.layout.shape writer.entry.acts).history es.items)
            (λ still. (still.cache ≡ self.entry) × (still.writer ≡ writer.entry) × (still.readers.items ≡ readers.entry.items)) }
        ensures order { IfOk result (λ es. AreInOrder V self.entry.layout.shape (state_of V self.entry.layout.shape writer.entry.acts).words 0 self.entry.layout.shape.items es.items) }
        ensures plain { IfOk result (λ es. AreEntriesOf V (history V writer.entry) es.items) }
    {
        match writer.entries(alloc, &self) {
            Ok(entries) => Ok(entries),
            Err(NoMemory) => Err(StillOpen {
                cache: self,
                writer,
                readers,
            }),
        }
    }
}
