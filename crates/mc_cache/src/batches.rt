//! Puts of many entries in one call.
ghost use Rattle.std.specs.Prelude.{◌≡◌, length};
ghost use Rattle.mc_cache.specs.Batches.{HavePut, PutsMean};
ghost use Rattle.mc_cache.specs.Plain.{history};

use crate::cache::Cache;
use crate::writer::Writer;
use mc_plan::{Put, PutError};
use mc_reader::GROUP;

/// Loads ahead the words that puts of the first of these entries will read, of `GROUP` entries at most. It changes nothing.
pub(crate) fn touch_entries<const V: usize>(cache: &Cache<V>, entries: &[(u64, [u64; V])]) {
    let mut keys = [0u64; GROUP];
    let many = entries.len().min(GROUP);
    for index in 0..many {
        let entry = entries[index];
        keys[index] = entry.0;
    }
    cache.touch_ahead(&keys[..many]);
}

impl<const V: usize> Writer<V> {
    /// Puts the entries in order, each as `put` does, and returns each answer. In a large cache the processor waits for the words of
    /// several entries at once. Condition: there are as many answers as entries.
    pub fn put_many(
        &mut self,
        cache: &Cache<V>,
        entries: &[(u64, [u64; V])],
        answers: &mut [Result<Put, PutError>],
    )
        requires of { self.old.of ≡ cache.now }
        requires many { length answers.old ≡ length entries.now }
        ensures of { self.new.of ≡ self.old.of }
        ensures put { HavePut V cache.now.layout.shape entries.now self.old self.new answers.new }
        ensures plain { PutsMean V (history V self.old) (history V self.new) entries.now answers.new }
    {
        for index in 0..entries.len() {
            if index % GROUP == 0 {
                touch_entries(cache, &entries[index..]);
            }
            let entry = entries[index];
            answers[index] = self.put(cache, entry.0, entry.1);
        }
    }
}
