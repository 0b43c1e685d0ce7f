//! The writer's call that takes out the entry that would give way.
ghost use Rattle.std.specs.Prelude.{◌≡◌};
ghost use Rattle.mc_cache.specs.Failing.{EvictFails, version_changes};
ghost use Rattle.mc_cache.specs.Plain.{history};
ghost use Rattle.mc_cache.specs.Taking.{EvictMeans};
ghost use Rattle.mc_writer.specs.Evictions.{HasTriedToEvict};

use crate::cache::Cache;
use crate::writer::Writer;
use mc_plan::EvictError;
use mc_writer::{Evict, evict};

impl<const V: usize> Writer<V> {
    /// Takes out the entry that would give way to a put, and returns it, also where items are free. `Empty` if there is no entry. After an
    /// `Err` the map is unchanged: `Spent` if the limit on version changes could be exceeded, `AllRecent` if the search found the recency
    /// bit of each entry set. A search clears the bits that it reads, so a later call is likely to succeed.
    pub fn evict(&mut self, cache: &Cache<V>) -> Result<Evict<V>, EvictError>
        requires of { self.old.of ≡ cache.now }
        ensures of { self.new.of ≡ self.old.of }
        ensures called { HasTriedToEvict V cache.now.layout.shape self.old self.new result }
        ensures plain { EvictMeans V (history V self.old) (history V self.new) result }
        ensures fails { EvictFails cache.now.layout.shape (history V self.new) (version_changes V self.new) result }
    {
        match evict(&cache.cells, &mut self.seat, &mut self.books) {
            Ok(Evict::Evicted { at, old }) => {
                self.moment = at;
                Ok(Evict::Evicted { at, old })
            }
            Ok(Evict::Empty { at }) => Ok(Evict::Empty { at }),
            Err(why) => Err(why),
        }
    }
}
