//! The keys of all shards, counted.
ghost use Rattle.std.specs.Prelude.{◌≡◌, ◌<◌, ◌≤◌, IfNone, IfSome, length};
ghost use Rattle.mc_words.specs.History.{key_count};
ghost use Rattle.mc_cache.specs.Turns.{HasMetAtDesk};
ghost use Rattle.mc_cache.specs.declared.desk.DeskError.TheVariants as desk;
ghost use Rattle.mc_shards.specs.Counted.{keys_in_all};
ghost use Rattle.mc_shards.specs.Plain.{AllBegin, Begins, seens};
ghost use Rattle.mc_shards.specs.Sharded.{ArePassOf, ChangesAt};
ghost use Rattle.mc_shards.specs.Unlisted.{HasStopped};

use crate::pass::Pass;
use crate::shards::Shards;

impl<const V: usize> Pass<V> {
    // The number of keys in one shard's cache, by one try for its turn.
    fn len_at(&mut self, shards: &Shards<V>, n: usize) -> Option<usize>
        requires of { ArePassOf shards.now self.old }
        requires range { n < length shards.now.tables }
        ensures of { ArePassOf shards.now self.new }
        ensures met { ChangesAt n self.old self.new (λ r r'. IfNone result (r' ≡ r) × IfSome result (λ _. HasMetAtDesk V r r')) }
        ensures plain { ChangesAt n (seens V self.old) (seens V self.new)
            (λ h h'. Begins h h' × IfSome result (λ many. many ≡ key_count h')) }
        ensures few { IfSome result (λ many. many ≤ shards.now.shape.items) }
    {
        let cache = shards.cache(n);
        let lender = shards.lender(n);
        let reader = &mut self.readers[n];
        lender.try_len(cache, reader)
    }

    /// Counts the keys that the shards hold. It tries once for the turn of each shard, so it counts each at a moment of its own. `None` if
    /// one of these tries did not win. Condition: the pass belongs to these shards.
    pub fn try_len(&mut self, shards: &Shards<V>) -> Option<usize>
        requires of { ArePassOf shards.now self.old }
        ensures of { ArePassOf shards.now self.new }
        ensures begins { AllBegin (seens V self.old) (seens V self.new) }
        ensures stopped { IfNone result (HasStopped V self.old self.new desk.Held) }
        ensures plain { IfSome result (λ many. many ≡ keys_in_all (seens V self.new)) }
    {
        let most = shards.capacity();
        let mut many = 0;
        let mut left = shards.count() as usize;
        while left > 0 {
            left -= 1;
            match self.len_at(shards, left) {
                Some(more) => many += more,
                None => return None,
            }
        }
        Some(many)
    }
}
