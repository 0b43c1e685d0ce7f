//! Closing shards.
ghost use Rattle.std.specs.Prelude.{◌≡◌, IfErr, List, MatchResult};
ghost use Rattle.mc_cache.specs.Change.{Change};
ghost use Rattle.mc_shards.specs.Plain.{AllBegin, AreEntriesOfAll, seens};
ghost use Rattle.mc_shards.specs.Sharded.{ArePassOf};
ghost use Rattle.mc_shards.specs.Unlisted.{HasStopped};

use crate::pass::Pass;
use crate::shards::Shards;
use mc_cache::{DeskError, NoMemory};
use std::alloc::Global;

/// Shards that could not be closed, because their entries could not be listed: for lack of memory, or because a turn was held. They and the
/// pass stay usable.
#[derive(Drop)]
pub struct StillOpen<const V: usize> {
    pub shards: Shards<V>,
    pub pass: Pass<V>,
    pub why: DeskError<NoMemory>,
}

impl<const V: usize> Shards<V> {
    /// Closes the shards, and returns each of their keys with its value. Drop all other passes first. `Err` if the entries can't be
    /// listed: everything is given back. Condition: the pass belongs to these shards.
    pub fn close(
        self,
        alloc: Global,
        mut pass: Pass<V>,
    ) -> Result<Vec<(u64, [u64; V])>, StillOpen<V>>
        requires of { ArePassOf self pass }
        ensures entries { MatchResult result
            (λ es. (hs : List (List (Change V))) × AllBegin (seens V pass.entry) hs × AreEntriesOfAll V self.entry.shape.mix hs es.items)
            (λ still. (still.shards ≡ self.entry) × ArePassOf still.shards still.pass × AllBegin (seens V pass.entry) (seens V still.pass)) }
        ensures why { IfErr result (λ still. HasStopped V pass.entry still.pass still.why) }
    {
        match pass.entries(alloc, &self) {
            Ok(entries) => Ok(entries),
            Err(why) => Err(StillOpen {
                shards: self,
                pass,
                why,
            }),
        }
    }
}
