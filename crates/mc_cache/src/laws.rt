//! The laws of histories, for proofs of callers. The body does nothing: what it ensures is the law.
ghost use Rattle.mc_cache.specs.PlainLaws.{HistoryLaws};

/// What each change does to the map, and that an answer stays true as the history grows.
pub fn history_laws<const V: usize>()
    ensures { HistoryLaws V }
{}
