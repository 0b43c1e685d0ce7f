//! The laws of shards, for proofs of callers. The bodies do nothing: what they ensure is the laws.
ghost use Rattle.mc_shards.specs.OneMap.{OneMap};
ghost use Rattle.mc_shards.specs.Spread.{Spreads};

/// The shards are one map.
pub fn one_map<const V: usize>()
    ensures { OneMap V }
{}

/// The keys of one shard have all tags, first buckets and stripes.
pub fn spreads()
    ensures { Spreads }
{}
