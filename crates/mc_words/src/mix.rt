//! How keys are mixed.
ghost use Rattle.std.specs.Prelude.{◌≡◌, ◌<◌, ◌/◌, ◌^◌, ◌↔◌, IsTrue};
ghost use Rattle.mc_words.specs.Keys.{xor_shift, mixed_key, shard_of};
ghost use Rattle.mc_words.specs.Shapes.{HasShards};

use crate::shape::is_power;

/// How a key is mixed before it is cut into its parts.
#[derive(Clone, Copy, Debug, PartialEq, Eq)]
pub enum Mix {
    /// The key itself.
    Plain,
    /// The finalizer of MurmurHash3, for keys whose bits are not spread.
    Fmix,
}

fn fold(hash: u64) -> u64
    ensures { result ≡ xor_shift hash }
{
    hash ^ (hash >> 33)
}

impl Mix {
    /// The mixed key, of which the tag, the first bucket and the stripe are cut.
    #[tactic(auto, unfolding(crate::specs::Keys::mixed_key))]
    pub(crate) fn mix(self, key: u64) -> u64
        ensures { result ≡ mixed_key self key }
    {
        // Computed in both cases: without a branch, and so that calls which mix the same key share it.
        let once = fold(key).wrapping_mul(0xff51_afd7_ed55_8ccd);
        let twice = fold(once).wrapping_mul(0xc4ce_b9fe_1a85_ec53);
        let full = fold(twice);
        match self {
            Mix::Plain => key,
            Mix::Fmix => full,
        }
    }

    /// The shard of a key. It is taken from the byte below the tag, which no table uses, so the keys of one shard spread over its tags,
    /// buckets and stripes as all keys do. Condition: the number of shards is a power of two from 1 to 256.
    #[inline(always)]
    #[tactic(auto, unfolding(crate::specs::Keys::shard_of))]
    pub fn shard(self, key: u64, shards: u32) -> u32
        requires { HasShards shards }
        ensures shard { result ≡ shard_of self shards key }
        ensures range { result < shards }
    {
        ((self.mix(key) >> 48) & u64::from(shards - 1)) as u32
    }
}

/// Whether the number of shards is allowed: a power of two from 1 to 256.
pub fn can_shard(shards: u32) -> bool
    ensures { IsTrue result ↔ HasShards shards }
{
    shards > 0 && shards <= 256 && is_power(shards)
}
