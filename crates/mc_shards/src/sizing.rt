//! Choosing a shape for shards.
ghost use Rattle.std.specs.Prelude.{ℕ, ◌≡◌, ◌<◌, ◌≤◌, ◌^◌, MatchResult};
ghost use Rattle.mc_words.specs.Shapes.{HasShards};
ghost use Rattle.mc_shards.specs.Sizing.{IsShardShape, IsShare, RefusesShare, room_for};

use crate::opening::OpenShardsError;
use mc_cache::{OpenError, Shape, ShapeError};
use mc_words::can_shard;

const REFUSED: OpenShardsError = OpenShardsError::Open(OpenError::Shape(ShapeError::Items));

// The most stripes that all shards have together. A writer disturbs the lookups of its stripe: with as many shards, each needs fewer.
const MOST_STRIPES: u32 = 8192;

// The items of each of `shards` shards. Condition: there are some items.
fn share_of(items: u32, shards: u32) -> u64
    requires some { 1 ≤ items }
    requires shards { HasShards shards }
    ensures { IsShare items shards result }
{
    if shards == 1 {
        return u64::from(items);
    }
    let mean = (u64::from(items) - 1) / u64::from(shards) + 1;
    mean + 5 * (mean.isqrt() + 1)
}

// A table for fewer items has room for twice as many.
const FEW: u32 = 256;

// The number of items for which a table with `share` items has room.
fn room_for(share: u32) -> u32
    ensures { result ≡ room_for share }
{
    if share < FEW { 2 * share } else { share }
}

/// A shape for each of `shards` shards, which have `items` items together: that of `Shape::for_items` for a shard's items, or for twice as many if
/// they are fewer than 256. In a smaller table, up to one new key in a hundred would find no place. Of several shards each gets its mean share and
/// five standard deviations more, since the hash gives some shards more keys than others. The shards share 8192 stripes. `Err` if the number of shards is not allowed, or if there
/// are no items or too many.
pub fn shard_shape(items: u32, shards: u32) -> Result<Shape, OpenShardsError>
    ensures { MatchResult result
        (λ sh. HasShards shards × (n : ℕ) × IsShare items shards n × IsShardShape shards n sh)
        (λ e. RefusesShare items shards e) }
{
    if !can_shard(shards) {
        return Err(OpenShardsError::Shards);
    }
    if items == 0 {
        return Err(REFUSED);
    }
    let share = share_of(items, shards);
    if share > u64::from(u32::MAX) {
        return Err(REFUSED);
    }
    let items = share as u32;
    match Shape::for_items(room_for(items)) {
        Ok(shape) => Ok(Shape {
            items,
            stripes: shape.stripes.min(MOST_STRIPES / shards),
            ..shape
        }),
        Err(_) => Err(REFUSED),
    }
}
