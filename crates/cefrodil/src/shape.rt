//! The shape of a table, as C writes it.
ghost use Rattle.std.specs.Prelude.{ℕ, ◌≡◌, ◌≢◌, MatchOption, min};
ghost use Rattle.mc_words.specs.declared.shape.Shape.{Shape};
ghost use Rattle.mc_shards.specs.Sizing.{IsShardShape, IsShare, RefusesShare};
ghost use Rattle.mc_shards.specs.declared.opening.OpenShardsError.{OpenShardsError};
ghost use Rattle.mc_words.specs.Shapes.{HasShards};
ghost use Rattle.cefrodil.specs.RawShapes.{HasMix, HasPolicy, IsPolicyOf, IsShapeOf};
ghost use Rattle.cefrodil.specs.Openings.{shards_status};

use crate::opening::status_of;
use mc_door::status::OK;
use mc_door::{Shape, shard_shape};
use mc_words::{Mix, Policy};

/// Keys are mixed.
const FMIX: u32 = 0;

/// Keys are taken as they are.
const PLAIN: u32 = 1;

/// A key that is new gives way before one that was used again.
const SCAN_RESISTANT: u32 = 0;

/// The hand goes round all items.
const CLOCK: u32 = 1;

/// The sizes of a table, the bounds of its calls, and which key gives way.
#[repr(C)]
#[derive(Clone, Copy)]
pub struct RawShape {
    pub limit: u64,
    pub buckets: u32,
    pub items: u32,
    pub stripes: u32,
    pub depth: u32,
    pub tries: u32,
    pub mix: u32,
    pub policy: u32,
}

// A number that is out of the range of a byte stays out of its range.
fn byte_of(number: u32) -> u8
    ensures { result ≡ min number 255 }
{
    number.min(255) as u8
}

impl RawShape {
    fn of(shape: Shape) -> RawShape
        ensures shape { IsShapeOf result shape }
        ensures policy { result.policy ≡ SCAN_RESISTANT }
    {
        RawShape {
            limit: shape.limit,
            buckets: shape.buckets,
            items: shape.items,
            stripes: shape.stripes,
            depth: u32::from(shape.depth),
            tries: u32::from(shape.tries),
            mix: match shape.mix {
                Mix::Fmix => FMIX,
                Mix::Plain => PLAIN,
            },
            policy: SCAN_RESISTANT,
        }
    }

    /// The policy, if it is one.
    pub(crate) fn policy(&self) -> Option<Policy>
        ensures { MatchOption result (¬ HasPolicy self.now) (λ policy. HasPolicy self.now × IsPolicyOf self.now policy) }
    {
        match self.policy {
            SCAN_RESISTANT => Some(Policy::ScanResistant),
            CLOCK => Some(Policy::Clock),
            _ => None,
        }
    }

    /// The shape, if its mix is one.
    pub(crate) fn shape(&self) -> Option<Shape>
        ensures { MatchOption result (¬ HasMix self.now) (λ shape. HasMix self.now × IsShapeOf self.now shape) }
    {
        let mix = match self.mix {
            FMIX => Mix::Fmix,
            PLAIN => Mix::Plain,
            _ => return None,
        };
        Some(Shape {
            buckets: self.buckets,
            items: self.items,
            stripes: self.stripes,
            depth: byte_of(self.depth),
            tries: byte_of(self.tries),
            limit: self.limit,
            mix,
        })
    }
}

/// The shape of each of `shards` shards, which have `items` items together. Its policy is not CLOCK.
#[unsafe(no_mangle)]
pub extern "C" fn cefrodil_shape_for_items(items: u32, shards: u32, shape: &mut RawShape) -> u32
    ensures sized { result ≡ OK → (chosen : Shape) × (share : ℕ) × IsShapeOf shape.new chosen × HasShards shards × IsShare items shards share × IsShardShape shards share chosen }
    ensures policy { result ≡ OK → shape.new.policy ≡ SCAN_RESISTANT }
    ensures refused { result ≢ OK → (why : OpenShardsError) × (result ≡ shards_status why) × RefusesShare items shards why × (shape.new ≡ shape.old) }
{
    match shard_shape(items, shards) {
        Ok(sized) => {
            *shape = RawShape::of(sized);
            OK
        }
        Err(why) => status_of(why),
    }
}
