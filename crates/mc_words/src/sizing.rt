//! Choosing a shape.
ghost use Rattle.std.specs.Prelude.{◌≡◌, ◌*◌, ◌^◌, ◌<◌, ◌≤◌, MatchResult};
ghost use Rattle.mc_words.specs.Sizing.{CanBeSized, IsSizedFor, LeavesRoom};
ghost use Rattle.mc_words.specs.declared.shape.ShapeError.TheVariants.{Items};

use crate::mix::Mix;
use crate::shape::{Shape, ShapeError};

/// The most stripes that a table of this many buckets gets.
const MOST_STRIPES: u32 = 8192;

/// The shape of `items` items, with 2 to this power buckets.
fn shape_of_power(items: u32, power: u32) -> Shape
    requires power { (1 ≤ power) × (power ≤ 20) }
    requires some { 1 ≤ items }
    requires room { LeavesRoom items (2 ^ power) }
    requires least { 1 < power → 36 * 2 ^ power < 2 * (10 * items) }
    ensures { IsSizedFor items result }
{
    let buckets = 1 << power;
    Shape {
        buckets,
        items,
        stripes: buckets.min(MOST_STRIPES),
        depth: 5,
        tries: 8,
        limit: 1 << 62,
        mix: Mix::Fmix,
    }
}

impl Shape {
    /// A shape for `items` items, from 1 to 3774873: the smallest table in which they fill at most nine tenths of the slots. Searches of up
    /// to five displacements then nearly always find an empty slot. There are as many stripes as buckets, and no more than 8192; eight
    /// tries, and the greatest limit. `Err(Items)` if the number is out of its range.
    pub fn for_items(items: u32) -> Result<Shape, ShapeError>
        ensures { MatchResult result (λ sh. IsSizedFor items sh) (λ e. (e ≡ Items) × (¬ CanBeSized items)) }
    {
        if items == 0 {
            return Err(ShapeError::Items);
        }
        for power in 1..21 {
            if 10 * u64::from(items) <= 36 << power {
                return Ok(shape_of_power(items, power));
            }
        }
        Err(ShapeError::Items)
    }
}
