//! The shape of a table, and its refusals.
ghost use Rattle.std.specs.Prelude.{◌≡◌, ◌↔◌, ◌<◌, ◌^◌, MatchResult, IsTrue};
ghost use Rattle.mc_words.specs.Shapes.{IsPower};

use crate::checked::Checked;
use crate::mix::Mix;
use crate::policy::Policy;
use thiserror::Error;

/// The sizes of a table and the bounds of its calls.
#[derive(Clone, Copy, Debug, PartialEq, Eq)]
pub struct Shape {
    /// A power of two from 2 to 2^20. Each bucket has four slots.
    pub buckets: u32,
    /// From 1 to four times the buckets. Keep it below nine tenths of the slots, as `Shape::for_items` does: if no slot is empty once each
    /// item is in use, a new key is refused with `NoPath` and nothing is evicted for it.
    pub items: u32,
    /// The number of version counters, a power of two from 1 to 2^16.
    pub stripes: u32,
    /// The greatest number of displacements of a `put`, from 0 to 8.
    pub depth: u8,
    /// The greatest number of tries of a lookup, from 1 to 64.
    pub tries: u8,
    /// The greatest number of version changes, from 0 to 2^62.
    pub limit: u64,
    pub mix: Mix,
}

/// Why a shape is refused: the first field in this order that is out of its range.
#[derive(Clone, Copy, Debug, PartialEq, Eq, Error)]
pub enum ShapeError {
    #[error("buckets must be a power of two from 2 to 1048576")]
    Buckets,
    #[error("items must be from 1 to four times the buckets")]
    Items,
    #[error("stripes must be a power of two from 1 to 65536")]
    Stripes,
    #[error("depth must be from 0 to 8")]
    Depth,
    #[error("tries must be from 1 to 64")]
    Tries,
    #[error("limit must be from 0 to 4611686018427387904")]
    Limit,
}

/// Whether the number is a power of two.
pub(crate) fn is_power(n: u32) -> bool
    ensures { IsTrue result ↔ IsPower n }
{
    let zeros = n.trailing_zeros();
    zeros < 32 && 1 << zeros == n
}

impl Shape {
    ghost use Rattle.mc_words.specs.Shapes.{IsShape, RefusesShape};
    ghost use Rattle.mc_words.specs.Checks.{policy_of, shape_of};
    ghost use Rattle.mc_words.specs.declared.policy.Policy.TheVariants.{Clock};

    /// The shape, checked. Otherwise the first fault in the order of `ShapeError`.
    pub fn check(self) -> Result<Checked, ShapeError>
        ensures { MatchResult result (λ c. (shape_of c ≡ self) × IsShape self × (policy_of c ≡ Clock)) (λ e. RefusesShape self e) }
    {
        if self.buckets < 2 || self.buckets > 1 << 20 || !is_power(self.buckets) {
            return Err(ShapeError::Buckets);
        }
        if self.items == 0 || self.items > 4 * self.buckets {
            return Err(ShapeError::Items);
        }
        if self.stripes == 0 || self.stripes > 1 << 16 || !is_power(self.stripes) {
            return Err(ShapeError::Stripes);
        }
        if self.depth > 8 {
            return Err(ShapeError::Depth);
        }
        if self.tries == 0 || self.tries > 64 {
            return Err(ShapeError::Tries);
        }
        if self.limit > 1 << 62 {
            return Err(ShapeError::Limit);
        }
        Ok(Checked {
            shape: self,
            policy: Policy::Clock,
        })
    }
}
