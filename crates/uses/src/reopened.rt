//! Shards that have grown too small are closed, and larger ones are opened with their entries.
ghost use Rattle.std.specs.Prelude.{IfSome};
ghost use Rattle.mc_shards.specs.Plain.{seens};
ghost use Rattle.mc_shards.specs.Sharded.{ArePassOf};
ghost use Rattle.uses.specs.Reopened.{AreReopened};

use mc_shards::{OpenedShards, Pass, Shape, Shards, open_shards_with};
use std::alloc::Global;

/// Closes the shards and opens others with their entries. If no entry is left out, no key is lost and none is made up. `None` if a turn was
/// held, memory ran out, or the new shape or number of shards was refused.
pub fn reopen(
    alloc: Global,
    shards: Shards<1>,
    pass: Pass<1>,
    shape: Shape,
    many: u32,
) -> Option<OpenedShards<1>>
    requires of { ArePassOf shards pass }
    ensures reopened { IfSome result (λ o. AreReopened shards.shape.mix shape.mix (seens 1 pass) o.passes.items o.left.items) }
{
    let Ok(entries) = shards.close(alloc, pass) else {
        return None;
    };
    match open_shards_with::<1>(alloc, shape, many, 1, entries.as_slice()) {
        Ok(opened) => Some(opened),
        Err(_) => None,
    }
}
