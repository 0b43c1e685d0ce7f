//! A list by a holder of all turns, after a put of its own.
ghost use Rattle.std.specs.Prelude.{◌≡◌, [], ◌∷◌, ◌==◌, IfSome, Some};
ghost use Rattle.std.specs.Map.{lookup};
ghost use Rattle.mc_shards.specs.Holding.{IsHolderOf};
ghost use Rattle.mc_shards.specs.Sharded.{ArePassOf};

use mc_cache::calls::Putting;
use mc_shards::{Holder, Pass, Shards, laws};
use std::alloc::Global;

// Puts 70 under the key, and then lists all shards. Nothing if the put was refused, or there was no memory.
fn put_then_list(
    alloc: Global,
    shards: &Shards<1>,
    holder: &mut Holder<1>,
    key: u64,
) -> Option<Vec<(u64, [u64; 1])>>
    requires of { IsHolderOf shards.now holder.old }
    ensures of { IsHolderOf shards.now holder.new }
    ensures listed { IfSome result (λ es. lookup (λ q. key == q) es.items ≡ Some (70 ∷ [])) }
{
    laws::one_map::<1>();
    let Ok(_put) = holder.call(shards, Putting(key, &[70])) else {
        return None;
    };
    let Ok(entries) = holder.entries(alloc, shards) else {
        return None;
    };
    Some(entries)
}

/// Holds the turn of every shard, puts 70 under a key and lists all entries. The list has the key with 70: nobody wrote between the two, in
/// whichever shard the key is. Nothing if a try for a turn did not win, the put was refused, or there was no memory.
pub fn put_and_list(
    alloc: Global,
    shards: &Shards<1>,
    pass: Pass<1>,
    key: u64,
) -> (Pass<1>, Option<Vec<(u64, [u64; 1])>>)
    requires of { ArePassOf shards.now pass }
    ensures of { ArePassOf shards.now result.0 }
    ensures listed { IfSome result.1 (λ es. lookup (λ q. key == q) es.items ≡ Some (70 ∷ [])) }
{
    match pass.hold(shards) {
        Ok(mut holder) => {
            let listed = put_then_list(alloc, shards, &mut holder, key);
            (holder.release(shards), listed)
        }
        Err(pass) => (pass, None),
    }
}
