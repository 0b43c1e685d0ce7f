//! A put and a lookup by a pass of shards.
ghost use Rattle.std.specs.Prelude.{IfSome};
ghost use Rattle.mc_shards.specs.Plain.{seens};
ghost use Rattle.mc_shards.specs.Sharded.{ArePassOf};
ghost use Rattle.uses.specs.AfterPut.{IsAfterPut};

use mc_shards::{Pass, Reply, Shards, laws};

/// Puts 70 under a key and looks the key up, in whichever shard it is. The reply is what all shards together held of the key once the
/// put was made, or later. Nothing if the put was refused or held.
pub fn put_and_get_in_shards(shards: &Shards<1>, pass: &mut Pass<1>, key: u64) -> Option<Reply<1>>
    requires of { ArePassOf shards.now pass.old }
    ensures of { ArePassOf shards.now pass.new }
    ensures told { IfSome result (λ reply. IsAfterPut shards.now (seens 1 pass.new) key reply) }
{
    laws::one_map::<1>();
    match pass.try_put(shards, key, [70]) {
        Ok(_) => Some(pass.get(shards, key)),
        Err(_) => None,
    }
}
