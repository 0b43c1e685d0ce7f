//! The calls of shards, and when their answers are true, in every order of the steps of all shards.
ghost use Rattle.std.specs.Prelude.{◌≡◌, length};
ghost use Rattle.mc_executions.specs.RunningShards.{HeldCallIsTimed, HeldPeekIsTimed, HolderIsTimed, PassIsTimed, PassManyAreTimed};
ghost use Rattle.mc_shards.specs.Holding.{IsHolderOf};
ghost use Rattle.mc_shards.specs.Sharded.{ArePassOf};

use mc_cache::Reply;
use mc_cache::keyed::Keyed;
use mc_cache::turn::TurnCall;
use mc_shards::{Holder, Pass, Shards};

/// `Pass::get`: its reply is what the one map of all shards held of the key at a moment between call and return.
pub fn pass_get<const V: usize>(shards: &Shards<V>, pass: &mut Pass<V>, key: u64) -> Reply<V>
    requires of { ArePassOf shards.now pass.old }
    ensures timed { PassIsTimed V shards.now key pass.old pass.new result }
{
    pass.get(shards, key)
}

/// `Pass::get_or_desk`: the same, in a turn too.
pub fn pass_get_or_desk<const V: usize>(
    shards: &Shards<V>,
    pass: &mut Pass<V>,
    key: u64,
) -> Reply<V>
    requires of { ArePassOf shards.now pass.old }
    ensures timed { PassIsTimed V shards.now key pass.old pass.new result }
{
    pass.get_or_desk(shards, key)
}

/// `Pass::get_many`: each reply is what the one map held of its key at a moment between call and return.
pub fn pass_get_many<const V: usize>(
    shards: &Shards<V>,
    pass: &mut Pass<V>,
    keys: &[u64],
    replies: &mut [Reply<V>],
)
    requires of { ArePassOf shards.now pass.old }
    requires many { length replies.old ≡ length keys.now }
    ensures timed { PassManyAreTimed V shards.now keys.now pass.old pass.new replies.new }
{
    pass.get_many(shards, keys, replies);
}

/// `Holder::get`: its reply is what the one map holds of the key at a moment of the call.
pub fn holder_get<const V: usize>(shards: &Shards<V>, holder: &mut Holder<V>, key: u64) -> Reply<V>
    requires of { IsHolderOf shards.now holder.old }
    ensures timed { HolderIsTimed V shards.now key holder.old holder.new result }
{
    holder.get(shards, key)
}

/// `Holder::peek`: the same.
pub fn holder_peek<const V: usize>(shards: &Shards<V>, holder: &mut Holder<V>, key: u64) -> Reply<V>
    requires of { IsHolderOf shards.now holder.old }
    ensures timed { HeldPeekIsTimed V shards.now key holder.old result }
{
    holder.peek(shards, key)
}

/// `Holder::call`: each change takes effect at one step of the key's shard.
pub fn holder_call<const V: usize, T, E, C: TurnCall<V, T, E> + Keyed>(
    shards: &Shards<V>,
    holder: &mut Holder<V>,
    call: C,
) -> Result<T, E>
    requires of { IsHolderOf shards.now holder.old }
    ensures timed { HeldCallIsTimed V shards.now (C.key_of call) holder.old holder.new }
{
    holder.call(shards, call)
}
