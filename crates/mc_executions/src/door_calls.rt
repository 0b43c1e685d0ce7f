//! The lookups that the exports of the C library make, and when their answers are true. The contract of `cefrodil_get` and of its like says of
//! what they return the same as these calls' contracts: `GetTells`, `GetOrTurnTells` (`laws::answers_are_timed`).
ghost use Rattle.std.specs.Prelude.{◌≡◌};
ghost use Rattle.mc_door.specs.AnySides.{role_in, width_of};
ghost use Rattle.mc_executions.specs.RunningDoor.{PeekTellsTimed, TellsTimed};

use mc_door::{AnySide, RawReply};

/// `AnySide::get`, which `cefrodil_get` calls: by a pass and by a holder.
pub fn any_get(side: &mut AnySide, key: u64, value: &mut [u64], reply: &mut RawReply) -> u32
    ensures timed { TellsTimed (width_of side.old) (role_in side.old) (role_in side.new) (side.new ≡ side.old) key value.old value.new (record { status = result; reply = reply.new }) }
{
    side.get(key, value, reply)
}

/// `AnySide::get_or_turn`, which `cefrodil_get_or_turn` calls.
pub fn any_get_or_turn(side: &mut AnySide, key: u64, value: &mut [u64], reply: &mut RawReply) -> u32
    ensures timed { TellsTimed (width_of side.old) (role_in side.old) (role_in side.new) (side.new ≡ side.old) key value.old value.new (record { status = result; reply = reply.new }) }
{
    side.get_or_turn(key, value, reply)
}

/// `AnySide::peek`, which `cefrodil_peek` calls: timed if the side holds the turns.
pub fn any_peek(side: &mut AnySide, key: u64, value: &mut [u64], reply: &mut RawReply) -> u32
    ensures timed { PeekTellsTimed (width_of side.old) (role_in side.old) (side.new ≡ side.old) key value.old value.new (record { status = result; reply = reply.new }) }
{
    side.peek(key, value, reply)
}
