//! Lookups that mark nothing: by a holder, or by a pass in a turn.
ghost use Rattle.std.specs.Prelude.{◌≡◌, length};
ghost use Rattle.mc_words.specs.Places.{IsWidth};
ghost use Rattle.mc_door.specs.AnySides.{role_in, width_of};
ghost use Rattle.mc_door.specs.Peeks.{LeavesWords, PeekTells, answer_of, peek_told};
ghost use Rattle.mc_door.specs.Roles.{role_of};

use crate::any_side::AnySide;
use crate::looked::Looked;
use crate::outcome::{Outcome, RawReply};
use crate::side::{Hand, Side};
use crate::status::{HELD, WIDTH};
use crate::tell::refused;
use crate::with_side;
use mc_cache::Reply;

// Converts an answer, and writes its value if it has one.
fn looked<const V: usize>(answer: Option<Reply<V>>, value: &mut [u64]) -> Option<Looked>
    requires width { IsWidth V }
    requires value { length value.old ≡ V }
    ensures told { answer.entry ≡ answer_of V value.new result }
    ensures left { LeavesWords value.old value.new result }
{
    match answer {
        Some(reply) => Some(Looked::of(reply, value)),
        None => None,
    }
}

fn tell(looked: Option<Looked>, reply: &mut RawReply) -> u32
    ensures { record { status = result; reply = reply.new } ≡ peek_told looked }
{
    match looked {
        Some(looked) => Outcome::looked(looked).tell(reply),
        None => refused(HELD, reply),
    }
}

impl<const V: usize> Side<V> {
    #[inline(never)]
    fn peek(&mut self, key: u64, value: &mut [u64], reply: &mut RawReply) -> u32
        requires { IsWidth V }
        ensures { PeekTells V (role_of self.old) (role_of self.new) (self.new ≡ self.old) key value.old value.new (record { status = result; reply = reply.new }) }
    {
        if value.len() != V {
            return refused(WIDTH, reply);
        }
        let answer = match &mut self.hand {
            Hand::Pass(side) => side.pass.try_peek(&side.shared.shards, key),
            Hand::Holder(side) => Some(side.holder.peek(&side.shared.shards, key)),
            Hand::Nothing => unreachable!(),
        };
        let looked = looked(answer, value);
        tell(looked, reply)
    }
}

impl AnySide {
    /// What the map holds of the key now: `Holder::peek` or `Pass::try_peek`. The value is written only if the key was found.
    pub fn peek(&mut self, key: u64, value: &mut [u64], reply: &mut RawReply) -> u32
        ensures width { width_of self.new ≡ width_of self.old }
        ensures told { PeekTells (width_of self.old) (role_in self.old) (role_in self.new) (self.new ≡ self.old) key value.old value.new (record { status = result; reply = reply.new }) }
    {
        with_side!(self, side => side.peek(key, value, reply))
    }
}
