//! Lookups of many keys in one call, as C makes it.
ghost use Rattle.std.specs.Prelude.{◌≡◌, ◌*◌, length};
ghost use Rattle.mc_door.specs.AnySides.{role_in, width_of};
ghost use Rattle.mc_door.specs.Roles.{role_of};
ghost use Rattle.mc_words.specs.Places.{IsWidth};
ghost use Rattle.cefrodil.specs.Many.{HasLooked, HaveLooked, ManyGive, MeansMany};
ghost use Rattle.cefrodil.specs.Open.{kept};

use crate::raw_handle::RawHandle;
use mc_door::status::{CLOSED, COUNT, OK, WIDTH};
use mc_door::{AnySide, GROUP, Outcome, Side, with_side};

/// One answer of many. A field that does not apply to the status is 0.
#[repr(C)]
#[derive(Clone, Copy)]
pub struct RawAnswer {
    /// The moment at which the answer held.
    pub at: u64,
    /// The moment of the key's last put.
    pub since: u64,
    /// Found, absent or busy.
    pub status: u32,
    pub unused: u32,
}

// One lookup.
#[inline(always)]
fn look_up<const V: usize>(side: &mut Side<V>, key: u64, value: &mut [u64]) -> RawAnswer
    requires width { IsWidth V }
    requires value { length value.old ≡ V }
    ensures looked { HasLooked V (role_of side.old) (role_of side.new) key value.old value.new result }
{
    let mut reply = Outcome::plain(OK).reply;
    let status = side.get(key, value, &mut reply);
    RawAnswer {
        at: reply.at,
        since: reply.since,
        status,
        unused: 0,
    }
}

// Looks the keys up one after the other, after the loads ahead of each group.
#[inline(never)]
fn look_up_all<const V: usize>(
    side: &mut Side<V>,
    keys: &[u64],
    values: &mut [u64],
    answers: &mut [RawAnswer],
)
    requires width { IsWidth V }
    requires answers { length answers.old ≡ length keys.now }
    requires values { length values.old ≡ length keys.now * V }
    ensures { HaveLooked V (role_of side.old) (role_of side.new) keys.now values.old values.new answers.new }
{
    for index in 0..keys.len() {
        if index % GROUP == 0 {
            side.touch_ahead(&keys[index..]);
        }
        let start = index * V;
        answers[index] = look_up(side, keys[index], &mut values[start..start + V]);
    }
}

// Looks up each key, whatever the width.
fn look_up_each(held: &mut AnySide, keys: &[u64], values: &mut [u64], answers: &mut [RawAnswer])
    requires answers { length answers.old ≡ length keys.now }
    requires values { length values.old ≡ length keys.now * width_of held.old }
    ensures width { width_of held.new ≡ width_of held.old }
    ensures looked { HaveLooked (width_of held.old) (role_in held.old) (role_in held.new) keys.now values.old values.new answers.new }
{
    with_side!(held, side => look_up_all(side, keys, values, answers));
}

fn get_many(held: &mut AnySide, keys: &[u64], values: &mut [u64], answers: &mut [RawAnswer]) -> u32
    ensures { MeansMany held.old held.new keys.now values.old values.new answers.old answers.new result }
{
    if answers.len() != keys.len() {
        return COUNT;
    }
    if keys.len().checked_mul(held.words()) != Some(values.len()) {
        return WIDTH;
    }
    look_up_each(held, keys, values, answers);
    OK
}

/// Looks up each of the keys in order. The values are stored one after the other; each is written only if its key was found.
#[tactic(auto, using(crate::proofs::Gives::gives_open, crate::proofs::Gives::gives_closed))]
#[unsafe(no_mangle)]
pub extern "C" fn cefrodil_get_many(
    handle: &mut RawHandle,
    keys: &[u64],
    values: &mut [u64],
    answers: &mut [RawAnswer],
) -> u32
    ensures open { handle.new.live ≡ handle.old.live }
    ensures told { ManyGive (kept handle.old) (kept handle.new) keys.now values.old values.new answers.old answers.new result }
{
    if !handle.live {
        return CLOSED;
    }
    get_many(handle.handle.held(), keys, values, answers)
}
