//! Puts of many keys in one call, as C makes it.
ghost use Rattle.std.specs.Prelude.{◌≡◌, ◌*◌, length};
ghost use Rattle.mc_door.specs.AnySides.{role_in, width_of};
ghost use Rattle.mc_door.specs.Roles.{role_of};
ghost use Rattle.cefrodil.specs.Batches.{HasPutEntry, HavePut, MeansPuts, PutsGive};
ghost use Rattle.cefrodil.specs.Open.{kept};

use crate::raw_handle::RawHandle;
use mc_door::status::{CLOSED, COUNT, OK, WIDTH};
use mc_door::{AnySide, GROUP, Outcome, RawPut, Side, with_side};

// One put.
#[inline(always)]
fn put<const V: usize>(side: &mut Side<V>, key: u64, value: &[u64]) -> RawPut
    ensures { HasPutEntry V (key, value.now) (role_of side.old) (role_of side.new) result }
{
    let mut reply = Outcome::plain(OK).reply;
    let status = side.put(key, value, &mut reply);
    RawPut::of(Outcome { status, reply })
}

// Puts the keys one after the other. Before each group its words are loaded ahead.
#[inline(never)]
fn put_all<const V: usize>(side: &mut Side<V>, keys: &[u64], values: &[u64], answers: &mut [RawPut])
    requires answers { length answers.old ≡ length keys.now }
    requires values { length values.now ≡ length keys.now * V }
    ensures { HavePut V (role_of side.old) (role_of side.new) keys.now values.now answers.new }
{
    for index in 0..keys.len() {
        if index % GROUP == 0 {
            side.touch_ahead(&keys[index..]);
        }
        let start = index * V;
        answers[index] = put(side, keys[index], &values[start..start + V]);
    }
}

// Puts the keys by a side of any width.
fn put_at_width(held: &mut AnySide, keys: &[u64], values: &[u64], answers: &mut [RawPut])
    requires answers { length answers.old ≡ length keys.now }
    requires values { length values.now ≡ length keys.now * width_of held.old }
    ensures width { width_of held.new ≡ width_of held.old }
    ensures put { HavePut (width_of held.old) (role_in held.old) (role_in held.new) keys.now values.now answers.new }
{
    with_side!(held, side => put_all(side, keys, values, answers));
}

fn put_many(held: &mut AnySide, keys: &[u64], values: &[u64], answers: &mut [RawPut]) -> u32
    ensures { MeansPuts held.old held.new keys.now values.now answers.old answers.new result }
{
    if answers.len() != keys.len() {
        return COUNT;
    }
    if keys.len().checked_mul(held.words()) != Some(values.len()) {
        return WIDTH;
    }
    put_at_width(held, keys, values, answers);
    OK
}

/// Puts each of the keys in order, as `cefrodil_put` does. The values are stored one after the other.
#[tactic(auto, using(crate::proofs::Gives::gives_open, crate::proofs::Gives::gives_closed))]
#[unsafe(no_mangle)]
pub extern "C" fn cefrodil_put_many(
    handle: &mut RawHandle,
    keys: &[u64],
    values: &[u64],
    answers: &mut [RawPut],
) -> u32
    ensures open { handle.new.live ≡ handle.old.live }
    ensures told { PutsGive (kept handle.old) (kept handle.new) keys.now values.now answers.old answers.new result }
{
    if !handle.live {
        return CLOSED;
    }
    put_many(handle.handle.held(), keys, values, answers)
}
