//! `cefrodil_get` for each width of a value. The header calls these if the width is a constant.
ghost use Rattle.std.specs.Prelude.{◌≡◌};
ghost use Rattle.cefrodil.specs.Calls.{GetGives};
ghost use Rattle.cefrodil.specs.Open.{kept};

use crate::raw_handle::{RawHandle, told_of_handle};
use mc_door::status::WIDTH;
use mc_door::{AnySide, Outcome, RawReply};

// Looks up by a handle whose values have this width, and refuses any other. So a program that uses one width needs no code of the others.
macro_rules! get_at {
    ($width:ident, $handle:ident, $key:ident, $value:ident, $reply:ident) => {
        told_of_handle!($handle, $reply, held => match held {
            AnySide::$width(side) => side.get($key, $value.as_mut_slice(), $reply),
            _ => Outcome::plain(WIDTH).tell($reply),
        })
    };
}

/// `cefrodil_get` for values of one word.
#[tactic(auto, using(crate::proofs::Gives::gives_open, crate::proofs::Gives::gives_closed))]
#[unsafe(no_mangle)]
pub extern "C" fn cefrodil_get_1(
    handle: &mut RawHandle,
    key: u64,
    value: &mut [u64; 1],
    reply: &mut RawReply,
) -> u32
    ensures open { handle.new.live ≡ handle.old.live }
    ensures told { GetGives (kept handle.old) (kept handle.new) key value.old value.new (record { status = result; reply = reply.new }) }
{
    get_at!(One, handle, key, value, reply)
}

/// `cefrodil_get` for values of two words.
#[tactic(auto, using(crate::proofs::Gives::gives_open, crate::proofs::Gives::gives_closed))]
#[unsafe(no_mangle)]
pub extern "C" fn cefrodil_get_2(
    handle: &mut RawHandle,
    key: u64,
    value: &mut [u64; 2],
    reply: &mut RawReply,
) -> u32
    ensures open { handle.new.live ≡ handle.old.live }
    ensures told { GetGives (kept handle.old) (kept handle.new) key value.old value.new (record { status = result; reply = reply.new }) }
{
    get_at!(Two, handle, key, value, reply)
}

/// `cefrodil_get` for values of three words.
#[tactic(auto, using(crate::proofs::Gives::gives_open, crate::proofs::Gives::gives_closed))]
#[unsafe(no_mangle)]
pub extern "C" fn cefrodil_get_3(
    handle: &mut RawHandle,
    key: u64,
    value: &mut [u64; 3],
    reply: &mut RawReply,
) -> u32
    ensures open { handle.new.live ≡ handle.old.live }
    ensures told { GetGives (kept handle.old) (kept handle.new) key value.old value.new (record { status = result; reply = reply.new }) }
{
    get_at!(Three, handle, key, value, reply)
}

/// `cefrodil_get` for values of four words.
#[tactic(auto, using(crate::proofs::Gives::gives_open, crate::proofs::Gives::gives_closed))]
#[unsafe(no_mangle)]
pub extern "C" fn cefrodil_get_4(
    handle: &mut RawHandle,
    key: u64,
    value: &mut [u64; 4],
    reply: &mut RawReply,
) -> u32
    ensures open { handle.new.live ≡ handle.old.live }
    ensures told { GetGives (kept handle.old) (kept handle.new) key value.old value.new (record { status = result; reply = reply.new }) }
{
    get_at!(Four, handle, key, value, reply)
}

/// `cefrodil_get` for values of five words.
#[tactic(auto, using(crate::proofs::Gives::gives_open, crate::proofs::Gives::gives_closed))]
#[unsafe(no_mangle)]
pub extern "C" fn cefrodil_get_5(
    handle: &mut RawHandle,
    key: u64,
    value: &mut [u64; 5],
    reply: &mut RawReply,
) -> u32
    ensures open { handle.new.live ≡ handle.old.live }
    ensures told { GetGives (kept handle.old) (kept handle.new) key value.old value.new (record { status = result; reply = reply.new }) }
{
    get_at!(Five, handle, key, value, reply)
}

/// `cefrodil_get` for values of six words.
#[tactic(auto, using(crate::proofs::Gives::gives_open, crate::proofs::Gives::gives_closed))]
#[unsafe(no_mangle)]
pub extern "C" fn cefrodil_get_6(
    handle: &mut RawHandle,
    key: u64,
    value: &mut [u64; 6],
    reply: &mut RawReply,
) -> u32
    ensures open { handle.new.live ≡ handle.old.live }
    ensures told { GetGives (kept handle.old) (kept handle.new) key value.old value.new (record { status = result; reply = reply.new }) }
{
    get_at!(Six, handle, key, value, reply)
}

/// `cefrodil_get` for values of seven words.
#[tactic(auto, using(crate::proofs::Gives::gives_open, crate::proofs::Gives::gives_closed))]
#[unsafe(no_mangle)]
pub extern "C" fn cefrodil_get_7(
    handle: &mut RawHandle,
    key: u64,
    value: &mut [u64; 7],
    reply: &mut RawReply,
) -> u32
    ensures open { handle.new.live ≡ handle.old.live }
    ensures told { GetGives (kept handle.old) (kept handle.new) key value.old value.new (record { status = result; reply = reply.new }) }
{
    get_at!(Seven, handle, key, value, reply)
}

/// `cefrodil_get` for values of eight words.
#[tactic(auto, using(crate::proofs::Gives::gives_open, crate::proofs::Gives::gives_closed))]
#[unsafe(no_mangle)]
pub extern "C" fn cefrodil_get_8(
    handle: &mut RawHandle,
    key: u64,
    value: &mut [u64; 8],
    reply: &mut RawReply,
) -> u32
    ensures open { handle.new.live ≡ handle.old.live }
    ensures told { GetGives (kept handle.old) (kept handle.new) key value.old value.new (record { status = result; reply = reply.new }) }
{
    get_at!(Eight, handle, key, value, reply)
}
