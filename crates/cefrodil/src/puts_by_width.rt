//! `cefrodil_put` for each width of a value. The header calls these if the width is a constant.
ghost use Rattle.std.specs.Prelude.{◌≡◌};
ghost use Rattle.cefrodil.specs.Calls.{WriteGives};
ghost use Rattle.cefrodil.specs.Open.{kept};

use crate::raw_handle::{RawHandle, told_of_handle};
use mc_door::status::WIDTH;
use mc_door::{AnySide, Outcome, RawReply, Write};

// Puts by a handle whose values have this width, and refuses any other. So a program that uses one width needs no code of the others.
macro_rules! put_at {
    ($width:ident, $handle:ident, $key:ident, $value:ident, $reply:ident) => {
        told_of_handle!($handle, $reply, held => match held {
            AnySide::$width(side) => side.put($key, $value.as_slice(), $reply),
            _ => Outcome::plain(WIDTH).tell($reply),
        })
    };
}

/// `cefrodil_put` of a value of one word.
#[tactic(auto, using(crate::proofs::Gives::gives_open, crate::proofs::Gives::gives_closed))]
#[unsafe(no_mangle)]
pub extern "C" fn cefrodil_put_1(
    handle: &mut RawHandle,
    key: u64,
    value: &[u64; 1],
    reply: &mut RawReply,
) -> u32
    ensures open { handle.new.live ≡ handle.old.live }
    ensures told { WriteGives (kept handle.old) (kept handle.new) key Write.Put value.now (record { status = result; reply = reply.new }) }
{
    put_at!(One, handle, key, value, reply)
}

/// `cefrodil_put` of a value of two words.
#[tactic(auto, using(crate::proofs::Gives::gives_open, crate::proofs::Gives::gives_closed))]
#[unsafe(no_mangle)]
pub extern "C" fn cefrodil_put_2(
    handle: &mut RawHandle,
    key: u64,
    value: &[u64; 2],
    reply: &mut RawReply,
) -> u32
    ensures open { handle.new.live ≡ handle.old.live }
    ensures told { WriteGives (kept handle.old) (kept handle.new) key Write.Put value.now (record { status = result; reply = reply.new }) }
{
    put_at!(Two, handle, key, value, reply)
}

/// `cefrodil_put` of a value of three words.
#[tactic(auto, using(crate::proofs::Gives::gives_open, crate::proofs::Gives::gives_closed))]
#[unsafe(no_mangle)]
pub extern "C" fn cefrodil_put_3(
    handle: &mut RawHandle,
    key: u64,
    value: &[u64; 3],
    reply: &mut RawReply,
) -> u32
    ensures open { handle.new.live ≡ handle.old.live }
    ensures told { WriteGives (kept handle.old) (kept handle.new) key Write.Put value.now (record { status = result; reply = reply.new }) }
{
    put_at!(Three, handle, key, value, reply)
}

/// `cefrodil_put` of a value of four words.
#[tactic(auto, using(crate::proofs::Gives::gives_open, crate::proofs::Gives::gives_closed))]
#[unsafe(no_mangle)]
pub extern "C" fn cefrodil_put_4(
    handle: &mut RawHandle,
    key: u64,
    value: &[u64; 4],
    reply: &mut RawReply,
) -> u32
    ensures open { handle.new.live ≡ handle.old.live }
    ensures told { WriteGives (kept handle.old) (kept handle.new) key Write.Put value.now (record { status = result; reply = reply.new }) }
{
    put_at!(Four, handle, key, value, reply)
}

/// `cefrodil_put` of a value of five words.
#[tactic(auto, using(crate::proofs::Gives::gives_open, crate::proofs::Gives::gives_closed))]
#[unsafe(no_mangle)]
pub extern "C" fn cefrodil_put_5(
    handle: &mut RawHandle,
    key: u64,
    value: &[u64; 5],
    reply: &mut RawReply,
) -> u32
    ensures open { handle.new.live ≡ handle.old.live }
    ensures told { WriteGives (kept handle.old) (kept handle.new) key Write.Put value.now (record { status = result; reply = reply.new }) }
{
    put_at!(Five, handle, key, value, reply)
}

/// `cefrodil_put` of a value of six words.
#[tactic(auto, using(crate::proofs::Gives::gives_open, crate::proofs::Gives::gives_closed))]
#[unsafe(no_mangle)]
pub extern "C" fn cefrodil_put_6(
    handle: &mut RawHandle,
    key: u64,
    value: &[u64; 6],
    reply: &mut RawReply,
) -> u32
    ensures open { handle.new.live ≡ handle.old.live }
    ensures told { WriteGives (kept handle.old) (kept handle.new) key Write.Put value.now (record { status = result; reply = reply.new }) }
{
    put_at!(Six, handle, key, value, reply)
}

/// `cefrodil_put` of a value of seven words.
#[tactic(auto, using(crate::proofs::Gives::gives_open, crate::proofs::Gives::gives_closed))]
#[unsafe(no_mangle)]
pub extern "C" fn cefrodil_put_7(
    handle: &mut RawHandle,
    key: u64,
    value: &[u64; 7],
    reply: &mut RawReply,
) -> u32
    ensures open { handle.new.live ≡ handle.old.live }
    ensures told { WriteGives (kept handle.old) (kept handle.new) key Write.Put value.now (record { status = result; reply = reply.new }) }
{
    put_at!(Seven, handle, key, value, reply)
}

/// `cefrodil_put` of a value of eight words.
#[tactic(auto, using(crate::proofs::Gives::gives_open, crate::proofs::Gives::gives_closed))]
#[unsafe(no_mangle)]
pub extern "C" fn cefrodil_put_8(
    handle: &mut RawHandle,
    key: u64,
    value: &[u64; 8],
    reply: &mut RawReply,
) -> u32
    ensures open { handle.new.live ≡ handle.old.live }
    ensures told { WriteGives (kept handle.old) (kept handle.new) key Write.Put value.now (record { status = result; reply = reply.new }) }
{
    put_at!(Eight, handle, key, value, reply)
}
