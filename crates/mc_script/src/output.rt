//! Bytes to a writer, by a loop over its `write`.
ghost use Rattle.std.specs.Prelude.{◌≡◌, ◌<◌, true, false, length, take};
ghost use Rattle.std.specs.Io.KnownBytes.{Appends};

use std::io::{ErrorKind, Write};

/// Writes the bytes. Returns how many were taken, and whether these are all.
///
/// A write that takes no byte has failed. An interrupted one is tried again.
pub fn send<W: Write>(to: &mut W, bytes: &[u8]) -> (usize, bool)
    ensures taken { Appends (W.contents to.old) (W.contents to.new) (take result.0 bytes.now) }
    ensures all { result.1 ≡ true → result.0 ≡ length bytes.now }
    ensures part { result.1 ≡ false → result.0 < length bytes.now }
{
    let mut sent = 0;
    'writes: for _ in 0..u64::MAX {
        if sent >= bytes.len() {
            return (sent, true);
        }
        match to.write(&bytes[sent..]) {
            Ok(0) => return (sent, false),
            Ok(n) => sent += n,
            Err(e) => {
                if e.kind() != ErrorKind::Interrupted {
                    return (sent, false);
                }
            }
        }
    }
    (sent, sent >= bytes.len())
}
