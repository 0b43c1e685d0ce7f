//! Lines of a reader, one byte at a time, in a buffer of fixed size.
ghost use Rattle.std.specs.Prelude.{◌≡◌, ◌≤◌, true, length, Ok};
ghost use Rattle.std.specs.Io.BufRead.{strip_last};
ghost use Rattle.mc_script.specs.Lines.{GivesLine, is_over};
ghost use Rattle.mc_script.specs.Inside.Lines.{GivesByte};

use arrayvec::ArrayVec;
use std::io::{ErrorKind, Read};
use thiserror::Error;

/// The most bytes of a line, before its end.
pub const LONGEST: usize = 4096;

// Room for the longest line, its carriage return and one byte too many.
const ROOM: usize = 4098;

/// The bytes of a line, with no memory taken for them.
pub type Line = ArrayVec<u8, 4098>;

/// Why a line could not be read.
#[derive(Clone, Copy, Debug, PartialEq, Eq, Error)]
pub enum ReadFault {
    #[error("read failed")]
    ReadFailed,
    #[error("too long")]
    TooLong,
}

/// The next byte, or nothing at the end. An interrupted read is tried again.
fn next_byte<R: Read>(reader: &mut R) -> Result<Option<u8>, ReadFault>
    ensures { GivesByte (R.remaining reader.old) (R.remaining reader.new) result }
{
    let mut one = [0u8; 1];
    'tries: for _ in 0..u64::MAX {
        match reader.read(&mut one) {
            Ok(0) => return Ok(None),
            Ok(_) => return Ok(Some(one[0])),
            Err(e) => {
                if e.kind() != ErrorKind::Interrupted {
                    return Err(ReadFault::ReadFailed);
                }
            }
        }
    }
    Err(ReadFault::ReadFailed)
}

/// More bytes than a line may have, whatever follows: a last carriage return may belong to the line's end.
fn is_over(line: &[u8]) -> bool
    ensures { result ≡ is_over line.now }
{
    let len = line.len();
    len > LONGEST + 1 || (len == LONGEST + 1 && line[LONGEST] != b'\r')
}

/// Without the carriage return at its end.
fn trim_return(line: &mut Line)
    ensures { line.new.items ≡ strip_last 13 line.old.items }
{
    let len = line.len();
    if len > 0 && line.as_slice()[len - 1] == b'\r' {
        line.truncate(len - 1);
    }
}

/// Reads the next line into `line`, without its end: `false` if there is none.
///
/// A line ends at a line feed, at a carriage return and a line feed, or with the input.
/// Of a line that is too long, and after a failed read, `line` holds what was read of it.
pub fn read_line<R: Read>(reader: &mut R, line: &mut Line) -> Result<bool, ReadFault>
    ensures gives { GivesLine (R.remaining reader.old) (R.remaining reader.new) line.new.items result }
    ensures short { result ≡ Ok true → length line.new.items ≤ 4096 }
{
    line.clear();
    'bytes: for _ in 0..ROOM {
        match next_byte(reader)? {
            None => {
                if line.len() > LONGEST {
                    return Err(ReadFault::TooLong);
                }
                return Ok(!line.is_empty());
            }
            Some(b'\n') => {
                trim_return(line);
                return Ok(true);
            }
            Some(byte) => {
                line.push(byte);
                if is_over(line.as_slice()) {
                    return Err(ReadFault::TooLong);
                }
            }
        }
    }
    unreachable!()
}
