//! What the programs print on standard error.
ghost use Rattle.std.specs.Prelude.{◌++◌, IfSome, Some, codes};
ghost use Rattle.clap.specs.Words.{kind_of};
ghost use Rattle.mc_options.specs.Streams.{stream, Tells, TellsFault};
ghost use Rattle.mc_options.specs.ShapeTexts.{shape_text};

use clap::Error;
use clap::error::ErrorKind;
use mc_script::send;
use mc_words::ShapeError;
use std::fmt;
use std::fmt::{Display, InlineText, Write as _};
use std::io::Write;

/// The exit status if the words of the command line, the shape, the readers or the keys are refused.
pub const REFUSED: u8 = 2;

/// The exit status if memory was short or a write failed.
pub const FAILED: u8 = 3;

/// The most bytes of a line.
const ROOM: usize = 96;

/// A shape that is refused, as it is reported: `refused: ` and the bounds of the field at fault.
#[derive(Clone, Copy)]
pub struct Refusal(pub ShapeError);

impl Display for Refusal {
    ghost output = { λ refusal. Some (codes "refused: " ++ shape_text refusal.0) };

    fn fmt<W: fmt::Write>(&self, f: &mut fmt::Formatter<W>) -> fmt::Result {
        match self.0 {
            ShapeError::Buckets => {
                write!(
                    f,
                    "refused: buckets must be a power of two from 2 to 1048576"
                )
            }
            ShapeError::Items => {
                write!(f, "refused: items must be from 1 to four times the buckets")
            }
            ShapeError::Stripes => write!(
                f,
                "refused: stripes must be a power of two from 1 to 65536"
            ),
            ShapeError::Depth => write!(f, "refused: depth must be from 0 to 8"),
            ShapeError::Tries => write!(f, "refused: tries must be from 1 to 64"),
            ShapeError::Limit => write!(f, "refused: limit must be from 0 to 4611686018427387904"),
        }
    }
}

/// Memory was short before any line was read.
#[derive(Clone, Copy)]
struct Short;

impl Display for Short {
    ghost output = { λ short. Some (codes "refused: no memory") };

    fn fmt<W: fmt::Write>(&self, f: &mut fmt::Formatter<W>) -> fmt::Result {
        write!(f, "refused: no memory")
    }
}

/// Prints a line, without taking memory. What a failed write leaves out is ignored, and so is a text of more than 95 bytes.
pub fn tell<E: Write, D: Display + Drop>(errors: &mut E, what: D)
    ensures { IfSome (D.output what) (Tells (stream (E.contents errors.old) (E.contents errors.new))) }
{
    let mut line = InlineText::<ROOM>::new();
    if writeln!(line, "{what}").is_ok() {
        let _ = send(errors, line.as_str().as_bytes());
    }
}

/// Prints the help or the version that the words ask for, or reports their fault. Returns the exit status: 0 after help and version, 2
/// after a fault of the words, 3 if memory was short or a write failed.
pub fn tell_fault<W: Write, E: Write>(error: Error, output: &mut W, errors: &mut E) -> u8
    ensures { TellsFault (kind_of error) (stream (W.contents output.old) (W.contents output.new))
        (stream (E.contents errors.old) (E.contents errors.new)) result }
{
    match error.kind() {
        ErrorKind::OutOfMemory => {
            tell(errors, Short);
            FAILED
        }
        ErrorKind::DisplayHelp | ErrorKind::DisplayVersion => match write!(output, "{error}") {
            Ok(()) => 0,
            Err(_) => FAILED,
        },
        _ => {
            let _ = write!(errors, "{error}");
            REFUSED
        }
    }
}
