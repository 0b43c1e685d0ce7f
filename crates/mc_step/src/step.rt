//! The whole program `mcstep`, over any streams.
ghost use Rattle.std.specs.Prelude.{◌≡◌, ◌≤◌, codes, map};
ghost use Rattle.mc_words.specs.Checks.{shape_of};
ghost use Rattle.mc_words.specs.Places.{IsWidth};
ghost use Rattle.mc_options.specs.Streams.{stream};
ghost use Rattle.mc_step.specs.Programs.{Ends, RunsOptions, Runs, status_of};

use mc_options::{FAILED, Options, Program, REFUSED, Refusal, options_of, tell, tell_fault};
use mc_replay::{Fault, play};
use mc_words::Checked;
use std::alloc::Global;
use std::convert::AsStr;
use std::io::{BufRead, Write};

/// What the program says of itself.
fn program<'a>() -> Program<'a>
    ensures { result.name.now ≡ codes "mcstep" }
{
    Program {
        name: "mcstep",
        about: "Replays a script of cache calls, which comes on standard input",
        example: "mcstep\nwrites\n  stored at 1 moves 0\n  reader 0 found 7 at 1",
    }
}

/// The exit status of a replay that stops by a fault.
pub fn status_of(fault: Fault) -> u8
    ensures { result ≡ status_of fault }
{
    match fault {
        Fault::ReadFailed | Fault::NoMemory | Fault::WriteFailed => FAILED,
        Fault::TooLong
        | Fault::NotACommand
        | Fault::BadNumber
        | Fault::NoSuchReader
        | Fault::StillRunning
        | Fault::NothingToStep
        | Fault::BadShape => REFUSED,
    }
}

/// Replays the script, and reports where it stopped.
fn run_script<const V: usize, R: BufRead, W: Write, E: Write>(
    alloc: Global,
    checked: &Checked,
    readers: u32,
    input: &mut R,
    output: &mut W,
    errors: &mut E,
) -> u8
    requires { IsWidth V }
    ensures { Ends V (shape_of checked.now) readers (stream (R.remaining input.old) (R.remaining input.new))
        (stream (W.contents output.old) (W.contents output.new)) (stream (E.contents errors.old) (E.contents errors.new)) result }
{
    match play::<V, R, W>(alloc, checked, readers, input, output) {
        Ok(()) => 0,
        Err(stop) => {
            tell(errors, stop);
            status_of(stop.fault)
        }
    }
}

/// Runs with these options, of which the script comes from `input`.
fn run_options<R: BufRead, W: Write, E: Write>(
    alloc: Global,
    options: Options,
    input: &mut R,
    output: &mut W,
    errors: &mut E,
) -> u8
    requires { (1 ≤ options.words) × (options.words ≤ 2) }
    ensures { RunsOptions options (stream (R.remaining input.old) (R.remaining input.new))
        (stream (W.contents output.old) (W.contents output.new)) (stream (E.contents errors.old) (E.contents errors.new)) result }
{
    match options.shape.check() {
        Ok(checked) => {
            let readers = options.readers;
            if options.words == 1 {
                run_script::<1, R, W, E>(alloc, &checked, readers, input, output, errors)
            } else {
                run_script::<2, R, W, E>(alloc, &checked, readers, input, output, errors)
            }
        }
        Err(error) => {
            tell(errors, Refusal(error));
            REFUSED
        }
    }
}

/// The whole program `mcstep`: the words of the command line, its own name first, and its three streams.
///
/// Returns the exit status: 0 at the end of the script; 2 if an option, the shape or a line is refused; 3 if there is no memory, or a read
/// or write failed. The texts of help and version, and of a fault of the words, are `clap`'s.
pub fn run_step<S: AsStr, R: BufRead, W: Write, E: Write>(
    alloc: Global,
    words: &[S],
    input: &mut R,
    output: &mut W,
    errors: &mut E,
) -> u8
    ensures { Runs (map S.text words.now) (stream (R.remaining input.old) (R.remaining input.new))
        (stream (W.contents output.old) (W.contents output.new)) (stream (E.contents errors.old) (E.contents errors.new)) result }
{
    match options_of(alloc, program(), words) {
        Ok(options) => run_options(alloc, options, input, output, errors),
        Err(error) => tell_fault(error, output, errors),
    }
}
