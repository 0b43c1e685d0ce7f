//! The whole program `mctrace`, over any streams.
ghost use Rattle.mc_words.specs.Places.{IsWidth};

use crate::trace::Trace;
use mc_options::{FAILED, Options, Program, REFUSED, Refusal, options_of, tell, tell_fault};
use mc_replay::play_watched;
use mc_script::send;
use mc_step::status_of;
use mc_words::Checked;
use std::alloc::Global;
use std::convert::AsStr;
use std::io;
use std::io::{BufRead, Write};

/// What the program says of itself.
fn program<'a>() -> Program<'a> {
    Program {
        name: "mctrace",
        about: "Writes each atomic step of a script of cache calls, which comes on standard input",
        example: "mctrace",
    }
}

/// Traces the script, or says where it stopped.
fn trace_script<const V: usize, R: BufRead, W: Write, E: Write>(
    alloc: Global,
    checked: &Checked,
    readers: u32,
    input: &mut R,
    output: &mut W,
    errors: &mut E,
) -> u8
    requires { IsWidth V }
{
    let mut trace = Trace::<V>::new(alloc, checked);
    let mut answers = io::sink();
    let played = play_watched::<V, R, _, _>(
        alloc,
        checked,
        readers,
        input,
        &mut answers,
        &mut trace,
    );
    if let Err(stop) = played {
        tell(errors, stop);
        return status_of(stop.fault);
    }
    let Some(text) = trace.text() else {
        tell(errors, "refused: no memory");
        return FAILED;
    };
    let (_, is_whole) = send(output, text);
    if is_whole {
        return 0;
    }
    tell(errors, "refused: write failed");
    FAILED
}

/// Runs with these options. The script comes from `input`.
fn trace_options<R: BufRead, W: Write, E: Write>(
    alloc: Global,
    options: Options,
    input: &mut R,
    output: &mut W,
    errors: &mut E,
) -> u8 {
    match options.shape.check() {
        Ok(checked) => {
            let readers = options.readers;
            if options.words == 1 {
                trace_script::<1, R, W, E>(alloc, &checked, readers, input, output, errors)
            } else {
                trace_script::<2, R, W, E>(alloc, &checked, readers, input, output, errors)
            }
        }
        Err(error) => {
            tell(errors, Refusal(error));
            REFUSED
        }
    }
}

/// The whole program `mctrace`: the words of the command line, its own name first, and its three streams.
///
/// Returns the exit status: 0 after a whole trace; 2 if an option, the shape or a line is refused; 3 if memory runs out, or a read or write
/// fails. No clause says what is written.
pub fn run_trace<S: AsStr, R: BufRead, W: Write, E: Write>(
    alloc: Global,
    words: &[S],
    input: &mut R,
    output: &mut W,
    errors: &mut E,
) -> u8 {
    match options_of(alloc, program(), words) {
        Ok(options) => trace_options(alloc, options, input, output, errors),
        Err(error) => tell_fault(error, output, errors),
    }
}
