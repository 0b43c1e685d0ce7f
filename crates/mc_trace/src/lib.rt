//! The body of the program `mctrace`, over any streams: what a script does, one line a step.
//!
//! A trace watches the replay of the script, and writes down each atomic step, and the table after the last one. No clause says what it
//! writes.
//!
//! ```text
//! let status = run_trace(alloc, &["mctrace", "--items", "3"], &mut input, &mut output, &mut errors);
//! ```
#![tactic(auto)]

mod program;
mod trace;

pub use program::run_trace;
