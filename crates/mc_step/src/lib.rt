//! The body of the program `mcstep`, over any streams.
//!
//! `run_step` reads the words of the command line, replays the script over a table of the shape that they ask for, and reports a fault on
//! standard error. The replay is a crate of its own.
//!
//! ```text
//! let status = run_step(alloc, &["mcstep", "--items", "3"], &mut input, &mut output, &mut errors);
//! ```
#![tactic(auto)]

mod step;

pub use step::{run_step, status_of};
