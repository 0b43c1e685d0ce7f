//! The script of commands that `mcstep` plays: from bytes to lines, from lines to commands, and bytes to a writer.
//!
//! `specs/` defines what a line is and what it says. Nothing here knows of a cache.
//!
//! ```text
//! let mut line = Line::new();
//! while read_line(&mut input, &mut line)? {
//!     if let Some(command) = parse::<1>(line.as_slice())? {
//!         ...
//!     }
//! }
//! ```
#![tactic(auto)]

mod command;
mod line;
mod number;
mod output;
mod step;
mod words;

pub use command::{Command, LineFault, parse};
pub use line::{LONGEST, Line, ReadFault, read_line};
pub use number::are_digits;
pub use output::send;
