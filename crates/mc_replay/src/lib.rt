//! The replay of scripts over a world and its clerk.
//!
//! `replay` reads a script line by line, makes the calls of the writer and the accesses of the readers that the lines
//! say, and writes a line for each answer. Its contract says so for every script whose bytes are known. `play` is the
//! same for a program, which also reports where and why a script stopped.
//!
//! ```text
//! let mut input = &b"put 0 7\nget 0\n"[..];
//! replay::<1, _, _>(alloc, &checked, 2, &mut input, &mut output)?;
//! // output: "stored at 1 moves 0", "found 7 at 1"
//! ```
#![tactic(auto)]

mod command;
mod engine;
mod fault;
mod lines;
mod player;
mod reading;
mod reopening;
mod text;
mod watch;

pub use engine::{play, play_watched, replay};
pub use fault::{Fault, ReplayError, Stop};
pub use watch::Watch;
