//! A world in memory: one writer and its readers, whose atomic steps come in whatever order a caller names.
//!
//! `World::step` makes one event, `run` a list of them. Their contracts say that a world in memory is one of the theory's
//! at every step, and so that each lookup that ends has a true reply. The theory and the lookup machine are re-exported here.
//!
//! ```text
//! // A lookup of one reader and a writer that opens a deed beside it, in this order.
//! let events = [Event::Begin(0, 7), Event::Read(0), Event::Write(Act::Open(7, Deed::Fill)), Event::Read(0)];
//! let run = run_new::<1>(alloc, &checked, 1, &events)?;
//! assert!(rt; run.done.is_empty() && run.stopped.is_none());
//! ```
#![tactic(auto)]

mod events;
mod outcome;
mod parts;
mod peek;
mod progress;
mod reader;
mod recency;
mod table;
mod world;
mod writer;
mod written;

pub use events::{run, run_new};
pub use mc_lookup::{Lookup, Stage};
pub use mc_theory::{Access, Act, Change, Deed, Done, Event, Reply, Stepped, Unlawful, laws};
pub use mc_words::NoMemory;
pub use outcome::Run;
pub use world::{World, WorldError};
