//! Loads, and the body of the program `mcload` that runs them, over any streams.
//!
//! A load opens a cache, runs writers and readers in threads, each with calls that it draws, and checks every answer. `load` has one
//! writer, `load_desk` several that take turns at the cache's desk, and `load_shards` several that take turns at shards. A `Gate` is asked
//! before each call and gets each answer, so that a test can hold workers back.
//!
//! ```text
//! let report = load::<4, R, Free>(rt, alloc, load, &Free)?;
//! assert!(rt; report.wrong == 0);
//! let status = run_load(rt, alloc, &["mcload", "run", "--keys", "64"], &mut output, &mut errors);
//! ```
#![tactic(auto)]

mod asked;
mod checking;
mod dated;
mod draws;
mod error;
mod gate;
mod handle;
mod handles;
mod histogram;
mod journal;
mod lasts;
mod load_run;
mod load_told;
mod merging;
mod meter;
mod reader_thread;
mod ready;
mod refusing;
mod report;
mod run;
mod summing;
mod turn_thread;
mod turns;
mod turns_load;
mod turns_ready;
mod turns_summing;
mod work;
mod writer_thread;

pub use asked::Load;
pub use error::LoadError;
pub use gate::{Free, Gate};
pub use load_run::run_load;
pub use mc_check::{Record, check};
pub use mc_replay::{ReplayError, replay};
pub use mc_step::run_step;
pub use report::Report;
pub use turns::{DeskReport, TurnsReport};
pub use turns_load::{load_desk, load_shards};
pub use work::{load, load_many};
