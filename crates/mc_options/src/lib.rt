//! The command lines of `mcstep`, `mctrace` and `mcload`, read by `clap`, and what the programs print on standard error.
//!
//! ```text
//! let options = options_of(alloc, program, &["mcstep", "--buckets", "8"])?;
//! let load = load_options_of(alloc, &["mcload", "run", "--readers", "2"])?;
//! ```
#![tactic(auto)]

mod load_options;
mod options;
mod told;

pub use load_options::{LoadOptions, load_options_of};
pub use options::{Options, Program, options_of};
pub use told::{FAILED, REFUSED, Refusal, tell, tell_fault};
