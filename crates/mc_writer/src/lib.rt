//! The calls of a running writer: what the books decide is made act by act, in straight-line code.
//!
//! A put or a removal is decided as a value by the books of `mc_plan`, the same that decide for worlds and scripts. Here the
//! decision runs as deeds on shared words, with no list of acts and no enum between. The contract says that just the acts of
//! a whole call were made, and that the answer is a true one of it.
//!
//! ```text
//! let mut books = Books::new(alloc, &checked)?;
//! let (cells, mut seat, readers) = open::<1>(alloc, &checked, 1)?;
//! let stored = put(&cells, &mut seat, &mut books, 7, &[70])?;
//! ```
#![tactic(auto)]

mod absent_call;
mod deeds;
mod entry;
mod evict_call;
mod get_call;
mod if_call;
mod inserting;
mod kept_call;
mod pen;
mod picking;
mod present_call;
mod put_call;
mod remove_call;
mod searching;
mod swap_call;
mod swap_if_call;
mod take_call;

pub use absent_call::put_if_absent;
pub use entry::{Entry, Evict, Replaced, Swapped, Take};
pub use evict_call::evict;
pub use get_call::{get, look};
pub use if_call::put_if;
pub use kept_call::{put_kept, put_kept_absent};
pub use pen::Pen;
pub use present_call::{put_if_present, swap_if_present};
pub use put_call::put;
pub use remove_call::remove;
pub use swap_call::swap;
pub use swap_if_call::swap_if;
pub use take_call::take;
