//! What is behind a handle that a program in C keeps: a side of a cache, for values of one of eight widths.
//!
//! A side is a pass of shards, which tries for turns, or a holder of all turns. It keeps the shards with it, and that the two belong together.
//! So a call of a side has no condition for its caller to know: a value of another width has a status of its own.
#![tactic(auto)]

mod any_side;
mod caller;
mod calls;
mod counting;
mod entries;
mod holder_side;
mod holding;
mod listed;
mod looked;
mod new_passes;
mod outcome;
mod pass_side;
mod peeking;
mod rest;
mod shared;
mod side;
mod spares;
mod stamped;
pub mod status;
mod swaps;
mod tell;
mod widths;
mod words;
mod write;
mod writes;

pub use any_side::AnySide;
pub use holding::HoldError;
pub use listed::ListError;
pub use looked::Looked;
pub use mc_cache::{GROUP, OpenError, Shape, ShapeError, Why};
pub use mc_shards::{OpenShardsError, shard_shape};
pub use new_passes::NewPasses;
pub use outcome::{EVICTED, NOTHING, Outcome, RENEWED, RawPut, RawReply, STORED};
pub use rest::{Rest, open, open_with};
pub use shared::MoreError;
pub use side::{Hand, Side};
pub use write::{Swap, Write};
