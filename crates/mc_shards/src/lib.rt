//! A cache of shards: caches of one shape, each with its writer, among which keys are divided.
//!
//! A part of the mixed key that no table uses says which shard a key belongs to. Lend the `Shards` to every thread. A `Pass` belongs to
//! one thread at a time, and has a reader of each shard. A call for a key is the call of its shard's cache, by a turn if it
//! writes; the other shards stay as they are. Only opening, closing and listing allocate, and no call waits.
//!
//! ```text
//! let shape = shard_shape(100_000, 16)?;
//! let (shards, mut passes) = open_shards::<1>(rt.alloc(), shape, 16, 2)?;
//! ```
//!
//! With these shards and two of their passes:
//!
//! ```text
//! one.try_put(shards, 7, [70])?;
//! let (hit, put) = join_mut(rt, &mut || one.get(shards, 7), &mut || two.try_put(shards, 8, [80]));
//! ```
#![tactic(auto)]

mod ahead;
mod closing;
mod counting;
mod held_calls;
mod held_lists;
mod held_stamps;
mod holding;
pub mod laws;
mod lender;
mod lending;
mod listing;
mod loading;
mod opening;
mod pass;
mod shards;
mod sizing;
mod spares;

pub use closing::StillOpen;
pub use holding::Holder;
pub use loading::{OpenedShards, open_shards_with, open_spared_with};
pub use mc_cache::{
    AbsentError, DeskError, Entry, IfError, Mix, NoMemory, OpenError, Put, PutError, Remove,
    Replaced, Reply, Shape, Spent, Swapped, Take, Why,
};
pub use opening::{OpenShardsError, open_shards, open_spared};
pub use pass::Pass;
pub use shards::Shards;
pub use sizing::shard_shape;
pub use spares::{Spares, SparesError};
