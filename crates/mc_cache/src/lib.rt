//! The cache: one writer and many readers in threads, without locks.
//!
//! Lend the `Cache` to every thread. Its `Writer` and each `Reader` belong to one thread at a time. If several threads write
//! now and then, put the writer on a `Desk`, and they take turns. Between `open` and `Cache::close` only
//! calls that list entries allocate. No call waits.
//!
//! The contracts of the writer's calls speak of its record, the list of its acts. Those of a reader's calls say that each
//! answer is true of the history that the reader has seen. The clauses `plain` say both in histories alone.
//!
//! ```text
//! let shape = Shape::for_items(1000)?;
//! let (cache, mut writer, mut readers) = open::<1>(rt.alloc(), shape, 2)?;
//! ```
//!
//! With that cache, its writer and two of its readers:
//!
//! ```text
//! writer.put(cache, 7, [70])?;
//! let (hit, miss) = join_mut(rt, &mut || one.get(cache, 7), &mut || two.get(cache, 8));
//! println!(rt; "{hit:?}, {miss:?}")?;
//! ```
#![tactic(auto)]

mod batches;
mod bounding;
mod cache;
pub mod calls;
mod closing;
mod desk;
mod evicting;
pub mod keyed;
pub mod laws;
mod listing;
mod loading;
mod opening;
mod reader;
mod showing;
mod stamped;
mod taking;
pub mod turn;
mod writer;

pub use bounding::{Bounded, BoundedError, BoundedPut};
pub use cache::Cache;
pub use closing::StillOpen;
pub use desk::{Desk, DeskError};
pub use loading::{Opened, open_with};
pub use mc_plan::{AbsentError, EvictError, IfError, Put, PutError, Remove, Spent, Why};
pub use mc_reader::GROUP;
pub use mc_words::{Change, Mix, NoMemory, Policy, Reply, Shape, ShapeError};
pub use mc_writer::{Entry, Evict, Replaced, Swapped, Take};
pub use opening::{OpenError, open, open_by};
pub use reader::Reader;
pub use writer::Writer;
