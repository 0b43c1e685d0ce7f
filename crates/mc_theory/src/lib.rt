//! The theory of the cache index: the atomic steps of the writer and of the readers, and what they mean together.
//!
//! An act is one step of the writer, an access one of a reader. A lawful list of acts is a run of the writer. The laws of this crate say
//! what holds of every such list, and of every lookup that reads words of it, whatever the order. Nothing here is stored in memory: a world
//! in memory, plans and shared words each rest on these laws.
//!
//! ```text
//! // The acts that put a key with the value 7, at item 0.
//! let acts = [
//!     Act::Open(key, Deed::Fill),
//!     Act::Item(0, 0, key),
//!     Act::Item(0, 1, 7),
//!     Act::Slot(place, word),
//!     Act::Moment,
//!     Act::Close,
//! ];
//! ```
#![tactic(auto)]

mod access;
mod act;
mod event;
pub mod laws;
mod peek;

pub use access::Access;
pub use act::{Act, Deed};
pub use event::{Done, Event, Stepped, Unlawful, given_by};
pub use mc_words::{Change, Reply};
pub use peek::Peek;
