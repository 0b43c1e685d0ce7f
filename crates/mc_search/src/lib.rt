//! Where a key is, and how to make room for one more.
//!
//! `find` gives a key's slot and item, and a `Finder` a least path of displacements to an empty slot, breadth first. A
//! `Sweep` is CLOCK's hand on its way round the items, and `FreeItems` keeps those that no slot names. With the other policy a `Choice` keeps
//! those in use, each of them new or proven, and a `Pick` is its search for one that gives way. The words of the table are read through
//! `Peek`, so the same code serves a list of words, a world and shared words.
//!
//! ```text
//! let mut finder = Finder::new(alloc, &checked)?;
//! if find::<1, P>(&checked, &mut peek, key).is_none() {
//!     let path = finder.path(&mut peek, key);            // None: nothing can make room
//! }
//! ```
#![tactic(auto)]

mod bucket;
mod choice;
mod finder;
mod finding;
mod free;
mod item_set;
mod items;
mod listed;
mod notes;
mod path;
mod pick;
mod queue;
mod reading;
mod room;
mod search;
mod sweep;
mod word;

pub use bucket::{is_large, touch_bucket};
pub use choice::Choice;
pub use finder::Finder;
pub use finding::{find, find_by, place_of};
pub use items::FreeItems;
pub use listed::entries;
pub use mc_theory::Peek;
pub use mc_words::NoMemory;
pub use path::Path;
pub use pick::Pick;
pub use reading::{Held, held_at, read};
pub use room::{OneMove, Room, find_hole, find_move};
pub use sweep::Sweep;
pub use word::{key_at, key_in, moment, slot_at, stamp_at, word_at};
