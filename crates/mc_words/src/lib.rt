//! The words of the cache index: the shape of a table, how a key is cut into its parts, where each word is.
//!
//! It also declares what every other crate speaks of: the changes of a history and the replies of a lookup.
//! `specs/` defines what the words mean.
//!
//! ```text
//! let checked = Shape::for_items(3000)?.check()?;
//! let tag = checked.tag(key);
//! let word = checked.slot_word(tag, 3);                  // a slot that names item 3
//! assert_eq!(rt; checked.slot_parts(word), Some((tag, 3)));
//! let other = checked.alt(checked.first(key), tag);      // the key's other bucket
//! ```
#![tactic(auto)]

mod checked;
mod history;
mod item;
mod key_parts;
mod mix;
mod no_memory;
mod place;
mod policy;
mod readers;
mod shape;
mod sizing;

pub use checked::Checked;
pub use history::{Change, Reply};
pub use item::{item_stride, payload_words};
pub use key_parts::KeyParts;
pub use mix::{Mix, can_shard};
pub use no_memory::NoMemory;
pub use place::Place;
pub use policy::Policy;
pub use readers::MOST_READERS;
pub use shape::{Shape, ShapeError};
