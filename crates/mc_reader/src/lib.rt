//! One lookup of a running reader, in straight-line code over the stages of the lookup machine, and lookups of many keys, one
//! after the other.
//!
//! The contract of one says that just a lookup's readings were added to the reader's record, and that its reply is true: it is
//! what the map held at the front at which this lookup read the moment.
//!
//! ```text
//! match get(&cells, &mut reader, key) {
//!     Reply::Found { value, at, .. } => ...                // the map held the value when `at` changes had been made
//!     Reply::Absent { at } => ...
//!     Reply::Busy => ...                                 // each try was spoiled
//! }
//! ```
#![tactic(auto)]

mod many_lookups;
mod places;
mod running_lookup;
mod touches;

pub use many_lookups::{get_many, pays_ahead, touch_ahead};
pub use running_lookup::get;
pub use touches::{Aim, GROUP, aim_of, guess_named, touch_guessed, touch_slots};
