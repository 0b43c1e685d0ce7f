//! The answers of readers, checked against a history of changes.
//!
//! A record is wrong if its answer isn't what the map held after the changes that it names. `check` counts the wrong
//! records and takes no memory. A `Checker` that is `sorted` does the same for long histories: it sorts the changes by key.
//!
//! ```text
//! let record = Record { reader: 0, key: 7, reply: Reply::Absent { at: 1 } };
//! let wrong = check(&[Change::Put(7, [70])], &[record]);
//! ```
#![tactic(auto)]

mod checker;
mod last;
mod mentions;
mod record;

pub use checker::{Checker, check};
pub use last::key_of;
pub use record::Record;
