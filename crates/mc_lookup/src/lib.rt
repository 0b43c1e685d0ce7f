//! The lookup machine: one access after the other, until the lookup has its reply.
//!
//! A lookup reads the version of the key's stripe, the slots of the key's two buckets, and the key word at each tag match. At a hit it
//! reads the value words and the stamp. Then it reads the moment, and the version again; if the versions differ it tries again. Its
//! contract says what is left to read at each stage, and so that what it reads is a lookup of the theory.
//!
//! ```text
//! let mut lookup = Lookup::<1>::begin(&checked, key);
//! while let Some(access) = lookup.next() {
//!     lookup.after(load(access));
//! }
//! let reply = lookup.reply();
//! ```
#![tactic(auto)]

pub mod laws;
mod lookup;
mod stage;

pub use lookup::Lookup;
pub use stage::Stage;
