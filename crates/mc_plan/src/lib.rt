//! The writer's plans: which acts make a put or a removal, in which order.
//!
//! A plan is a list of acts, and its contract says what the list makes of every quiet state that has what it needs. A
//! `Clerk` turns a call into such acts, one at a time, and answers it after the last. The words of the table are read
//! through `Peek`. The search that plans are built on is a crate of its own, re-exported here.
//!
//! ```text
//! clerk.put(&mut &world, key, value);
//! while let Some(act) = clerk.next() {
//!     let bit = match world.step(Event::Write(act))? {
//!         Stepped::Word(bit) => bit,
//!         _ => 0,
//!     };
//!     clerk.after(&mut &world, bit);
//! }
//! let answer = clerk.answer();
//! ```
#![tactic(auto)]

mod answer;
mod books;
mod clerk;
mod decision;
mod far;
mod fill;
pub mod laws;
mod listing;
mod moves;
mod renew;
mod take_out;
mod value;
mod waiting;

pub use answer::{AbsentError, Answer, EvictError, IfError, Put, PutError, Remove, Spent, Why};
use arrayvec::ArrayVec;
pub use books::Books;
pub use clerk::Clerk;
pub use decision::{
    Decision, Eviction, Move, Moves, Removal, Renewal, Replacement, Storing, Vacancy, Victim,
};
pub use fill::{add_fill, plan_fill};
pub use mc_search::{
    Finder, Held, NoMemory, OneMove, Path, Peek, Room, Sweep, entries, find, moment, read,
};
use mc_theory::Act;
pub use moves::{add_move, add_moves, path_moves, plan_moves, push_moves};
pub use renew::{add_renew, plan_renew};
pub use take_out::{add_evict, add_remove, plan_evict, plan_remove};
pub use waiting::Waiting;

/// The acts of a plan, in their order.
pub type Plan = ArrayVec<Act, 64>;
