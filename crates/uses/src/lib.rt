//! What callers can prove of a cache or of shards, from the contracts of `mc_cache` and `mc_shards` alone.
//!
//! Each function is a caller, and its contract says something that the cache's words let it say: a value that was put is found, also by a
//! peek, a reply in another thread is true of the writer's history, replies come in the order of their moments, two threads take turns at
//! one writer, two puts of one turn come one right after the other, two keys that one batch overwrites have their new values at one moment,
//! of two that put an absent key one succeeds, no object behind the index is lost, a listed stamp is refused only if the key was changed
//! since, a lookup in shards is no older than the put before it, shards that are opened anew hold what the old ones held, and a holder's list has
//! what it has just put.
#![tactic(auto)]

mod absent;
mod again;
mod beside;
mod held;
mod listed;
mod one_batch;
mod one_turn;
mod owned;
mod peeked;
mod reopened;
mod shards;
mod threads;
mod turns;
mod twice;

pub use absent::{Tried, put_once};
pub use again::overwrite;
pub use beside::{get_between_meetings, put_and_get};
pub use held::put_and_list;
pub use listed::overwrite_listed;
pub use one_batch::overwrite_both;
pub use one_turn::put_both;
pub use owned::{put_object, take_object};
pub use peeked::put_and_peek;
pub use reopened::reopen;
pub use shards::put_and_get_in_shards;
pub use threads::get_beside_a_put;
pub use turns::put_in_turns;
pub use twice::get_twice;
