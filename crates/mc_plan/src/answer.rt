//! The answers of the writer's calls.
ghost use Rattle.std.specs.Prelude.{◌≡◌};

use thiserror::Error;

/// What a `put` did. `at` is the moment of its change.
#[derive(Clone, Copy, Debug, PartialEq, Eq)]
pub enum Put {
    /// The key is new. `moves` is how many keys were moved, `evicted` the key that was taken out for it.
    Stored {
        at: u64,
        moves: u8,
        evicted: Option<u64>,
    },
    /// The key was there and has the new value.
    Renewed {
        at: u64,
    },
}

/// Why a `put` stored nothing.
#[derive(Clone, Copy, Debug, PartialEq, Eq, Error)]
pub enum PutError {
    /// No chain of displacements leads to an empty slot.
    #[error("no path")]
    NoPath,
    /// Every entry was accessed since the hand last passed.
    #[error("all recent")]
    AllRecent,
    /// The limit of version changes could be passed.
    #[error("spent")]
    Spent,
}

/// Why a `put` on a condition stored nothing. The first reason that applies is returned.
#[derive(Clone, Copy, Debug, PartialEq, Eq, Error)]
pub enum IfError {
    /// The limit of version changes could be passed.
    #[error("spent")]
    Spent,
    /// The key is not there. `at` is the moment at which that held.
    #[error("not there at {at}")]
    NotThere { at: u64 },
    /// The key was last put at another moment, which is this one.
    #[error("changed since {since}")]
    Changed { since: u64 },
}

/// Why a put of a key that must be absent stored nothing.
#[derive(Clone, Copy, Debug, PartialEq, Eq, Error)]
pub enum AbsentError {
    /// The key is there. Its last put was at the moment `since`.
    #[error("present since {since}")]
    Present { since: u64 },
    /// The key is absent, and its put was refused.
    #[error("{0}")]
    Put(PutError),
}

/// Why a put that takes no other key's item stored nothing. The first reason that applies is returned, `Spent` before the others.
#[derive(Clone, Copy, Debug, PartialEq, Eq, Error)]
pub enum Why {
    /// No chain of displacements leads to an empty slot.
    #[error("no path")]
    NoPath,
    /// Every item is in use.
    #[error("no item")]
    NoItem,
    /// The limit of version changes could be passed.
    #[error("spent")]
    Spent,
}

impl Why {
    ghost use Rattle.mc_plan.specs.Calls.{why_of};

    /// The reason of such a put, if a put was refused without a sweep.
    pub fn of(refusal: PutError) -> Why
        ensures { result ≡ why_of refusal }
    {
        match refusal {
            PutError::NoPath => Why::NoPath,
            PutError::AllRecent => Why::NoItem,
            PutError::Spent => Why::Spent,
        }
    }
}

/// Why an `evict` took no entry out. The first reason that applies is returned.
#[derive(Clone, Copy, Debug, PartialEq, Eq, Error)]
pub enum EvictError {
    /// The limit of version changes could be passed.
    #[error("spent")]
    Spent,
    /// No entry gives way: the search found each recency bit set.
    #[error("all recent")]
    AllRecent,
}

/// What a `remove` did. `at` is the moment after it.
#[derive(Clone, Copy, Debug, PartialEq, Eq)]
pub enum Remove {
    Removed { at: u64 },
    NotThere { at: u64 },
}

/// A `remove` changed nothing, since the limit of version changes could be passed.
#[derive(Clone, Copy, Debug, PartialEq, Eq, Error)]
#[error("spent")]
pub struct Spent;

/// What a call of the clerk answers.
#[derive(Clone, Copy, Debug, PartialEq, Eq)]
pub enum Answer {
    Put(Result<Put, PutError>),
    /// A renewal on a condition, with the moment of its change.
    PutIf(Result<u64, IfError>),
    Remove(Result<Remove, Spent>),
    /// A put that takes no other key's item.
    Kept(Result<Put, Why>),
}
