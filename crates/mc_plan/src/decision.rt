//! What a call does, decided as a value before any act is made.
ghost use Rattle.std.specs.Prelude.{◌≡◌};

use crate::answer::{PutError, Remove, Spent};
use mc_words::{KeyParts, Place};

/// A key's way from one slot to an empty one. `word` is what its slot holds.
#[derive(Clone, Copy, Default)]
pub struct Move {
    pub key: u64,
    pub word: u64,
    pub from: Place,
    pub to: Place,
}

/// What a put does, as far as one look for the key shows. It is small, so that a renewal pays for no path.
#[derive(Clone, Copy)]
pub enum Decision {
    /// It changes nothing.
    Refuse(PutError),
    /// The key is at the item, which gets the new value.
    Renew { item: u32, at: u64 },
    /// The key is not there: `Books` find room for it, and then insert it.
    Insert { at: u64 },
}

/// A put on a condition that is met: the key is at the item, which gets the new value.
#[derive(Clone, Copy)]
pub struct Renewal {
    pub item: u32,
    pub at: u64,
}

/// What the put of a key that must be absent finds.
#[derive(Clone, Copy)]
pub enum Vacancy {
    /// The key is at the item. Its last put was at the moment `since`.
    Taken { item: u32, since: u64 },
    /// The key is absent, and its put could pass the limit.
    Spent,
    /// The key is absent. Its put is to have the moment `at`.
    Free { at: u64 },
}

/// The moves that make room for a key, in the order in which they are made. Of more than one the books keep the list, as it is large.
#[derive(Clone, Copy)]
pub enum Moves {
    Unneeded,
    One(Move),
    Listed,
}

/// How a key that was absent is stored: the moves that make room, its item and its place.
#[derive(Clone, Copy)]
pub struct Storing {
    pub item: u32,
    pub place: Place,
    pub moves: Moves,
    pub at: u64,
}

/// The key that is taken out for another, with its parts and its place.
#[derive(Clone, Copy)]
pub struct Victim {
    pub key: u64,
    pub parts: KeyParts,
    pub place: Place,
}

/// A put that takes the item of another key: that key is taken out of its slot before anything else.
#[derive(Clone, Copy)]
pub struct Replacement {
    pub victim: Victim,
    pub storing: Storing,
}

/// What an eviction without a put finds before it reads a recency bit.
#[derive(Clone, Copy)]
pub enum Eviction {
    /// It could pass the limit.
    Spent,
    /// The table holds no key.
    Empty { at: u64 },
    /// An entry is to be searched. Its eviction is to have the moment `at`.
    Search { at: u64 },
}

/// What a removal does.
#[derive(Clone, Copy)]
pub enum Removal {
    /// It changes nothing.
    Refuse(Spent),
    /// The key is in the slot, which is cleared.
    TakeOut { place: Place, at: u64 },
    /// There is nothing to do.
    Leave { at: u64 },
}

impl Removal {
    ghost use Rattle.mc_plan.specs.Decisions.{removal_told};

    /// The answer of the removal.
    pub fn told(&self) -> Result<Remove, Spent>
        ensures { result ≡ removal_told self.now }
    {
        match *self {
            Removal::Refuse(spent) => Err(spent),
            Removal::TakeOut { at, .. } => Ok(Remove::Removed { at }),
            Removal::Leave { at } => Ok(Remove::NotThere { at }),
        }
    }
}
