//! What all handles of a cache share: its shards, and what is there for more handles.
ghost use Rattle.std.specs.Prelude.{◌≡◌, All, IfOk, IfSome, length};
ghost use Rattle.mc_shards.specs.Sharded.{ArePassOf};
ghost use Rattle.mc_shards.specs.Spares.{AreSparesOf};

use counted_slot::{Counted, Fits, TAKEN};
use mc_shards::{Pass, Shards, Spares, SparesError};
use std::alloc::Global;

// The words of the slot. The high half says whether the spares are there.
const HOME: u64 = 0;

const AWAY: u64 = 0x1_0000_0000;

/// Spares of the shards that are the tag.
#[derive(Drop)]
pub struct Kept<const V: usize> {
    pub spares: Spares<V>,
}

impl<const V: usize> Fits for Kept<V> {
    type Tag = Shards<V>;

    ghost fits = { λ shards kept. AreSparesOf shards kept.spares };
}

/// Shards, with their spares. Those are not there while a handle takes some of them.
#[derive(Drop)]
pub struct Shared<const V: usize> {
    pub shards: Shards<V>,
    pub kept: Counted<Option<Kept<V>>>,
    ghost belongs: { kept ≡ shards },
}

/// Why no spares are given.
#[derive(Clone, Copy, Debug, PartialEq, Eq)]
pub enum MoreError {
    /// None are asked for, or more than there are.
    Count,
    /// Another handle takes some of them just now.
    Held,
    /// There is no memory.
    NoMemory,
}

impl<const V: usize> Shared<V> {
    /// The shards with these spares.
    pub(crate) fn new(shards: Shards<V>, spares: Spares<V>) -> Shared<V>
        requires { AreSparesOf shards spares }
        ensures { result.shards ≡ shards.entry }
    {
        let kept = Counted::new(Some(Kept { spares }), &shards);
        Shared { shards, kept }
    }

    // Takes the spares, if they are there and the try wins.
    fn take(&self) -> Option<Kept<V>>
        ensures { IfSome result (λ kept. AreSparesOf self.now.shards kept.spares) }
    {
        let (found, claim) = self.kept.turn(HOME, TAKEN);
        if found != HOME {
            claim.done();
            return None;
        }
        claim.put(None, AWAY)
    }

    // Gives them back.
    fn give(&self, kept: Kept<V>)
        requires { AreSparesOf self.now.shards kept.spares }
    {
        let (found, claim) = self.kept.turn(AWAY, AWAY + TAKEN);
        if found == AWAY {
            let _ = claim.put(Some(kept), HOME);
        } else {
            claim.done();
        }
    }

    /// Makes `many` passes of the spares. It tries once for them.
    pub(crate) fn more(&self, alloc: Global, many: usize) -> Result<Vec<Pass<V>>, MoreError>
        ensures of { IfOk result (λ given. All (ArePassOf self.now.shards) given.items) }
        ensures many { IfOk result (λ given. length given.items ≡ many) }
    {
        if many == 0 {
            return Err(MoreError::Count);
        }
        let Some(mut kept) = self.take() else {
            return Err(MoreError::Held);
        };
        let given = kept.spares.take(alloc, &self.shards, many);
        self.give(kept);
        match given {
            Ok(given) => Ok(given),
            Err(SparesError::Few) => Err(MoreError::Count),
            Err(SparesError::NoMemory) => Err(MoreError::NoMemory),
        }
    }
}
