//! What a put keeps that moves several keys.
ghost use Rattle.std.specs.Prelude.{◌≡◌, IfOk};
ghost use Rattle.mc_words.specs.Checks.{shape_of};

use crate::decision::Move;
use arrayvec::ArrayVec;
use mc_search::{Finder, Path};
use mc_words::{Checked, NoMemory, Place};
use std::alloc::Global;

/// The search for paths of several moves, and the last path that it found.
#[derive(Drop)]
pub struct Far {
    pub(crate) finder: Finder,
    /// The path of the last put that needed more than one move.
    pub(crate) path: Path,
    /// The moves of the last path.
    pub(crate) moves: ArrayVec<Move, 8>,
}

impl Far {
    /// That of a new table, which has found no path.
    pub fn new(alloc: Global, checked: &Checked) -> Result<Far, NoMemory>
        ensures finder { IfOk result (λ far. far.finder ≡ shape_of checked.now) }
    {
        let finder = Finder::new(alloc, checked)?;
        Ok(Far {
            finder,
            path: Path::direct(Place::default()),
            moves: ArrayVec::new(),
        })
    }
}
