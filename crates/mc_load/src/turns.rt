//! What came of a load whose writers take turns.
ghost use Rattle.std.specs.Prelude.{◌≡◌, ◌+◌, ◌^◌, ◌<◌};
ghost use Rattle.mc_load.specs.Turns.{answered_of, held_of};

use mc_cache::DeskError;

/// What came of a writer's tries.
#[derive(Clone, Copy, Debug, PartialEq, Eq)]
pub struct Turns {
    /// Tries that didn't win the turn. None of them was repeated.
    pub held: u64,
    /// Calls that had the turn, refused ones among them.
    pub answered: u64,
}

impl Turns {
    pub(crate) fn none() -> Turns
        ensures { (result.held ≡ 0) × (result.answered ≡ 0) }
    {
        Turns {
            held: 0,
            answered: 0,
        }
    }

    /// Counts one try.
    pub(crate) fn count<T, E>(&mut self, told: &Result<T, DeskError<E>>)
        requires { self.old.held + self.old.answered + 1 < 2 ^ 64 }
        ensures held { self.new.held ≡ self.old.held + held_of told.now }
        ensures answered { self.new.answered ≡ self.old.answered + answered_of told.now }
    {
        match told {
            Err(DeskError::Held) => self.held += 1,
            Ok(_) | Err(DeskError::Call(_)) => self.answered += 1,
        }
    }

    /// Adds those of another writer.
    pub(crate) fn add(&mut self, others: Turns)
        requires { self.old.held + self.old.answered + (others.held + others.answered) < 2 ^ 64 }
        ensures held { self.new.held ≡ self.old.held + others.held }
        ensures answered { self.new.answered ≡ self.old.answered + others.answered }
    {
        self.held += others.held;
        self.answered += others.answered;
    }
}

/// The most writers of a load in turns.
pub const MOST_WRITERS: usize = 8;

/// What came of a load in which every call was made, of writers that take turns at a desk, or at the desks of shards.
///
/// Tests show that `wrong` is 0. No clause does.
#[derive(Clone, Copy, Debug, PartialEq, Eq)]
pub struct DeskReport {
    /// Of all readers together.
    pub lookups: u64,
    pub found: u64,
    pub absent: u64,
    pub busy: u64,
    /// Tries of all writers together.
    pub calls: u64,
    pub held: u64,
    pub answered: u64,
    /// Changes of the map that the writers' answers reported.
    pub changes: u64,
    /// Answers that aren't what the map held after the changes that they name. Moments of a shard that have no change or several, or that a
    /// lookup at the end doesn't see.
    pub wrong: u64,
}

/// The report of a load of shards.
pub type TurnsReport = DeskReport;

/// The report of the desk, and what came of each writer's tries.
#[derive(Clone, Copy)]
pub struct TurnsRun {
    pub report: DeskReport,
    pub turns: [Turns; MOST_WRITERS],
}
