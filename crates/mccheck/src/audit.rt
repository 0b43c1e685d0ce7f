//! The check of what logs say.
ghost use Rattle.mc_words.specs.Places.{IsWidth};

use crate::reading::{Dated, Log, Refused, read_all};
use mc_check::Checker;
use mc_words::Change;
use std::alloc::{AllocError, Global};

/// How many changes and answers there were. `wrong`: how many answers are not what the map held after the changes that they name, and of
/// how many changes another one has the place.
#[derive(Clone, Copy)]
pub struct Report {
    pub changes: u64,
    pub answers: u64,
    pub wrong: u64,
}

/// How many sorted changes are not the one of their place: a change before them is missing, or there twice.
fn misplaced<const V: usize>(changes: &[Dated<V>]) -> u64 {
    let mut misplaced = 0u64;
    for n in 0..changes.len() {
        if changes[n].at != n as u64 + 1 {
            misplaced = misplaced.saturating_add(1);
        }
    }
    misplaced
}

fn history_of<const V: usize>(
    alloc: Global,
    changes: &[Dated<V>],
) -> Result<Vec<Change<V>>, AllocError> {
    let mut history = Vec::with_capacity(alloc, changes.len())?;
    for n in 0..changes.len() {
        history.push(changes[n].change)?;
    }
    Ok(history)
}

/// Checks logs of values of `V` words.
pub fn audit<const V: usize>(alloc: Global, texts: &[String]) -> Result<Report, Refused>
    requires { IsWidth V }
{
    let mut log = read_all::<V>(alloc, texts)?;
    log.changes.sort_unstable_by_key(|dated| dated.at);
    let Ok(history) = history_of(alloc, log.changes.as_slice()) else {
        return Err(Refused::NoMemory);
    };
    let checker = Checker::sorted(alloc, history.as_slice());
    let wrong = checker.check(log.answers.as_slice());
    Ok(Report {
        changes: log.changes.len() as u64,
        answers: log.answers.len() as u64,
        wrong: wrong.saturating_add(misplaced(log.changes.as_slice())),
    })
}
