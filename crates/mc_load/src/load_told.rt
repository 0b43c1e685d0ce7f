//! What `mcload` writes, and what it reports on standard error.
ghost use Rattle.std.specs.Prelude.{◌≡◌, ◌+◌, ◌==◌, ◌++◌, Some, codes};
ghost use Rattle.mc_load.specs.LoadPrograms.{load_text, report_text, turns_text};
ghost use Rattle.mc_load.specs.Told.{text_of};

use crate::error::LoadError;
use crate::report::Report;
use crate::turns::DeskReport;
use mc_cache::OpenError;
use mc_options::Refusal;
use std::fmt;
use std::fmt::Display;

/// Whether the answers add up to the lookups.
fn adds_up(found: u64, absent: u64, busy: u64, lookups: u64) -> bool
    ensures { result ≡ (found + absent + busy == lookups) }
{
    u128::from(found) + u128::from(absent) + u128::from(busy) == u128::from(lookups)
}

/// The four lines of a report.
#[derive(Clone, Copy)]
pub(crate) struct Lines {
    lookups: u64,
    writes: u64,
    /// Whether the answers add up.
    adds_up: bool,
    wrong: u64,
}

impl Lines {
    /// Of a load with one writer.
    pub(crate) fn of(report: Report) -> Lines
        ensures { text_of result ≡ report_text report }
    {
        Lines {
            lookups: report.lookups,
            writes: report.writes,
            adds_up: adds_up(report.found, report.absent, report.busy, report.lookups),
            wrong: report.wrong,
        }
    }

    /// Of a load whose writers take turns.
    pub(crate) fn of_turns(report: DeskReport) -> Lines
        ensures { text_of result ≡ turns_text report }
    {
        let are_answers = adds_up(report.found, report.absent, report.busy, report.lookups);
        let are_tries = adds_up(report.held, report.answered, 0, report.calls);
        Lines {
            lookups: report.lookups,
            writes: report.calls,
            adds_up: are_answers && are_tries,
            wrong: report.wrong,
        }
    }
}

impl Display for Lines {
    ghost output = { λ lines. Some (text_of lines) };

    fn fmt<W: fmt::Write>(&self, f: &mut fmt::Formatter<W>) -> fmt::Result {
        let sum = if self.adds_up { "ok" } else { "bad" };
        write!(
            f,
            "lookups {}\nwrites {}\nsum {}\nwrong {}",
            self.lookups, self.writes, sum, self.wrong
        )
    }
}

/// A load that is refused.
#[derive(Clone, Copy)]
pub(crate) struct LoadRefusal(pub(crate) LoadError);

impl Display for LoadRefusal {
    ghost output = { λ refusal. Some (codes "refused: " ++ load_text refusal.0) };

    fn fmt<W: fmt::Write>(&self, f: &mut fmt::Formatter<W>) -> fmt::Result {
        match self.0 {
            LoadError::Open(OpenError::Shape(why)) => write!(f, "{}", Refusal(why)),
            LoadError::Open(OpenError::Readers) => {
                write!(f, "refused: readers must be from 1 to 1024")
            }
            LoadError::Open(OpenError::NoMemory) | LoadError::NoMemory => {
                write!(f, "refused: no memory")
            }
            LoadError::Writers => write!(f, "refused: writers must be from 1 to 8"),
            LoadError::Shards => {
                write!(f, "refused: shards must be a power of two from 1 to 256")
            }
            LoadError::Keys => write!(f, "refused: keys must be from 1 to 4294967296"),
            LoadError::Gate { .. } => write!(f, "refused: gate"),
        }
    }
}
