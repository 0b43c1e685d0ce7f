//! A reader's answer.
ghost use Rattle.std.specs.Prelude.{◌≡◌, ◌≤◌, length};
ghost use Rattle.std.specs.Bool.{Decides};
ghost use Rattle.mc_words.specs.History.{IsTrueAnswer};
ghost use Rattle.mc_check.specs.Inside.Last.{IsLast, moment_in};

use crate::last::{is_stamp, value_of};
use mc_words::{Change, Reply};

/// A reader's answer for a key.
#[derive(Clone, Copy)]
pub struct Record<const V: usize> {
    /// Counted from 0.
    pub reader: u32,
    pub key: u64,
    pub reply: Reply<V>,
}

/// How many changes of the map the reply names. `Busy` names none.
pub(crate) fn moment_of<const V: usize>(reply: &Reply<V>) -> u64
    ensures { result ≡ moment_in reply.now }
{
    match *reply {
        Reply::Found { at, .. } | Reply::Absent { at } => at,
        Reply::Busy => 0,
    }
}

/// Whether the answer is true, if `last` is the last change of the key before the moment of the answer.
pub(crate) fn is_true<const V: usize>(
    history: &[Change<V>],
    told: &Record<V>,
    last: Option<usize>,
) -> bool
    requires moment { moment_in told.now.reply ≤ length history.now }
    requires last { IsLast history.now told.now.key (moment_in told.now.reply) last }
    ensures { Decides result (IsTrueAnswer history.now told.now.key told.now.reply) }
{
    match told.reply {
        Reply::Found { value, since, .. } => {
            is_stamp(last, since) && value_of(history, last) == Some(value)
        }
        Reply::Absent { .. } => value_of(history, last).is_none(),
        Reply::Busy => true,
    }
}
