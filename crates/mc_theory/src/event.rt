//! Events of one writer and its readers, what each gives, and why one is refused.
ghost use Rattle.std.specs.Prelude.{◌≡◌};
ghost use Rattle.mc_theory.specs.Traces.{given_of};

use crate::act::Act;
use mc_words::Reply;
use thiserror::Error;

/// One atomic step of a world.
#[derive(Clone, Copy, Debug, PartialEq, Eq)]
pub enum Event {
    /// The writer makes an act.
    Write(Act),
    /// A reader begins a lookup of a key.
    Begin(u32, u64),
    /// A reader makes its next access.
    Read(u32),
}

/// A lookup that has ended. Events are numbered from 0.
#[derive(Clone, Copy, Debug, PartialEq, Eq)]
pub struct Done<const V: usize> {
    pub reader: u32,
    pub key: u64,
    pub reply: Reply<V>,
    /// The number of the lookup's first `Read`.
    pub first: u64,
    /// The number of its last.
    pub last: u64,
}

/// What an event gave.
#[derive(Clone, Copy, Debug, PartialEq, Eq)]
pub enum Stepped<const V: usize> {
    Nothing,
    /// The word that an access read, or the bit that the hand read.
    Word(u64),
    /// The access ended its lookup.
    Done(Done<V>),
}

/// Why an event is refused.
#[derive(Clone, Copy, Debug, PartialEq, Eq, Error)]
pub enum Unlawful {
    #[error("not lawful")]
    NotLawful,
    #[error("no such reader")]
    NoReader,
    #[error("still running")]
    StillRunning,
    #[error("limit")]
    Limit,
    #[error("no memory")]
    NoMemory,
}

/// What an act gives: the bit, if the hand read it.
pub fn given_by<const V: usize>(act: Act, bit: u64) -> Stepped<V>
    ensures { result ≡ given_of {V = V} bit act }
{
    match act {
        Act::Hand(_) => Stepped::Word(bit),
        _ => Stepped::Nothing,
    }
}
