//! The last change of a key before a moment.
ghost use Rattle.std.specs.Prelude.{◌≡◌, ◌≤◌, ◌<◌, length, IfSome};
ghost use Rattle.std.specs.Bool.{Decides};
ghost use Rattle.mc_check.specs.Changes.{key_in};
ghost use Rattle.mc_check.specs.Inside.Last.{IsLast, IsStampOf, value_after};

use mc_words::Change;

/// The key that is changed.
pub fn key_of<const V: usize>(change: &Change<V>) -> u64
    ensures { result ≡ key_in change.now }
{
    match *change {
        Change::Put(key, _) | Change::Remove(key) | Change::Evict(key) => key,
    }
}

/// What the map holds of a key after the last change of the key.
pub(crate) fn value_of<const V: usize>(
    history: &[Change<V>],
    last: Option<usize>,
) -> Option<[u64; V]>
    requires { IfSome last (λ i. i < length history.now) }
    ensures { result ≡ value_after history.now last }
{
    match last {
        None => None,
        Some(n) => match history[n] {
            Change::Put(_, value) => Some(value),
            Change::Remove(_) | Change::Evict(_) => None,
        },
    }
}

/// Whether the key's last change is the one of this number, counted from 1. It is the stamp of a key that the map holds.
pub(crate) fn is_stamp(last: Option<usize>, since: u64) -> bool
    ensures { Decides result (IsStampOf last since) }
{
    match last {
        None => false,
        Some(n) => since > 0 && since - 1 == n as u64,
    }
}

/// The last change of the key among the first `moment` changes. It searches from there backwards.
pub(crate) fn last_change<const V: usize>(
    history: &[Change<V>],
    key: u64,
    moment: usize,
) -> Option<usize>
    requires { moment ≤ length history.now }
    ensures { IsLast history.now key moment result }
{
    let mut before = moment;
    while before > 0 {
        before -= 1;
        if key_of(&history[before]) == key {
            return Some(before);
        }
    }
    None
}
