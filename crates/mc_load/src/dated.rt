//! The changes that a turn's answer reports, written down, each with its moment.
ghost use Rattle.std.specs.Prelude.{◌≡◌, ◌+◌, ◌≤◌, ◌++◌, IfOk, vec_len, vec_capacity};
ghost use Rattle.mc_load.specs.Dates.{put_dated, removal_dated};
ghost use Rattle.mc_load.specs.Inside.Dates.{IsAfterEviction, put_at, removal_at};

use mc_cache::{Change, DeskError, Put, PutError, Remove, Spent};

/// A change of the map, and the moment after it.
#[derive(Clone, Copy)]
pub(crate) struct Dated<const V: usize> {
    pub(crate) at: u64,
    pub(crate) change: Change<V>,
}

/// Writes down what a put changed, and returns its moment. A key is evicted at the moment before it.
pub(crate) fn note_put_at<const V: usize>(
    journal: &mut Vec<Dated<V>>,
    key: u64,
    value: [u64; V],
    told: Result<Put, DeskError<PutError>>,
) -> Option<u64>
    requires room { vec_len journal.old + 2 ≤ vec_capacity journal.old }
    requires moment { IfOk told IsAfterEviction }
    ensures at { result ≡ put_at told }
    ensures items { journal.new.items ≡ journal.old.items ++ put_dated key value.entry told }
    ensures len { vec_len journal.new ≤ vec_len journal.old + 2 }
    ensures capacity { vec_capacity journal.old ≤ vec_capacity journal.new }
{
    let (at, evicted) = match told {
        Ok(Put::Stored { at, evicted, .. }) => (at, evicted),
        Ok(Put::Renewed { at }) => (at, None),
        Err(_) => return None,
    };
    if let Some(other) = evicted {
        let change = Change::Evict(other);
        journal.push_reserved(Dated { at: at - 1, change });
    }
    let change = Change::Put(key, value);
    journal.push_reserved(Dated { at, change });
    Some(at)
}

/// Writes down what a removal changed, and returns its moment.
pub(crate) fn note_removal_at<const V: usize>(
    journal: &mut Vec<Dated<V>>,
    key: u64,
    told: Result<Remove, DeskError<Spent>>,
) -> Option<u64>
    requires room { vec_len journal.old + 1 ≤ vec_capacity journal.old }
    ensures at { result ≡ removal_at told }
    ensures items { journal.new.items ≡ journal.old.items ++ removal_dated key told }
    ensures len { vec_len journal.new ≤ vec_len journal.old + 1 }
    ensures capacity { vec_capacity journal.old ≤ vec_capacity journal.new }
{
    match told {
        Ok(Remove::Removed { at }) => {
            let change = Change::Remove(key);
            journal.push_reserved(Dated { at, change });
            Some(at)
        }
        Ok(Remove::NotThere { at }) => Some(at),
        Err(_) => None,
    }
}
