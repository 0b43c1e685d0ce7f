//! The changes of the map that the writer's calls make, written down.
ghost use Rattle.std.specs.Prelude.{◌≡◌, ◌+◌, ◌≤◌, ◌<◌, [], ◌∷◌, ◌++◌, vec_len, vec_capacity};
ghost use Rattle.mc_load.specs.Inside.Dates.{put_at, removal_at};
ghost use Rattle.mc_load.specs.Inside.Journals.{put_changes, remove_changes};

use mc_cache::{Change, Put, PutError, Remove, Spent};

/// Writes one change down. There is room for it.
fn note<const V: usize>(journal: &mut Vec<Change<V>>, change: Change<V>)
    requires { vec_len journal.old < vec_capacity journal.old }
    ensures items { journal.new.items ≡ journal.old.items ++ change.entry ∷ [] }
    ensures len { vec_len journal.new ≡ vec_len journal.old + 1 }
    ensures capacity { vec_capacity journal.old ≤ vec_capacity journal.new }
{
    let _ = journal.push(change);
}

/// Writes down what a put changed, and returns its moment.
pub(crate) fn note_put<const V: usize>(
    journal: &mut Vec<Change<V>>,
    key: u64,
    value: [u64; V],
    told: Result<Put, PutError>,
) -> Option<u64>
    requires { vec_len journal.old + 2 ≤ vec_capacity journal.old }
    ensures at { result ≡ put_at told }
    ensures items { journal.new.items ≡ journal.old.items ++ put_changes key value.entry told }
    ensures len { vec_len journal.new ≤ vec_len journal.old + 2 }
    ensures capacity { vec_capacity journal.old ≤ vec_capacity journal.new }
{
    match told {
        Ok(Put::Stored { at, evicted, .. }) => {
            if let Some(other) = evicted {
                note(journal, Change::Evict(other));
            }
            note(journal, Change::Put(key, value));
            Some(at)
        }
        Ok(Put::Renewed { at }) => {
            note(journal, Change::Put(key, value));
            Some(at)
        }
        Err(_) => None,
    }
}

/// Writes down what a removal changed, and returns its moment.
pub(crate) fn note_removal<const V: usize>(
    journal: &mut Vec<Change<V>>,
    key: u64,
    told: Result<Remove, Spent>,
) -> Option<u64>
    requires { vec_len journal.old + 1 ≤ vec_capacity journal.old }
    ensures at { result ≡ removal_at told }
    ensures items { journal.new.items ≡ journal.old.items ++ remove_changes key told }
    ensures len { vec_len journal.new ≤ vec_len journal.old + 1 }
    ensures capacity { vec_capacity journal.old ≤ vec_capacity journal.new }
{
    match told {
        Ok(Remove::Removed { at }) => {
            note(journal, Change::Remove(key));
            Some(at)
        }
        Ok(Remove::NotThere { at }) => Some(at),
        Err(_) => None,
    }
}
