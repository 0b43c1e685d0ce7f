//! What came of a writer's calls, one after the other, and the history that they give.
use mc_cache::{Change, Put, PutError, Remove, Spent};
use std::alloc::AllocError;

/// What came of a call.
#[derive(Clone, Copy)]
pub enum Entry {
    Refused,
    /// Nothing was changed. It is so at this moment.
    Kept { at: u64 },
    /// The change was made, after an eviction or without one. `at` is the moment after it.
    Made { evicted: Option<u64>, at: u64 },
}

impl Entry {
    pub fn of_put(told: Result<Put, PutError>) -> Entry {
        match told {
            Ok(Put::Stored { at, evicted, .. }) => Entry::Made { evicted, at },
            Ok(Put::Renewed { at }) => Entry::Made { evicted: None, at },
            Err(_) => Entry::Refused,
        }
    }

    pub fn of_remove(told: Result<Remove, Spent>) -> Entry {
        match told {
            Ok(Remove::Removed { at }) => Entry::Made { evicted: None, at },
            Ok(Remove::NotThere { at }) => Entry::Kept { at },
            Err(_) => Entry::Refused,
        }
    }

    /// Adds what the call changed to the history. Whether its moment is the length of the history.
    pub fn add_to(
        self,
        history: &mut Vec<Change<1>>,
        asked: Change<1>,
    ) -> Result<bool, AllocError> {
        match self {
            Entry::Refused => Ok(true),
            Entry::Kept { at } => Ok(at == history.len() as u64),
            Entry::Made { evicted, at } => {
                if let Some(key) = evicted {
                    history.push(Change::Evict(key))?;
                }
                history.push(asked)?;
                Ok(at == history.len() as u64)
            }
        }
    }
}
