//! The error of a call that ran out of memory.
use std::alloc::AllocError;
use thiserror::Error;

/// There was no memory for what was to be made.
#[derive(Clone, Copy, Debug, PartialEq, Eq, Error)]
#[error("no memory")]
pub struct NoMemory;

impl From<AllocError> for NoMemory {
    fn from(_: AllocError) -> NoMemory {
        NoMemory
    }
}
