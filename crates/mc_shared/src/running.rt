//! The version of the deed that runs.

/// Where the version of the running deed's key is, and its value now. The caller keeps it from the open to the close of a deed. No seat
/// does, so nothing but the deed's own words is stored in between.
#[derive(Clone, Copy)]
pub struct Running {
    pub place: usize,
    pub count: u64,
}
