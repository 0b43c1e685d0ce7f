//! How many readers there may be.

/// The most readers of a cache, and of a world.
pub const MOST_READERS: u32 = 1024;
