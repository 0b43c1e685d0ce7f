//! What is asked of a load.
use mc_cache::Shape;

/// What a load is to do.
#[derive(Clone, Copy)]
pub struct Load {
    pub shape: Shape,
    /// From 1 to 1024.
    pub readers: u32,
    /// Of each reader.
    pub lookups: u32,
    /// Calls of each writer, of which about one in eight is a removal.
    pub writes: u32,
    /// Keys are drawn from 0 up to this number, which is from 1 to 2^32.
    pub keys: u64,
    pub seed: u64,
}
