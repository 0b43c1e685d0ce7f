//! The lookup that a reader of a world runs.
use mc_lookup::Lookup;

/// The lookup that a reader runs.
#[derive(Clone, Copy)]
pub(crate) struct Reader<const V: usize> {
    pub(crate) lookup: Lookup<V>,
    /// The number of the event that made its first reading.
    pub(crate) first: Option<u64>,
}
