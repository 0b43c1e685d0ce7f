//! What a list of events did.
use mc_theory::{Done, Unlawful};

/// What a list of events did.
#[derive(Drop)]
pub struct Run<const V: usize> {
    /// What the lookups that ended returned, in their order.
    pub done: Vec<Done<V>>,
    /// The index of the first event that was refused, and why it was.
    pub stopped: Option<(usize, Unlawful)>,
}
