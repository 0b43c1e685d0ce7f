//! Watchers of a replay.
use mc_core::{Event, Stepped, World};

/// Sees each world and each event of a replay. It changes nothing of the replay, and no clause says what it does with them.
pub trait Watch<const V: usize> {
    /// A world was opened, in which no event was made yet.
    fn opened(&mut self, world: &World<V>);

    /// An event was made in the world that was opened last, and gave this.
    fn saw(&mut self, event: Event, given: &Stepped<V>);

    /// The script is over, and this is the world that it leaves.
    fn ended(&mut self, world: &World<V>);
}

/// Nobody watches.
#[derive(Drop)]
pub(crate) struct Nobody;

impl<const V: usize> Watch<V> for Nobody {
    fn opened(&mut self, _: &World<V>) {}

    fn saw(&mut self, _: Event, _: &Stepped<V>) {}

    fn ended(&mut self, _: &World<V>) {}
}
