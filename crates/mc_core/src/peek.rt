//! A world is read as its table, without the recency words.
use crate::world::World;
use mc_theory::Peek;

/// The words of a world are those of its table, without the recency words.
impl<const V: usize> Peek for World<V> {
    ghost words = { λ w. w.state.words };

    fn word(&mut self, n: usize) -> u64 {
        self.reached();
        World::word(self, n)
    }
}

/// A world that is only looked at stays as it is.
impl<'a, const V: usize> Peek for &'a World<V> {
    ghost words = { λ w. w.now.state.words };

    fn word(&mut self, n: usize) -> u64 {
        self.reached();
        World::word(*self, n)
    }
}
