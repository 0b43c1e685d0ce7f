//! Reading the words of a table, wherever they are stored.
ghost use Rattle.std.specs.Prelude.{ℕ, ◌≡◌, ◌<◌, List, length, slice_index};

/// The words of a table, read one at a time: the moment, the versions, the slots and the items.
pub trait Peek {
    ghost words: { Self → List ℕ };

    /// The word at a place.
    fn word(&mut self, n: usize) -> u64
        requires { n < length (words self.old) }
        ensures value { result ≡ slice_index (words self.old) n }
        ensures kept { self.new ≡ self.old };
}
