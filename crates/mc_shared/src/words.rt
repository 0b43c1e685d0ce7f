//! The words of a table that no thread shares any more.
ghost use Rattle.std.specs.Prelude.{◌≡◌, ◌<◌, length, slice_index};

use atomic_table::Closed;
use std::alloc::Global;
use std::marker::Model;

/// The words of a table that was closed.
pub struct Words {
    pub(crate) closed: Closed<(), Global>,
}

impl Model for Words {
    ghost use Rattle.std.specs.Prelude.{◌≡◌, ℕ, List, length};
    ghost use Rattle.std.specs.Slots.{slots_items, slots_len, IsFull};

    ghost Value = { List ℕ };

    ghost view = { λ w. slots_items w.closed.words };

    ghost invariant = { λ w. IsFull w.closed.words × (slots_len w.closed.words ≡ length (slots_items w.closed.words)) × (slots_len w.closed.slots ≡ 0) };
}

impl Words {
    /// The word at a place. Condition: `n` is below the number of words.
    pub fn word(&self, n: usize) -> u64
        requires { n < length self.now }
        ensures { result ≡ slice_index self.now n }
    {
        self.closed.word(n)
    }
}

impl Drop for Words {
    fn drop(self) {
        let Words { closed } = self;
        closed.free();
    }
}
