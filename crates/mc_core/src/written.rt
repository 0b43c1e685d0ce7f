//! The words that the writer wrote of an item after its key.
ghost use Rattle.std.specs.Prelude.{◌≡◌, ◌≤◌, length};

/// As many words as an item keeps after its key: a value, and then its stamp. Those that weren't written yet don't count.
#[derive(Clone, Copy)]
pub(crate) struct Written<const V: usize> {
    value: [u64; V],
    stamp: u64,
    ghost some_words: { 1 ≤ V },
    ghost most_words: { V ≤ 8 },
    ghost whole: { length value ≡ V },
}

impl<const V: usize> Written<V> {
    ghost use Rattle.std.specs.Prelude.{◌+◌, ◌<◌, ◌++◌, [], ◌∷◌, take};
    ghost use Rattle.mc_words.specs.History.{value_of};
    ghost use Rattle.mc_words.specs.Places.{IsWidth, payload};
    ghost use Rattle.mc_core.specs.Inside.Writers.{payload_in};

    /// None yet.
    pub(crate) fn none() -> Written<V>
        requires { IsWidth V }
    {
        Written {
            value: [0; V],
            stamp: 0,
        }
    }

    /// The value in them.
    pub(crate) fn value(self) -> [u64; V]
        ensures { result ≡ value_of V (payload_in {V = V} self.entry) }
    {
        self.value
    }

    /// Keeps one word more, after `count`.
    pub(crate) fn keep(&mut self, count: u8, word: u64)
        requires { count < payload V }
        ensures { take (count + 1) (payload_in {V = V} self.new) ≡ take count (payload_in {V = V} self.old) ++ word ∷ [] }
    {
        let place = usize::from(count);
        if place < V {
            self.value[place] = word;
        } else {
            self.stamp = word;
        }
    }
}
