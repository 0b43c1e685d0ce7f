//! The writes of one key, as values.
ghost use Rattle.std.specs.Prelude.{◌≡◌};
ghost use Rattle.mc_door.specs.Swaps.{swap_words};
ghost use Rattle.mc_door.specs.Writes.{words_in};

/// A write of one key. Its value is kept beside it.
#[derive(Clone, Copy)]
pub enum Write {
    Put,
    /// A put that tries for the turn at most this many times, and at least once. A holder needs none.
    PutWithin(u32),
    /// A put of a key whose last put was at this moment.
    PutIf(u64),
    PutIfAbsent,
    /// A put into a shard that is to hold at most so many keys.
    PutBounded(u32),
    /// The same, if the key is absent.
    PutIfAbsentBounded(u32),
    /// A removal. It has no value.
    Remove,
}

impl Write {
    /// How many words its value has; as many as those of the cache if it has none.
    #[inline(always)]
    pub(crate) fn words(self, value: &[u64], words: usize) -> usize
        ensures { result ≡ words_in words self value.now }
    {
        match self {
            Write::Remove => words,
            _ => value.len(),
        }
    }
}

/// A write of one key that also returns the entry which gives way. Its value is kept beside it.
#[derive(Clone, Copy)]
pub enum Swap {
    Put,
    /// A put of a key whose last put was at this moment.
    PutIf(u64),
    PutIfAbsent,
    /// A put into a shard that is to hold at most so many keys.
    PutBounded(u32),
    /// The same, if the key is absent.
    PutIfAbsentBounded(u32),
    /// A removal. It has no value.
    Remove,
    /// A removal of a key whose last put was at this moment. It has no value.
    RemoveIf(u64),
    /// An eviction in the shard of the key. It has no value.
    Evict,
    /// A look at the entry in this item, in the shard of the key. It has no value, and changes nothing.
    Show(u32),
}

impl Swap {
    /// How many words its value has; as many as those of the cache if it has none.
    #[inline(always)]
    pub(crate) fn words(self, value: &[u64], words: usize) -> usize
        ensures { result ≡ swap_words words self value.now }
    {
        match self {
            Swap::Remove | Swap::RemoveIf(_) | Swap::Evict | Swap::Show(_) => words,
            _ => value.len(),
        }
    }
}
