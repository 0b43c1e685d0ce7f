//! The writer's acts, each one atomic step, and the deeds that they make.
use mc_words::Place;

/// What the writer does while the version of its key's stripe is odd.
#[derive(Clone, Copy, Debug, PartialEq, Eq)]
pub enum Deed {
    /// Puts a key that isn't there, at a free item.
    Fill,
    /// Puts a new value of a key that is there.
    Renew,
    /// Takes a key out because a caller asked for it.
    Remove,
    /// Takes a key out to make room for another.
    Evict,
    /// Moves a key to its other bucket.
    Move,
}

/// One atomic step of the writer.
#[derive(Clone, Copy, Debug, Default, PartialEq, Eq)]
pub enum Act {
    /// Makes the version of the key's stripe odd.
    Open(u64, Deed),
    /// Writes the word of a slot.
    Slot(Place, u64),
    /// Writes word 0, the key, or a later word of an item.
    Item(u32, u8, u64),
    /// Counts the change of the deed.
    Moment,
    /// Makes the version even again.
    #[default]
    Close,
    /// Clears the recency bit of the item at the hand, and reads what it was.
    Hand(u32),
    /// Sets the recency bit of an item.
    Mark(u32),
}
