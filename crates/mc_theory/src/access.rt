//! A reader's access: one atomic step of a lookup.
use mc_words::Place;

/// One atomic step of a reader.
#[derive(Clone, Copy, Debug, PartialEq, Eq)]
pub enum Access {
    /// Reads the version of a stripe.
    Version(u32),
    /// Reads the word of a slot.
    Slot(Place),
    /// Reads the key of an item.
    Key(u32),
    /// Reads a word of an item's value. The words of a value are counted from 1.
    Value(u32, u8),
    /// Reads the stamp of an item: the moment of its last put.
    Stamp(u32),
    /// Reads the moment.
    Moment,
    /// Sets the recency bit of an item.
    Mark(u32),
}
