//! The stages of a lookup.
/// The stage of a lookup: what it reads next.
#[derive(Clone, Copy)]
pub enum Stage {
    /// The version, at the start of a try.
    First,
    /// This one of the eight slots.
    Slot(u8),
    /// The key of the item that the slot before this one names under the key's tag.
    Key(u8, u32),
    /// A word of the value of the key's item, of which this many were read.
    Value(u32, u8),
    /// The stamp of the key's item.
    Stamp(u32),
    /// The moment, and the item at which the key was found.
    Moment(Option<u32>),
    /// The version again. The moment was this.
    Last(Option<u32>, u64),
    /// Nothing: the bit of the item at which the key was found is to be set.
    Mark(u32),
    /// Nothing: the lookup has its reply.
    Over,
}
