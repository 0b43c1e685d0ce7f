//! The place of a slot.
/// A slot of the table: one of the four of a bucket.
#[derive(Clone, Copy, Debug, Default, PartialEq, Eq)]
pub struct Place {
    /// From 0, below the number of buckets.
    pub bucket: u32,
    /// From 0 to 3.
    pub slot: u8,
}
