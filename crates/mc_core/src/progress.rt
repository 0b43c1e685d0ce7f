//! What the writer of a world has done of the deed that runs.
use mc_words::Place;

/// What the writer has done of a deed. The words that it wrote after a key are kept beside it.
#[derive(Clone, Copy)]
pub(crate) enum Progress {
    Quiet,
    Filling(u64),
    /// The key and this many words after it were written, of this item.
    Keyed(u64, u32, u8),
    Placed(u64, u32),
    /// This many words after the key were written.
    Renewing(u64, u8),
    /// A removal, or an eviction.
    Removing(u64, bool),
    Removed(u64, bool),
    Moving(u64),
    /// The new place of the key.
    Moved(u64, Place),
    Closing(u64),
}
