//! The shape that tests start from.
use mc_words::{Checked, Mix, Shape, ShapeError};

/// A shape of `buckets` buckets, `items` items and this depth, with one stripe, two tries, the highest limit and no mixing.
pub(crate) fn shape(buckets: u32, items: u32, depth: u8) -> Shape {
    Shape {
        buckets,
        items,
        stripes: 1,
        depth,
        tries: 2,
        limit: 1 << 62,
        mix: Mix::Plain,
    }
}

/// That shape, checked.
pub(crate) fn checked(buckets: u32, items: u32, depth: u8) -> Result<Checked, ShapeError> {
    shape(buckets, items, depth).check()
}
