//! The keys, and how they are drawn.

/// The finisher of splitmix64.
fn scatter(bits: u64) -> u64 {
    let once = (bits ^ (bits >> 30)).wrapping_mul(0xbf58_476d_1ce4_e5b9);
    let twice = (once ^ (once >> 27)).wrapping_mul(0x94d0_49bb_1331_11eb);
    twice ^ (twice >> 31)
}

/// The key of this number. Different numbers have different keys.
#[inline(always)]
pub(crate) fn key_of(number: u64) -> u64 {
    scatter(number.wrapping_add(0x51ed_270b))
}

/// Draws numbers by splitmix64.
#[derive(Clone, Copy)]
pub(crate) struct Draw(u64);

impl Draw {
    pub(crate) fn new(seed: u64) -> Draw {
        Draw(seed.wrapping_mul(0x9e37_79b9_7f4a_7c15) ^ 0x0123_4567)
    }

    /// A number from 0 to `most - 1`.
    #[inline(always)]
    pub(crate) fn below(&mut self, most: u32) -> u64 {
        self.0 = self.0.wrapping_add(0x9e37_79b9_7f4a_7c15);
        (scatter(self.0) >> 32).wrapping_mul(u64::from(most)) >> 32
    }
}
