//! The recency bits of a world as they are packed in words.
ghost use Rattle.std.specs.Prelude.{◌≡◌, ◌<◌, ◌^◌, MatchBool, min, slice_index};
ghost use Rattle.mc_core.specs.Inside.Packed.{IsPacked};

/// Whether there is such a bit, and it is set.
fn is_set(bits: &[u64], i: usize) -> bool
    ensures { MatchBool result (min 1 (slice_index bits.now i) ≡ 1) (min 1 (slice_index bits.now i) ≡ 0) }
{
    match bits.get(i) {
        Some(bit) => *bit != 0,
        None => false,
    }
}

/// The recency word of this number.
pub(crate) fn recency_word(bits: &[u64], m: usize) -> u64
    requires { m < 2 ^ 32 }
    ensures { IsPacked bits.now m result }
{
    let mut word = 0u64;
    for k in 0..64u32 {
        if is_set(bits, 64 * m + k as usize) {
            word |= 1u64 << k;
        }
    }
    word
}
