//! A value as the words that cross the border.
ghost use Rattle.std.specs.Prelude.{◌≡◌, length};

/// The words as an array.
#[inline(always)]
pub(crate) fn array_of<const V: usize>(words: &[u64]) -> [u64; V]
    requires { length words.now ≡ V }
    ensures { result ≡ words.now }
{
    let mut value = [0; V];
    value.copy_from_slice(words);
    value
}
