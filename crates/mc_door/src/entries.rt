//! Entries as the words that cross the border.
ghost use Rattle.std.specs.Prelude.{◌≡◌, ◌+◌, ◌*◌, IfOk, length};
ghost use Rattle.mc_door.specs.Loading.{entries_in};

use crate::words::array_of;
use std::alloc::{AllocError, Global};

/// Reads `count` entries, which are stored one after the other.
pub(crate) fn entries_of<const V: usize>(
    alloc: Global,
    count: usize,
    words: &[u64],
) -> Result<Vec<(u64, [u64; V])>, AllocError>
    requires { length words.now ≡ count * (1 + V) }
    ensures { IfOk result (λ entries. entries.items ≡ entries_in V count words.now) }
{
    let mut entries = Vec::with_capacity(alloc, count)?;
    for index in 0..count {
        let start = index * (1 + V) + 1;
        let value = array_of::<V>(&words[start..start + V]);
        entries.push((words[start - 1], value))?;
    }
    Ok(entries)
}
