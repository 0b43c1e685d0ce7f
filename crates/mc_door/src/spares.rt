//! How many handles a cache can have.
ghost use Rattle.std.specs.Prelude.{◌≡◌, ◌≤◌};
ghost use Rattle.mc_words.specs.Readers.{HasReaders};
ghost use Rattle.mc_door.specs.Inside.Spared.{readers_for};

use mc_words::MOST_READERS;

// How many more than requested.
const SPARES: u32 = 64;

/// How many readers a shard is opened with when `asked` handles are requested.
pub(crate) fn readers_for(asked: u32) -> u32
    requires { HasReaders asked }
    ensures is { result ≡ readers_for asked }
    ensures enough { (asked ≤ result) × HasReaders result }
{
    (asked + SPARES).min(MOST_READERS)
}
