//! A put of a key that is there.
ghost use Rattle.std.specs.Prelude.{◌≡◌, ◌+◌, ◌*◌, [], ◌∷◌, IsSome, MatchResult, Some};
ghost use Rattle.mc_cache.specs.Failing.{IsSpent, version_changes};
ghost use Rattle.mc_cache.specs.Plain.{history, map_value, moment_of};

use mc_cache::{Cache, Put, PutError, Writer};

/// Puts 70 under a key that is there. It then holds 70, or the limit on version changes is near: nothing else makes an overwrite fail.
pub fn overwrite(cache: &Cache<1>, writer: &mut Writer<1>, key: u64) -> Result<Put, PutError>
    requires of { writer.old.of ≡ cache.now }
    requires there { IsSome (map_value (history 1 writer.old) key) }
    ensures { MatchResult result
        (λ told. map_value (history 1 writer.new) key ≡ Some (70 ∷ moment_of told ∷ []))
        (λ why. IsSpent cache.now.layout.shape (history 1 writer.new) (version_changes 1 writer.new) (2 * (cache.now.layout.shape.depth + 2))) }
{
    writer.put(cache, key, [70])
}
