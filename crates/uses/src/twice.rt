//! Two lookups of one reader.
ghost use Rattle.std.specs.Prelude.{◌≡◌};
ghost use Rattle.uses.specs.Order.{AreInOrder};

use mc_cache::{Cache, Reader, Reply};

/// Looks two keys up. The second reply has no earlier moment than the first, whatever the writer does meanwhile.
pub fn get_twice(
    cache: &Cache<1>,
    reader: &mut Reader<1>,
    first: u64,
    second: u64,
) -> (Reply<1>, Reply<1>)
    requires of { reader.old.of ≡ cache.now }
    ensures { AreInOrder result.0 result.1 }
{
    let one = reader.get(cache, first);
    let two = reader.get(cache, second);
    (one, two)
}
