//! An entry that was listed, and is overwritten on the condition of its stamp.
ghost use Rattle.std.specs.Prelude.{◌≡◌};
ghost use Rattle.mc_cache.specs.Plain.{seen};
ghost use Rattle.uses.specs.Owned.{HasEntry};
ghost use Rattle.uses.specs.Touched.{SaysTouched};

use mc_cache::{Cache, Desk, DeskError, Entry, IfError, Reader, laws};

/// Tries to overwrite an entry that the cache held when the pass last met the writer, as `Writer::stamped_entries` lists it. If the answer is
/// `NotThere` or `Changed`, some thread has put or removed the key since, or the cache has evicted it.
pub fn overwrite_listed(
    cache: &Cache<1>,
    desk: &Desk<1>,
    pass: &mut Reader<1>,
    entry: &Entry<1>,
    value: u64,
) -> Result<u64, DeskError<IfError>>
    requires of { (desk.now ≡ cache.now) × (pass.old.of ≡ cache.now) }
    requires listed { HasEntry (seen 1 pass.old) entry.now }
    ensures { SaysTouched (seen 1 pass.old) (seen 1 pass.new) entry.now.key result }
{
    laws::history_laws::<1>();
    desk.try_put_if(cache, pass, entry.key, entry.since, [value])
}
