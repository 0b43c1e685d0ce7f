//! Objects behind the index: the entry that gives way to a call is returned.
ghost use Rattle.std.specs.Prelude.{◌≡◌, MatchResult};
ghost use Rattle.mc_cache.specs.Plain.{history};
ghost use Rattle.uses.specs.Owned.{LosesNone};

use mc_cache::{Cache, Entry, PutError, Spent, Take, Writer, laws};

/// Puts the number of an object under a key. Each entry of the map stays there or is returned, whether its key was overwritten or evicted,
/// and never both. If the put is refused, the map is as it was.
pub fn put_object(
    cache: &Cache<1>,
    writer: &mut Writer<1>,
    key: u64,
    object: u64,
) -> Result<Option<Entry<1>>, PutError>
    requires of { writer.old.of ≡ cache.now }
    ensures { MatchResult result
        (λ old. LosesNone (history 1 writer.old) (history 1 writer.new) old)
        (λ why. history 1 writer.new ≡ history 1 writer.old) }
{
    laws::history_laws::<1>();
    match writer.swap(cache, key, [object]) {
        Ok(swapped) => Ok(swapped.old),
        Err(why) => Err(why),
    }
}

/// Takes the object of a key out of the map, and leaves all others there.
pub fn take_object(
    cache: &Cache<1>,
    writer: &mut Writer<1>,
    key: u64,
) -> Result<Option<Entry<1>>, Spent>
    requires of { writer.old.of ≡ cache.now }
    ensures { MatchResult result
        (λ old. LosesNone (history 1 writer.old) (history 1 writer.new) old)
        (λ spent. history 1 writer.new ≡ history 1 writer.old) }
{
    laws::history_laws::<1>();
    match writer.take(cache, key) {
        Ok(Take::Taken { old, .. }) => Ok(Some(old)),
        Ok(Take::NotThere { .. }) => Ok(None),
        Err(spent) => Err(spent),
    }
}
