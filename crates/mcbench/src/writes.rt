//! Keys that one thread puts, or looks up, one after the other.
ghost use Rattle.std.specs.Prelude.{◌≡◌};

use crate::keys::key_of;
use crate::tally::Tally;
use mc_cache::{Cache, Writer};

/// Puts the keys of `many` numbers, from `first` on.
#[inline(never)]
pub(crate) fn put_all(cache: &Cache<4>, writer: &mut Writer<4>, first: u64, many: u32) -> Tally
    requires { writer.old.of ≡ cache.now }
    ensures { writer.new.of ≡ writer.old.of }
{
    let mut tally = Tally::default();
    for n in 0..u64::from(many) {
        tally.count_put(writer.put(cache, key_of(first.wrapping_add(n)), [n; 4]));
    }
    tally
}

/// Looks up the keys of `keys` numbers, from 0 on.
pub(crate) fn get_all(cache: &Cache<4>, writer: &mut Writer<4>, keys: u32) -> Tally
    requires { writer.old.of ≡ cache.now }
    ensures { writer.new.of ≡ writer.old.of }
{
    let mut tally = Tally::default();
    for number in 0..u64::from(keys) {
        tally.count_reply(writer.get(cache, key_of(number)));
    }
    tally
}

/// Puts fresh keys until one is refused, and at most `most`.
pub(crate) fn put_until_refused(
    cache: &Cache<4>,
    writer: &mut Writer<4>,
    first: u64,
    most: u32,
) -> Tally
    requires { writer.old.of ≡ cache.now }
    ensures { writer.new.of ≡ writer.old.of }
{
    let mut tally = Tally::default();
    for n in 0..u64::from(most) {
        let stored = writer.put(cache, key_of(first.wrapping_add(n)), [n; 4]);
        if stored.is_err() {
            break;
        }
        tally.count_put(stored);
    }
    tally
}
