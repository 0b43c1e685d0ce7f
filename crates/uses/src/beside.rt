//! A put, and lookups of a reader that has met the writer.
ghost use Rattle.std.specs.Prelude.{ℕ, ◌≡◌, ◌⊎◌, [], ◌∷◌, IfSome};
ghost use Rattle.mc_cache.specs.Reply.TheVariants.{Found, Busy};

use mc_cache::{Cache, Reader, Reply, Writer, laws};

/// Puts 70 under 7 and looks it up beside the writer, which finds it. Nothing if the put was refused.
pub fn put_and_get(
    cache: &Cache<1>,
    writer: &mut Writer<1>,
    reader: &mut Reader<1>,
) -> Option<Reply<1>>
    requires of { (writer.old.of ≡ cache.now) × (reader.old.of ≡ cache.now) }
    ensures { IfSome result (λ r. (at : ℕ) × (since : ℕ) × (r ≡ Found (70 ∷ []) at since)) }
{
    laws::history_laws::<1>();
    match writer.put(cache, 7, [70]) {
        Ok(_) => {
            reader.catch_up(cache, writer);
            Some(reader.get_beside(cache, writer, 7))
        }
        Err(_) => None,
    }
}

/// A lookup between two meetings, without the writer beside it, finds the value, or was spoiled.
pub fn get_between_meetings(
    cache: &Cache<1>,
    writer: &mut Writer<1>,
    reader: &mut Reader<1>,
) -> Option<Reply<1>>
    requires of { (writer.old.of ≡ cache.now) × (reader.old.of ≡ cache.now) }
    ensures { IfSome result (λ r. (r ≡ Busy) ⊎ ((at : ℕ) × (since : ℕ) × (r ≡ Found (70 ∷ []) at since))) }
{
    laws::history_laws::<1>();
    match writer.put(cache, 7, [70]) {
        Ok(_) => {
            reader.catch_up(cache, writer);
            let reply = reader.get(cache, 7);
            reader.catch_up(cache, writer);
            Some(reply)
        }
        Err(_) => None,
    }
}
