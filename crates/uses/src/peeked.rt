//! A put, and a look at its key that is no use of it.
ghost use Rattle.std.specs.Prelude.{ℕ, ◌≡◌, [], ◌∷◌, IfSome};
ghost use Rattle.mc_cache.specs.Reply.TheVariants.{Found};

use mc_cache::{Cache, Reply, Writer, laws};

/// Puts 70 under 7 and peeks at it, which finds it. Nothing if the put was refused.
pub fn put_and_peek(cache: &Cache<1>, writer: &mut Writer<1>) -> Option<Reply<1>>
    requires of { writer.old.of ≡ cache.now }
    ensures { IfSome result (λ r. (at : ℕ) × (since : ℕ) × (r ≡ Found (70 ∷ []) at since)) }
{
    laws::history_laws::<1>();
    match writer.put(cache, 7, [70]) {
        Ok(_) => Some(writer.peek(cache, 7)),
        Err(_) => None,
    }
}
