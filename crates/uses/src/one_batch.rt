//! Two keys that are overwritten in one batch.
ghost use Rattle.std.specs.Prelude.{◌≡◌, [], ◌∷◌, IfSome, Some};
ghost use Rattle.mc_cache.specs.Plain.{history, map_value};

use mc_cache::{Cache, Put, PutError, Writer, laws};

/// Puts 70 under 7 and 80 under 8 in one batch. Returns the moments of the two puts: the map then holds both new values. `None` if a key was
/// not there, or if a put was refused.
pub fn overwrite_both(cache: &Cache<1>, writer: &mut Writer<1>) -> Option<(u64, u64)>
    requires { writer.old.of ≡ cache.now }
    ensures { IfSome result (λ at. (map_value (history 1 writer.new) 7 ≡ Some (70 ∷ at.0 ∷ [])) × (map_value (history 1 writer.new) 8 ≡ Some (80 ∷ at.1 ∷ []))) }
{
    laws::history_laws::<1>();
    let mut answers = [Err(PutError::Spent); 2];
    writer.put_many(cache, &[(7, [70]), (8, [80])], &mut answers);
    match (answers[0], answers[1]) {
        (Ok(Put::Renewed { at: one }), Ok(Put::Renewed { at: other })) => Some((one, other)),
        _ => None,
    }
}
