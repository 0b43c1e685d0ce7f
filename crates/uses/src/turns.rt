//! Two threads that take turns at one writer.
ghost use Rattle.std.specs.Prelude.{◌≡◌, [], ◌∷◌};
ghost use Rattle.mc_cache.specs.Plain.{PutMeans, TurnMeans, seen};

use mc_cache::{Cache, Desk, DeskError, Put, PutError, Reader};
use std::marker::Sync;
use std::thread::{Threads, join_mut};

/// Tries to put 70 under 7 in one thread while the other tries to put 80 under 8. Each of them knows what came of its own try:
/// what its pass has seen now ends with its put, or it was held, and the pass has seen no more than before.
pub fn put_in_turns<R: Threads + Sync>(
    rt: &R,
    cache: &Cache<1>,
    desk: &Desk<1>,
    one: &mut Reader<1>,
    two: &mut Reader<1>,
) -> (
    Result<Put, DeskError<PutError>>,
    Result<Put, DeskError<PutError>>,
)
    requires desk { desk.now ≡ cache.now }
    requires of { (one.old.of ≡ cache.now) × (two.old.of ≡ cache.now) }
    ensures of { (one.new.of ≡ one.old.of) × (two.new.of ≡ two.old.of) }
    ensures one { TurnMeans (λ h h' told. PutMeans 1 h h' 7 (70 ∷ []) told) (seen 1 one.old) (seen 1 one.new) result.0 }
    ensures two { TurnMeans (λ h h' told. PutMeans 1 h h' 8 (80 ∷ []) told) (seen 1 two.old) (seen 1 two.new) result.1 }
{
    join_mut(
        rt,
        &mut || desk.try_put(cache, one, 7, [70]),
        &mut || desk.try_put(cache, two, 8, [80]),
    )
}
