//! One call that changes the map, generic over what makes it: a holder at once, a pass in a turn that it tries for.
ghost use Rattle.std.specs.Prelude.{◌≡◌, Err};
ghost use Rattle.mc_cache.specs.declared.desk.DeskError.TheVariants.{Held};
ghost use Rattle.mc_door.specs.Turns.{HasCalledBy};

use mc_cache::DeskError;
use mc_cache::keyed::Keyed;
use mc_cache::turn::TurnCall;

/// What makes calls.
pub(crate) trait Caller<const V: usize> {
    ghost use Rattle.mc_door.specs.Roles.{Role};

    // What contracts see of it.
    ghost role: { Self → Role };

    /// Makes the call. `Held` if that needs a turn, and the one try for it did not win: then nothing was done.
    fn try_call<T, E, C: TurnCall<V, T, E> + Keyed>(&mut self, call: C) -> Result<T, DeskError<E>>
        ensures tried { HasCalledBy (role self.old) (role self.new) (C.key_of call) (C.contract call) result }
        ensures held { result ≡ Err Held → role self.new ≡ role self.old };
}
