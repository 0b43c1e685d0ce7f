//! Two puts in one turn.
ghost use Rattle.std.specs.Prelude.{◌≡◌, [], ◌∷◌};
ghost use Rattle.mc_cache.specs.Plain.{TurnMeans, seen};
ghost use Rattle.mc_cache.specs.TurnCalls.{CanMake, HasMade};
ghost use Rattle.uses.specs.OneTurn.{MeansBoth};
ghost use Rattle.uses.specs.Inside.BothPuts.{both_contract};

use mc_cache::turn::{Answers, TurnCall};
use mc_cache::{Cache, Desk, DeskError, Put, PutError, Reader, Writer};

/// Puts two keys with these words.
#[derive(Clone, Copy)]
struct Both {
    one: (u64, u64),
    other: (u64, u64),
}

impl TurnCall<1, Put, PutError> for Both {
    ghost contract = { λ c. both_contract c.one.0 c.other.0 (c.one.1 ∷ []) (c.other.1 ∷ []) };

    fn make(self, cache: &Cache<1>, writer: &mut Writer<1>, _: Answers<1>) -> Result<Put, PutError>
        requires { CanMake 1 cache.now writer.old }
        ensures { HasMade (both_contract self.one.0 self.other.0 (self.one.1 ∷ []) (self.other.1 ∷ [])) cache.now result writer.old writer.new }
    {
        let first = writer.put(cache, self.one.0, [self.one.1]);
        let _first = first;
        writer.put(cache, self.other.0, [self.other.1])
    }
}

/// Puts both keys in one turn. What the pass has seen then ends with what the two puts did, one right after the other. If the try was
/// held, neither was made.
pub fn put_both(
    cache: &Cache<1>,
    desk: &Desk<1>,
    pass: &mut Reader<1>,
    one: (u64, u64),
    other: (u64, u64),
) -> Result<Put, DeskError<PutError>>
    requires { (desk.now ≡ cache.now) × (pass.old.of ≡ cache.now) }
    ensures { TurnMeans (λ h h' told. MeansBoth h h' one.0 other.0 (one.1 ∷ []) (other.1 ∷ []) told) (seen 1 pass.old) (seen 1 pass.new) result }
{
    desk.try_call(cache, pass, Both { one, other })
}
