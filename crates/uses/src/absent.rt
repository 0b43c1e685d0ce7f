//! Two threads that put a key only if it is absent.
ghost use Rattle.std.specs.Prelude.{◌≡◌, [], ◌∷◌, IfSome};
ghost use Rattle.mc_cache.specs.Plain.{PutIfAbsentMeans, TurnMeans, history, seen};
ghost use Rattle.uses.specs.Absent.{BothPutMeans};

use mc_cache::calls::PuttingIfAbsent;
use mc_cache::{AbsentError, Cache, Desk, DeskError, Put, Reader, Writer, laws};
use std::marker::Sync;
use std::thread::{Threads, join_mut};

/// Tries to put 70 under 7 in one thread while the other tries to put 80 under it, each only if the key is absent.
fn try_both<R: Threads + Sync>(
    rt: &R,
    cache: &Cache<1>,
    desk: &Desk<1>,
    one: &mut Reader<1>,
    two: &mut Reader<1>,
) -> (
    Result<Put, DeskError<AbsentError>>,
    Result<Put, DeskError<AbsentError>>,
)
    requires desk { desk.now ≡ cache.now }
    requires of { (one.old.of ≡ cache.now) × (two.old.of ≡ cache.now) }
    ensures of { (one.new.of ≡ one.old.of) × (two.new.of ≡ two.old.of) }
    ensures one { TurnMeans (λ h h' told. PutIfAbsentMeans 1 h h' 7 (70 ∷ []) told) (seen 1 one.old) (seen 1 one.new) result.0 }
    ensures two { TurnMeans (λ h h' told. PutIfAbsentMeans 1 h h' 7 (80 ∷ []) told) (seen 1 two.old) (seen 1 two.new) result.1 }
{
    join_mut(
        rt,
        &mut || desk.try_call(cache, one, PuttingIfAbsent(7, &[70])),
        &mut || desk.try_call(cache, two, PuttingIfAbsent(7, &[80])),
    )
}

/// What the two tries returned, and the writer after them.
#[derive(Drop)]
pub struct Tried {
    pub one: Result<Put, DeskError<AbsentError>>,
    pub two: Result<Put, DeskError<AbsentError>>,
    pub writer: Writer<1>,
}

/// Tries to put 70 under 7 in one thread while the other tries to put 80 under it, each only if the key is absent. If both did, the key was
/// taken out between the two puts: no put was overwritten. `None` if a turn never gave the writer back.
pub fn put_once<R: Threads + Sync>(
    rt: &R,
    cache: &Cache<1>,
    desk: Desk<1>,
    one: &mut Reader<1>,
    two: &mut Reader<1>,
) -> Option<Tried>
    requires desk { desk ≡ cache.now }
    requires of { (one.old.of ≡ cache.now) × (two.old.of ≡ cache.now) }
    ensures { IfSome result (λ tried. BothPutMeans tried.one tried.two (history 1 tried.writer)) }
{
    laws::history_laws::<1>();
    let (first, second) = try_both(rt, cache, &desk, one, two);
    let mut writer = desk.end()?;
    one.catch_up(cache, &mut writer);
    two.catch_up(cache, &mut writer);
    Some(Tried {
        one: first,
        two: second,
        writer,
    })
}
