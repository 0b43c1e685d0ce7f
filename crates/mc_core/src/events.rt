//! A world makes a list of events.
ghost use Rattle.std.specs.Prelude.{◌≡◌, ◌<◌, ◌↔◌, ◌⊎◌, All, IfOk, IsErrOf, OnErr};
ghost use Rattle.mc_core.specs.Runs.{RunsTruly};
ghost use Rattle.mc_core.specs.Seen.{Shows};
ghost use Rattle.mc_core.specs.declared.world.WorldError.TheVariants as error;
ghost use Rattle.mc_theory.specs.Plain.{IsPlainlyTrue, events_made};
ghost use Rattle.mc_theory.specs.Traces as traces;
ghost use Rattle.mc_words.specs.Checks.{shape_of};
ghost use Rattle.mc_words.specs.Places.{IsWidth};
ghost use Rattle.mc_words.specs.Readers.{most_readers};

use crate::outcome::Run;
use crate::world::{World, WorldError};
use mc_theory::Event;
use mc_words::{Checked, NoMemory};
use std::alloc::Global;

/// Makes the events of a list, one after the other, up to the first that is refused. Room is made before the first.
///
/// Every lookup that has ended by then replied what the map held at one moment between its first reading and its last.
pub fn run<const V: usize>(
    alloc: Global,
    world: &mut World<V>,
    events: &[Event],
) -> Result<Run<V>, NoMemory>
    ensures ran { IfOk result (λ run. (seen : traces.Trace V) → Shows {V = V} world.old seen →
        (x : traces.Trace V) × RunsTruly {V = V} world.old world.new events.now run seen x) }
    ensures shape { world.new.shape ≡ world.old.shape }
    ensures unchanged { OnErr result (world.new ≡ world.old) }
{
    let Ok((done, stopped)) = world.parts.run(alloc, events) else {
        return Err(NoMemory);
    };
    Ok(Run { done, stopped })
}

/// Makes the events of a list in a new world with `readers` readers, up to the first that is refused.
///
/// What each lookup returned is plainly true of the events that were made. Which these are, which lookups ended by them, and
/// why the next event is refused, follows from the list. Condition: a value has from 1 to 8 words.
pub fn run_new<const V: usize>(
    alloc: Global,
    checked: &Checked,
    readers: u32,
    events: &[Event],
) -> Result<Run<V>, WorldError>
    requires { IsWidth V }
    ensures plain { IfOk result (λ run. All (IsPlainlyTrue (events_made events.now run.stopped)) run.done.items) }
    ensures ran { IfOk result (λ run. (x : traces.Trace V) ×
        traces.HasRun V (shape_of checked.now) (traces.first_trace V (shape_of checked.now) readers) x events.now run.done.items run.stopped) }
    ensures readers { IsErrOf result error.Readers ↔ ((readers ≡ 0) ⊎ (most_readers < readers)) }
{
    let mut world = World::new(alloc, checked, readers)?;
    let Ok(made) = run(alloc, &mut world, events) else {
        return Err(WorldError::NoMemory);
    };
    Ok(made)
}
