//! A world makes a list of events.
ghost use Rattle.std.specs.Prelude.{◌≡◌, ◌+◌, ◌<◌, ◌≤◌, ◌++◌, ◌∷◌, [], vec_len, vec_capacity};

use crate::parts::Parts;
use mc_theory::{Done, Event, Stepped, Unlawful};
use std::alloc::{AllocError, Global};

impl<const V: usize> Parts<V> {
    ghost use Rattle.std.specs.Prelude.{◌≡◌, ◌+◌, ◌<◌, ◌≤◌, ◌∷◌, [], length, IfOk, IfErr, OnOk, OnErr, vec_len, vec_capacity};
    ghost use Rattle.mc_core.specs.Inside.Parts.{shape_of_parts, view_of, StandFor, MakesEvents, PartsRefuse};
    ghost use Rattle.mc_theory.specs.Traces as traces;
    ghost use Rattle.mc_theory.specs.Plain.{events_made};
    ghost use Rattle.mc_theory.specs.Traces.{StopsAt};
    ghost use Rattle.mc_core.specs.Inside.Writers.{room_of};

    /// Makes the events up to the first that is refused: what the lookups that ended returned, and where it stopped.
    pub(crate) fn run(
        &mut self,
        alloc: Global,
        events: &[Event],
    ) -> Result<(Vec<Done<V>>, Option<(usize, Unlawful)>), AllocError>
        requires { (seen : traces.Trace V) × StandFor {V = V} self.old seen }
        ensures ok { IfOk result (λ run.
            MakesEvents {V = V} self.old self.new (events_made events.now run.1) [] run.0.items ×
            ((seen : traces.Trace V) → StandFor {V = V} self.new seen →
            StopsAt {V = V} (shape_of_parts {V = V} self.new) seen events.now run.1)) }
        ensures err { OnErr result (MakesEvents {V = V} self.old self.new [] [] []) }
        ensures kept { OnErr result (view_of {V = V} self.new ≡ view_of {V = V} self.old) }
    {
        let mut done = Vec::with_capacity(alloc, events.len())?;
        self.reserve(events.len())?;
        let stopped = self.make_all(events, &mut done);
        Ok((done, stopped))
    }

    /// Makes room for `changes` changes.
    fn reserve(&mut self, changes: usize) -> Result<(), AllocError>
        ensures room { OnOk result (changes ≤ room_of {V = V} self.new.writer) }
        ensures made { MakesEvents {V = V} self.old self.new [] [] [] }
        ensures kept { view_of {V = V} self.new ≡ view_of {V = V} self.old }
    {
        self.writer.history.try_reserve(changes)
    }

    /// Makes the events up to the first that is refused. There is room for all that they return and change.
    fn make_all(&mut self, events: &[Event], done: &mut Vec<Done<V>>) -> Option<(usize, Unlawful)>
        requires stands { (seen : traces.Trace V) × StandFor {V = V} self.old seen }
        requires room { length events.now ≤ room_of {V = V} self.old.writer }
        requires spare { vec_len done.old + length events.now ≤ vec_capacity done.old }
        ensures made { MakesEvents {V = V} self.old self.new (events_made events.now result) done.old.items done.new.items }
        ensures stops { (seen : traces.Trace V) → StandFor {V = V} self.new seen → StopsAt {V = V} (shape_of_parts {V = V} self.new) seen events.now result }
    {
        for (i, event) in events.iter().enumerate() {
            if let Err(why) = self.make_one(*event, done) {
                return Some((i, why));
            }
        }
        None
    }

    /// Makes an event. There is room for what it returns and changes.
    fn make_one(&mut self, event: Event, done: &mut Vec<Done<V>>) -> Result<(), Unlawful>
        requires stands { (seen : traces.Trace V) × StandFor {V = V} self.old seen }
        requires room { 1 ≤ room_of {V = V} self.old.writer }
        requires spare { vec_len done.old < vec_capacity done.old }
        ensures made { OnOk result (MakesEvents {V = V} self.old self.new (event ∷ []) done.old.items done.new.items) }
        ensures room { OnOk result (room_of {V = V} self.old.writer ≤ room_of {V = V} self.new.writer + 1) }
        ensures spare { OnOk result (vec_len done.new + vec_capacity done.old ≤ vec_len done.old + vec_capacity done.new + 1) }
        ensures refused { IfErr result (λ why. PartsRefuse {V = V} self.old self.new event why) }
        ensures silent { OnErr result (done.new.items ≡ done.old.items) }
    {
        match self.step(event) {
            Ok(Stepped::Done(told)) => {
                keep(done, told);
                Ok(())
            }
            Ok(Stepped::Nothing) => Ok(()),
            Ok(Stepped::Word(_)) => Ok(()),
            Err(why) => Err(why),
        }
    }
}

/// Keeps what a lookup returned. There is room for it.
fn keep<const V: usize>(done: &mut Vec<Done<V>>, told: Done<V>)
    requires { vec_len done.old < vec_capacity done.old }
    ensures items { done.new.items ≡ done.old.items ++ told.entry ∷ [] }
    ensures len { vec_len done.new ≡ vec_len done.old + 1 }
    ensures room { vec_capacity done.old ≤ vec_capacity done.new }
{
    let _ = done.push(told);
}
