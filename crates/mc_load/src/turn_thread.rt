//! A writer at work that tries for turns.
ghost use Rattle.std.specs.Prelude.{ℕ, ◌≡◌, ◌+◌, ◌*◌, ◌^◌, ◌≤◌, ◌<◌, IfSome, vec_len, vec_capacity};
ghost use Rattle.mc_load.specs.ShardLoads.{most_writers};

use crate::asked::Load;
use crate::dated::{Dated, note_put_at, note_removal_at};
use crate::draws::Draws;
use crate::gate::Gate;
use crate::handle::Handle;
use crate::run::Work;
use crate::turns::Turns;

/// A writer's handle, what it draws, and what came of its calls.
#[derive(Drop)]
pub(crate) struct TurnThread<'p, const V: usize> {
    pub(crate) handle: Handle<'p, V>,
    /// Among the writers, counted from 0.
    pub(crate) number: u32,
    /// Among all workers, as the gate counts them.
    pub(crate) who: u32,
    pub(crate) draws: Draws,
    pub(crate) turns: Turns,
    /// The changes that its calls have made.
    pub(crate) journal: Vec<Dated<V>>,
    /// The call that the gate refused.
    pub(crate) refused: Option<u64>,
    ghost some_words: { 1 ≤ V },
    ghost most_words: { V ≤ 8 },
}

/// The words of the value that a call of a writer puts.
fn word_of(call: u64, writer: u32) -> u64
    requires { (writer < most_writers) × (call < 2 ^ 33) }
    ensures { result ≡ call + writer * 2 ^ 32 }
{
    call + (u64::from(writer) << 32)
}

impl<'p, const V: usize> TurnThread<'p, V> {
    ghost use Rattle.mc_load.specs.Drawn.{HasDrawn};
    ghost use Rattle.mc_plan.specs.WholeCalls.Call.{PutCall, RemoveCall};
    ghost use Rattle.mc_load.specs.Turns.{IsTryOf, drawn_turn, stream_of};
    ghost use Rattle.mc_load.specs.Inside.Tries.{HasTriedOnce, tries_of};
    ghost use Rattle.mc_load.specs.Inside.Handles.{place_of};

    /// Tries once to remove a key. Returns the moment of the answer, if it has one.
    fn try_remove(&mut self, key: u64) -> Option<u64>
        requires few { self.old.turns.held + self.old.turns.answered + 1 < 2 ^ 64 }
        requires room { vec_len self.old.journal + 2 ≤ vec_capacity self.old.journal }
        ensures place { place_of self.new.handle ≡ place_of self.old.handle }
        ensures draws { self.new.draws ≡ self.old.draws }
        ensures tried { HasTriedOnce V self.old self.new }
        ensures made { IsTryOf V (place_of self.old.handle) (RemoveCall key) (tries_of self.old) (tries_of self.new) }
    {
        let told = self.handle.try_remove(key);
        self.turns.count(&told);
        note_removal_at(&mut self.journal, key, told)
    }

    /// Tries once to put a key. Returns the moment of the answer, if it has one.
    fn try_put(&mut self, key: u64, value: [u64; V]) -> Option<u64>
        requires few { self.old.turns.held + self.old.turns.answered + 1 < 2 ^ 64 }
        requires room { vec_len self.old.journal + 2 ≤ vec_capacity self.old.journal }
        ensures place { place_of self.new.handle ≡ place_of self.old.handle }
        ensures draws { self.new.draws ≡ self.old.draws }
        ensures tried { HasTriedOnce V self.old self.new }
        ensures made { IsTryOf V (place_of self.old.handle) (PutCall key value.entry) (tries_of self.old) (tries_of self.new) }
    {
        let told = self.handle.try_put(key, value);
        self.turns.count(&told);
        note_put_at(&mut self.journal, key, value, told)
    }

    /// Makes one call, and returns the moment of its answer. Each word of a value names the call and the writer.
    fn make_call(&mut self, call: u64) -> Option<u64>
        requires few { (self.old.number < most_writers) × (call < 2 ^ 33) }
        requires counted { self.old.turns.held + self.old.turns.answered + 1 < 2 ^ 64 }
        requires room { vec_len self.old.journal + 2 ≤ vec_capacity self.old.journal }
        ensures place { place_of self.new.handle ≡ place_of self.old.handle }
        ensures tried { HasTriedOnce V self.old self.new }
        ensures drawn { (load : Load) (n : ℕ) → HasDrawn load (stream_of self.old.number) (2 * n) self.old.draws →
            HasDrawn load (stream_of self.old.number) (2 * (n + 1)) self.new.draws }
        ensures made { (load : Load) (n : ℕ) → call ≡ n + 1 → HasDrawn load (stream_of self.old.number) (2 * n) self.old.draws →
            IsTryOf V (place_of self.old.handle) (drawn_turn V load self.old.number n) (tries_of self.old) (tries_of self.new) }
    {
        let key = self.draws.key();
        let is_removal = self.draws.is_removal();
        if is_removal {
            self.try_remove(key)
        } else {
            let word = word_of(call, self.number);
            self.try_put(key, [word; V])
        }
    }
}

impl<'p, const V: usize, G: Gate> Work<G> for TurnThread<'p, V> {
    ghost use Rattle.mc_load.specs.Inside.Tries.{CanBegin, HasTried};

    ghost ready = { CanBegin V };

    ghost ended = { λ gate. HasTried V (G.may_refuse gate) };

    fn run(&mut self, gate: &G, load: Load) {
        for n in 0..load.writes {
            let call = u64::from(n) + 1;
            if !gate.before(self.who, call) {
                self.refused = Some(call);
                return;
            }
            let at = self.make_call(call);
            gate.after(self.who, call, at);
        }
    }
}
