//! The writer at work.
ghost use Rattle.std.specs.Prelude.{ℕ, ◌≡◌, ◌+◌, ◌*◌, ◌≤◌, vec_len, vec_capacity};
ghost use Rattle.mc_plan.specs.WholeCalls.Call.{PutCall, RemoveCall};
ghost use Rattle.mc_plan.specs.declared.answer.Answer.{Answer};
ghost use Rattle.mc_writer.specs.WriterCalls.{HasCalled};

use crate::asked::Load;
use crate::draws::Draws;
use crate::gate::Gate;
use crate::journal::{note_put, note_removal};
use crate::run::Work;
use mc_cache::{Cache, Change, Writer};

/// The writer, what it draws, and the changes that its calls have made.
#[derive(Drop)]
pub(crate) struct WriterThread<'p, const V: usize> {
    pub(crate) cache: &'p Cache<V>,
    pub(crate) writer: Writer<V>,
    pub(crate) draws: Draws,
    pub(crate) journal: Vec<Change<V>>,
    /// The call that the gate refused.
    pub(crate) refused: Option<u64>,
    ghost some_words: { 1 ≤ V },
    ghost most_words: { V ≤ 8 },
}

impl<'p, const V: usize> WriterThread<'p, V> {
    ghost use Rattle.mc_load.specs.Inside.Workers.{HasWritten, IsWriting};

    /// Removes a key, and returns the moment of the answer.
    fn remove(&mut self, key: u64) -> Option<u64>
        requires writing { IsWriting V self.old.cache.now self.old }
        requires room { vec_len self.old.journal + 2 ≤ vec_capacity self.old.journal }
        ensures writing { IsWriting V self.new.cache.now self.new }
        ensures called { (told : Answer) × HasCalled V self.old.cache.now.layout.shape (RemoveCall key) self.old.writer self.new.writer told }
        ensures kept { (self.new.draws ≡ self.old.draws) × (self.new.cache ≡ self.old.cache) × (self.new.refused ≡ self.old.refused) }
        ensures len { vec_len self.new.journal ≤ vec_len self.old.journal + 2 }
        ensures capacity { vec_capacity self.old.journal ≤ vec_capacity self.new.journal }
    {
        let cache = self.cache;
        let told = self.writer.remove(cache, key);
        note_removal(&mut self.journal, key, told)
    }

    /// Puts a key, and returns the moment of the answer.
    fn put(&mut self, key: u64, value: [u64; V]) -> Option<u64>
        requires writing { IsWriting V self.old.cache.now self.old }
        requires room { vec_len self.old.journal + 2 ≤ vec_capacity self.old.journal }
        ensures writing { IsWriting V self.new.cache.now self.new }
        ensures called { (told : Answer) × HasCalled V self.old.cache.now.layout.shape (PutCall key value.entry) self.old.writer self.new.writer told }
        ensures kept { (self.new.draws ≡ self.old.draws) × (self.new.cache ≡ self.old.cache) × (self.new.refused ≡ self.old.refused) }
        ensures len { vec_len self.new.journal ≤ vec_len self.old.journal + 2 }
        ensures capacity { vec_capacity self.old.journal ≤ vec_capacity self.new.journal }
    {
        let cache = self.cache;
        let told = self.writer.put(cache, key, value);
        note_put(&mut self.journal, key, value, told)
    }

    /// Makes one call, and returns the moment of its answer.
    fn make_call(&mut self, call: u64) -> Option<u64>
        requires writing { IsWriting V self.old.cache.now self.old }
        requires room { vec_len self.old.journal + 2 ≤ vec_capacity self.old.journal }
        ensures writing { IsWriting V self.new.cache.now self.new }
        ensures kept { (self.new.cache ≡ self.old.cache) × (self.new.refused ≡ self.old.refused) }
        ensures written { (load : Load) (n : ℕ) → call ≡ n + 1 → self.old.cache.now.layout.shape ≡ load.shape →
            HasWritten V load n self.old → HasWritten V load (n + 1) self.new }
        ensures len { vec_len self.new.journal ≤ vec_len self.old.journal + 2 }
        ensures capacity { vec_capacity self.old.journal ≤ vec_capacity self.new.journal }
    {
        let key = self.draws.key();
        let is_removal = self.draws.is_removal();
        if is_removal {
            self.remove(key)
        } else {
            self.put(key, [call; V])
        }
    }
}

impl<'p, const V: usize, G: Gate> Work<G> for WriterThread<'p, V> {
    ghost use Rattle.mc_load.specs.Inside.Workers.{CanWrite, HasEndedWriting};

    ghost ready = { CanWrite V };

    ghost ended = { λ gate. HasEndedWriting V (G.may_refuse gate) };

    /// Makes the load's calls. Each value's words are the call's number.
    fn run(&mut self, gate: &G, load: Load) {
        for n in 0..load.writes {
            let call = u64::from(n) + 1;
            if !gate.before(0, call) {
                self.refused = Some(call);
                return;
            }
            let at = self.make_call(call);
            gate.after(0, call, at);
        }
    }
}
