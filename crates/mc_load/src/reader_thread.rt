//! A reader at work.
ghost use Rattle.std.specs.Prelude.{ℕ, ◌≡◌, ◌+◌, ◌^◌, ◌≤◌, ◌<◌, ◌++◌, ◌∷◌, [], IfSome, List, None, Some, length, take, vec_len, vec_capacity};
ghost use Rattle.mc_load.specs.Loads.{at_of, most_at_once};

use crate::asked::Load;
use crate::draws::Draws;
use crate::gate::{Asked, Asks, Gate};
use crate::handle::Handle;
use crate::run::Work;
use mc_cache::Reply;
use mc_check::Record;

/// The most keys of one call.
const MOST_AT_ONCE: usize = 64;

/// A reader's handle, what it draws, and the answers that it got.
#[derive(Drop)]
pub(crate) struct ReaderThread<'p, const V: usize> {
    pub(crate) handle: Handle<'p, V>,
    /// Among the readers, counted from 0.
    pub(crate) number: u32,
    /// How many keys it asks for at once.
    pub(crate) many: u32,
    pub(crate) draws: Draws,
    pub(crate) records: Vec<Record<V>>,
    /// The call that the gate refused.
    pub(crate) refused: Option<u64>,
    ghost some_words: { 1 ≤ V },
    ghost most_words: { V ≤ 8 },
    ghost some_keys: { 1 ≤ many },
    ghost most_keys: { many ≤ most_at_once },
}

/// The moment of a reply. `Busy` has none.
pub fn moment_of<const V: usize>(reply: &Reply<V>) -> Option<u64>
    ensures { result ≡ at_of reply.now }
{
    match *reply {
        Reply::Found { at, .. } | Reply::Absent { at } => Some(at),
        Reply::Busy => None,
    }
}

impl<'p, const V: usize> ReaderThread<'p, V> {
    ghost use Rattle.mc_load.specs.Drawn.{HasDrawn};
    ghost use Rattle.mc_load.specs.Inside.Drawn.{AreNext};
    ghost use Rattle.mc_load.specs.Inside.Handles.{AreAllTold, AreTold, IsTold, cache_of, place_of};
    ghost use Rattle.mc_load.specs.Inside.Workers.{AreNextOf, HasLookedFrom, HasNotedDrawn, IsNextOf};
    ghost use Rattle.mc_load.specs.Lookups.{keys_in, replies_in};
    ghost use Rattle.mc_shared.specs.Records.{ReaderRecord};
    ghost use Rattle.mc_words.specs.Readers.{most_readers};

    /// Writes one answer down, and passes it to the gate.
    fn note<A: Asks>(&mut self, gate: &A, key: u64, reply: Reply<V>)
        requires number { self.old.number < most_readers }
        requires room { vec_len self.old.records + 1 ≤ vec_capacity self.old.records }
        ensures told { AreAllTold V self.old.handle self.old.records.items → IsTold V self.old.handle key reply.entry →
            AreAllTold V self.new.handle self.new.records.items }
        ensures drawn { (load : Load) → HasNotedDrawn V load self.old → IsNextOf V load self.old key → HasNotedDrawn V load self.new }
        ensures key { keys_in self.new.records.items ≡ keys_in self.old.records.items ++ key ∷ [] }
        ensures reply { replies_in self.new.records.items ≡ replies_in self.old.records.items ++ reply.entry ∷ [] }
        ensures len { length self.new.records.items ≡ length self.old.records.items + 1 }
        ensures capacity { vec_capacity self.old.records ≤ vec_capacity self.new.records }
        ensures kept { (self.new.number ≡ self.old.number) × (self.new.refused ≡ self.old.refused) }
        ensures others { (self.new.handle ≡ self.old.handle) × (self.new.draws ≡ self.old.draws) }
    {
        let at = moment_of(&reply);
        let reader = self.number;
        let _ = self.records.push(Record { reader, key, reply });
        gate.after(reader + 1, self.records.len() as u64, at);
    }

    /// Writes the answers of one call down, and passes each to the gate.
    fn note_all<A: Asks>(&mut self, gate: &A, keys: &[u64], replies: &[Reply<V>])
        requires number { self.old.number < most_readers }
        requires many { length replies.now ≡ length keys.now }
        requires room { vec_len self.old.records + length keys.now ≤ vec_capacity self.old.records }
        ensures told { AreAllTold V self.old.handle self.old.records.items → AreTold V self.old.handle keys.now replies.now →
            AreAllTold V self.new.handle self.new.records.items }
        ensures drawn { (load : Load) → HasNotedDrawn V load self.old → AreNextOf V load self.old keys.now → HasNotedDrawn V load self.new }
        ensures keys { keys_in self.new.records.items ≡ keys_in self.old.records.items ++ keys.now }
        ensures replies { replies_in self.new.records.items ≡ replies_in self.old.records.items ++ replies.now }
        ensures len { length self.new.records.items ≡ length self.old.records.items + length keys.now }
        ensures capacity { vec_capacity self.old.records ≤ vec_capacity self.new.records }
        ensures kept { (self.new.number ≡ self.old.number) × (self.new.refused ≡ self.old.refused) }
        ensures others { (self.new.handle ≡ self.old.handle) × (self.new.draws ≡ self.old.draws) }
    {
        for n in 0..keys.len() {
            self.note(gate, keys[n], replies[n]);
        }
    }

    /// Looks the keys up.
    fn look<A: Asks>(&mut self, gate: &A, keys: &[u64], replies: &mut [Reply<V>])
        requires told { AreAllTold V self.old.handle self.old.records.items }
        requires number { self.old.number < most_readers }
        requires many { length replies.old ≡ length keys.now }
        requires room { vec_len self.old.records + length keys.now ≤ vec_capacity self.old.records }
        ensures told { AreAllTold V self.new.handle self.new.records.items }
        ensures cache { cache_of self.new.handle ≡ cache_of self.old.handle }
        ensures place { place_of self.new.handle ≡ place_of self.old.handle }
        ensures looked { (before : List ReaderRecord) → HasLookedFrom V (place_of self.old.handle) before self.old →
            HasLookedFrom V (place_of self.old.handle) before self.new }
        ensures drawn { (load : Load) → HasNotedDrawn V load self.old → AreNextOf V load self.old keys.now → HasNotedDrawn V load self.new }
        ensures len { length self.new.records.items ≡ length self.old.records.items + length keys.now }
        ensures capacity { vec_capacity self.old.records ≤ vec_capacity self.new.records }
        ensures kept { (self.new.number ≡ self.old.number) × (self.new.refused ≡ self.old.refused) }
        ensures draws { self.new.draws ≡ self.old.draws }
    {
        self.handle.get_many(keys, replies);
        self.note_all(gate, keys, replies);
    }

    /// Asks the gate for at most `most` calls, up to one that it refuses, and draws the keys of those that it lets through. Returns how
    /// many they are.
    fn ask<A: Asks>(&mut self, gate: &A, most: usize, keys: &mut [u64]) -> usize
        requires number { self.old.number < most_readers }
        requires most { most ≤ length keys.old }
        requires few { vec_len self.old.records + most < 2 ^ 32 }
        ensures most { result ≤ most }
        ensures len { length keys.new ≡ length keys.old }
        ensures drawn { (load : Load) (who n : ℕ) → HasDrawn load who n self.old.draws → HasDrawn load who (n + result) self.new.draws }
        ensures keys { (load : Load) (who n : ℕ) → HasDrawn load who n self.old.draws → AreNext load who n (take result keys.new) }
        ensures kept { (self.new.handle ≡ self.old.handle) × (self.new.records ≡ self.old.records) × (self.new.number ≡ self.old.number) }
        ensures through { result ≡ most → self.new.refused ≡ self.old.refused }
        ensures cut { result < most → self.new.refused ≡ Some (vec_len self.old.records + result + 1) }
        ensures refused { result < most → A.may gate.now (self.old.number + 1) (vec_len self.old.records + result + 1) }
    {
        let who = self.number + 1;
        for n in 0..most {
            let call = self.records.len() as u64 + n as u64 + 1;
            if !gate.before(who, call) {
                self.refused = Some(call);
                return n;
            }
            keys[n] = self.draws.key();
        }
        most
    }
}

impl<'p, const V: usize, G: Gate> Work<G> for ReaderThread<'p, V> {
    ghost use Rattle.mc_load.specs.Inside.Workers.{CanLook, HasLooked};

    ghost ready = { CanLook V };

    ghost ended = { λ gate. HasLooked V (G.may_refuse gate) };

    /// Makes the load's lookups. The calls before one that the gate refuses are made.
    fn run(&mut self, gate: &G, load: Load) {
        let mut keys = [0; MOST_AT_ONCE];
        let mut replies = [Reply::Busy; MOST_AT_ONCE];
        let many = self.many as usize;
        let lookups = load.lookups as usize;
        let asked = Asked { gate };
        while self.records.len() < lookups {
            let most = many.min(lookups - self.records.len());
            let through = self.ask(&asked, most, &mut keys);
            self.look(&asked, &keys[..through], &mut replies[..through]);
            if through < most {
                return;
            }
        }
    }
}
