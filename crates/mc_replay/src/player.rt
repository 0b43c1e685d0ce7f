//! A world of one writer and some readers, and the writer's clerk.
ghost use Rattle.std.specs.Prelude.{◌≡◌, ◌+◌, ◌^◌, ◌-◌, ◌<◌, ℕ, IfOk, IfErr, OnOk, OnErr, IsSome, Err, is_some, length, ◌≤◌};
ghost use Rattle.mc_words.specs.Checks.{shape_of};
ghost use Rattle.mc_words.specs.Places.{IsWidth};
ghost use Rattle.mc_theory.specs.Traces as traces;
ghost use Rattle.mc_theory.specs.Lists.{state_of};
ghost use Rattle.mc_plan.specs.Clerks.{next_act, acts_left};
ghost use Rattle.mc_plan.specs.WholeCalls.{KeptCall};
ghost use Rattle.mc_plan.specs.declared.answer.Answer.TheVariants.{Kept};
ghost use Rattle.mc_replay.specs.Inside.Reopenings.{HasEntries};
ghost use Rattle.mc_replay.specs.Replay.{Pending, first_replay};
ghost use Rattle.mc_words.specs.Readers.{HasReaders};
ghost use Rattle.mc_replay.specs.Inside.Players.{Begins, Completes, Fits, HasRoom, IsIdle, IsInCall, MakesAct, CallIsWhole, IsMarked, Looks, shape_of_player, bit_given, call_of, IsRefusedAs, most_entries};
ghost use Rattle.mc_replay.specs.declared.fault.Fault.TheVariants.{NoMemory};

use crate::fault::Fault;
use crate::watch::Watch;
use mc_core::{Act, Event, Reply, Stepped, Unlawful, World, WorldError};
use mc_plan::{Answer, Clerk, Put, Why, entries, moment, read};
use mc_words::Checked;
use std::alloc::Global;

/// A call of the writer that changes the table.
#[derive(Clone, Copy)]
pub(crate) enum Call<const V: usize> {
    Put(u64, [u64; V]),
    /// A put, if the moment of the key's last put is this one.
    PutIf(u64, u64, [u64; V]),
    Remove(u64),
    /// A put that takes no other key's item.
    PutKept(u64, [u64; V]),
}

#[derive(Drop)]
pub(crate) struct Player<const V: usize> {
    pub(crate) world: World<V>,
    clerk: Clerk<V>,
}

/// The bit that the hand read; other acts read none.
fn bit_in<const V: usize>(given: Stepped<V>) -> u64
    ensures { result ≡ bit_given given.entry }
{
    match given {
        Stepped::Word(bit) => bit,
        Stepped::Nothing | Stepped::Done(_) => 0,
    }
}

impl<const V: usize> Player<V> {
    /// A new world, and the clerk of its writer.
    pub(crate) fn new(alloc: Global, checked: &Checked, readers: u32) -> Result<Player<V>, Fault>
        requires { IsWidth V }
        ensures fits { IfOk result (λ player. Fits V player 0 (first_replay V (shape_of checked.now) readers)) }
        ensures shape { IfOk result (λ player. shape_of_player player ≡ shape_of checked.now) }
        ensures readers { OnOk result (HasReaders readers) }
        ensures refused { IfErr result (λ fault. IsRefusedAs readers fault) }
    {
        let world = match World::new(alloc, checked, readers) {
            Ok(world) => world,
            Err(WorldError::Readers) => return Err(Fault::NoSuchReader),
            Err(WorldError::NoMemory) => return Err(Fault::NoMemory),
        };
        match Clerk::new(alloc, checked) {
            Ok(clerk) => Ok(Player { world, clerk }),
            Err(_) => Err(Fault::NoMemory),
        }
    }

    /// Whether a call of the writer runs.
    pub(crate) fn is_running(&self) -> bool
        ensures { result ≡ is_some (next_act self.now.clerk) }
    {
        self.clerk.next().is_some()
    }

    /// The writer makes the next act of its call, and answers the call after its last one. It fails only if there is no memory for the
    /// history.
    pub(crate) fn act<O: Watch<V>>(&mut self, watch: &mut O) -> Result<Option<Answer>, Fault>
        requires runs { IsSome (next_act self.old.clerk) }
        requires call { (most : ℕ) × (p : Pending V) × (w : traces.Trace V) × IsInCall V self.old most p w × (most + acts_left self.old.clerk < 2 ^ 64 - 1) }
        ensures made { IfOk result (λ told. (most : ℕ) (p : Pending V) (w : traces.Trace V) →
            IsInCall V self.old most p w → most + acts_left self.old.clerk < 2 ^ 64 - 1 →
            MakesAct V self.old self.new most p w told) }
        ensures refused { OnErr result (result ≡ Err NoMemory) }
    {
        match self.clerk.next() {
            None => Ok(None),
            Some(act) => match self.world.step(Event::Write(act)) {
                Ok(given) => {
                    watch.saw(Event::Write(act), &given);
                    self.clerk.after(&mut &self.world, bit_in(given));
                    Ok(self.clerk.answer())
                }
                // The act is allowed and passes no limit.
                Err(Unlawful::NoMemory) => Err(Fault::NoMemory),
                Err(_) => unreachable!(),
            },
        }
    }

    /// Makes the acts of the call that runs, up to its answer.
    fn finish<O: Watch<V>>(&mut self, watch: &mut O) -> Result<Answer, Fault>
        requires runs { IsSome (next_act self.old.clerk) }
        requires call { (most : ℕ) × (p : Pending V) × (w : traces.Trace V) × IsInCall V self.old most p w × (most + acts_left self.old.clerk < 2 ^ 64 - 1) }
        ensures made { IfOk result (λ a. (most : ℕ) (p : Pending V) (w : traces.Trace V) →
            IsInCall V self.old most p w → most + acts_left self.old.clerk < 2 ^ 64 - 1 →
            Completes V self.old self.new most p w a) }
        ensures refused { OnErr result (result ≡ Err NoMemory) }
    {
        'acts: loop {
            if let Some(answer) = self.act(watch)? {
                return Ok(answer);
            }
        }
    }

    /// Begins a call; the answer, if it needs no act.
    pub(crate) fn begin(&mut self, call: Call<V>) -> Option<Answer>
        requires { (most : ℕ) × (w : traces.Trace V) × IsIdle V self.old most w }
        ensures { (most : ℕ) (w : traces.Trace V) → IsIdle V self.old most w → Begins V self.old self.new most (call_of call.entry) w result }
    {
        match call {
            Call::Put(key, value) => self.clerk.put(&mut &self.world, key, value),
            Call::PutIf(key, since, value) => self
                .clerk
                .put_if(&mut &self.world, key, since, value),
            Call::Remove(key) => self.clerk.remove(&mut &self.world, key),
            Call::PutKept(key, value) => self.clerk.put_kept(&mut &self.world, key, value),
        }
        self.clerk.answer()
    }

    /// A whole call.
    pub(crate) fn whole<O: Watch<V>>(
        &mut self,
        call: Call<V>,
        watch: &mut O,
    ) -> Result<Answer, Fault>
        requires { (most : ℕ) × (w : traces.Trace V) × IsIdle V self.old most w × HasRoom most }
        ensures made { IfOk result (λ a. (most : ℕ) (w : traces.Trace V) → IsIdle V self.old most w → HasRoom most →
            CallIsWhole V self.old self.new most (call_of call.entry) w a) }
        ensures refused { OnErr result (result ≡ Err NoMemory) }
    {
        match self.begin(call) {
            Some(answer) => Ok(answer),
            None => self.finish(watch),
        }
    }

    /// Puts a key, as long as no other one must be evicted.
    pub(crate) fn put_kept<O: Watch<V>>(
        &mut self,
        key: u64,
        value: [u64; V],
        watch: &mut O,
    ) -> Result<Result<Put, Why>, Fault>
        requires { (most : ℕ) × (w : traces.Trace V) × IsIdle V self.old most w × HasRoom most }
        ensures made { IfOk result (λ told. (most : ℕ) (w : traces.Trace V) → IsIdle V self.old most w → HasRoom most →
            CallIsWhole V self.old self.new most (KeptCall key value.entry) w (Kept told)) }
        ensures refused { OnErr result (result ≡ Err NoMemory) }
    {
        match self.whole(Call::PutKept(key, value), watch)? {
            Answer::Kept(told) => Ok(told),
            Answer::Put(_) | Answer::PutIf(_) | Answer::Remove(_) => unreachable!(),
        }
    }

    /// The moment of the table.
    pub(crate) fn moment(&self) -> u64
        requires { (most : ℕ) × (w : traces.Trace V) × IsIdle V self.now most w }
        ensures { (most : ℕ) (w : traces.Trace V) → IsIdle V self.now most w →
            result ≡ length (state_of V (shape_of_player self.now) w.acts).history }
    {
        moment(&self.world.checked(), &mut &self.world)
    }

    /// The entries of the table, in the order of their items.
    pub(crate) fn entries(&self, alloc: Global) -> Result<Vec<(u64, [u64; V])>, Fault>
        requires { (most : ℕ) × (w : traces.Trace V) × IsIdle V self.now most w }
        ensures entries { IfOk result (λ es. (most : ℕ) (w : traces.Trace V) → IsIdle V self.now most w →
            HasEntries V (shape_of_player self.now) (state_of V (shape_of_player self.now) w.acts) es.items) }
        ensures few { IfOk result (λ es. length es.items ≤ most_entries) }
        ensures refused { OnErr result (result ≡ Err NoMemory) }
    {
        match entries::<V, _>(alloc, &self.world.checked(), &mut &self.world) {
            Ok(entries) => Ok(entries),
            Err(_) => Err(Fault::NoMemory),
        }
    }

    /// Marks an item.
    fn mark<O: Watch<V>>(&mut self, item: u32, watch: &mut O)
        requires { (most : ℕ) × (w : traces.Trace V) × IsIdle V self.old most w × HasRoom most × (item < (shape_of_player self.old).items) }
        ensures { (most : ℕ) (w : traces.Trace V) → IsIdle V self.old most w → HasRoom most → IsMarked V self.old self.new most item w }
    {
        let event = Event::Write(Act::Mark(item));
        match self.world.step(event) {
            Ok(given) => watch.saw(event, &given),
            Err(_) => unreachable!(),
        }
    }

    /// Looks a key up for the writer, which marks its item.
    pub(crate) fn get<O: Watch<V>>(&mut self, key: u64, watch: &mut O) -> Reply<V>
        requires { (most : ℕ) × (w : traces.Trace V) × IsIdle V self.old most w × HasRoom most }
        ensures { (most : ℕ) (w : traces.Trace V) → IsIdle V self.old most w → HasRoom most → Looks V self.old self.new most key w result }
    {
        let checked = self.world.checked();
        let at = moment(&checked, &mut &self.world);
        match read(&checked, &mut &self.world, key) {
            None => Reply::Absent { at },
            Some(held) => {
                let value = held.value;
                let since = held.since;
                self.mark(held.item, watch);
                Reply::Found { value, at, since }
            }
        }
    }
}
