//! A world: one writer and its readers. Each event is one atomic step.
ghost use Rattle.std.specs.Prelude.{◌≡◌, ◌<◌};

use crate::parts::Parts;
use crate::recency::recency_word;
use mc_theory::{Event, Stepped, Unlawful};
use mc_words::{Change, Checked, MOST_READERS};
use std::alloc::Global;
use std::marker::Model;
use thiserror::Error;

/// Why no world is made.
#[derive(Clone, Copy, Debug, PartialEq, Eq, Error)]
pub enum WorldError {
    #[error("readers must be from 1 to 1024")]
    Readers,
    #[error("no memory")]
    NoMemory,
}

/// One writer and some readers, seen from outside: all that they do is an order of events.
#[derive(Drop)]
pub struct World<const V: usize> {
    pub(crate) parts: Parts<V>,
}

impl<const V: usize> Model for World<V> {
    ghost use Rattle.mc_core.specs.Seen.{WorldView};

    ghost Value = { WorldView V };

    ghost use Rattle.mc_core.specs.Inside.Parts.{view_of, AreReached};

    ghost view = { λ w. view_of {V = V} w.parts };

    ghost invariant = { λ w. AreReached {V = V} w.parts };
}

impl<const V: usize> World<V> {
    ghost use Rattle.std.specs.Prelude.{ℕ, ◌≡◌, ◌+◌, ◌-◌, ◌^◌, ◌<◌, ◌≤◌, ◌++◌, ◌↔◌, ◌⊎◌, All, IfOk, IfErr, IsErrOf, OnOk, OnErr, is_some, length, slice_index};
    ghost use Rattle.std.specs.List.{list_any};
    ghost use Rattle.mc_words.specs.Checks.{shape_of};
    ghost use Rattle.mc_words.specs.Places.{IsWidth, all_words, word_count};
    ghost use Rattle.mc_words.specs.Readers.{most_readers};
    ghost use Rattle.mc_words.specs.Shapes.{IsShape};
    ghost use Rattle.mc_core.specs.Packed.{HasBits};
    ghost use Rattle.mc_core.specs.Seen.{Shows, MayAct, state_after};
    ghost use Rattle.mc_theory.specs.Traces as traces;
    ghost use Rattle.mc_theory.specs.Traces.{IsBit, bit_of, given_of};
    ghost use Rattle.mc_theory.specs.declared.act.Act.{Act};
    ghost use Rattle.mc_theory.specs.declared.act.Act.TheVariants as act;
    ghost use Rattle.mc_theory.specs.declared.event.Event.TheVariants.{Write};
    ghost use Rattle.mc_theory.specs.declared.event.Unlawful.TheVariants as unlawful;
    ghost use Rattle.mc_core.specs.declared.world.WorldError.TheVariants as error;

    /// A new world with `readers` readers: nothing was written, and no lookup runs.
    /// Condition: a value has from 1 to 8 words.
    pub fn new(alloc: Global, checked: &Checked, readers: u32) -> Result<World<V>, WorldError>
        requires { IsWidth V }
        ensures ok { IfOk result (λ w. (w.shape ≡ shape_of checked.now) × Shows {V = V} w (traces.first_trace V (shape_of checked.now) readers)) }
        ensures readers { IsErrOf result error.Readers ↔ ((readers ≡ 0) ⊎ (most_readers < readers)) }
    {
        if readers == 0 || readers > MOST_READERS {
            return Err(WorldError::Readers);
        }
        match Parts::new(alloc, checked, readers) {
            Ok(parts) => Ok(World { parts }),
            Err(_) => Err(WorldError::NoMemory),
        }
    }

    /// Makes one event, or refuses it.
    pub fn step(&mut self, event: Event) -> Result<Stepped<V>, Unlawful>
        ensures ok { IfOk result (λ out. (seen : traces.Trace V) → Shows {V = V} self.old seen →
            (next : traces.Trace V) × traces.StepsByClock V self.old.shape seen event next ×
            traces.EventGives {V = V} seen event next out × Shows {V = V} self.new next) }
        ensures told { IfOk result (λ out. (seen : traces.Trace V) → Shows {V = V} self.old seen →
            traces.IsReached V self.old.shape seen → (next : traces.Trace V) ×
            traces.StepsByClock V self.old.shape seen event next × traces.EventGives {V = V} seen event next out ×
            Shows {V = V} self.new next × traces.IsReached V self.old.shape next ×
            All (traces.IsTrueEnd V self.old.shape next) next.ended) }
        ensures refused { IfErr result (λ why. (seen : traces.Trace V) → Shows {V = V} self.old seen →
            traces.RefusesEvent {V = V} self.old.shape seen event why) }
        ensures unchanged { OnErr result (self.new ≡ self.old) }
        ensures shape { self.new.shape ≡ self.old.shape }
        ensures state { OnOk result (self.new.state ≡ state_after {V = V} self.old event) }
        ensures counted { OnOk result (self.new.events ≡ self.old.events + 1) }
        ensures lawful { (a : Act) → event ≡ Write a → MayAct {V = V} self.old a → IfErr result (λ why. (why ≡ unlawful.NoMemory) × (a ≡ act.Moment)) }
        ensures given { (a : Act) → event ≡ Write a → IfOk result (λ out. out ≡ given_of {V = V} (bit_of self.old.bits a) a) }
    {
        self.parts.step(event)
    }

    /// Does nothing. Every world is as some events leave a new one, and the lookups of these events replied truly.
    pub fn reached(&self)
        ensures shape { IsShape self.now.shape }
        ensures events { (seen : traces.Trace V) × traces.IsReached V self.now.shape seen ×
            Shows {V = V} self.now seen × All (traces.IsTrueEnd V self.now.shape seen) seen.ended }
        ensures limit { self.now.state.version_steps ≤ self.now.shape.limit }
        ensures bits { All IsBit self.now.bits }
        ensures items { length self.now.bits ≡ self.now.shape.items }
    {
        let _parts = &self.parts;
    }

    /// The changes so far, in their order.
    pub fn history(&self) -> &[Change<V>]
        ensures { result.now ≡ self.now.state.history }
    {
        &self.parts.writer.history
    }

    /// The shape of the table.
    pub fn checked(&self) -> Checked
        ensures { shape_of result ≡ self.now.shape }
    {
        self.parts.writer.table.checked
    }

    /// How many readers there are.
    pub fn readers(&self) -> u32
        ensures { result ≡ length self.now.readers }
    {
        self.parts.readers.len() as u32
    }

    /// Whether a lookup runs.
    pub fn is_looking(&self) -> bool
        ensures { result ≡ list_any is_some self.now.readers }
    {
        self.parts.readers.iter().any(
            |reader| -> bool
                ensures { result ≡ is_some reader.now }
            { reader.is_some() },
        )
    }

    /// A word of the table. The recency words come last: 64 items share one.
    /// Condition: `n` is below the number of words, `checked().words()`.
    pub fn word(&self, n: usize) -> u64
        requires { n < all_words V self.now.shape }
        ensures words { n < word_count V self.now.shape → result ≡ slice_index self.now.state.words n }
        ensures bits { word_count V self.now.shape ≤ n → HasBits V self.now.shape self.now.bits n result }
    {
        let words = &self.parts.writer.table.words;
        if n < words.len() {
            words[n]
        } else {
            recency_word(&self.parts.bits, n - words.len())
        }
    }
}
