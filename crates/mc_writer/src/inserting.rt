//! The writer's puts of keys that are not there, once they have room: they are stored at once, or after a search for an item.
ghost use Rattle.std.specs.Prelude.{◌≡◌, ◌^◌, ◌<◌, [], IfErr, IfNone, IfOk, IfSome, List, Err, Ok, Some};
ghost use Rattle.mc_words.specs.Checks.{policy_of, shape_of};
ghost use Rattle.mc_words.specs.declared.policy.Policy.TheVariants.{Clock, ScanResistant};
ghost use Rattle.mc_words.specs.KeyParts.{HasParts};
ghost use Rattle.mc_words.specs.Places.{IsWidth, word_count};
ghost use Rattle.mc_theory.specs.States.{State};
ghost use Rattle.mc_search.specs.Sweeps.{Swept, IsOver, next_item};
ghost use Rattle.mc_plan.specs.Books.{HasRoom, IsSweeping, Waits};
ghost use Rattle.mc_plan.specs.Decisions.{storing_told};
ghost use Rattle.mc_plan.specs.WholeCalls.{Call, IsSweepOf, PutCall};
ghost use Rattle.mc_plan.specs.declared.answer.Answer.TheVariants as answer;
ghost use Rattle.mc_shared.specs.Views.{layout_of};
ghost use Rattle.mc_writer.specs.WriterCalls.{HasCalled, IsRested};

use crate::pen::Pen;
use mc_plan::{Books, Put, PutError, Replacement, Room, Waiting};
use mc_shared::turn_hand_unless_clear;
use mc_words::{KeyParts, Policy};

// The hand's way round.
impl<'a, const V: usize> Pen<'a, V> {
    ghost use Rattle.mc_writer.specs.Inside.Pens.{IsSamePen, state_at};
    ghost use Rattle.mc_plan.specs.declared.books.Books.{Books};
    ghost use Rattle.mc_writer.specs.Inside.Turns.{HasTurned};
    ghost use Rattle.mc_writer.specs.declared.pen.Pen.{Pen};

    // Reads one bit, while one is to be read. The recency words begin at this place.
    fn turn_hand(&mut self, start: usize, waiting: &mut Waiting<V>, i: u32)
        requires start { (start ≡ word_count V self.old.cells.now.layout.shape) × (start < 2 ^ 40) }
        requires next { next_item waiting.old.sweep ≡ Some i }
        requires turned { (b : Books) × (call : Call) × (before : Pen V) × HasTurned V b waiting.old call before self.old ×
            (shape_of b.checked ≡ self.old.cells.now.layout.shape) }
        ensures same { IsSamePen V self.old self.new }
        ensures turned { (b : Books) (call : Call) (before : Pen V) → HasTurned V b waiting.old call before self.old →
            HasTurned V b waiting.new call before self.new }
        ensures left { waiting.new.sweep.left < waiting.old.sweep.left }
    {
        let bit = turn_hand_unless_clear(self.cells, self.seat, start, i);
        waiting.after(bit);
    }

    // Reads bits until the sweep is over.
    #[inline(always)]
    fn turn_round(&mut self, waiting: &mut Waiting<V>)
        requires sweeping { (b : Books) × (call : Call) × IsSweeping V b waiting.old call (state_at V self.old) [] ×
            (shape_of b.checked ≡ self.old.cells.now.layout.shape) }
        ensures turned { (b : Books) (call : Call) → IsSweeping V b waiting.old call (state_at V self.old) [] →
            HasTurned V b waiting.new call self.old self.new }
        ensures over { (b : Books) (call : Call) (s : State V) (rs : List Swept) → IsSweeping V b waiting.new call s rs →
            IsOver (shape_of b.checked).items rs }
    {
        let start = self.cells.recency_start();
        while let Some(i) = waiting.next() {
            self.turn_hand(start, waiting, i);
        }
    }
}

// The puts.
impl<'a, const V: usize> Pen<'a, V> {
    ghost use Rattle.mc_writer.specs.Inside.Pens.{IsSamePen, state_at};
    ghost use Rattle.mc_writer.specs.Inside.Turns.{IsChosen};
    ghost use Rattle.mc_writer.specs.declared.pen.Pen.{Pen};

    /// Stores a key that finds this room. `None`: no item is free, and nothing is done.
    #[inline(always)]
    pub(crate) fn store_in(
        &mut self,
        books: &mut Books,
        key: u64,
        parts: KeyParts,
        value: &[u64; V],
        at: u64,
        room: Room,
    ) -> Option<Put>
        requires layout { self.old.cells.now.layout ≡ layout_of V books.old.checked }
        requires parts { HasParts self.old.cells.now.layout.shape key parts }
        requires room { HasRoom V books.old key value.now (state_at V self.old) at room }
        ensures same { IsSamePen V self.old self.new }
        ensures called { IfSome result (λ put. HasCalled V self.old.cells.now.layout.shape (PutCall key value.now) self.old.seat.now self.new.seat.now (answer.Put (Ok put))) }
        ensures unswept { IfSome result (λ put. IsSweepOf V self.old.cells.now.layout.shape (policy_of books.old.checked) (state_at V self.old) [] (answer.Put (Ok put))) }
        ensures rested { IfSome result (λ put. IsRested V books.new self.new.seat.now) }
        ensures pen { IfNone result (self.new ≡ self.old) }
        ensures waits { IfNone result (Waits V books.new key value.now (state_at V self.old) room) }
        ensures shape { books.new.checked ≡ books.old.checked }
    {
        match books.insert::<V, Pen<V>>(self, key, parts.mixed, room, at) {
            Some(storing) => {
                self.make_storing(books, key, parts, value, storing);
                Some(books.told(storing, None))
            }
            None => None,
        }
    }

    // Chooses the key whose item the put takes, with CLOCK: the hand advances.
    #[inline(always)]
    fn sweep(
        &mut self,
        books: &mut Books,
        key: u64,
        mixed: u64,
        value: &[u64; V],
        room: Room,
    ) -> Result<Replacement, PutError>
        requires layout { self.old.cells.now.layout ≡ layout_of V books.old.checked }
        requires clock { policy_of books.old.checked ≡ Clock }
        requires waits { Waits V books.old key value.now (state_at V self.old) room }
        ensures same { IsSamePen V self.old self.new }
        ensures shape { books.new.checked ≡ books.old.checked }
        ensures chosen { IfOk result (λ taken. IsChosen V books.new key value.now self.old self.new taken) }
        ensures refused { IfErr result (λ why. HasCalled V self.old.cells.now.layout.shape (PutCall key value.now) self.old.seat.now self.new.seat.now (answer.Put (Err why)) ×
            IsRested V books.new self.new.seat.now) }
    {
        let mut waiting = Waiting::new(books, key, *value, room);
        self.turn_round(&mut waiting);
        books.finish::<V, Pen<V>>(self, &waiting, mixed)
    }

    // Chooses it among new keys, or else among those that were used again.
    #[inline(always)]
    fn pick(
        &mut self,
        books: &mut Books,
        key: u64,
        mixed: u64,
        value: &[u64; V],
        room: Room,
    ) -> Result<Replacement, PutError>
        requires layout { self.old.cells.now.layout ≡ layout_of V books.old.checked }
        requires policy { policy_of books.old.checked ≡ ScanResistant }
        requires waits { Waits V books.old key value.now (state_at V self.old) room }
        ensures same { IsSamePen V self.old self.new }
        ensures shape { books.new.checked ≡ books.old.checked }
        ensures chosen { IfOk result (λ taken. IsChosen V books.new key value.now self.old self.new taken) }
        ensures refused { IfErr result (λ why. HasCalled V self.old.cells.now.layout.shape (PutCall key value.now) self.old.seat.now self.new.seat.now (answer.Put (Err why)) ×
            IsRested V books.new self.new.seat.now) }
    {
        let mut pick = books.pick();
        self.read_round(books, &mut pick);
        books.finish_picked::<V, Pen<V>>(self, &pick, key, mixed, room)
    }

    /// Chooses the key whose item the put takes when no item is free. `mixed` is the key that is put, mixed.
    #[inline(always)]
    pub(crate) fn choose(
        &mut self,
        books: &mut Books,
        key: u64,
        mixed: u64,
        value: &[u64; V],
        room: Room,
    ) -> Result<Replacement, PutError>
        requires layout { self.old.cells.now.layout ≡ layout_of V books.old.checked }
        requires waits { Waits V books.old key value.now (state_at V self.old) room }
        ensures same { IsSamePen V self.old self.new }
        ensures shape { books.new.checked ≡ books.old.checked }
        ensures chosen { IfOk result (λ taken. IsChosen V books.new key value.now self.old self.new taken) }
        ensures refused { IfErr result (λ why. HasCalled V self.old.cells.now.layout.shape (PutCall key value.now) self.old.seat.now self.new.seat.now (answer.Put (Err why)) ×
            IsRested V books.new self.new.seat.now) }
    {
        match books.policy() {
            Policy::Clock => self.sweep(books, key, mixed, value, room),
            Policy::ScanResistant => self.pick(books, key, mixed, value, room),
        }
    }

    /// Takes the item of the key that was chosen, and puts the key there.
    #[inline(always)]
    pub(crate) fn take_item(
        &mut self,
        books: &Books,
        key: u64,
        parts: KeyParts,
        value: &[u64; V],
        taken: Replacement,
    ) -> Put
        requires width { IsWidth V }
        requires parts { HasParts self.old.cells.now.layout.shape key parts }
        requires chosen { (before : Pen V) × IsChosen V books.now key value.now before self.old taken }
        ensures same { IsSamePen V self.old self.new }
        ensures called { (before : Pen V) → IsChosen V books.now key value.now before self.old taken →
            HasCalled V before.cells.now.layout.shape (PutCall key value.now) before.seat.now self.new.seat.now (answer.Put (Ok result)) }
        ensures rested { IsRested V books.now self.new.seat.now }
        ensures told { result ≡ storing_told books.now.far.value.moves.items taken.storing (Some taken.victim.key) }
    {
        self.make_replacement(books, key, parts, value, taken);
        books.told(taken.storing, Some(taken.victim.key))
    }

    /// Puts a key that finds this room, and for which no item is free.
    #[inline(always)]
    fn put_waiting(
        &mut self,
        books: &mut Books,
        key: u64,
        parts: KeyParts,
        value: &[u64; V],
        room: Room,
    ) -> Result<Put, PutError>
        requires layout { self.old.cells.now.layout ≡ layout_of V books.old.checked }
        requires parts { HasParts self.old.cells.now.layout.shape key parts }
        requires waits { Waits V books.old key value.now (state_at V self.old) room }
        ensures same { IsSamePen V self.old self.new }
        ensures called { HasCalled V self.old.cells.now.layout.shape (PutCall key value.now) self.old.seat.now self.new.seat.now (answer.Put result) }
        ensures rested { IsRested V books.new self.new.seat.now }
    {
        match self.choose(books, key, parts.mixed, value, room) {
            Ok(taken) => Ok(self.take_item(books, key, parts, value, taken)),
            Err(why) => Err(why),
        }
    }

    /// Puts a key that finds this room.
    #[inline(always)]
    pub(crate) fn put_in(
        &mut self,
        books: &mut Books,
        key: u64,
        parts: KeyParts,
        value: &[u64; V],
        at: u64,
        room: Room,
    ) -> Result<Put, PutError>
        requires layout { self.old.cells.now.layout ≡ layout_of V books.old.checked }
        requires parts { HasParts self.old.cells.now.layout.shape key parts }
        requires room { HasRoom V books.old key value.now (state_at V self.old) at room }
        ensures same { IsSamePen V self.old self.new }
        ensures called { HasCalled V self.old.cells.now.layout.shape (PutCall key value.now) self.old.seat.now self.new.seat.now (answer.Put result) }
        ensures rested { IsRested V books.new self.new.seat.now }
    {
        match self.store_in(books, key, parts, value, at, room) {
            Some(put) => Ok(put),
            None => self.put_waiting(books, key, parts, value, room),
        }
    }
}
