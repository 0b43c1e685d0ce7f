//! The writer, shared by turns that are tried for once.
ghost use Rattle.std.specs.Prelude.{◌≡◌, IfNone, IfSome};
ghost use Rattle.mc_cache.specs.CallContracts.{put_contract, put_if_contract, remove_contract};
ghost use Rattle.mc_cache.specs.Resting.{IsAtRest, IsFit};

mod turns;

use crate::cache::Cache;
use crate::calls::{Putting, PuttingIf, Removing};
use crate::reader::Reader;
use crate::turn::{TurnCall, get_in_turn, make_in_turn};
use crate::writer::Writer;
use counted_slot::{Counted, Fits};
use mc_plan::{IfError, Put, PutError, Remove, Spent};
use mc_words::Reply;
use std::marker::Model;
use std::snapshot::Snapshot;

/// Why a try for the turn failed.
#[derive(Clone, Copy, Debug, PartialEq, Eq)]
pub enum DeskError<E> {
    /// The try did not win. Nothing was changed, and the pass has seen and done nothing.
    Held,
    /// The try won, and the writer's call returned this error.
    Call(E),
}

// The tag is the writer as it came.
impl<const V: usize> Fits for Writer<V> {
    type Tag = Snapshot<Writer<V>>;

    ghost fits = { λ tag w. IsFit V tag.value.of w };
}

/// A try-lock around the writer of a cache, for threads that write by turns. Lend it to every thread, as the cache. In
/// contracts it is the table that was opened.
#[derive(Drop)]
pub struct Desk<const V: usize> {
    slot: Counted<Option<Writer<V>>>,
}

impl<const V: usize> Model for Desk<V> {
    ghost use Rattle.mc_shared.specs.Records.{Opening};

    ghost Value = { Opening };

    ghost view = { λ d. d.slot.value.of };
}

impl<const V: usize> Desk<V> {
    ghost use Rattle.mc_cache.specs.Failing.{TurnFails, versions_seen};
    ghost use Rattle.mc_cache.specs.Plain.{TurnMeans, seen};
    ghost use Rattle.mc_cache.specs.Turns.{HasTriedTo};

    /// Tries once for the turn, and with it makes the call. The caller's reader is its pass: with the turn, it catches up with the
    /// writer before the call and after it. Condition: desk and pass belong to this cache.
    #[inline(always)]
    pub fn try_call<T, E, C: TurnCall<V, T, E>>(
        &self,
        cache: &Cache<V>,
        pass: &mut Reader<V>,
        call: C,
    ) -> Result<T, DeskError<E>>
        requires of { (self.now ≡ cache.now) × (pass.old.of ≡ cache.now) }
        ensures of { pass.new.of ≡ pass.old.of }
        ensures turn { HasTriedTo V cache.now.layout.shape ((C.contract call).called cache.now.layout.shape) pass.old pass.new result }
        ensures plain { TurnMeans ((C.contract call).means) (seen V pass.old) (seen V pass.new) result }
        ensures fails { TurnFails ((C.contract call).fails cache.now.layout.shape (seen V pass.new) (versions_seen V pass.new)) result }
    {
        let Some(mut turn) = self.take() else {
            return Err(DeskError::Held);
        };
        let answer = make_in_turn(cache, pass, turn.writer(), call);
        self.give(turn);
        answer
    }
}

impl<const V: usize> Desk<V> {
    ghost use Rattle.mc_cache.specs.Failing.{TurnFails, versions_seen};
    ghost use Rattle.mc_cache.specs.Plain.{TurnMeans, seen};
    ghost use Rattle.mc_cache.specs.Turns.{HasTriedTo};

    /// Puts the writer on a new desk.
    pub fn new(writer: Writer<V>) -> Desk<V>
        ensures of { result ≡ writer.entry.of }
    {
        writer.known();
        let tag = Snapshot::of(&writer);
        Desk {
            slot: Counted::new(Some(writer), &tag),
        }
    }

    /// Tries once for the turn, and with it calls `Writer::put`. The caller's reader is its pass: with the turn, it catches
    /// up with the writer before the call and after it. Condition: desk and pass belong to this cache.
    #[inline(always)]
    pub fn try_put(
        &self,
        cache: &Cache<V>,
        pass: &mut Reader<V>,
        key: u64,
        value: [u64; V],
    ) -> Result<Put, DeskError<PutError>>
        requires of { (self.now ≡ cache.now) × (pass.old.of ≡ cache.now) }
        ensures of { pass.new.of ≡ pass.old.of }
        ensures turn { HasTriedTo V cache.now.layout.shape ((put_contract V key value.entry).called cache.now.layout.shape) pass.old pass.new result }
        ensures plain { TurnMeans (put_contract V key value.entry).means (seen V pass.old) (seen V pass.new) result }
        ensures fails { TurnFails ((put_contract V key value.entry).fails cache.now.layout.shape (seen V pass.new) (versions_seen V pass.new)) result }
    {
        self.try_call(cache, pass, Putting(key, &value))
    }

    /// Like `try_put`, with `Writer::put_if`.
    #[inline(always)]
    pub fn try_put_if(
        &self,
        cache: &Cache<V>,
        pass: &mut Reader<V>,
        key: u64,
        since: u64,
        value: [u64; V],
    ) -> Result<u64, DeskError<IfError>>
        requires of { (self.now ≡ cache.now) × (pass.old.of ≡ cache.now) }
        ensures of { pass.new.of ≡ pass.old.of }
        ensures turn { HasTriedTo V cache.now.layout.shape ((put_if_contract V key since value.entry).called cache.now.layout.shape) pass.old pass.new result }
        ensures plain { TurnMeans (put_if_contract V key since value.entry).means (seen V pass.old) (seen V pass.new) result }
        ensures fails { TurnFails ((put_if_contract V key since value.entry).fails cache.now.layout.shape (seen V pass.new) (versions_seen V pass.new)) result }
    {
        self.try_call(cache, pass, PuttingIf(key, since, &value))
    }

    /// Like `try_put`, with `Writer::remove`.
    #[inline(always)]
    pub fn try_remove(
        &self,
        cache: &Cache<V>,
        pass: &mut Reader<V>,
        key: u64,
    ) -> Result<Remove, DeskError<Spent>>
        requires of { (self.now ≡ cache.now) × (pass.old.of ≡ cache.now) }
        ensures of { pass.new.of ≡ pass.old.of }
        ensures turn { HasTriedTo V cache.now.layout.shape ((remove_contract V key).called cache.now.layout.shape) pass.old pass.new result }
        ensures plain { TurnMeans (remove_contract V key).means (seen V pass.old) (seen V pass.new) result }
        ensures fails { TurnFails ((remove_contract V key).fails cache.now.layout.shape (seen V pass.new) (versions_seen V pass.new)) result }
    {
        self.try_call(cache, pass, Removing(key))
    }

    /// Takes the writer off the desk. `None` if a turn could not give it back.
    pub fn end(self) -> Option<Writer<V>>
        ensures writer { IfSome result (λ w. (w.of ≡ self.entry) × IsAtRest V w) }
    {
        self.slot.into_inner()
    }
}

impl<const V: usize> Reader<V> {
    ghost use Rattle.mc_cache.specs.Plain.{HasAnswered, seen};
    ghost use Rattle.mc_cache.specs.Turns.{HasLookedInTurn, HasLookedOrMet};

    /// Looks the key up by `get`. If that is `Busy`, tries once for the turn, and with it looks the key up by `get_beside`.
    /// `Busy` if the try does not win either. Condition: reader and desk belong to this cache.
    #[inline(always)]
    pub fn get_or_desk(&mut self, cache: &Cache<V>, desk: &Desk<V>, key: u64) -> Reply<V>
        requires of { (self.old.of ≡ cache.now) × (desk.now ≡ cache.now) }
        ensures of { self.new.of ≡ self.old.of }
        ensures looked { HasLookedOrMet V cache.now.layout.shape key self.old self.new result }
        ensures plain { HasAnswered V (seen V self.old) (seen V self.new) key result }
    {
        let reply = self.get(cache, key);
        if !matches!(reply, Reply::Busy) {
            return reply;
        }
        match self.get_in_turn(cache, desk, key) {
            Some(beside) => beside,
            None => reply,
        }
    }

    // One try for the turn, and with it a lookup beside the writer. It stays out of line: a lookup that is not busy should not
    // pay at entry for what a turn keeps on the stack.
    #[inline(never)]
    fn get_in_turn(&mut self, cache: &Cache<V>, desk: &Desk<V>, key: u64) -> Option<Reply<V>>
        requires of { (self.old.of ≡ cache.now) × (desk.now ≡ cache.now) }
        ensures none { IfNone result (self.new ≡ self.old) }
        ensures met { IfSome result (λ reply. HasLookedInTurn V cache.now self.old self.new key reply) }
    {
        let mut turn = desk.take()?;
        let reply = get_in_turn(cache, self, turn.writer(), key);
        desk.give(turn);
        Some(reply)
    }
}
