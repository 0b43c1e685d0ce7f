//! The writer of a shard, lent in place by turns that are tried for once.
ghost use Rattle.std.specs.Prelude.{◌≡◌, ◌≤◌, IfNone, IfOk, IfSome};

use crate::lending::{FREE, LiesThere, WORDS, give, take};
use atomic_table::Table;
use mc_cache::turn::{
    TurnCall, count_in_turn, get_in_turn, list_in_turn, make_in_turn, peek_in_turn,
};
use mc_cache::{Cache, DeskError, NoMemory, Reader, Reply, Writer};
use std::alloc::{AllocError, Global};
use std::marker::Model;
use std::snapshot::Snapshot;

/// A try-lock around the writer of a shard. A turn borrows the writer in place, so nothing is moved.
#[derive(Drop)]
pub(crate) struct Lender<const V: usize> {
    pub(crate) table: Table<Writer<V>, Snapshot<Writer<V>>, Snapshot<Writer<V>>, LiesThere, Global>,
}

impl<const V: usize> Model for Lender<V> {
    ghost use Rattle.std.specs.Prelude.{◌≡◌};
    ghost use Rattle.mc_shards.specs.Lending.{Lock};

    ghost Value = { Lock };

    ghost view = { λ d. record { key = d.table.shared.key; id = d.table.shared.table_id } };

    ghost invariant = { λ d. (d.table.shared.table_id.words ≡ 16) × (d.table.shared.table_id.slots ≡ 1) };
}

impl<const V: usize> Lender<V> {
    ghost use Rattle.mc_cache.specs.Failing.{TurnFails, versions_seen};
    ghost use Rattle.mc_cache.specs.Plain.{AreEntriesOf, Begins, HasAnswered, PeekMeans, TurnMeans, seen};
    ghost use Rattle.mc_cache.specs.Turns.{HasLookedInTurn, HasLookedOrMet, HasMetAtDesk, HasTriedTo, HasTriedToList, HasTriedToPeek};
    ghost use Rattle.mc_words.specs.History.{key_count};
    ghost use Rattle.mc_shards.specs.Lending.{table_of};

    /// A place for the writer.
    pub fn new(alloc: Global, writer: Writer<V>) -> Result<Lender<V>, AllocError>
        ensures of { IfOk result (λ lender. table_of lender ≡ writer.entry.of) }
    {
        writer.known();
        let key = Snapshot::of(&writer);
        let mut writers = Vec::with_capacity(alloc, 1)?;
        writers.push(writer)?;
        match Table::new(alloc, &[FREE; WORDS], writers, &key) {
            Ok((table, _seat)) => Ok(Lender { table }),
            Err(_) => Err(AllocError),
        }
    }

    /// Tries once for the turn, and with it makes the call. The caller's reader is its pass: with the turn, it catches up with the
    /// writer before the call and after it. Condition: the pass belongs to this cache, and the cache is the writer's.
    #[inline(always)]
    pub fn try_call<T, E, C: TurnCall<V, T, E>>(
        &self,
        cache: &Cache<V>,
        pass: &mut Reader<V>,
        call: C,
    ) -> Result<T, DeskError<E>>
        requires of { (table_of self.now ≡ cache.now) × (pass.old.of ≡ cache.now) }
        ensures of { pass.new.of ≡ pass.old.of }
        ensures turn { HasTriedTo V cache.now.layout.shape ((C.contract call).called cache.now.layout.shape) pass.old pass.new result }
        ensures plain { TurnMeans ((C.contract call).means) (seen V pass.old) (seen V pass.new) result }
        ensures fails { TurnFails ((C.contract call).fails cache.now.layout.shape (seen V pass.new) (versions_seen V pass.new)) result }
    {
        let shared = &self.table.shared;
        let Some(mut turn) = take(shared) else {
            return Err(DeskError::Held);
        };
        let answer = make_in_turn(cache, pass, turn.writer(shared), call);
        give(shared, turn);
        answer
    }

    /// Tries once for the turn, and with it lists each key with its value, in the order of their items. The pass has then seen all
    /// changes that led to this list. Condition: the pass belongs to this cache, and the cache is the writer's.
    pub fn try_entries(
        &self,
        alloc: Global,
        cache: &Cache<V>,
        pass: &mut Reader<V>,
    ) -> Result<Vec<(u64, [u64; V])>, DeskError<NoMemory>>
        requires of { (table_of self.now ≡ cache.now) × (pass.old.of ≡ cache.now) }
        ensures of { pass.new.of ≡ pass.old.of }
        ensures met { HasTriedToList V pass.old pass.new result }
        ensures begins { Begins (seen V pass.old) (seen V pass.new) }
        ensures plain { IfOk result (λ es. AreEntriesOf V (seen V pass.new) es.items) }
    {
        let shared = &self.table.shared;
        let Some(mut turn) = take(shared) else {
            return Err(DeskError::Held);
        };
        let listed = list_in_turn(alloc, cache, pass, turn.writer(shared));
        give(shared, turn);
        listed
    }

    /// Tries once for the turn, and with it counts the keys that the cache holds: at most its items. `None` if the try did not win. The
    /// pass has then seen all changes that led to this number. Condition: the pass belongs to this cache, and the cache is the writer's.
    pub fn try_len(&self, cache: &Cache<V>, pass: &mut Reader<V>) -> Option<usize>
        requires of { (table_of self.now ≡ cache.now) × (pass.old.of ≡ cache.now) }
        ensures of { pass.new.of ≡ pass.old.of }
        ensures held { IfNone result (pass.new ≡ pass.old) }
        ensures met { IfSome result (λ _. HasMetAtDesk V pass.old pass.new) }
        ensures begins { Begins (seen V pass.old) (seen V pass.new) }
        ensures plain { IfSome result (λ many. many ≡ key_count (seen V pass.new)) }
        ensures few { IfSome result (λ many. many ≤ cache.now.layout.shape.items) }
    {
        let shared = &self.table.shared;
        let mut turn = take(shared)?;
        let many = count_in_turn(cache, pass, turn.writer(shared));
        give(shared, turn);
        Some(many)
    }

    /// Tries once for the turn, and with it calls `Writer::peek`. `None` if the try did not win. The pass has then seen all changes that
    /// led to this answer. Condition: the pass belongs to this cache, and the cache is the writer's.
    pub fn try_peek(&self, cache: &Cache<V>, pass: &mut Reader<V>, key: u64) -> Option<Reply<V>>
        requires of { (table_of self.now ≡ cache.now) × (pass.old.of ≡ cache.now) }
        ensures of { pass.new.of ≡ pass.old.of }
        ensures turn { HasTriedToPeek V pass.old pass.new result }
        ensures plain { PeekMeans V (seen V pass.old) (seen V pass.new) key result }
    {
        let shared = &self.table.shared;
        let mut turn = take(shared)?;
        let reply = peek_in_turn(cache, pass, turn.writer(shared), key);
        give(shared, turn);
        Some(reply)
    }

    /// Looks the key up by `get`. If that is `Busy`, tries once for the turn, and with it looks the key up beside the writer.
    /// `Busy` if the try does not win either. Condition: the reader belongs to this cache, and the cache is the writer's.
    #[inline(always)]
    pub fn get_or_lend(&self, cache: &Cache<V>, pass: &mut Reader<V>, key: u64) -> Reply<V>
        requires of { (table_of self.now ≡ cache.now) × (pass.old.of ≡ cache.now) }
        ensures of { pass.new.of ≡ pass.old.of }
        ensures looked { HasLookedOrMet V cache.now.layout.shape key pass.old pass.new result }
        ensures plain { HasAnswered V (seen V pass.old) (seen V pass.new) key result }
    {
        let reply = pass.get(cache, key);
        if !matches!(reply, Reply::Busy) {
            return reply;
        }
        match self.get_beside(cache, pass, key) {
            Some(beside) => beside,
            None => reply,
        }
    }

    // One try for the turn, and with it a lookup beside the writer. It stays out of line: a lookup that is not busy should not
    // pay at entry for what a turn keeps on the stack.
    #[inline(never)]
    fn get_beside(&self, cache: &Cache<V>, pass: &mut Reader<V>, key: u64) -> Option<Reply<V>>
        requires of { (table_of self.now ≡ cache.now) × (pass.old.of ≡ cache.now) }
        ensures none { IfNone result (pass.new ≡ pass.old) }
        ensures met { IfSome result (λ reply. HasLookedInTurn V cache.now pass.old pass.new key reply) }
    {
        let shared = &self.table.shared;
        let mut turn = take(shared)?;
        let reply = get_in_turn(cache, pass, turn.writer(shared), key);
        give(shared, turn);
        Some(reply)
    }
}
