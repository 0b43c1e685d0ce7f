//! Holding the turn of every shard.
ghost use Rattle.std.specs.Prelude.{◌≡◌, ◌≤◌, [], IsTrue, MatchResult, length, map, vec_capacity};
ghost use Rattle.mc_cache.specs.Plain.{history};
ghost use Rattle.mc_shards.specs.Holding.{HasBegunToHold, IsHolderOf, histories};
ghost use Rattle.mc_shards.specs.Inside.Held.{HaveTaken, HaveWriters, writers_of, locks_of};
ghost use Rattle.mc_shards.specs.Loadings.{HaveMet};
ghost use Rattle.mc_shards.specs.Plain.{AllBegin, seens};
ghost use Rattle.mc_shards.specs.Sharded.{ArePassOf};

use crate::lending::{Turn, give, take};
use crate::pass::Pass;
use crate::shards::Shards;
use mc_cache::Reader;
use std::marker::Model;

/// A thread's handle that holds the turn of every shard. Nobody else changes the map until it releases them. A program that forgets to
/// release them does not compile. In contracts it is the records of its readers and of the writers.
pub struct Holder<const V: usize> {
    pub(crate) readers: Vec<Reader<V>>,
    // In the order of the shards.
    pub(crate) turns: Vec<Turn<V>>,
}

impl<const V: usize> Model for Holder<V> {
    ghost use Rattle.std.specs.Prelude.{◌≤◌, vec_capacity};
    ghost use Rattle.mc_shards.specs.Holding.{Holding};
    ghost use Rattle.mc_shards.specs.Inside.Held.{HaveWriters, holding};

    ghost Value = { Holding };

    ghost view = { λ h. holding h.readers.items h.turns.items };

    ghost invariant = { λ h. HaveWriters h.turns.items × (256 ≤ vec_capacity h.turns) };
}

// Takes the turn of every shard, in order, until a try does not win.
fn take_all<const V: usize>(shards: &Shards<V>, turns: &mut Vec<Turn<V>>) -> bool
    requires none { turns.old.items ≡ [] }
    requires room { 256 ≤ vec_capacity turns.old }
    ensures taken { HaveTaken V shards.now.locks turns.new.items }
    ensures room { 256 ≤ vec_capacity turns.new }
    ensures all { IsTrue result → length turns.new.items ≡ length shards.now.tables }
{
    shards.known();
    for n in 0..shards.count() as usize {
        let Some(turn) = take(&shards.lender(n).table.shared) else {
            return false;
        };
        turns.push_reserved(turn);
    }
    true
}

// Gives the turns back, from the last one on.
fn give_all<const V: usize>(shards: &Shards<V>, turns: &mut Vec<Turn<V>>)
    requires taken { HaveTaken V shards.now.locks turns.old.items }
    ensures none { turns.new.items ≡ [] }
    ensures room { vec_capacity turns.new ≡ vec_capacity turns.old }
{
    shards.known();
    while let Some(turn) = turns.pop() {
        give(&shards.lender(turns.len()).table.shared, turn);
    }
}

// Lets each reader meet the writer of its shard.
fn meet<const V: usize>(shards: &Shards<V>, readers: &mut Vec<Reader<V>>, turns: &mut Vec<Turn<V>>)
    requires readers { ArePassOf shards.now readers.old.items }
    requires writers { HaveWriters turns.old.items }
    requires locks { locks_of turns.old.items ≡ shards.now.locks }
    ensures turns { (turns.new.items ≡ turns.old.items) × (vec_capacity turns.new ≡ vec_capacity turns.old) }
    ensures readers { ArePassOf shards.now readers.new.items }
    ensures met { HaveMet (writers_of turns.old.items) readers.new.items }
    ensures begins { AllBegin (seens V readers.old.items) (map (history V) (writers_of turns.old.items)) }
{
    shards.known();
    for n in 0..shards.count() as usize {
        let turn = &mut turns[n];
        let writer = turn.writer(&shards.lender(n).table.shared);
        let _moment = readers[n].catch_up(shards.cache(n), writer);
    }
}

impl<const V: usize> Pass<V> {
    /// Takes the turn of every shard and keeps it: the pass becomes a holder. It has then met every writer. `Err` if one of the tries did not
    /// win: then it holds none, and the pass is given back. Condition: the pass belongs to these shards.
    pub fn hold(self, shards: &Shards<V>) -> Result<Holder<V>, Pass<V>>
        requires of { ArePassOf shards.now self }
        ensures { MatchResult result (λ holder. HasBegunToHold V shards.now self.entry holder) (λ pass. pass ≡ self.entry) }
    {
        shards.known();
        let (mut readers, mut turns) = self.into_parts();
        if !take_all(shards, &mut turns) {
            give_all(shards, &mut turns);
            return Err(Pass {
                readers,
                room: turns,
            });
        }
        meet(shards, &mut readers, &mut turns);
        Ok(Holder { readers, turns })
    }
}

impl<const V: usize> Holder<V> {
    /// Gives the turn of every shard back: the holder becomes a pass, which has seen all that the holder did. Condition: the holder belongs to
    /// these shards.
    pub fn release(self, shards: &Shards<V>) -> Pass<V>
        requires of { IsHolderOf shards.now self }
        ensures of { ArePassOf shards.now result }
        ensures met { HaveMet self.entry.writers result }
        ensures plain { AllBegin (seens V self.entry.readers) (histories V self.entry) × (seens V result ≡ histories V self.entry) }
    {
        shards.known();
        let Holder {
            mut readers,
            mut turns,
        } = self;
        meet(shards, &mut readers, &mut turns);
        give_all(shards, &mut turns);
        Pass {
            readers,
            room: turns,
        }
    }
}
