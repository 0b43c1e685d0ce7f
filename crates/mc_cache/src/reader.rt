//! The readers.
ghost use Rattle.std.specs.Prelude.{ℕ, ◌≡◌, [], ◌∷◌, length, Some, IfSome, IfNone};
ghost use Rattle.mc_theory.specs.Lists.{state_of};
ghost use Rattle.mc_theory.specs.Plain.{IsBetween};
ghost use Rattle.mc_words.specs.History.{IsTrueAnswer, map_value};
ghost use Rattle.mc_words.specs.Standing.{Stands};
ghost use Rattle.mc_writer.specs.WriterCalls.{IsRested};
ghost use Rattle.mc_shared.specs.Records.{reader_record};
ghost use Rattle.mc_shared.specs.Views.{AreLawful, IsFrontOf};
ghost use Rattle.mc_shared.specs.TableRule.{IsRecord};
ghost use Rattle.mc_reader.specs.Records.{AreTrueAnswers, HasLooked, HaveLooked};
ghost use Rattle.mc_cache.specs.Beside.{HasLookedBeside};
ghost use Rattle.mc_cache.specs.Orders.{HasAnsweredInOrder};
ghost use Rattle.mc_cache.specs.Plain.{Begins, HasAnswered, HasMet, TellsNow, history, seen};

use crate::cache::Cache;
use crate::writer::Writer;
use mc_reader::{get, get_many};
use mc_shared::{ReaderSeat, catch, mark_unless_set};
use mc_words::Reply;
use mc_writer::look;
use std::marker::Model;

/// A reader. In contracts it is its record: its number, the writer's acts that it has seen (its front), and what it read and
/// marked.
#[derive(Drop)]
pub struct Reader<const V: usize> {
    pub(crate) seat: ReaderSeat,
}

impl<const V: usize> Model for Reader<V> {
    ghost use Rattle.mc_shared.specs.Records.{ReaderRecord};

    ghost Value = { ReaderRecord };

    ghost view = { λ r. r.seat };
}

impl<const V: usize> Reader<V> {
    /// Looks the key up. `Busy` if changes of keys of the same stripe spoiled each of the shape's tries. A hit marks the key's
    /// item as recently used. Condition: the reader belongs to this cache.
    #[inline(always)]
    pub fn get(&mut self, cache: &Cache<V>, key: u64) -> Reply<V>
        requires of { self.old.of ≡ cache.now }
        ensures looked { HasLooked V cache.now.layout.shape key self.old self.new result }
        ensures truth { IsTrueAnswer (state_of V cache.now.layout.shape self.new.front).history key result }
        ensures between { IsBetween (length (state_of V cache.now.layout.shape self.old.front).history)
            (length (state_of V cache.now.layout.shape self.new.front).history) result }
        ensures plain { HasAnswered V (seen V self.old) (seen V self.new) key result }
    {
        get(&cache.cells, &mut self.seat, key)
    }

    /// Looks the keys up. Equivalent to calling `get` for each key in order. In a large cache it is faster, because the
    /// processor waits for the words of several keys at once.
    /// Condition: the reader belongs to this cache, and there are as many replies as keys.
    pub fn get_many(&mut self, cache: &Cache<V>, keys: &[u64], replies: &mut [Reply<V>])
        requires of { self.old.of ≡ cache.now }
        requires many { length replies.old ≡ length keys.now }
        ensures of { self.new.of ≡ self.old.of }
        ensures looked { HaveLooked V cache.now.layout.shape keys.now self.old self.new replies.new }
        ensures truth { AreTrueAnswers (state_of V cache.now.layout.shape self.new.front).history
            (length (state_of V cache.now.layout.shape self.old.front).history)
            (length (state_of V cache.now.layout.shape self.new.front).history) keys.now replies.new }
        ensures plain { Begins (seen V self.old) (seen V self.new) × AreTrueAnswers (seen V self.new)
            (length (seen V self.old)) (length (seen V self.new)) keys.now replies.new }
    {
        get_many(&cache.cells, &mut self.seat, keys, replies);
    }

    /// What always holds of a reader, for proofs: the acts that it has seen are lawful, each word that it read is the one that
    /// its place had at that front, and fronts never decrease. Does nothing at run time.
    pub fn known(&self)
        ensures lawful { AreLawful self.now.of.layout self.now.front }
        ensures recorded { IsRecord self.now.of.layout self.now.front self.now.done }
    {
        self.seat.known();
    }

    /// Meets the writer, and returns its moment. No later answer of this reader has a lower one.
    /// Condition: reader and writer belong to this cache.
    pub fn catch_up(&mut self, cache: &Cache<V>, writer: &mut Writer<V>) -> u64
        requires of { (self.old.of ≡ cache.now) × (writer.old.of ≡ cache.now) }
        ensures writer { writer.new ≡ writer.old }
        ensures reader { self.new ≡ reader_record self.old.of self.old.number writer.old.acts self.old.done }
        ensures begins { IsFrontOf self.old.front writer.old.acts }
        ensures order { HasAnsweredInOrder V cache.now.layout.shape writer.old self.old.number self.old.done }
        ensures moment { result ≡ length (state_of V cache.now.layout.shape writer.old.acts).history }
        ensures plain { HasMet V (seen V self.old) (seen V self.new) (history V writer.old) × (result ≡ length (history V writer.old)) }
    {
        let at = catch(&cache.cells, &mut self.seat, &mut writer.seat);
        writer.seat.known();
        self.seat.known();
        at
    }

    /// Looks the key up at the writer's moment. Never `Busy`. A hit marks the key's item.
    /// Condition: reader and writer belong to this cache.
    pub fn get_beside(&mut self, cache: &Cache<V>, writer: &mut Writer<V>, key: u64) -> Reply<V>
        requires of { (self.old.of ≡ cache.now) × (writer.old.of ≡ cache.now) }
        ensures writer { writer.new ≡ writer.old }
        ensures looked { HasLookedBeside V cache.now.layout.shape key writer.old.acts self.old self.new result }
        ensures order { HasAnsweredInOrder V cache.now.layout.shape writer.old self.old.number self.old.done }
        ensures plain { HasMet V (seen V self.old) (seen V self.new) (history V writer.old) × TellsNow (history V writer.old) key result }
    {
        let at = self.catch_up(cache, writer);
        match look(&cache.cells, &mut writer.seat, &writer.books, key) {
            Some(held) => {
                let value = held.value;
                let since = held.since;
                mark_unless_set(&cache.cells, &mut self.seat, held.item);
                Reply::Found { value, at, since }
            }
            None => Reply::Absent { at },
        }
    }
}
