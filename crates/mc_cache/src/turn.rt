//! A turn with the writer in hand: the reader that is its pass meets the writer, the call is made, and they meet once more.
ghost use Rattle.std.specs.Prelude.{◌≡◌, IfOk, Some};
ghost use Rattle.mc_cache.specs.TurnCalls.{CanMake, HasMade};
ghost use Rattle.mc_cache.specs.Failing.{TurnFails, versions_seen};
ghost use Rattle.mc_cache.specs.Inside.Turned.{HasBegunWith, HasEnded, turned};
ghost use Rattle.mc_cache.specs.Plain.{AreEntriesOf, Begins, HasMet, PeekMeans, TurnMeans, history, seen};
ghost use Rattle.mc_cache.specs.Resting.{IsAtRest};
ghost use Rattle.mc_cache.specs.Turns.{HasLookedInTurn, HasMetAtDesk, HasTriedTo, HasTriedToList, HasTriedToPeek};
ghost use Rattle.mc_words.specs.History.{key_count};

use crate::bounding::Bounded;
use crate::cache::Cache;
use crate::desk::DeskError;
use crate::reader::Reader;
use crate::writer::Writer;
use mc_words::{NoMemory, Reply};
use mc_writer::{Entry, Evict, Replaced, Swapped, Take};
use std::alloc::Global;
use std::marker::PhantomData;

/// The types of answers that have a const parameter. `TurnCall::make` names them, because the method of an `impl` could not return them
/// otherwise. The value takes no place.
pub type Answers<const V: usize> = PhantomData<
    (
        Swapped<V>,
        Replaced<V>,
        Take<V>,
        Evict<V>,
        Entry<V>,
        Bounded<V>,
    ),
>;

/// A call of the writer, with its arguments.
pub trait TurnCall<const V: usize, T, E>: Drop {
    ghost use Rattle.mc_cache.specs.TurnCalls.{Contract};

    // What it does, means and fails with.
    ghost contract: { Self → Contract V T E };

    /// Makes the call. Condition: the writer belongs to this cache.
    fn make(self, cache: &Cache<V>, writer: &mut Writer<V>, answers: Answers<V>) -> Result<T, E>
        requires { CanMake V cache.now writer.old }
        ensures { HasMade (contract self) cache.now result writer.old writer.new };
}

// The pass meets the writer before the call.
#[inline(always)]
fn begin<const V: usize>(cache: &Cache<V>, pass: &mut Reader<V>, writer: &mut Writer<V>)
    requires of { (pass.old.of ≡ cache.now) × (writer.old.of ≡ cache.now) }
    ensures writer { writer.new ≡ writer.old }
    ensures begun { HasBegunWith V cache.now pass.old pass.new writer.old }
    ensures plain { HasMet V (seen V pass.old) (seen V pass.new) (history V writer.old) }
{
    pass.catch_up(cache, writer);
    writer.known();
}

// And after it.
#[inline(always)]
fn end<const V: usize>(cache: &Cache<V>, pass: &mut Reader<V>, writer: &mut Writer<V>)
    requires of { (pass.old.of ≡ cache.now) × (writer.old.of ≡ cache.now) }
    ensures writer { writer.new ≡ writer.old }
    ensures rests { IsAtRest V writer.new }
    ensures ended { HasEnded V cache.now.layout.shape pass.old pass.new writer.old }
    ensures plain { HasMet V (seen V pass.old) (seen V pass.new) (history V writer.old) }
{
    pass.catch_up(cache, writer);
    writer.known();
}

// The answer of a turn, from that of its call.
#[inline(always)]
fn turned<T, E>(answer: Result<T, E>) -> Result<T, DeskError<E>>
    ensures { result ≡ turned answer }
{
    match answer {
        Ok(done) => Ok(done),
        Err(why) => Err(DeskError::Call(why)),
    }
}

/// A turn that makes a call.
#[inline(always)]
pub fn make_in_turn<const V: usize, T, E, C: TurnCall<V, T, E>>(
    cache: &Cache<V>,
    pass: &mut Reader<V>,
    writer: &mut Writer<V>,
    call: C,
) -> Result<T, DeskError<E>>
    requires of { (pass.old.of ≡ cache.now) × (writer.old.of ≡ cache.now) }
    ensures writer { (writer.new.of ≡ writer.old.of) × IsAtRest V writer.new }
    ensures of { pass.new.of ≡ pass.old.of }
    ensures turn { HasTriedTo V cache.now.layout.shape ((C.contract call).called cache.now.layout.shape) pass.old pass.new result }
    ensures plain { TurnMeans ((C.contract call).means) (seen V pass.old) (seen V pass.new) result }
    ensures fails { TurnFails ((C.contract call).fails cache.now.layout.shape (seen V pass.new) (versions_seen V pass.new)) result }
{
    begin(cache, pass, writer);
    cache.known();
    let answer = call.make(cache, writer, PhantomData);
    end(cache, pass, writer);
    turned(answer)
}

/// A turn that looks a key up beside the writer.
pub fn get_in_turn<const V: usize>(
    cache: &Cache<V>,
    pass: &mut Reader<V>,
    writer: &mut Writer<V>,
    key: u64,
) -> Reply<V>
    requires of { (pass.old.of ≡ cache.now) × (writer.old.of ≡ cache.now) }
    ensures writer { (writer.new ≡ writer.old) × IsAtRest V writer.new }
    ensures met { HasLookedInTurn V cache.now pass.old pass.new key result }
{
    writer.known();
    pass.get_beside(cache, writer, key)
}

/// A turn that looks a key up, and marks nothing.
pub fn peek_in_turn<const V: usize>(
    cache: &Cache<V>,
    pass: &mut Reader<V>,
    writer: &mut Writer<V>,
    key: u64,
) -> Reply<V>
    requires of { (pass.old.of ≡ cache.now) × (writer.old.of ≡ cache.now) }
    ensures writer { (writer.new ≡ writer.old) × IsAtRest V writer.new }
    ensures of { pass.new.of ≡ pass.old.of }
    ensures turn { HasTriedToPeek V pass.old pass.new (Some result) }
    ensures plain { PeekMeans V (seen V pass.old) (seen V pass.new) key (Some result) }
{
    begin(cache, pass, writer);
    writer.peek(cache, key)
}

/// A turn that lists the entries.
pub fn list_in_turn<const V: usize>(
    alloc: Global,
    cache: &Cache<V>,
    pass: &mut Reader<V>,
    writer: &mut Writer<V>,
) -> Result<Vec<(u64, [u64; V])>, DeskError<NoMemory>>
    requires of { (pass.old.of ≡ cache.now) × (writer.old.of ≡ cache.now) }
    ensures writer { (writer.new ≡ writer.old) × IsAtRest V writer.new }
    ensures met { HasTriedToList V pass.old pass.new result }
    ensures begins { Begins (seen V pass.old) (seen V pass.new) }
    ensures plain { IfOk result (λ es. AreEntriesOf V (seen V pass.new) es.items) }
{
    begin(cache, pass, writer);
    turned(writer.entries(alloc, cache))
}

/// A turn that counts the keys.
pub fn count_in_turn<const V: usize>(
    cache: &Cache<V>,
    pass: &mut Reader<V>,
    writer: &mut Writer<V>,
) -> usize
    requires of { (pass.old.of ≡ cache.now) × (writer.old.of ≡ cache.now) }
    ensures writer { (writer.new ≡ writer.old) × IsAtRest V writer.new }
    ensures met { HasMetAtDesk V pass.old pass.new }
    ensures begins { Begins (seen V pass.old) (seen V pass.new) }
    ensures plain { result ≡ key_count (seen V pass.new) }
{
    begin(cache, pass, writer);
    writer.len()
}
