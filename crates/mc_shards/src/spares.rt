//! Readers that no pass has had, for passes that are wanted later.
ghost use Rattle.std.specs.Prelude.{◌≡◌, ◌+◌, ◌<◌, ◌≤◌, [], All, IfOk, MatchResult, length, vec_capacity};
ghost use Rattle.mc_shards.specs.Sharded.{ArePassOf};

use crate::opening::blank_passes;
use crate::pass::Pass;
use crate::shards::Shards;
use mc_cache::Reader;
use std::alloc::{AllocError, Global};

/// Readers of shards that no pass has had: a list for each shard, all of one length. A list takes one block of memory, however many readers
/// it has.
#[derive(Drop)]
pub struct Spares<const V: usize> {
    pub(crate) lists: Vec<Vec<Reader<V>>>,
    // The length of each list.
    pub(crate) count: usize,
}

/// Why no passes are made of spare readers.
#[derive(Clone, Copy, Debug, PartialEq, Eq)]
pub enum SparesError {
    /// There are fewer readers.
    Few,
    /// There is no memory.
    NoMemory,
}

// Empty lists, each with room for this many readers.
fn rooms<const V: usize>(
    alloc: Global,
    many: usize,
    readers: usize,
) -> Result<Vec<Vec<Reader<V>>>, AllocError>
    ensures many { IfOk result (λ lists. length lists.items ≡ many) }
    ensures empty { IfOk result (λ lists. All (λ list. (list.items ≡ []) × (readers ≤ vec_capacity list)) lists.items) }
{
    let mut lists = Vec::with_capacity(alloc, many)?;
    for n in 0..many {
        let _n = n;
        lists.push(Vec::with_capacity(alloc, readers)?)?;
    }
    Ok(lists)
}

impl<const V: usize> Spares<V> {
    ghost use Rattle.mc_shards.specs.Spares.{AreSparesOf, RefusesSpares, count_of};

    /// How many passes can be made of them.
    pub fn count(&self) -> usize
        ensures { result ≡ count_of self.now }
    {
        self.count
    }

    // The last reader of each list.
    fn next(&mut self, shards: &Shards<V>, mut room: Vec<Reader<V>>) -> Vec<Reader<V>>
        requires of { AreSparesOf shards.now self.old }
        requires some { 0 < count_of self.old }
        requires room { (room.items ≡ []) × (length shards.now.tables ≤ vec_capacity room) }
        ensures of { AreSparesOf shards.now self.new }
        ensures count { count_of self.new + 1 ≡ count_of self.old }
        ensures given { ArePassOf shards.now result.items }
    {
        for n in 0..shards.count() as usize {
            let Some(reader) = self.lists[n].pop() else {
                unreachable!();
            };
            room.push_reserved(reader);
        }
        self.count -= 1;
        room
    }

    /// Makes passes of them, if there are enough. All memory is taken before the first reader is. After an error all of them are there still.
    /// Condition: they are spares of these shards.
    pub fn take(
        &mut self,
        alloc: Global,
        shards: &Shards<V>,
        many: usize,
    ) -> Result<Vec<Pass<V>>, SparesError>
        requires of { AreSparesOf shards.now self.old }
        ensures of { AreSparesOf shards.now self.new }
        ensures taken { MatchResult result (λ given. (length given.items ≡ many) × (count_of self.new + many ≡ count_of self.old)) (λ why. RefusesSpares (count_of self.old) many why × (self.new ≡ self.old)) }
        ensures given { IfOk result (λ given. All (ArePassOf shards.now) given.items) }
    {
        if many > self.count {
            return Err(SparesError::Few);
        }
        let Ok(mut rooms) = rooms(alloc, many, shards.count() as usize) else {
            return Err(SparesError::NoMemory);
        };
        let Ok(mut given) = blank_passes(alloc, many) else {
            return Err(SparesError::NoMemory);
        };
        for n in 0..many {
            let Some(room) = rooms.pop() else {
                unreachable!();
            };
            let pass: &mut Pass<V> = &mut given[n];
            pass.readers = self.next(shards, room);
        }
        Ok(given)
    }
}
