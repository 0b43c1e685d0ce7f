//! The entries of a cache, written as the words that cross the border.
ghost use Rattle.std.specs.Prelude.{◌≡◌, ◌+◌, ◌*◌, ◌<◌, ◌≤◌, MatchResult, length};
ghost use Rattle.mc_words.specs.Places.{IsWidth};
ghost use Rattle.mc_door.specs.Listing.{AreEntries, AreWritten, HasListed, RefusesList, SeesMore, words_of};
ghost use Rattle.mc_door.specs.Inside.Lists.{RefusesOutright, of_turn};
ghost use Rattle.mc_door.specs.Roles.{role_of};
ghost use Rattle.mc_door.specs.declared.listed.ListError.TheVariants as why;

use crate::side::{Hand, Side};
use mc_cache::DeskError;
use mc_words::NoMemory;
use std::alloc::Global;

/// Why the entries were not listed. Nothing was written.
#[derive(Clone, Copy, Debug, PartialEq, Eq)]
pub enum ListError {
    /// The try for a turn did not win.
    Held,
    /// There are this many entries, and fewer words than they have.
    Count(usize),
    /// There is no memory for the list.
    NoMemory,
}

// The number of words that `count` entries need, if there are as many.
pub(crate) fn room_for(count: usize, each: usize, words: usize) -> Result<usize, ListError>
    ensures { MatchResult result (λ needed. (needed ≡ count * each) × (needed ≤ words)) (λ e. (e ≡ why.Count count) × (words < count * each)) }
{
    match count.checked_mul(each) {
        Some(needed) if needed <= words => Ok(needed),
        _ => Err(ListError::Count(count)),
    }
}

// Writes the entries one after the other, each as its key and then its value.
fn write_entries<const V: usize>(entries: &[(u64, [u64; V])], words: &mut [u64])
    requires { length words.old ≡ length entries.now * (1 + V) }
    ensures { words.new ≡ words_of entries.now }
{
    for index in 0..entries.len() {
        let start = index * (1 + V);
        let entry = entries[index];
        words[start] = entry.0;
        words[start + 1..start + 1 + V].copy_from_slice(&entry.1);
    }
}

// Writes all entries, if there are enough words.
fn write_all<const V: usize>(
    entries: &[(u64, [u64; V])],
    words: &mut [u64],
) -> Result<usize, ListError>
    requires { IsWidth V }
    ensures { MatchResult result (λ count. AreWritten V entries.now words.old words.new count)
        (λ e. (e ≡ why.Count (length entries.now)) × (length words.old < length entries.now * (1 + V)) × (words.new ≡ words.old)) }
{
    let count = entries.len();
    let needed = room_for(count, 1 + V, words.len())?;
    write_entries::<V>(entries, &mut words[..needed]);
    Ok(count)
}

// What a turn listed.
pub(crate) fn of_turn<T>(listed: Result<T, DeskError<NoMemory>>) -> Result<T, ListError>
    ensures { result ≡ of_turn listed }
{
    match listed {
        Ok(entries) => Ok(entries),
        Err(DeskError::Held) => Err(ListError::Held),
        Err(DeskError::Call(NoMemory)) => Err(ListError::NoMemory),
    }
}

impl<const V: usize> Side<V> {
    fn list(&mut self, alloc: Global) -> Result<Vec<(u64, [u64; V])>, ListError>
        ensures more { SeesMore V (role_of self.old) (role_of self.new) }
        ensures listed { MatchResult result (λ es. AreEntries V (role_of self.new) es.items) (RefusesOutright V (role_of self.old) (role_of self.new)) }
    {
        match &mut self.hand {
            Hand::Pass(side) => of_turn(side.pass.entries(alloc, &side.shared.shards)),
            Hand::Holder(side) => match side.holder.entries(alloc, &side.shared.shards) {
                Ok(entries) => Ok(entries),
                Err(NoMemory) => Err(ListError::NoMemory),
            },
            Hand::Nothing => unreachable!(),
        }
    }

    /// Writes each key of the cache with its value, and returns how many they are: `Pass::entries` or
    /// `Holder::entries`.
    pub fn entries(&mut self, alloc: Global, words: &mut [u64]) -> Result<usize, ListError>
        requires width { IsWidth V }
        ensures more { SeesMore V (role_of self.old) (role_of self.new) }
        ensures listed { MatchResult result (λ count. HasListed V (role_of self.new) words.old words.new count)
            (λ e. RefusesList V (role_of self.old) (role_of self.new) (length words.old) e × (words.new ≡ words.old)) }
    {
        let entries = self.list(alloc)?;
        write_all::<V>(entries.as_slice(), words)
    }
}
