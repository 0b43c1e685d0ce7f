//! The entries of a cache with their stamps, written as the words that cross the border.
ghost use Rattle.std.specs.Prelude.{◌≡◌, ◌+◌, ◌*◌, ◌<◌, IfOk, MatchOption, MatchResult, length, map};
ghost use Rattle.mc_words.specs.Places.{IsWidth};
ghost use Rattle.mc_door.specs.AnySides.{role_in, width_of};
ghost use Rattle.mc_door.specs.Held.{IsHeldOff, IsHolding};
ghost use Rattle.mc_door.specs.Listing.{AreWritten, SeesMore, words_of};
ghost use Rattle.mc_door.specs.Roles.{role_of};
ghost use Rattle.mc_door.specs.StampedListing.{AreStampedEntries, HasListedStamped, RefusesStampedList, row_of};
ghost use Rattle.mc_door.specs.declared.listed.ListError.TheVariants as why;

use crate::any_side::AnySide;
use crate::listed::{ListError, room_for};
use crate::side::{Hand, Side};
use crate::with_side;
use mc_cache::Entry;
use mc_words::NoMemory;
use std::alloc::Global;

// Writes the entries one after the other, each as its key, its value and its stamp.
fn write_stamped<const V: usize>(entries: &[Entry<V>], words: &mut [u64])
    requires { length words.old ≡ length entries.now * (2 + V) }
    ensures { words.new ≡ words_of (map row_of entries.now) }
{
    for index in 0..entries.len() {
        let start = index * (2 + V);
        let entry = entries[index];
        let value = entry.value;
        words[start] = entry.key;
        words[start + 1..start + 1 + V].copy_from_slice(&value);
        words[start + 1 + V] = entry.since;
    }
}

// Writes all entries, if there are enough words.
fn write_all<const V: usize>(entries: &[Entry<V>], words: &mut [u64]) -> Result<usize, ListError>
    requires { IsWidth V }
    ensures { MatchResult result (λ count. AreWritten (V + 1) (map row_of entries.now) words.old words.new count)
        (λ e. (e ≡ why.Count (length entries.now)) × (length words.old < length entries.now * (2 + V)) × (words.new ≡ words.old)) }
{
    let count = entries.len();
    let needed = room_for(count, 2 + V, words.len())?;
    write_stamped::<V>(entries, &mut words[..needed]);
    Ok(count)
}

impl<const V: usize> Side<V> {
    // The entries with their stamps, by a side that holds. `None` by another.
    fn list_stamped_held(&mut self, alloc: Global) -> Option<Result<Vec<Entry<V>>, NoMemory>>
        ensures same { role_of self.new ≡ role_of self.old }
        ensures listed { MatchOption result (¬ IsHolding (role_of self.old)) (λ listed. IsHolding (role_of self.old) × IfOk listed (λ es. AreStampedEntries V (role_of self.old) es.items)) }
    {
        match &mut self.hand {
            Hand::Holder(side) => Some(side.holder.stamped_entries(alloc, &side.shared.shards)),
            _ => None,
        }
    }

    // The same. A side that holds no turns takes them for this. `None` if a try did not win.
    fn list_stamped(&mut self, alloc: Global) -> Option<Result<Vec<Entry<V>>, NoMemory>>
        ensures { MatchOption result (IsHeldOff (role_of self.old) (role_of self.new))
            (λ listed. SeesMore V (role_of self.old) (role_of self.new) × IfOk listed (λ es. AreStampedEntries V (role_of self.new) es.items)) }
    {
        if let Some(listed) = self.list_stamped_held(alloc) {
            return Some(listed);
        }
        if self.hold().is_err() {
            return None;
        }
        let listed = self.list_stamped_held(alloc);
        self.release();
        listed
    }

    fn stamped_entries(&mut self, alloc: Global, words: &mut [u64]) -> Result<usize, ListError>
        requires width { IsWidth V }
        ensures { MatchResult result (λ count. HasListedStamped V (role_of self.old) (role_of self.new) words.old words.new count)
            (λ e. RefusesStampedList V (role_of self.old) (role_of self.new) (length words.old) e × (words.new ≡ words.old)) }
    {
        let entries = match self.list_stamped(alloc) {
            Some(Ok(entries)) => entries,
            Some(Err(NoMemory)) => return Err(ListError::NoMemory),
            None => return Err(ListError::Held),
        };
        write_all::<V>(entries.as_slice(), words)
    }
}

impl AnySide {
    /// Writes each entry of the cache as its key, its value and the moment of its key's last put, and returns how many they are:
    /// `Holder::stamped_entries`.
    pub fn stamped_entries(&mut self, alloc: Global, words: &mut [u64]) -> Result<usize, ListError>
        ensures width { width_of self.new ≡ width_of self.old }
        ensures listed { MatchResult result (λ count. HasListedStamped (width_of self.old) (role_in self.old) (role_in self.new) words.old words.new count)
            (λ e. RefusesStampedList (width_of self.old) (role_in self.old) (role_in self.new) (length words.old) e × (words.new ≡ words.old)) }
    {
        with_side!(self, side => side.stamped_entries(alloc, words))
    }
}
