//! A plain map beside a replay, and the order of a put's steps.
use crate::due::{Due, rest_behind};
use mc_words::Shape;
use std::alloc::{AllocError, Global};

/// The answer of a put for which the hand found every bit set, twice.
pub(crate) const ALL_RECENT: &str = "refused all recent";

/// What a key has from a put on: its value, its item, and the number of that change.
#[derive(Clone, Copy)]
pub(crate) struct Held {
    pub(crate) value: u64,
    item: usize,
    since: usize,
}

/// What a key has from a change on, or nothing.
pub(crate) type Entry = Option<Held>;

/// The key that holds an item, and the item's mark.
#[derive(Clone, Copy, Default)]
pub(crate) struct Item {
    pub(crate) key: Option<u64>,
    marked: bool,
}

/// A lookup by single accesses, and how many changes and version changes there were before it.
#[derive(Clone, Copy)]
struct LookUp {
    key: u64,
    changes: usize,
    versions: u64,
}

/// What a line of a script asks for. A lookup of a reader is answered where it ends, and so is a put that is made act by
/// act: before it come the readings of the hand that find a bit set.
#[derive(Clone, Copy)]
pub(crate) enum Asked {
    Put(u64, u64),
    /// The key, the stamp that it is to have, and the new value.
    PutIf(u64, u64, u64),
    Remove(u64),
    Get(u64),
    Stamp(u64),
    Reading,
    Begin(usize, u64),
    End(usize),
    /// The buckets and the items of the other world. A line for each entry that is left comes after the first.
    Reopen(u32, u32),
}

/// The map after each change, with the items and the hand of now, and the lookups that run.
#[derive(Drop)]
pub(crate) struct Plain {
    pub(crate) alloc: Global,
    pub(crate) shape: Shape,
    pub(crate) changes: Vec<(u64, Entry)>,
    versions: u64,
    pub(crate) items: Vec<Item>,
    hand: usize,
    /// How many bits the hand has read for the put that runs.
    readings: usize,
    look_ups: [Option<LookUp>; 2],
}

/// The number after these words of a line.
pub(crate) fn number_behind(told: &str, words: &str) -> Option<u64> {
    let rest = told.split_once(words)?.1;
    rest.split(' ').next()?.parse::<u64>().ok()
}

impl Plain {
    pub(crate) fn new(alloc: Global, shape: Shape) -> Result<Plain, AllocError> {
        Ok(Plain {
            alloc,
            shape,
            changes: Vec::new(alloc),
            versions: 0,
            items: vec![in alloc; Item::default(); shape.items as usize]?,
            hand: 0,
            readings: 0,
            look_ups: [None; 2],
        })
    }

    /// What the key had after `changes` changes.
    pub(crate) fn entry(&self, key: u64, changes: usize) -> Entry {
        let made = self.changes.as_slice().get(..changes)?;
        for change in made.iter().rev() {
            if change.0 == key {
                return change.1;
            }
        }
        None
    }

    fn change(&mut self, key: u64, entry: Entry) -> Result<(), AllocError> {
        self.changes.push((key, entry))?;
        self.versions = self.versions.saturating_add(2);
        Ok(())
    }

    /// Puts the key at the item. The moment after it.
    pub(crate) fn hold(&mut self, key: u64, value: u64, item: usize) -> Result<usize, AllocError> {
        let since = self.changes.len().saturating_add(1);
        self.change(key, Some(Held { value, item, since }))?;
        Ok(since)
    }

    /// Renews a key that is there. Returns the answer that is due.
    fn renew(&mut self, key: u64, value: u64, item: usize) -> Result<Due, AllocError> {
        let at = self.hold(key, value, item)?;
        self.mark(item);
        Ok(Due::Renewed(at))
    }

    /// Whether `more` version changes more would pass the limit.
    fn is_spent(&self, more: u64) -> bool {
        self.versions.saturating_add(more) > self.shape.limit
    }

    pub(crate) fn set(&mut self, item: usize, key: Option<u64>, marked: bool) {
        if let Some(place) = self.items.get_mut(item) {
            *place = Item { key, marked };
        }
    }

    fn mark(&mut self, item: usize) {
        if let Some(place) = self.items.get_mut(item) {
            place.marked = true;
        }
    }

    /// The first free item.
    pub(crate) fn free(&self) -> Option<usize> {
        for (n, item) in self.items.iter().enumerate() {
            if item.key.is_none() {
                return Some(n);
            }
        }
        None
    }

    /// Reads the bit at the hand, which turns: the item and its key, if the bit is clear.
    fn turn(&mut self) -> Option<(usize, u64)> {
        let item = self.hand;
        let next = item.saturating_add(1);
        self.hand = if next < self.items.len() { next } else { 0 };
        let place = self.items.get_mut(item)?;
        if place.marked {
            place.marked = false;
            return None;
        }
        Some((item, place.key?))
    }

    /// The item at which the hand ends, and its key.
    fn victim(&mut self) -> Option<(usize, u64)> {
        for _ in self.readings..self.items.len().saturating_mul(2) {
            if let Some(victim) = self.turn() {
                return Some(victim);
            }
        }
        None
    }

    /// One reading of a put that runs, which finds no victim.
    fn reading(&mut self) -> bool {
        self.readings = self.readings.saturating_add(1);
        self.free().is_none() && self.turn().is_none()
    }

    /// How many keys the map has.
    pub(crate) fn held(&self) -> usize {
        let mut held: usize = 0;
        for item in self.items.iter() {
            if item.key.is_some() {
                held = held.saturating_add(1);
            }
        }
        held
    }

    /// How many keys the table can hold.
    pub(crate) fn slots(&self) -> usize {
        (self.shape.buckets as usize).saturating_mul(4)
    }

    /// Stores a new key. Another one is evicted for it if no item is free.
    fn store(&mut self, key: u64, value: u64, told: &str) -> Result<bool, AllocError> {
        // No key has to move while the slots of two buckets can't all be taken.
        let most = if self.held() < 8 {
            0
        } else {
            u64::from(self.shape.depth)
        };
        let (item, evicted) = match self.free() {
            Some(item) => (item, None),
            None => match self.victim() {
                Some((item, old)) => (item, Some(old)),
                None => return Ok(told == ALL_RECENT),
            },
        };
        let Some(moves) = number_behind(told, " moves ") else {
            return Ok(false);
        };
        if let Some(old) = evicted {
            self.change(old, None)?;
        }
        let at = self.hold(key, value, item)?;
        self.versions = self.versions.saturating_add(moves.saturating_mul(2));
        self.set(item, Some(key), true);
        let due = Due::Stored(at, moves, evicted);
        Ok(moves <= most && due.is(told))
    }

    fn put(&mut self, key: u64, value: u64, told: &str) -> Result<bool, AllocError> {
        let most = u64::from(self.shape.depth)
            .saturating_add(2)
            .saturating_mul(2);
        if self.is_spent(most) {
            return Ok(told == "refused spent");
        }
        if let Some(held) = self.entry(key, self.changes.len()) {
            return Ok(self.renew(key, value, held.item)?.is(told));
        }
        // Both buckets of the key have to be full, and no way leads to a hole if the whole table is full.
        let held = self.held();
        let is_refused = told == "refused no path";
        if is_refused || held == self.slots() {
            return Ok(is_refused && held >= 8);
        }
        self.store(key, value, told)
    }

    fn put_if(&mut self, key: u64, since: u64, value: u64, told: &str) -> Result<bool, AllocError> {
        if self.is_spent(2) {
            return Ok(told == "refused spent");
        }
        let at = self.changes.len();
        let due = match self.entry(key, at) {
            None => Due::NotThere(at),
            Some(held) if held.since as u64 != since => Due::Changed(held.since),
            Some(held) => self.renew(key, value, held.item)?,
        };
        Ok(due.is(told))
    }

    fn remove(&mut self, key: u64, told: &str) -> Result<bool, AllocError> {
        if self.is_spent(2) {
            return Ok(told == "refused spent");
        }
        let Some(held) = self.entry(key, self.changes.len()) else {
            return Ok(Due::NotThere(self.changes.len()).is(told));
        };
        self.change(key, None)?;
        if let Some(place) = self.items.get_mut(held.item) {
            place.key = None;
        }
        Ok(Due::Removed(self.changes.len()).is(told))
    }

    /// Marks the item that the key had after `at` changes. Returns the answer of the lookup that found it.
    fn find(&mut self, key: u64, at: usize) -> Due {
        match self.entry(key, at) {
            None => Due::Absent(at),
            Some(held) => {
                self.mark(held.item);
                Due::Found(held.value, at)
            }
        }
    }

    fn get(&mut self, key: u64) -> Due {
        let at = self.changes.len();
        self.find(key, at)
    }

    fn stamp(&mut self, key: u64) -> Due {
        let at = self.changes.len();
        match self.entry(key, at) {
            None => Due::Absent(at),
            Some(held) => {
                self.mark(held.item);
                Due::Stamped(held.value, at, held.since)
            }
        }
    }

    fn begin(&mut self, reader: usize, key: u64) -> bool {
        let look_up = LookUp {
            key,
            changes: self.changes.len(),
            versions: self.versions,
        };
        match self.look_ups.get_mut(reader) {
            None => false,
            Some(place) => {
                *place = Some(look_up);
                true
            }
        }
    }

    fn end(&mut self, reader: usize, told: &str) -> bool {
        let Some(told) = rest_behind(Due::Reader(reader), told) else {
            return false;
        };
        let Some(Some(look_up)) = self.look_ups.get(reader).copied() else {
            return false;
        };
        if told == "busy" {
            return self.versions > look_up.versions;
        }
        let Some(number) = number_behind(told, " at ") else {
            return false;
        };
        let at = number as usize;
        let held = look_up.changes <= at && at <= self.changes.len();
        self.find(look_up.key, at).is(told) && held
    }

    /// The first line that is not answered as the map says.
    pub(crate) fn first_wrong(
        &mut self,
        asked: &[Asked],
        text: &str,
    ) -> Result<Option<usize>, AllocError> {
        let mut lines = text.lines();
        for (number, line) in asked.iter().enumerate() {
            let told = match *line {
                Asked::Begin(_, _) | Asked::Reading => None,
                _ => lines.next(),
            };
            let mut left = Vec::new(self.alloc);
            if let Asked::Reopen(_, _) = *line {
                for _ in 0..number_behind(told.unwrap_or(""), " left ").unwrap_or(0) {
                    left.push(lines.next().unwrap_or(""))?;
                }
            }
            if !self.allows(*line, told, left.as_slice())? {
                return Ok(Some(number));
            }
        }
        Ok(match lines.next() {
            None => None,
            Some(_) => Some(asked.len()),
        })
    }

    fn allows(
        &mut self,
        asked: Asked,
        told: Option<&str>,
        left: &[&str],
    ) -> Result<bool, AllocError> {
        match (asked, told) {
            (Asked::Begin(reader, key), None) => Ok(self.begin(reader, key)),
            (Asked::Put(key, value), Some(told)) => {
                let is_so = self.put(key, value, told)?;
                self.readings = 0;
                Ok(is_so)
            }
            (Asked::Reading, None) => Ok(self.reading()),
            (Asked::PutIf(key, since, value), Some(told)) => self.put_if(key, since, value, told),
            (Asked::Remove(key), Some(told)) => self.remove(key, told),
            (Asked::Get(key), Some(told)) => Ok(self.get(key).is(told)),
            (Asked::Stamp(key), Some(told)) => Ok(self.stamp(key).is(told)),
            (Asked::End(reader), Some(told)) => Ok(self.end(reader, told)),
            (Asked::Reopen(buckets, items), Some(told)) => self.reopen(buckets, items, told, left),
            _ => Ok(false),
        }
    }
}
