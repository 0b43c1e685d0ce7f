//! What came of a load.
ghost use Rattle.std.specs.Prelude.{◌≡◌, ◌+◌, ◌^◌, ◌<◌, count_by};
ghost use Rattle.mc_load.specs.Loads.{is_absent, is_busy, is_found};

use mc_cache::Reply;
use mc_check::Record;

/// What came of a load in which every call was made.
#[derive(Clone, Copy, Debug, PartialEq, Eq)]
pub struct Report {
    /// Of all readers together.
    pub lookups: u64,
    pub found: u64,
    pub absent: u64,
    pub busy: u64,
    /// Calls of the writer.
    pub writes: u64,
    /// Changes of the map: the length of the history.
    pub changes: u64,
    /// Answers that aren't what the map held after the changes that they name.
    pub wrong: u64,
}

impl Report {
    /// Of a writer that has made `writes` calls and `changes` changes, and of no reader.
    pub fn none(writes: u64, changes: u64) -> Report
        ensures counts { (result.lookups ≡ 0) × (result.wrong ≡ 0) }
        ensures answers { (result.found ≡ 0) × (result.absent ≡ 0) × (result.busy ≡ 0) }
        ensures writer { (result.writes ≡ writes) × (result.changes ≡ changes) }
    {
        Report {
            lookups: 0,
            found: 0,
            absent: 0,
            busy: 0,
            writes,
            changes,
            wrong: 0,
        }
    }

    /// Adds the answers of one reader, of which `wrong` are wrong.
    pub fn add(&mut self, tally: Tally, wrong: u64)
        requires many { self.old.lookups + (tally.found + tally.absent + tally.busy) < 2 ^ 64 }
        requires answers { self.old.found + self.old.absent + self.old.busy ≡ self.old.lookups }
        requires wrong { self.old.wrong + wrong < 2 ^ 64 }
        ensures lookups { self.new.lookups ≡ self.old.lookups + (tally.found + tally.absent + tally.busy) }
        ensures answers { self.new.found + self.new.absent + self.new.busy ≡ self.new.lookups }
        ensures kinds { (self.new.found ≡ self.old.found + tally.found) ×
            (self.new.absent ≡ self.old.absent + tally.absent) × (self.new.busy ≡ self.old.busy + tally.busy) }
        ensures wrong { self.new.wrong ≡ self.old.wrong + wrong }
        ensures writer { (self.new.writes ≡ self.old.writes) × (self.new.changes ≡ self.old.changes) }
    {
        self.lookups += tally.found + tally.absent + tally.busy;
        self.found += tally.found;
        self.absent += tally.absent;
        self.busy += tally.busy;
        self.wrong += wrong;
    }
}

/// How many answers of each kind there are.
#[derive(Clone, Copy)]
pub struct Tally {
    pub found: u64,
    pub absent: u64,
    pub busy: u64,
}

/// How many answers found the key.
fn found<const V: usize>(records: &[Record<V>]) -> u64
    ensures { result ≡ count_by (λ r. is_found r.reply) records.now }
{
    let many = records
        .iter()
        .filter(
            |record: &&Record<V>| -> bool
                ensures { result ≡ is_found record.entry.now.now.reply }
            { matches!(record.reply, Reply::Found { .. }) },
        )
        .count();
    many as u64
}

/// How many answers did not find it.
fn absent<const V: usize>(records: &[Record<V>]) -> u64
    ensures { result ≡ count_by (λ r. is_absent r.reply) records.now }
{
    let many = records
        .iter()
        .filter(
            |record: &&Record<V>| -> bool
                ensures { result ≡ is_absent record.entry.now.now.reply }
            { matches!(record.reply, Reply::Absent { .. }) },
        )
        .count();
    many as u64
}

/// How many answers have no moment.
fn busy<const V: usize>(records: &[Record<V>]) -> u64
    ensures { result ≡ count_by (λ r. is_busy r.reply) records.now }
{
    let many = records
        .iter()
        .filter(
            |record: &&Record<V>| -> bool
                ensures { result ≡ is_busy record.entry.now.now.reply }
            { matches!(record.reply, Reply::Busy) },
        )
        .count();
    many as u64
}

impl Tally {
    /// The answers of one reader.
    pub fn of<const V: usize>(records: &[Record<V>]) -> Tally
        ensures found { result.found ≡ count_by (λ r. is_found r.reply) records.now }
        ensures absent { result.absent ≡ count_by (λ r. is_absent r.reply) records.now }
        ensures busy { result.busy ≡ count_by (λ r. is_busy r.reply) records.now }
    {
        Tally {
            found: found(records),
            absent: absent(records),
            busy: busy(records),
        }
    }
}
