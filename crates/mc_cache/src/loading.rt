//! A cache is opened with entries.
ghost use Rattle.std.specs.Prelude.{ℕ, ◌≡◌, ◌+◌, ◌*◌, ◌<◌, ◌≤◌, ◌++◌, [], ◌∷◌, All, IfOk, List, MatchResult, length, vec_capacity, vec_len};
ghost use Rattle.mc_words.specs.declared.history.Change.{Change};
ghost use Rattle.mc_words.specs.Places.{IsWidth};
ghost use Rattle.mc_words.specs.Readers.{HasReaders};
ghost use Rattle.mc_words.specs.Shapes.{IsShape};
ghost use Rattle.mc_theory.specs.Lists.{Made, state_of};
ghost use Rattle.mc_theory.specs.States.{opening};
ghost use Rattle.mc_plan.specs.Loads.{Loads, LoadsBy};
ghost use Rattle.mc_shared.specs.Records.{IsNewReader, new_readers};
ghost use Rattle.mc_shared.specs.Views.{layout_with};
ghost use Rattle.mc_words.specs.declared.policy.Policy.TheVariants.{Clock};
ghost use Rattle.mc_cache.specs.Openings.{RefusesOpening};
ghost use Rattle.mc_cache.specs.Plain.{IsLegal, TakesOrNames, history, seen};
ghost use Rattle.mc_cache.specs.Resting.{IsAtRest};

use crate::batches::touch_entries;
use crate::cache::Cache;
use crate::opening::{OpenError, open};
use crate::reader::Reader;
use crate::writer::Writer;
use mc_plan::Why;
use mc_reader::GROUP;
use mc_words::Shape;
use std::alloc::Global;

/// A cache that was opened with entries, with its writer and readers.
#[derive(Drop)]
pub struct Opened<const V: usize> {
    pub cache: Cache<V>,
    pub writer: Writer<V>,
    pub readers: Vec<Reader<V>>,
    /// The entries that were left out: the index of each, in order, and the reason.
    pub left: Vec<(usize, Why)>,
}

// Names an entry that is left. There is room for it.
fn name(left: &mut Vec<(usize, Why)>, index: usize, why: Why)
    requires { vec_len left.old < vec_capacity left.old }
    ensures items { left.new.items ≡ left.old.items ++ (index, why) ∷ [] }
    ensures len { vec_len left.new ≡ vec_len left.old + 1 }
    ensures room { vec_capacity left.old ≤ vec_capacity left.new }
{
    let _ = left.push((index, why));
}

// Puts the entries in order, as long as no other key must be evicted. There is room to name them all.
fn load<const V: usize>(
    cache: &Cache<V>,
    writer: &mut Writer<V>,
    entries: &[(u64, [u64; V])],
    left: &mut Vec<(usize, Why)>,
)
    requires of { writer.old.of ≡ cache.now }
    requires none { left.old.items ≡ [] }
    requires room { length entries.now ≤ vec_capacity left.old }
    ensures of { writer.new.of ≡ writer.old.of }
    ensures loaded { (made : List Made) × (changes : List (Change V)) × (writer.new.acts ≡ writer.old.acts ++ made) ×
        LoadsBy V cache.now.layout.shape writer.old.of.layout.policy (state_of V cache.now.layout.shape writer.old.acts) 0 entries.now made changes left.new.items }
{
    for index in 0..entries.len() {
        if index % GROUP == 0 {
            touch_entries(cache, &entries[index..]);
        }
        let entry = entries[index];
        if let Err(why) = writer.put_kept(cache, entry.0, entry.1) {
            name(left, index, why);
        }
    }
}

/// Opens a cache like `open`, with CLOCK, and puts these entries, in order. They are put as by `put`, but none evicts another: an entry
/// that can't be put so is left out, and reported with the reason. A key that is listed twice is put twice.
/// These puts are the first changes of the cache's history, so its moments begin with them.
/// Returns the first error that applies, as `open` does. After an error nothing leaks.
/// Condition: a value has from 1 to 8 words.
pub fn open_with<const V: usize>(
    alloc: Global,
    shape: Shape,
    readers: u32,
    entries: &[(u64, [u64; V])],
) -> Result<Opened<V>, OpenError>
    requires width { IsWidth V }
    ensures cache { MatchResult result (λ o. o.cache.layout ≡ layout_with V Clock shape) (λ e. RefusesOpening shape readers e) }
    ensures asked { IfOk result (λ o. IsShape shape × HasReaders readers) }
    ensures of { IfOk result (λ o. o.writer.of ≡ o.cache) }
    ensures loaded { IfOk result (λ o. Loads V shape (opening V shape) 0 entries.now o.writer.acts (history V o.writer) o.left.items) }
    ensures rests { IfOk result (λ o. IsAtRest V o.writer) }
    ensures readers { IfOk result (λ o. o.readers.items ≡ new_readers o.cache readers) }
    ensures fresh { IfOk result (λ o. All (IsNewReader o.cache) o.readers.items) }
    ensures plain { IfOk result (λ o. TakesOrNames 0 entries.now (history V o.writer) o.left.items × IsLegal shape.items (history V o.writer) ×
        All (λ reader. seen V reader ≡ []) o.readers.items) }
{
    let (cache, mut writer, readers) = open::<V>(alloc, shape, readers)?;
    let Ok(mut left) = Vec::with_capacity(alloc, entries.len()) else {
        return Err(OpenError::NoMemory);
    };
    load(&cache, &mut writer, entries, &mut left);
    writer.known();
    Ok(Opened {
        cache,
        writer,
        readers,
        left,
    })
}
