//! Opening shards with entries.
ghost use Rattle.std.specs.Prelude.{ℕ, ◌≡◌, ◌+◌, ◌≤◌, All, IfErr, IfOk, List, MatchResult, OnOk, [], length, map};
ghost use Rattle.mc_words.specs.declared.policy.Policy.TheVariants.{Clock};
ghost use Rattle.mc_words.specs.declared.history.Change.{Change};
ghost use Rattle.mc_words.specs.Keys.{shard_of};
ghost use Rattle.mc_words.specs.Places.{IsWidth};
ghost use Rattle.mc_words.specs.Readers.{HasReaders};
ghost use Rattle.mc_words.specs.Shapes.{HasShards, IsShape};
ghost use Rattle.mc_plan.specs.WholeCalls.{KeptCall};
ghost use Rattle.mc_plan.specs.declared.answer.Answer.TheVariants as answer;
ghost use Rattle.mc_writer.specs.WriterCalls.{HasCalled};
ghost use Rattle.mc_cache.specs.declared.opening.OpenError.TheVariants.{NoMemory};
ghost use Rattle.mc_shards.specs.Loadings.{HaveLoaded, HaveMet, HoldEntries, ShardsLoad};
ghost use Rattle.mc_shards.specs.Openings.{GoBy, RefusesShards};
ghost use Rattle.mc_shards.specs.Plain.{seens};
ghost use Rattle.mc_shards.specs.Sharded.{ArePassOf, ChangesAt};
ghost use Rattle.mc_shards.specs.Spares.{AreSparesOf, count_of};

use crate::opening::{OpenShardsError, check_opening, lenders_of, open_all, push_to};
use crate::pass::Pass;
use crate::shards::Shards;
use crate::spares::Spares;
use mc_cache::{Cache, OpenError, Put, Shape, Why, Writer};
use mc_words::Policy;
use std::alloc::Global;

/// Shards that were opened with entries, with their passes.
#[derive(Drop)]
pub struct OpenedShards<const V: usize> {
    pub shards: Shards<V>,
    /// The requested number, each with a reader of every shard.
    pub passes: Vec<Pass<V>>,
    /// The entries that were left out: the index of each, in order, and the reason.
    pub left: Vec<(usize, Why)>,
}

// Puts a key in its shard. Evicts no key.
fn put_one<const V: usize>(
    shape: Shape,
    caches: &Vec<Cache<V>>,
    writers: &mut Vec<Writer<V>>,
    key: u64,
    value: [u64; V],
) -> Result<Put, Why>
    requires many { HasShards (length caches.now.items) }
    requires shapes { All (λ o. o.layout.shape ≡ shape) caches.now.items }
    requires of { map (λ w. w.of) writers.old.items ≡ caches.now.items }
    ensures wide { length value.entry ≡ V }
    ensures of { map (λ w. w.of) writers.new.items ≡ caches.now.items }
    ensures called { ChangesAt (shard_of shape.mix (length caches.now.items) key) writers.old.items writers.new.items
        (λ w w'. HasCalled V shape (KeptCall key value.entry) w w' (answer.Kept result)) }
{
    let n = shape.mix.shard(key, caches.len() as u32) as usize;
    let writer = &mut writers[n];
    writer.put_kept(&caches[n], key, value)
}

// Puts the entries in order, and lists those that are left out.
fn load<const V: usize>(
    shape: Shape,
    caches: &Vec<Cache<V>>,
    writers: &mut Vec<Writer<V>>,
    entries: &[(u64, [u64; V])],
    left: &mut Vec<(usize, Why)>,
) -> Result<(), OpenError>
    requires many { HasShards (length caches.now.items) }
    requires shapes { All (λ o. o.layout.shape ≡ shape) caches.now.items }
    requires of { map (λ w. w.of) writers.old.items ≡ caches.now.items }
    requires none { left.old.items ≡ [] }
    ensures of { map (λ w. w.of) writers.new.items ≡ caches.now.items }
    ensures wide { OnOk result (All (λ e. length e.1 ≡ V) entries.now) }
    ensures loaded { OnOk result (ShardsLoad V shape writers.old.items 0 entries.now writers.new.items left.new.items) }
    ensures refused { IfErr result (λ e. e ≡ NoMemory) }
{
    for index in 0..entries.len() {
        let entry = entries[index];
        if let Err(why) = put_one(shape, caches, writers, entry.0, entry.1) {
            push_to(left, (index, why))?;
        }
    }
    Ok(())
}

// Lets the readers of a pass meet the writers of their shards.
fn meet<const V: usize>(caches: &Vec<Cache<V>>, writers: &mut Vec<Writer<V>>, pass: &mut Pass<V>)
    requires writers { map (λ w. w.of) writers.old.items ≡ caches.now.items }
    requires pass { map (λ r. r.of) pass.old ≡ caches.now.items }
    ensures writers { writers.new.items ≡ writers.old.items }
    ensures pass { map (λ r. r.of) pass.new ≡ caches.now.items }
    ensures met { HaveMet writers.old.items pass.new }
{
    for n in 0..caches.len() {
        let reader = &mut pass.readers[n];
        let writer = &mut writers[n];
        let _moment = reader.catch_up(&caches[n], writer);
    }
}

// Lets all passes meet the writers.
fn meet_all<const V: usize>(
    caches: &Vec<Cache<V>>,
    writers: &mut Vec<Writer<V>>,
    passes: &mut Vec<Pass<V>>,
)
    requires writers { map (λ w. w.of) writers.old.items ≡ caches.now.items }
    requires passes { All (λ rs. map (λ r. r.of) rs ≡ caches.now.items) passes.old.items }
    ensures writers { writers.new.items ≡ writers.old.items }
    ensures many { length passes.new.items ≡ length passes.old.items }
    ensures passes { All (λ rs. map (λ r. r.of) rs ≡ caches.now.items) passes.new.items }
    ensures met { All (HaveMet writers.old.items) passes.new.items }
{
    for n in 0..passes.len() {
        meet(caches, writers, &mut passes[n]);
    }
}

/// Opens shards like `open_spared`, and puts these entries, in order, each in its key's shard. They are put as by `put`, but none evicts
/// another. An entry that can't be put is left out, and reported with the reason. A key listed twice is put twice.
/// Every pass has seen these puts, so its first lookup finds them. The spares have seen nothing.
/// Returns the first error that applies, as `open_shards` does; `NoMemory` also if the list of entries left out finds none. After an error
/// nothing leaks. Conditions: those of `open_spared`.
#[tactic(auto, using(crate::proofs::Spared::refused_as_asked))]
pub fn open_spared_with<const V: usize>(
    alloc: Global,
    policy: Policy,
    shape: Shape,
    shards: u32,
    passes: u32,
    all: u32,
    entries: &[(u64, [u64; V])],
) -> Result<(OpenedShards<V>, Spares<V>), OpenShardsError>
    requires width { IsWidth V }
    requires all { HasReaders passes → (passes ≤ all) × HasReaders all }
    ensures shards { MatchResult result (λ o. (o.0.shards.shape ≡ shape) × (length o.0.shards.tables ≡ shards)) (λ e. RefusesShards shape shards passes e) }
    ensures policy { IfOk result (λ o. GoBy policy o.0.shards.tables) }
    ensures asked { IfOk result (λ o. HasShards shards × IsShape shape × HasReaders passes) }
    ensures many { IfOk result (λ o. length o.0.passes.items ≡ passes) }
    ensures of { IfOk result (λ o. All (ArePassOf o.0.shards) o.0.passes.items) }
    ensures loaded { IfOk result (λ o. HaveLoaded V shape entries.now o.0.shards.tables o.0.passes.items o.0.left.items) }
    ensures plain { IfOk result (λ o. (hs : List (List (Change V))) × HoldEntries V shape entries.now hs o.0.left.items × All (λ pass. seens V pass ≡ hs) o.0.passes.items) }
    ensures spares { IfOk result (λ o. AreSparesOf o.0.shards o.1 × (count_of o.1 + passes ≡ all)) }
{
    check_opening(shape, shards, passes)?;
    let (caches, mut writers, mut passes, spares) = open_all::<V>(
        alloc, policy, shape, shards, passes, all,
    )?;
    let mut left = Vec::new(alloc);
    load(shape, &caches, &mut writers, entries, &mut left)?;
    meet_all(&caches, &mut writers, &mut passes);
    let lenders = lenders_of::<V>(alloc, writers)?;
    let shards = Shards {
        shape,
        caches,
        lenders,
    };
    let opened = OpenedShards {
        shards,
        passes,
        left,
    };
    Ok((opened, spares))
}

/// Opens shards with CLOCK and these entries, as `open_spared_with` does, without spares.
/// Condition: a value has from 1 to 8 words.
pub fn open_shards_with<const V: usize>(
    alloc: Global,
    shape: Shape,
    shards: u32,
    passes: u32,
    entries: &[(u64, [u64; V])],
) -> Result<OpenedShards<V>, OpenShardsError>
    requires width { IsWidth V }
    ensures shards { MatchResult result (λ o. (o.shards.shape ≡ shape) × (length o.shards.tables ≡ shards)) (λ e. RefusesShards shape shards passes e) }
    ensures policy { IfOk result (λ o. GoBy Clock o.shards.tables) }
    ensures asked { IfOk result (λ o. HasShards shards × IsShape shape × HasReaders passes) }
    ensures many { IfOk result (λ o. length o.passes.items ≡ passes) }
    ensures of { IfOk result (λ o. All (ArePassOf o.shards) o.passes.items) }
    ensures loaded { IfOk result (λ o. HaveLoaded V shape entries.now o.shards.tables o.passes.items o.left.items) }
    ensures plain { IfOk result (λ o. (hs : List (List (Change V))) × HoldEntries V shape entries.now hs o.left.items × All (λ pass. seens V pass ≡ hs) o.passes.items) }
{
    let (opened, _) = open_spared_with::<V>(
        alloc,
        Policy::Clock,
        shape,
        shards,
        passes,
        passes,
        entries,
    )?;
    Ok(opened)
}
