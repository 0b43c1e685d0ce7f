//! Opening shards.
ghost use Rattle.std.specs.Prelude.{◌≡◌, ◌+◌, ◌≤◌, [], ◌∷◌, ◌++◌, All, IfErr, IfOk, MatchResult, OnOk, length, map};
ghost use Rattle.mc_words.specs.declared.policy.Policy.TheVariants.{Clock};
ghost use Rattle.mc_words.specs.Places.{IsWidth};
ghost use Rattle.mc_words.specs.Readers.{HasReaders};
ghost use Rattle.mc_words.specs.Shapes.{HasShards, IsShape};
ghost use Rattle.mc_shared.specs.Records.{writer_record};
ghost use Rattle.mc_shared.specs.Views.{layout_with};
ghost use Rattle.mc_cache.specs.Openings.{RefusesOpening};
ghost use Rattle.mc_cache.specs.Plain.{IsLegal, history};
ghost use Rattle.mc_cache.specs.declared.opening.OpenError.TheVariants.{NoMemory};
ghost use Rattle.mc_shards.specs.declared.opening.OpenShardsError.TheVariants.{Open};
ghost use Rattle.mc_shards.specs.Openings.{GoBy, HasSeenNothing, RefusesShards};
ghost use Rattle.mc_shards.specs.Lending.{table_of};
ghost use Rattle.mc_shards.specs.Loadings.{new_writers};
ghost use Rattle.mc_shards.specs.Inside.Dealt.{AreDealt};
ghost use Rattle.mc_shards.specs.Spares.{AreListsOf, AreSparesOf, count_of};
ghost use Rattle.mc_shards.specs.Sharded.{ArePassOf};

use crate::lender::Lender;
use crate::pass::Pass;
use crate::shards::Shards;
use crate::spares::Spares;
use mc_cache::{Cache, OpenError, Reader, Shape, Writer, open_by};
use mc_words::{MOST_READERS, Policy, can_shard};
use std::alloc::{AllocError, Global};
use thiserror::Error;

/// Why no shards were opened.
#[derive(Clone, Copy, Debug, PartialEq, Eq, Error)]
pub enum OpenShardsError {
    #[error("shards must be a power of two from 1 to 256")]
    Shards,
    #[error(transparent)]
    Open(OpenError),
}

impl From<OpenError> for OpenShardsError {
    ghost from_gives = { λ why e. e ≡ Open why };

    fn from(why: OpenError) -> OpenShardsError {
        OpenShardsError::Open(why)
    }
}

// The first fault of the arguments, if there is one.
pub(crate) fn check_opening(shape: Shape, shards: u32, passes: u32) -> Result<(), OpenShardsError>
    ensures { MatchResult result (λ _. HasShards shards × IsShape shape × HasReaders passes) (λ e. RefusesShards shape shards passes e) }
{
    if !can_shard(shards) {
        return Err(OpenShardsError::Shards);
    }
    if let Err(why) = shape.check() {
        return Err(OpenShardsError::Open(OpenError::Shape(why)));
    }
    if passes == 0 || passes > MOST_READERS {
        return Err(OpenShardsError::Open(OpenError::Readers));
    }
    Ok(())
}

// That many passes without a reader.
pub(crate) fn blank_passes<const V: usize>(
    alloc: Global,
    many: usize,
) -> Result<Vec<Pass<V>>, AllocError>
    ensures many { IfOk result (λ given. length given.items ≡ many) }
    ensures blank { IfOk result (λ given. All (AreDealt []) given.items) }
{
    let mut given = Vec::with_capacity(alloc, many)?;
    for n in 0..many {
        let _n = n;
        given.push(Pass::blank(alloc)?)?;
    }
    Ok(given)
}

// The pass with one reader more.
fn with_reader<const V: usize>(mut pass: Pass<V>, reader: Reader<V>) -> Result<Pass<V>, AllocError>
    ensures { IfOk result (λ given. given ≡ pass.entry ++ reader.entry ∷ []) }
{
    pass.readers.push(reader)?;
    Ok(pass)
}

// Gives each pass one of the readers of a new cache. Returns those that are left, too.
fn deal<const V: usize>(
    alloc: Global,
    caches: &Vec<Cache<V>>,
    cache: &Cache<V>,
    mut given: Vec<Pass<V>>,
    mut readers: Vec<Reader<V>>,
) -> Result<(Vec<Pass<V>>, Vec<Reader<V>>), AllocError>
    requires many { length given.items ≤ length readers.items }
    requires fresh { All (λ r. (r.of ≡ cache.now) × (r.front ≡ [])) readers.items }
    requires given { All (AreDealt caches.now.items) given.items }
    ensures many { IfOk result (λ r. length r.0.items ≡ length given.entry.items) }
    ensures dealt { IfOk result (λ r. All (AreDealt (caches.now.items ++ cache.now ∷ [])) r.0.items) }
    ensures left { IfOk result (λ r. All (λ x. (x.of ≡ cache.now) × (x.front ≡ [])) r.1.items) }
    ensures rest { IfOk result (λ r. length r.1.items + length given.entry.items ≡ length readers.entry.items) }
{
    let (_caches, _cache) = (caches, cache);
    let mut dealt = Vec::with_capacity(alloc, given.len())?;
    while let Some(pass) = given.pop() {
        let Some(reader) = readers.pop() else {
            unreachable!();
        };
        dealt.push(with_reader(pass, reader)?)?;
    }
    Ok((dealt, readers))
}

// One cache more with this many readers, its writer, the passes with a reader of it, and the readers that are left.
fn open_one<const V: usize>(
    alloc: Global,
    policy: Policy,
    shape: Shape,
    all: u32,
    caches: &Vec<Cache<V>>,
    given: Vec<Pass<V>>,
) -> Result<(Cache<V>, Writer<V>, Vec<Pass<V>>, Vec<Reader<V>>), OpenError>
    requires width { IsWidth V }
    requires asked { IsShape shape × HasReaders all }
    requires many { length given.items ≤ all }
    requires given { All (AreDealt caches.now.items) given.items }
    ensures refused { MatchResult result (λ r. r.0.layout ≡ layout_with V policy shape) (λ e. RefusesOpening shape all e) }
    ensures writer { IfOk result (λ r. r.1 ≡ writer_record r.0 [] []) }
    ensures many { IfOk result (λ r. length r.2.items ≡ length given.entry.items) }
    ensures dealt { IfOk result (λ r. All (AreDealt (caches.now.items ++ r.0 ∷ [])) r.2.items) }
    ensures left { IfOk result (λ r. All (λ x. (x.of ≡ r.0) × (x.front ≡ [])) r.3.items) }
    ensures rest { IfOk result (λ r. length r.3.items + length given.entry.items ≡ all) }
{
    let (cache, writer, readers) = open_by::<V>(alloc, policy, shape, all)?;
    match deal::<V>(alloc, caches, &cache, given, readers) {
        Ok((dealt, left)) => Ok((cache, writer, dealt, left)),
        Err(_) => Err(OpenError::NoMemory),
    }
}

// Adds a value to a list.
pub(crate) fn push_to<T: Drop>(list: &mut Vec<T>, value: T) -> Result<(), OpenError>
    ensures ok { OnOk result (list.new.items ≡ list.old.items ++ value ∷ []) }
    ensures err { IfErr result (λ e. e ≡ NoMemory) }
{
    match list.push(value) {
        Ok(()) => Ok(()),
        Err(_) => Err(OpenError::NoMemory),
    }
}

// All caches with this many readers each, their writers, and the requested number of passes.
pub(crate) fn open_all<const V: usize>(
    alloc: Global,
    policy: Policy,
    shape: Shape,
    shards: u32,
    passes: u32,
    all: u32,
) -> Result<(Vec<Cache<V>>, Vec<Writer<V>>, Vec<Pass<V>>, Spares<V>), OpenError>
    requires width { IsWidth V }
    requires asked { IsShape shape × HasReaders all }
    requires many { passes ≤ all }
    ensures refused { MatchResult result (λ r. length r.0.items ≡ shards) (λ e. RefusesOpening shape all e) }
    ensures shapes { IfOk result (λ r. All (λ o. o.layout ≡ layout_with V policy shape) r.0.items) }
    ensures writers { IfOk result (λ r. r.1.items ≡ new_writers r.0.items) }
    ensures many { IfOk result (λ r. length r.2.items ≡ passes) }
    ensures dealt { IfOk result (λ r. All (AreDealt r.0.items) r.2.items) }
    ensures spares { IfOk result (λ r. AreListsOf (count_of r.3) r.0.items r.3) }
    ensures rest { IfOk result (λ r. count_of r.3 + passes ≡ all) }
{
    let mut caches = Vec::new(alloc);
    let mut writers = Vec::new(alloc);
    let mut lists = Vec::new(alloc);
    let Ok(mut given) = blank_passes::<V>(alloc, passes as usize) else {
        return Err(OpenError::NoMemory);
    };
    for shard in 0..shards {
        let _shard = shard;
        let (cache, writer, dealt, left) = open_one::<V>(
            alloc, policy, shape, all, &caches, given,
        )?;
        given = dealt;
        push_to(&mut caches, cache)?;
        push_to(&mut writers, writer)?;
        push_to(&mut lists, left)?;
    }
    let count = (all - passes) as usize;
    Ok((caches, writers, given, Spares { lists, count }))
}

// A place for each writer.
pub(crate) fn lenders_of<const V: usize>(
    alloc: Global,
    writers: Vec<Writer<V>>,
) -> Result<Vec<Lender<V>>, OpenError>
    ensures lenders { MatchResult result (λ lenders. map table_of lenders.items ≡ map (λ w. w.of) writers.entry.items) (λ e. e ≡ NoMemory) }
    ensures legal { IfOk result (λ lenders. All (λ w. IsLegal w.of.layout.shape.items (history V w)) writers.entry.items) }
{
    let mut lenders = Vec::new(alloc);
    for writer in writers {
        writer.known();
        let Ok(lender) = Lender::new(alloc, writer) else {
            return Err(OpenError::NoMemory);
        };
        push_to(&mut lenders, lender)?;
    }
    Ok(lenders)
}

/// Opens `shards` shards, each an empty cache of this policy and shape with `all` readers, and `passes` passes. The other readers are spares. Returns
/// the first error that applies: `Shards` if their number is no power of two from 1 to 256, then those of `mc_cache::open`. After an error nothing
/// leaks. Conditions: a value has from 1 to 8 words, and there may be as many readers as `all` if there may be as many passes.
#[tactic(auto, using(crate::proofs::Spared::refused_as_asked))]
pub fn open_spared<const V: usize>(
    alloc: Global,
    policy: Policy,
    shape: Shape,
    shards: u32,
    passes: u32,
    all: u32,
) -> Result<(Shards<V>, Vec<Pass<V>>, Spares<V>), OpenShardsError>
    requires width { IsWidth V }
    requires all { HasReaders passes → (passes ≤ all) × HasReaders all }
    ensures shards { MatchResult result (λ r. (r.0.shape ≡ shape) × (length r.0.tables ≡ shards)) (λ e. RefusesShards shape shards passes e) }
    ensures policy { IfOk result (λ r. GoBy policy r.0.tables) }
    ensures asked { IfOk result (λ r. HasShards shards × IsShape shape × HasReaders passes) }
    ensures many { IfOk result (λ r. length r.1.items ≡ passes) }
    ensures of { IfOk result (λ r. All (ArePassOf r.0) r.1.items) }
    ensures plain { IfOk result (λ r. All (HasSeenNothing V) r.1.items) }
    ensures spares { IfOk result (λ r. AreSparesOf r.0 r.2 × (count_of r.2 + passes ≡ all)) }
{
    check_opening(shape, shards, passes)?;
    let (caches, writers, passes, spares) = open_all::<V>(
        alloc, policy, shape, shards, passes, all,
    )?;
    let lenders = lenders_of::<V>(alloc, writers)?;
    let shards = Shards {
        shape,
        caches,
        lenders,
    };
    Ok((shards, passes, spares))
}

/// Opens `shards` shards, each an empty cache of this shape with CLOCK, and `passes` passes: `open_spared` without spares.
/// Condition: a value has from 1 to 8 words.
pub fn open_shards<const V: usize>(
    alloc: Global,
    shape: Shape,
    shards: u32,
    passes: u32,
) -> Result<(Shards<V>, Vec<Pass<V>>), OpenShardsError>
    requires width { IsWidth V }
    ensures shards { MatchResult result (λ r. (r.0.shape ≡ shape) × (length r.0.tables ≡ shards)) (λ e. RefusesShards shape shards passes e) }
    ensures policy { IfOk result (λ r. GoBy Clock r.0.tables) }
    ensures asked { IfOk result (λ r. HasShards shards × IsShape shape × HasReaders passes) }
    ensures many { IfOk result (λ r. length r.1.items ≡ passes) }
    ensures of { IfOk result (λ r. All (ArePassOf r.0) r.1.items) }
    ensures plain { IfOk result (λ r. All (HasSeenNothing V) r.1.items) }
{
    let (shards, passes, _) = open_spared::<V>(
        alloc,
        Policy::Clock,
        shape,
        shards,
        passes,
        passes,
    )?;
    Ok((shards, passes))
}
