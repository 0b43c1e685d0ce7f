//! Handles are opened.
ghost use Rattle.std.specs.Prelude.{◌≡◌, ◌≢◌, ◌↔◌, All, IfSome, MatchResult, false, length, true};
ghost use Rattle.mc_words.specs.Places.{IsWidth};
ghost use Rattle.mc_words.specs.Readers.{HasReaders};
ghost use Rattle.mc_door.specs.NewPasses.{count_on, passes_on, shards_on, width_on};
ghost use Rattle.cefrodil.specs.Openings.{AreOpened, IsClosed, IsPassAt, RefusesAsked, RefusesHandles, RefusesOpen, open_status, shards_status};
ghost use Rattle.cefrodil.specs.RawShapes.{HasMix, HasPolicy, IsPolicyOf, IsShapeOf};

use crate::raw_handle::RawHandle;
use crate::shape::RawShape;
use mc_door::status::{
    BUCKETS, DEPTH, HANDLES, IN_USE, ITEMS, LIMIT, MIX, NO_MEMORY, OK, POLICY, SHARDS, STRIPES,
    TRIES, WORDS,
};
use mc_door::{OpenError, OpenShardsError, Rest, Shape, ShapeError, open};
use mc_words::Policy;
use std::alloc::Global;

/// The most words of a value.
pub(crate) const MOST_WORDS: usize = 8;

fn status_of_table(why: OpenError) -> u32
    ensures { result ≡ open_status why }
{
    match why {
        OpenError::Shape(ShapeError::Buckets) => BUCKETS,
        OpenError::Shape(ShapeError::Items) => ITEMS,
        OpenError::Shape(ShapeError::Stripes) => STRIPES,
        OpenError::Shape(ShapeError::Depth) => DEPTH,
        OpenError::Shape(ShapeError::Tries) => TRIES,
        OpenError::Shape(ShapeError::Limit) => LIMIT,
        OpenError::Readers => HANDLES,
        OpenError::NoMemory => NO_MEMORY,
    }
}

pub(crate) fn status_of(why: OpenShardsError) -> u32
    ensures { result ≡ shards_status why }
{
    match why {
        OpenShardsError::Shards => SHARDS,
        OpenShardsError::Open(why) => status_of_table(why),
    }
}

pub(crate) fn all_closed(handles: &[RawHandle]) -> bool
    ensures yes { result ≡ true → All IsClosed handles.now }
    ensures no { result ≡ false → ¬ All IsClosed handles.now }
{
    for handle in handles {
        if handle.is_live() {
            return false;
        }
    }
    true
}

fn close_all(alloc: Global, handles: &mut [RawHandle])
    ensures { All IsClosed handles.new }
{
    for handle in handles.iter_mut() {
        drop(handle.take(alloc));
    }
}

// The value on the heap, if there is memory.
pub(crate) fn boxed<T: Drop>(alloc: Global, value: T) -> Option<Box<T, Global>>
    ensures { IfSome result (λ b. b.value ≡ value) }
{
    match Box::new(alloc, value) {
        Ok(kept) => Some(kept),
        Err(_) => None,
    }
}

// A pass for each of the handles. `false` if there is no memory.
#[tactic(auto, using(crate::proofs::Filling::all_passes))]
fn fill_each(alloc: Global, mut rest: Rest, handles: &mut [RawHandle]) -> bool
    requires { (count_on rest ≡ length handles.old) × All IsClosed handles.old }
    ensures { result ≡ true → All (IsPassAt (shards_on rest) (width_on rest) (passes_on rest)) handles.new }
{
    for handle in handles.iter_mut() {
        let Ok(given) = rest.next() else {
            return false;
        };
        let Some(held) = given else {
            return false;
        };
        let Some(held) = boxed(alloc, held) else {
            return false;
        };
        handle.put(held);
    }
    true
}

// A pass for each of the handles; or, if there is no memory, `false`, and all of them are closed.
pub(crate) fn fill(alloc: Global, rest: Rest, handles: &mut [RawHandle]) -> bool
    requires { (count_on rest ≡ length handles.old) × All IsClosed handles.old }
    ensures filled { result ≡ true → All (IsPassAt (shards_on rest) (width_on rest) (passes_on rest)) handles.new }
    ensures closed { result ≡ false → All IsClosed handles.new }
{
    let filled = fill_each(alloc, rest, handles);
    if !filled {
        close_all(alloc, handles);
    }
    filled
}

// The requested policy and shape, or the first fault before those that the cache reports.
pub(crate) fn asked(shape: &RawShape, words: usize) -> Result<(Policy, Shape), u32>
    ensures { MatchResult result (λ r. IsWidth words × HasMix shape.now × HasPolicy shape.now × IsPolicyOf shape.now r.0 × IsShapeOf shape.now r.1)
        (λ status. RefusesAsked shape.now words status) }
{
    if words == 0 || words > MOST_WORDS {
        return Err(WORDS);
    }
    let Some(table) = shape.shape() else {
        return Err(MIX);
    };
    match shape.policy() {
        Some(policy) => Ok((policy, table)),
        None => Err(POLICY),
    }
}

// As many, or more than there may be.
pub(crate) fn count_of(handles: usize) -> u32
    ensures right { HasReaders result ↔ HasReaders handles }
    ensures same { HasReaders handles → result ≡ handles }
{
    handles.min(4_294_967_295) as u32
}

// The handles are closed.
#[tactic(auto, using(crate::proofs::Filling::refused_so_many))]
fn open_all(
    alloc: Global,
    shape: &RawShape,
    shards: u32,
    words: usize,
    handles: &mut [RawHandle],
) -> u32
    requires { All IsClosed handles.old }
    ensures opened { result ≡ OK → AreOpened shape.now shards words handles.new }
    ensures refused { result ≢ OK → RefusesOpen shape.now shards words (length handles.old) result }
    ensures closed { result ≢ OK → All IsClosed handles.new }
{
    let (policy, shape) = match asked(shape, words) {
        Ok(asked) => asked,
        Err(status) => return status,
    };
    let rest = match open(alloc, policy, shape, words, shards, count_of(handles.len())) {
        Ok(rest) => rest,
        Err(why) => return status_of(why),
    };
    if !fill(alloc, rest, handles) {
        return NO_MEMORY;
    }
    OK
}

/// Opens a cache of `shards` shards for values of `words` words, each shard a table of this shape and policy.
#[unsafe(no_mangle)]
pub extern "C" fn cefrodil_open(
    alloc: Global,
    shape: &RawShape,
    shards: u32,
    words: usize,
    handles: &mut [RawHandle],
) -> u32
    ensures opened { result ≡ OK → AreOpened shape.now shards words handles.new }
    ensures refused { result ≢ OK → RefusesHandles (All IsClosed handles.old) (RefusesOpen shape.now shards words (length handles.old)) result }
    ensures in_use { result ≡ IN_USE → handles.new ≡ handles.old }
    ensures closed { result ≢ OK → result ≢ IN_USE → All IsClosed handles.new }
{
    if !all_closed(handles) {
        return IN_USE;
    }
    open_all(alloc, shape, shards, words, handles)
}
