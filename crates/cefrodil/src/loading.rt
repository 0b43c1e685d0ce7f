//! Handles are opened, with entries.
ghost use Rattle.std.specs.Prelude.{◌≡◌, ◌≢◌, ◌<◌, ◌^◌, ◌↔◌, All, EachIndex, IsTrue, MatchResult, length, slice_index};
ghost use Rattle.mc_words.specs.Places.{IsWidth};
ghost use Rattle.cefrodil.specs.Loading.{AreEntries, AreLoaded, RefusesWith, entry_status, left_status};
ghost use Rattle.cefrodil.specs.Openings.{IsClosed, RefusesAsked, RefusesHandles, RefusesOpen};
ghost use Rattle.cefrodil.specs.RawShapes.{HasMix, HasPolicy, IsPolicyOf, IsShapeOf};

use crate::opening::{MOST_WORDS, all_closed, asked, count_of, fill, status_of};
use crate::raw_handle::RawHandle;
use crate::shape::RawShape;
use mc_door::status::{COUNT, IN_USE, NO_ITEM, NO_MEMORY, NO_PATH, OK, SPENT};
use mc_door::{Shape, Why, open_with};
use mc_words::Policy;
use std::alloc::Global;

fn status_of_left(why: Why) -> u32
    ensures { result ≡ left_status why }
{
    match why {
        Why::NoPath => NO_PATH,
        Why::NoItem => NO_ITEM,
        Why::Spent => SPENT,
    }
}

// Whether there are as many words as `count` entries have.
fn are_entries(words: usize, entry_words: usize, count: usize) -> bool
    requires { words < 2 ^ 63 }
    ensures { IsTrue result ↔ AreEntries words entry_words count }
{
    count.checked_mul(1 + words) == Some(entry_words)
}

// The requested policy and shape, or the first fault before those that the cache reports.
fn asked_with(
    shape: &RawShape,
    words: usize,
    entry_words: usize,
    count: usize,
) -> Result<(Policy, Shape), u32>
    ensures { MatchResult result (λ r. IsWidth words × AreEntries words entry_words count × HasMix shape.now × HasPolicy shape.now ×
        IsPolicyOf shape.now r.0 × IsShapeOf shape.now r.1)
        (λ status. RefusesWith words entry_words count (RefusesAsked shape.now words) status) }
{
    if words <= MOST_WORDS && words > 0 && !are_entries(words, entry_words, count) {
        return Err(COUNT);
    }
    asked(shape, words)
}

fn tell_done(statuses: &mut [u32])
    ensures { All (λ status. status ≡ OK) statuses.new }
{
    for status in statuses.iter_mut() {
        *status = OK;
    }
}

// The statuses of the entries that were left. The others are reported as done.
fn tell_left(left: &[(usize, Why)], statuses: &mut [u32])
    requires done { All (λ status. status ≡ OK) statuses.old }
    requires named { All (λ l. l.0 < length statuses.old) left.now }
    ensures { EachIndex statuses.new (λ i. slice_index statuses.new i ≡ entry_status left.now i) }
{
    for told in 0..left.len() {
        let (index, why) = left[left.len() - 1 - told];
        statuses[index] = status_of_left(why);
    }
}

// The handles are closed.
#[tactic(auto, using(crate::proofs::Filling::refused_so_many))]
fn open_all_with(
    alloc: Global,
    shape: &RawShape,
    shards: u32,
    words: usize,
    entries: &[u64],
    statuses: &mut [u32],
    handles: &mut [RawHandle],
) -> u32
    requires { All IsClosed handles.old }
    ensures opened { result ≡ OK → AreLoaded shape.now shards words entries.now statuses.new handles.new }
    ensures refused { result ≢ OK → RefusesWith words (length entries.now) (length statuses.old) (RefusesOpen shape.now shards words (length handles.old)) result }
    ensures closed { result ≢ OK → (statuses.new ≡ statuses.old) × All IsClosed handles.new }
{
    let (policy, shape) = match asked_with(shape, words, entries.len(), statuses.len()) {
        Ok(asked) => asked,
        Err(status) => return status,
    };
    let opened = open_with(
        alloc,
        policy,
        shape,
        words,
        shards,
        count_of(handles.len()),
        statuses.len(),
        entries,
    );
    let (rest, left) = match opened {
        Ok(opened) => opened,
        Err(why) => return status_of(why),
    };
    if !fill(alloc, rest, handles) {
        return NO_MEMORY;
    }
    tell_done(statuses);
    tell_left(left.as_slice(), statuses);
    OK
}

/// Opens a cache as `cefrodil_open` does, and puts the entries in order, each in its key's shard. No entry evicts another. `statuses` reports
/// what became of each.
#[unsafe(no_mangle)]
pub extern "C" fn cefrodil_open_with(
    alloc: Global,
    shape: &RawShape,
    shards: u32,
    words: usize,
    entries: &[u64],
    statuses: &mut [u32],
    handles: &mut [RawHandle],
) -> u32
    ensures opened { result ≡ OK → AreLoaded shape.now shards words entries.now statuses.new handles.new }
    ensures refused { result ≢ OK → RefusesHandles (All IsClosed handles.old)
        (RefusesWith words (length entries.now) (length statuses.old) (RefusesOpen shape.now shards words (length handles.old))) result }
    ensures untold { result ≢ OK → statuses.new ≡ statuses.old }
    ensures in_use { result ≡ IN_USE → handles.new ≡ handles.old }
    ensures closed { result ≢ OK → result ≢ IN_USE → All IsClosed handles.new }
{
    if !all_closed(handles) {
        return IN_USE;
    }
    open_all_with(alloc, shape, shards, words, entries, statuses, handles)
}
