//! The workers of a load in turns are made ready.
ghost use Rattle.std.specs.Prelude.{◌≡◌, ◌+◌, ◌*◌, ◌≤◌, All, IfOk, vec_len, vec_capacity};
ghost use Rattle.mc_words.specs.Places.{IsWidth};
ghost use Rattle.mc_words.specs.Readers.{HasReaders};
ghost use Rattle.mc_shards.specs.Sharded.{Sharded};
ghost use Rattle.mc_load.specs.Loads.{HasKeys};
ghost use Rattle.mc_load.specs.ShardLoads.{HasSeats, HasWriters, most_writers};
ghost use Rattle.mc_load.specs.Inside.Handles.{place_of};
ghost use Rattle.mc_load.specs.Inside.Seats.{AreSeated, CanAudit};
ghost use Rattle.mc_load.specs.Inside.Tries.{CanAllTry, CanTry};

use crate::asked::Load;
use crate::dated::Dated;
use crate::handle::Handle;
use crate::reader_thread::ReaderThread;
use crate::ready::{reader_threads_of, turn_thread_of};
use crate::turn_thread::TurnThread;
use mc_cache::Change;
use mc_check::Record;
use std::alloc::{AllocError, Global};

/// What the shards are checked with, one after the other: room for all changes of all writers, twice, and for the answers of one reader.
#[derive(Drop)]
pub(crate) struct Audit<const V: usize> {
    pub(crate) dated: Vec<Dated<V>>,
    pub(crate) history: Vec<Change<V>>,
    pub(crate) told: Vec<Record<V>>,
}

/// The writers and the readers, and what they are checked with.
#[derive(Drop)]
pub(crate) struct Seated<'p, const V: usize> {
    pub(crate) turn_threads: Vec<TurnThread<'p, V>>,
    pub(crate) reader_threads: Vec<ReaderThread<'p, V>>,
    pub(crate) audit: Audit<V>,
}

/// How many readers a cache is opened with for these readers and writers. None if there are no readers.
pub(crate) fn seats_of(readers: u32, writers: u32) -> u32
    requires writers { HasWriters writers }
    ensures asked { HasReaders result → (1 ≤ readers) × (result ≡ readers + writers) }
    ensures had { HasSeats readers writers → result ≡ readers + writers }
{
    if readers == 0 {
        0
    } else {
        readers.saturating_add(writers)
    }
}

/// The writers, each with one of the last handles.
fn turn_threads_of<'p, const V: usize>(
    alloc: Global,
    load: Load,
    writers: u32,
    handles: &mut Vec<Handle<'p, V>>,
) -> Result<Vec<TurnThread<'p, V>>, AllocError>
    requires width { IsWidth V }
    requires keys { 1 ≤ load.keys }
    requires seats { HasSeats load.readers writers }
    requires many { vec_len handles.old ≡ load.readers + writers }
    ensures len { IfOk result (λ ts. vec_len ts ≡ writers) }
    ensures ready { (s : Sharded) → All (λ h. place_of h ≡ s) handles.old.items → IfOk result (λ ts. CanAllTry V s load ts.items) }
    ensures left { IfOk result (λ ts. vec_len handles.new ≡ load.readers) }
    ensures place { (s : Sharded) → All (λ h. place_of h ≡ s) handles.old.items → IfOk result (λ ts. All (λ h. place_of h ≡ s) handles.new.items) }
{
    let mut turn_threads = Vec::new(alloc);
    for number in 0..writers {
        let Some(handle) = handles.pop() else {
            unreachable!();
        };
        turn_threads.push(turn_thread_of(alloc, load, handle, number)?)?;
    }
    Ok(turn_threads)
}

/// What `writers` writers and the readers are checked with.
fn audit_of<const V: usize>(alloc: Global, load: Load, writers: u32) -> Result<Audit<V>, AllocError>
    requires width { IsWidth V }
    requires writers { HasWriters writers }
    ensures { IfOk result (CanAudit V load writers) }
{
    let most = 2 * load.writes as usize * writers as usize;
    Ok(Audit {
        dated: Vec::with_capacity(alloc, most)?,
        history: Vec::with_capacity(alloc, most)?,
        told: Vec::with_capacity(alloc, load.lookups as usize)?,
    })
}

/// The workers, each with one of these handles, and what they are checked with.
pub(crate) fn seat_workers<'p, const V: usize>(
    alloc: Global,
    load: Load,
    writers: u32,
    mut handles: Vec<Handle<'p, V>>,
) -> Result<Seated<'p, V>, AllocError>
    requires width { IsWidth V }
    requires keys { HasKeys load.keys }
    requires writers { HasWriters writers }
    requires seats { HasSeats load.readers writers }
    requires many { vec_len handles ≡ load.readers + writers }
    ensures { (s : Sharded) → All (λ h. place_of h ≡ s) handles.entry.items → IfOk result (AreSeated V s load writers) }
{
    let audit = audit_of(alloc, load, writers)?;
    let turn_threads = turn_threads_of(alloc, load, writers, &mut handles)?;
    let reader_threads = reader_threads_of(alloc, load, 1, handles)?;
    Ok(Seated {
        turn_threads,
        reader_threads,
        audit,
    })
}
