//! Workers are made ready, each with room for all that it will write down.
ghost use Rattle.std.specs.Prelude.{◌≡◌, ◌+◌, ◌*◌, ◌^◌, ◌<◌, ◌≤◌, [], All, IfOk, Some, vec_len, vec_capacity};
ghost use Rattle.mc_words.specs.Places.{IsWidth};
ghost use Rattle.mc_shared.specs.Records.{Opening};
ghost use Rattle.mc_shards.specs.Sharded.{Sharded};
ghost use Rattle.mc_load.specs.Loads.{MayAskAtOnce};
ghost use Rattle.mc_load.specs.ShardLoads.{who_of};
ghost use Rattle.mc_load.specs.Turns.{stream_of};
ghost use Rattle.mc_load.specs.Inside.Handles.{cache_of, place_of};
ghost use Rattle.mc_load.specs.Inside.Tries.{CanTry};
ghost use Rattle.mc_load.specs.Inside.Workers.{AreReadersIn, AreReadersOf, AreReady, CanWrite, IsReady};

use crate::asked::Load;
use crate::draws::Draws;
use crate::handle::Handle;
use crate::reader_thread::ReaderThread;
use crate::turn_thread::TurnThread;
use crate::turns::Turns;
use crate::writer_thread::WriterThread;
use mc_cache::{Cache, Writer};
use std::alloc::{AllocError, Global};

/// A single writer, in a list of its own.
pub(crate) fn writer_thread_of<'p, const V: usize>(
    alloc: Global,
    load: Load,
    cache: &'p Cache<V>,
    writer: Writer<V>,
) -> Result<Vec<WriterThread<'p, V>>, AllocError>
    requires width { IsWidth V }
    requires keys { 1 ≤ load.keys }
    requires shape { cache.now.layout.shape ≡ load.shape }
    requires of { writer.of ≡ cache.now }
    requires fresh { writer.acts ≡ [] }
    ensures one { IfOk result (λ ws. vec_len ws ≡ 1) }
    ensures can { IfOk result (λ ws. All (CanWrite V load) ws.items) }
    ensures of { IfOk result (λ ws. All (λ w. w.cache.now ≡ cache.now) ws.items) }
{
    let journal = Vec::with_capacity(alloc, 2 * load.writes as usize)?;
    let draws = Draws::new(load, 0);
    let mut writer_threads = Vec::with_capacity(alloc, 1)?;
    writer_threads.push_reserved(WriterThread {
        cache,
        writer,
        draws,
        journal,
        refused: None,
    });
    Ok(writer_threads)
}

/// The worker that a writer is.
fn who_of(readers: u32, writer: u32) -> u32
    requires { readers + writer < 2 ^ 32 }
    ensures { result ≡ who_of readers writer }
{
    if writer == 0 { 0 } else { readers + writer }
}

/// The stream of a writer's draws. The streams of the readers are below 2^32.
fn stream_of(writer: u32) -> u64
    ensures { result ≡ stream_of writer }
{
    if writer == 0 {
        0
    } else {
        (1 << 32) + u64::from(writer)
    }
}

/// One of the writers that take turns.
pub(crate) fn turn_thread_of<'p, const V: usize>(
    alloc: Global,
    load: Load,
    handle: Handle<'p, V>,
    number: u32,
) -> Result<TurnThread<'p, V>, AllocError>
    requires width { IsWidth V }
    requires keys { 1 ≤ load.keys }
    requires few { load.readers + number < 2 ^ 32 }
    ensures { (s : Sharded) → place_of handle.entry ≡ s → IfOk result (λ t. CanTry V s load number t) }
{
    let journal = Vec::with_capacity(alloc, 2 * load.writes as usize)?;
    Ok(TurnThread {
        handle,
        number,
        who: who_of(load.readers, number),
        draws: Draws::new(load, stream_of(number)),
        turns: Turns::none(),
        journal,
        refused: None,
    })
}

/// A reader.
fn reader_thread_of<'p, const V: usize>(
    alloc: Global,
    load: Load,
    many: u32,
    handle: Handle<'p, V>,
    number: u32,
) -> Result<ReaderThread<'p, V>, AllocError>
    requires width { IsWidth V }
    requires keys { 1 ≤ load.keys }
    requires many { MayAskAtOnce many }
    requires few { number + 1 < 2 ^ 32 }
    ensures ready { IfOk result (λ l. IsReady V load number l) }
    ensures handle { IfOk result (λ l. l.handle ≡ handle.entry) }
    ensures many { IfOk result (λ l. l.many ≡ many) }
{
    let draws = Draws::new(load, u64::from(number) + 1);
    let records = Vec::with_capacity(alloc, load.lookups as usize)?;
    Ok(ReaderThread {
        handle,
        number,
        many,
        draws,
        records,
        refused: None,
    })
}

/// The readers, each with one of these handles. Each asks for `many` keys at once.
pub(crate) fn reader_threads_of<'p, const V: usize>(
    alloc: Global,
    load: Load,
    many: u32,
    mut handles: Vec<Handle<'p, V>>,
) -> Result<Vec<ReaderThread<'p, V>>, AllocError>
    requires width { IsWidth V }
    requires keys { 1 ≤ load.keys }
    requires many { MayAskAtOnce many }
    requires handles { vec_len handles ≡ load.readers }
    ensures len { IfOk result (λ ls. vec_len ls ≡ load.readers) }
    ensures ready { IfOk result (λ ls. AreReady V load ls.items) }
    ensures many { IfOk result (λ ls. All (λ l. l.many ≡ many) ls.items) }
    ensures of { (o : Opening) → All (λ h. cache_of h ≡ Some o) handles.entry.items → IfOk result (λ ls. AreReadersOf o ls.items) }
    ensures place { (s : Sharded) → All (λ h. place_of h ≡ s) handles.entry.items → IfOk result (λ ls. AreReadersIn s ls.items) }
{
    let mut reader_threads = Vec::new(alloc);
    while let Some(handle) = handles.pop() {
        let number = reader_threads.len() as u32;
        reader_threads.push(reader_thread_of(alloc, load, many, handle, number)?)?;
    }
    Ok(reader_threads)
}
