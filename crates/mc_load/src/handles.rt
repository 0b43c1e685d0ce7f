//! What workers hold, made of what was opened.
ghost use Rattle.std.specs.Prelude.{◌≡◌, All, IfOk, Some, vec_len};
ghost use Rattle.mc_shards.specs.Sharded.{ArePassOf};
ghost use Rattle.mc_load.specs.Inside.Handles.{cache_of, place_of};
ghost use Rattle.mc_load.specs.Lookups.{one_shard};

use crate::handle::{CacheReader, DeskPass, Handle, ShardPass};
use mc_cache::{Cache, Desk, Reader};
use mc_shards::{Pass, Shards};
use std::alloc::{AllocError, Global};

/// The readers of a cache whose writer is on no desk.
pub(crate) fn cache_handles<'p, const V: usize>(
    alloc: Global,
    cache: &'p Cache<V>,
    mut readers: Vec<Reader<V>>,
) -> Result<Vec<Handle<'p, V>>, AllocError>
    requires of { All (λ r. r.of ≡ cache.now) readers.items }
    ensures len { IfOk result (λ hs. vec_len hs ≡ vec_len readers.entry) }
    ensures of { IfOk result (λ hs. All (λ h. cache_of h ≡ Some cache.now) hs.items) }
{
    let mut handles = Vec::new(alloc);
    while let Some(reader) = readers.pop() {
        handles.push(Handle::Cache(CacheReader { cache, reader }))?;
    }
    Ok(handles)
}

/// The readers of a cache, each the pass of its desk.
pub(crate) fn desk_handles<'p, const V: usize>(
    alloc: Global,
    cache: &'p Cache<V>,
    desk: &'p Desk<V>,
    mut readers: Vec<Reader<V>>,
) -> Result<Vec<Handle<'p, V>>, AllocError>
    requires desk { desk.now ≡ cache.now }
    requires of { All (λ r. r.of ≡ cache.now) readers.items }
    ensures len { IfOk result (λ hs. vec_len hs ≡ vec_len readers.entry) }
    ensures of { IfOk result (λ hs. All (λ h. place_of h ≡ one_shard cache.now) hs.items) }
{
    let mut handles = Vec::new(alloc);
    while let Some(pass) = readers.pop() {
        handles.push(Handle::Desk(DeskPass { cache, desk, pass }))?;
    }
    Ok(handles)
}

/// The passes of shards.
pub(crate) fn shard_handles<'p, const V: usize>(
    alloc: Global,
    shards: &'p Shards<V>,
    mut passes: Vec<Pass<V>>,
) -> Result<Vec<Handle<'p, V>>, AllocError>
    requires of { All (ArePassOf shards.now) passes.items }
    ensures len { IfOk result (λ hs. vec_len hs ≡ vec_len passes.entry) }
    ensures of { IfOk result (λ hs. All (λ h. place_of h ≡ shards.now) hs.items) }
{
    let mut handles = Vec::new(alloc);
    while let Some(pass) = passes.pop() {
        handles.push(Handle::Shards(ShardPass { shards, pass }))?;
    }
    Ok(handles)
}
