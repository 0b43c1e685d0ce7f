//! The last moment of each shard, looked up when all workers have ended.
ghost use Rattle.std.specs.Prelude.{◌≡◌, All, length, vec_len};
ghost use Rattle.mc_words.specs.Shapes.{HasShards};
ghost use Rattle.mc_shards.specs.Sharded.{Sharded};
ghost use Rattle.mc_load.specs.Inside.Handles.{place_of};
ghost use Rattle.mc_load.specs.Inside.Lasts.{AreLasts, HasLast};
ghost use Rattle.mc_load.specs.Inside.Workers.{AreReadersIn, HaveAllNoted, answers_of};

use crate::asked::Load;
use crate::dated::Dated;
use crate::handle::Handle;
use crate::reader_thread::{ReaderThread, moment_of};
use crate::turn_thread::TurnThread;
use mc_cache::Mix;
use mc_check::key_of;

/// The most shards.
const MOST_SHARDS: usize = 256;

/// Looks the key of a change up, if its shard has no moment yet, and notes the moment of the reply.
fn note_last<const V: usize>(
    handle: &mut Handle<'_, V>,
    mix: Mix,
    shards: u32,
    change: &Dated<V>,
    lasts: &mut [u64; MOST_SHARDS],
)
    requires { HasShards shards }
    ensures place { place_of handle.new ≡ place_of handle.old }
    ensures lasts { AreLasts V (place_of handle.old) mix shards lasts.old → AreLasts V (place_of handle.old) mix shards lasts.new }
    ensures looked { AreLasts V (place_of handle.old) mix shards lasts.old →
        HasLast V (place_of handle.old) lasts.new change.now }
    ensures kept { AreLasts V (place_of handle.old) mix shards lasts.old →
        (d : Dated V) → HasLast V (place_of handle.old) lasts.old d → HasLast V (place_of handle.old) lasts.new d }
{
    let key = key_of(&change.change);
    let shard = mix.shard(key, shards) as usize;
    if lasts[shard] != 0 {
        return;
    }
    let reply = handle.get(key);
    lasts[shard] = moment_of(&reply).unwrap_or(0);
}

/// Looks up a key of each shard that these changes are in and that has no moment yet.
fn note_lasts<const V: usize>(
    handle: &mut Handle<'_, V>,
    mix: Mix,
    shards: u32,
    journal: &[Dated<V>],
    lasts: &mut [u64; MOST_SHARDS],
)
    requires { HasShards shards }
    ensures place { place_of handle.new ≡ place_of handle.old }
    ensures lasts { AreLasts V (place_of handle.old) mix shards lasts.old → AreLasts V (place_of handle.old) mix shards lasts.new }
    ensures looked { AreLasts V (place_of handle.old) mix shards lasts.old →
        All (HasLast V (place_of handle.old) lasts.new) journal.now }
{
    for n in 0..journal.len() {
        note_last(handle, mix, shards, &journal[n], lasts);
    }
}

/// The last moment of each shard, by the last reader's lookup of one of the keys that the writers changed. 0 if they changed none.
pub(crate) fn last_moments<const V: usize>(
    load: Load,
    shards: u32,
    turn_threads: &[TurnThread<'_, V>],
    reader_threads: &mut Vec<ReaderThread<'_, V>>,
) -> [u64; MOST_SHARDS]
    requires shards { HasShards shards }
    requires noted { HaveAllNoted load reader_threads.old.items }
    ensures len { vec_len reader_threads.new ≡ vec_len reader_threads.old }
    ensures noted { HaveAllNoted load reader_threads.new.items }
    ensures lasts { (s : Sharded) → s.shape ≡ load.shape → length s.tables ≡ shards → AreReadersIn s reader_threads.old.items →
        AreLasts V s load.shape.mix shards result }
    ensures answers { answers_of reader_threads.new.items ≡ answers_of reader_threads.old.items }
{
    let mut lasts = [0; MOST_SHARDS];
    let Some(thread) = reader_threads.pop() else {
        return lasts;
    };
    let ReaderThread {
        mut handle,
        number,
        many,
        draws,
        records,
        refused,
    } = thread;
    for n in 0..turn_threads.len() {
        let journal = turn_threads[n].journal.as_slice();
        note_lasts(&mut handle, load.shape.mix, shards, journal, &mut lasts);
    }
    reader_threads.push_reserved(ReaderThread {
        handle,
        number,
        many,
        draws,
        records,
        refused,
    });
    lasts
}
