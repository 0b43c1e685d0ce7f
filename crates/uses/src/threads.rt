//! A lookup in another thread.
ghost use Rattle.std.specs.Prelude.{◌≡◌};
ghost use Rattle.mc_cache.specs.Plain.{IsTrueAnswer, history, seen};

use mc_cache::{Cache, Reader, Reply, Writer, laws};
use std::marker::Sync;
use std::thread::{Threads, join_mut};

/// Puts 70 under 7 in one thread while the other looks a key up.
fn put_beside_get<R: Threads + Sync>(
    rt: &R,
    cache: &Cache<1>,
    writer: &mut Writer<1>,
    reader: &mut Reader<1>,
    key: u64,
) -> Reply<1>
    requires of { (writer.old.of ≡ cache.now) × (reader.old.of ≡ cache.now) }
    ensures of { (writer.new.of ≡ writer.old.of) × (reader.new.of ≡ reader.old.of) }
    ensures truth { IsTrueAnswer (seen 1 reader.new) key result }
{
    let (_, reply) = join_mut(
        rt,
        &mut || writer.put(cache, 7, [70]).is_ok(),
        &mut || reader.get(cache, key),
    );
    reply
}

/// Puts 70 under 7 while the reader looks a key up. The reply is true of the writer's history, as they have met since.
pub fn get_beside_a_put<R: Threads + Sync>(
    rt: &R,
    cache: &Cache<1>,
    writer: &mut Writer<1>,
    reader: &mut Reader<1>,
    key: u64,
) -> Reply<1>
    requires of { (writer.old.of ≡ cache.now) × (reader.old.of ≡ cache.now) }
    ensures truth { IsTrueAnswer (history 1 writer.new) key result }
{
    laws::history_laws::<1>();
    let reply = put_beside_get(rt, cache, writer, reader, key);
    reader.catch_up(cache, writer);
    reply
}
