//! The calls of a cache, and when their answers are true. Each function makes the call alone. What it ensures is said of every execution: of
//! every order of the steps of the writer and of all readers.
ghost use Rattle.std.specs.Prelude.{◌≡◌, length};
ghost use Rattle.mc_cache.specs.Plain.{history};
ghost use Rattle.mc_executions.specs.RunningCalls.{ChangesAreTimed, IsTimedThroughout, LookupIsTimed, ManyLookupsAreTimed};

use mc_cache::turn::TurnCall;
use mc_cache::{Cache, Desk, Reader, Reply, Writer};
use std::marker::PhantomData;

/// `Reader::get`: its reply is what the map held of the key at a moment between call and return.
pub fn get<const V: usize>(cache: &Cache<V>, reader: &mut Reader<V>, key: u64) -> Reply<V>
    requires of { reader.old.of ≡ cache.now }
    ensures timed { LookupIsTimed V cache.now.layout.shape key reader.old reader.new result }
{
    cache.known();
    reader.get(cache, key)
}

/// `Reader::get_many`: each reply is what the map held of its key at a moment of its own, in the order of the keys.
pub fn get_many<const V: usize>(
    cache: &Cache<V>,
    reader: &mut Reader<V>,
    keys: &[u64],
    replies: &mut [Reply<V>],
)
    requires of { reader.old.of ≡ cache.now }
    requires many { length replies.old ≡ length keys.now }
    ensures timed { ManyLookupsAreTimed V cache.now.layout.shape keys.now reader.old reader.new replies.new }
{
    cache.known();
    reader.get_many(cache, keys, replies);
}

/// `Reader::get_or_desk`: its reply is what the map held of the key at a moment between call and return, in a turn too.
pub fn get_or_desk<const V: usize>(
    cache: &Cache<V>,
    desk: &Desk<V>,
    reader: &mut Reader<V>,
    key: u64,
) -> Reply<V>
    requires of { (reader.old.of ≡ cache.now) × (desk.now ≡ cache.now) }
    ensures timed { LookupIsTimed V cache.now.layout.shape key reader.old reader.new result }
{
    cache.known();
    reader.get_or_desk(cache, desk, key)
}

/// `Reader::get_beside`: its reply is what the map holds of the key at each moment of the call.
pub fn get_beside<const V: usize>(
    cache: &Cache<V>,
    reader: &mut Reader<V>,
    writer: &mut Writer<V>,
    key: u64,
) -> Reply<V>
    requires of { (reader.old.of ≡ cache.now) × (writer.old.of ≡ cache.now) }
    ensures timed { IsTimedThroughout V cache.now.layout.shape key writer.old.acts writer.new.acts result }
{
    reader.get_beside(cache, writer, key)
}

/// `Writer::get`: its reply is what the map holds of the key at each moment of the call.
pub fn writer_get<const V: usize>(cache: &Cache<V>, writer: &mut Writer<V>, key: u64) -> Reply<V>
    requires of { writer.old.of ≡ cache.now }
    ensures timed { IsTimedThroughout V cache.now.layout.shape key writer.old.acts writer.new.acts result }
{
    writer.get(cache, key)
}

/// `Writer::peek`: the same.
pub fn peek<const V: usize>(cache: &Cache<V>, writer: &mut Writer<V>, key: u64) -> Reply<V>
    requires of { writer.old.of ≡ cache.now }
    ensures timed { IsTimedThroughout V cache.now.layout.shape key writer.old.acts writer.new.acts result }
{
    writer.peek(cache, key)
}

/// A call of the writer that may change the map, as `Writer::put` and `Writer::remove` are: each of its changes takes effect at one step of
/// the call, and together they are what its answer means.
pub fn make<const V: usize, T, E, C: TurnCall<V, T, E>>(
    cache: &Cache<V>,
    writer: &mut Writer<V>,
    call: C,
) -> Result<T, E>
    requires of { writer.old.of ≡ cache.now }
    ensures timed { ChangesAreTimed V cache.now.layout.shape writer.old.acts writer.new.acts }
    ensures means { (C.contract call).means (history V writer.old) (history V writer.new) result }
{
    cache.known();
    call.make(cache, writer, PhantomData)
}
