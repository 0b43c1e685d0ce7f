//! One call of a cache, by its writer or by a reader, and what it answers.
ghost use Rattle.std.specs.Prelude.{◌≡◌};

use mc_cache::{
    AbsentError, Cache, Entry, Evict, EvictError, IfError, Put, PutError, Reader, Remove, Replaced,
    Reply, Spent, Swapped, Take, Writer,
};

/// A call. A look is the reader's, all others are the writer's.
#[derive(Clone, Copy)]
pub enum Call {
    Put(u64, u64),
    /// The key, the stamp that it is to have, and the new value.
    PutIf(u64, u64, u64),
    PutIfAbsent(u64, u64),
    Remove(u64),
    Swap(u64, u64),
    /// As `PutIf`.
    SwapIf(u64, u64, u64),
    Take(u64),
    Evict,
    Get(u64),
    Peek(u64),
    Look(u64),
    LookBeside(u64),
    CatchUp,
    Len,
    Capacity,
}

/// What a call answers: its moment, and what the name says before it.
#[derive(Clone, Copy, PartialEq, Eq)]
pub enum Told {
    /// Stored, with no move and no eviction.
    Stored(u64),
    /// Stored, with no move, after an eviction of this key.
    StoredAfter(u64, u64),
    StoredByMoves,
    Renewed(u64),
    Refused(PutError),
    /// The stamp was the requested one.
    RenewedIf(u64),
    RefusedIf(IfError),
    /// The key was there, or its put was refused.
    RefusedIfAbsent(AbsentError),
    Removed(u64),
    NotThere(u64),
    SpentRemove,
    /// Stored, with no move, after an eviction of this entry: its key, value and stamp.
    StoredFor([u64; 3], u64),
    /// Renewed, and this was the entry before.
    RenewedFrom([u64; 3], u64),
    /// Removed, and this was the entry.
    Taken([u64; 3], u64),
    /// Evicted without a put: the entry.
    Evicted([u64; 3], u64),
    Empty(u64),
    NotEvicted(EvictError),
    /// The value, the moment and the stamp.
    Found(u64, u64, u64),
    Absent(u64),
    Busy,
    Moment(u64),
    Keys(usize),
    Items(usize),
}

impl Told {
    fn of_put(told: Result<Put, PutError>) -> Told {
        match told {
            Ok(Put::Stored { moves: 1.., .. }) => Told::StoredByMoves,
            Ok(
                Put::Stored {
                    at,
                    evicted: None,
                    ..
                },
            ) => Told::Stored(at),
            Ok(
                Put::Stored {
                    at,
                    evicted: Some(key),
                    ..
                },
            ) => Told::StoredAfter(key, at),
            Ok(Put::Renewed { at }) => Told::Renewed(at),
            Err(why) => Told::Refused(why),
        }
    }

    fn of_put_if(told: Result<u64, IfError>) -> Told {
        match told {
            Ok(at) => Told::RenewedIf(at),
            Err(why) => Told::RefusedIf(why),
        }
    }

    fn of_put_if_absent(told: Result<Put, AbsentError>) -> Told {
        match told {
            Ok(put) => Told::of_put(Ok(put)),
            Err(why) => Told::RefusedIfAbsent(why),
        }
    }

    fn of_remove(told: Result<Remove, Spent>) -> Told {
        match told {
            Ok(Remove::Removed { at }) => Told::Removed(at),
            Ok(Remove::NotThere { at }) => Told::NotThere(at),
            Err(_) => Told::SpentRemove,
        }
    }

    fn of_swap(told: Result<Swapped<1>, PutError>) -> Told {
        let Ok(
            Swapped {
                put,
                old: Some(old),
            },
        ) = told
        else {
            return Told::of_put(told.map(|swapped: Swapped<1>| -> Put { swapped.put }));
        };
        match Told::of_put(Ok(put)) {
            Told::StoredAfter(key, at) if key == old.key => Told::StoredFor(words_of(old), at),
            Told::Renewed(at) => Told::RenewedFrom(words_of(old), at),
            other => other,
        }
    }

    fn of_swap_if(told: Result<Replaced<1>, IfError>) -> Told {
        match told {
            Ok(Replaced { at, old }) => Told::RenewedFrom(words_of(old), at),
            Err(why) => Told::RefusedIf(why),
        }
    }

    fn of_take(told: Result<Take<1>, Spent>) -> Told {
        match told {
            Ok(Take::Taken { at, old }) => Told::Taken(words_of(old), at),
            Ok(Take::NotThere { at }) => Told::NotThere(at),
            Err(_) => Told::SpentRemove,
        }
    }

    fn of_evict(told: Result<Evict<1>, EvictError>) -> Told {
        match told {
            Ok(Evict::Evicted { at, old }) => Told::Evicted(words_of(old), at),
            Ok(Evict::Empty { at }) => Told::Empty(at),
            Err(why) => Told::NotEvicted(why),
        }
    }

    fn of_reply(reply: Reply<1>) -> Told {
        match reply {
            Reply::Found { value, at, since } => Told::Found(value[0], at, since),
            Reply::Absent { at } => Told::Absent(at),
            Reply::Busy => Told::Busy,
        }
    }
}

// The entry's key, value and stamp.
fn words_of(entry: Entry<1>) -> [u64; 3] {
    [entry.key, entry.value[0], entry.since]
}

/// Makes a call.
pub fn make(cache: &Cache<1>, writer: &mut Writer<1>, reader: &mut Reader<1>, call: Call) -> Told
    requires of { (writer.old.of ≡ cache.now) × (reader.old.of ≡ cache.now) }
    ensures of { (writer.new.of ≡ writer.old.of) × (reader.new.of ≡ reader.old.of) }
{
    match call {
        Call::Put(key, value) => Told::of_put(writer.put(cache, key, [value])),
        Call::PutIf(key, since, value) => {
            Told::of_put_if(writer.put_if(cache, key, since, [value]))
        }
        Call::PutIfAbsent(key, value) => {
            Told::of_put_if_absent(writer.put_if_absent(cache, key, [value]))
        }
        Call::Remove(key) => Told::of_remove(writer.remove(cache, key)),
        Call::Swap(key, value) => Told::of_swap(writer.swap(cache, key, [value])),
        Call::SwapIf(key, since, value) => {
            Told::of_swap_if(writer.swap_if(cache, key, since, [value]))
        }
        Call::Take(key) => Told::of_take(writer.take(cache, key)),
        Call::Evict => Told::of_evict(writer.evict(cache)),
        Call::Get(key) => Told::of_reply(writer.get(cache, key)),
        Call::Peek(key) => Told::of_reply(writer.peek(cache, key)),
        Call::Look(key) => Told::of_reply(reader.get(cache, key)),
        Call::LookBeside(key) => Told::of_reply(reader.get_beside(cache, writer, key)),
        Call::CatchUp => Told::Moment(reader.catch_up(cache, writer)),
        Call::Len => Told::Keys(writer.len()),
        Call::Capacity => Told::Items(writer.capacity()),
    }
}
