//! A writer that puts, removes and evicts beside three readers. Each answer of a reader with a moment is what the history
//! of the writer's calls says of the key at that moment. A reader's moments don't fall, and the last is that of the whole
//! history.
ghost use Rattle.std.specs.Prelude.{◌≡◌, All, IfOk};

use crate::journal::Entry;
use crate::looker::{Looker, key_of};
use mc_cache::{Cache, Change, Mix, Reader, Shape, Writer, open};
use std::alloc::{AllocError, Global};
use std::sync::atomic::{AtomicBool, Ordering};
use std::test::Fail;
use std::thread;
use std::thread::{Threads, join};

/// Three items fewer than there are keys.
fn shape(buckets: u32) -> Shape {
    Shape {
        buckets,
        items: 61,
        stripes: 64,
        depth: 5,
        tries: 8,
        limit: 1 << 62,
        mix: Mix::Fmix,
    }
}

const WRITES: usize = 2000;

/// What the writer's call of this number asks for: one in forty-one removes.
fn asked(n: usize) -> Change<1> {
    let key = key_of(n, 37);
    if n % 41 == 40 {
        Change::Remove(key)
    } else {
        Change::Put(key, [n as u64])
    }
}

// Makes the calls in turn, writes down what came of each, and says so at the end.
fn write_all(cache: &Cache<1>, writer: &mut Writer<1>, entries: &mut [Entry], ended: &AtomicBool)
    requires { writer.old.of ≡ cache.now }
    ensures { writer.new.of ≡ writer.old.of }
{
    for n in 0..entries.len() {
        entries[n] = match asked(n) {
            Change::Put(key, value) => Entry::of_put(writer.put(cache, key, value)),
            Change::Remove(key) | Change::Evict(key) => {
                Entry::of_remove(writer.remove(cache, key))
            }
        };
    }
    ended.store(true, Ordering::SeqCst);
}

/// The history that the entries give. `None` if a moment is not its length.
fn history_of(alloc: Global, entries: &[Entry]) -> Result<Option<Vec<Change<1>>>, AllocError> {
    let mut history = Vec::new(alloc);
    for n in 0..entries.len() {
        if !entries[n].add_to(&mut history, asked(n))? {
            return Ok(None);
        }
    }
    Ok(Some(history))
}

// A looker for each reader, with an order of its own.
fn lookers_of(
    alloc: Global,
    cache: &Cache<1>,
    mut readers: Vec<Reader<1>>,
    many: bool,
) -> Result<Vec<Looker>, AllocError>
    requires { All (λ r. r.of ≡ cache.now) readers.items }
    ensures { IfOk result (λ lookers. All (λ l. l.reader.of ≡ cache.now) lookers.items) }
{
    let _cache = cache;
    let mut lookers = Vec::new(alloc);
    let mut factor = 1u64;
    while let Some(reader) = readers.pop() {
        lookers.push(Looker::new(alloc, reader, factor, many)?)?;
        factor = factor.wrapping_add(2);
    }
    Ok(lookers)
}

// All readers look keys up, each in its thread.
fn look_in_threads<R: Threads + Sync>(
    rt: &R,
    cache: &Cache<1>,
    lookers: Vec<Looker>,
    ended: &AtomicBool,
) -> Result<Vec<Looker>, AllocError>
    requires { All (λ l. l.reader.of ≡ cache.now) lookers.items }
{
    thread::map_vec(
        rt,
        lookers,
        &|looker: Looker| -> Looker
            requires { looker.reader.of ≡ cache.now }
        { looker.look_all(cache, ended) },
    )
}

fn is_eviction(change: &Change<1>) -> bool {
    matches!(change, Change::Evict(_))
}

// The writer makes its calls, and writes down what came of each, while the lookers look.
fn look_beside<R: Threads + Sync>(
    rt: &R,
    cache: &Cache<1>,
    writer: &mut Writer<1>,
    lookers: Vec<Looker>,
    entries: &mut [Entry],
) -> Result<Vec<Looker>, AllocError>
    requires writer { writer.old.of ≡ cache.now }
    requires lookers { All (λ l. l.reader.of ≡ cache.now) lookers.items }
{
    let ended = AtomicBool::new(false);
    let ((), looked) = join(
        rt,
        || write_all(cache, writer, entries, &ended),
        || -> Result<Vec<Looker>, AllocError>
            requires { All (λ l. l.reader.of ≡ cache.now) lookers.items }
        { look_in_threads(rt, cache, lookers, &ended) },
    );
    looked
}

// Three lookers, once the writer has made its calls beside them, with what came of these.
fn looked_beside<R: Threads + Sync>(
    rt: &R,
    alloc: Global,
    shape: Shape,
    many: bool,
) -> Result<(Vec<Looker>, Vec<Entry>), Fail> {
    let mut entries = vec![in alloc; Entry::Refused; WRITES]?;
    let (cache, mut writer, readers) = open::<1>(alloc, shape, 3)?;
    let lookers = lookers_of(alloc, &cache, readers, many)?;
    let looked = look_beside(rt, &cache, &mut writer, lookers, entries.as_mut_slice())?;
    Ok((looked, entries))
}

// Whether a key was evicted, and all lookers' answers are true of this history.
fn is_history_of(history: &[Change<1>], looked: &[Looker]) -> bool {
    let mut right = looked.len() == 3 && history.iter().any(is_eviction);
    for looker in looked {
        right = right && looker.was_told_the_truth(history);
    }
    right
}

// Whether a key was evicted, and the answers of three readers beside the writer are true of the history that it gives.
fn are_answers_true<R: Threads + Sync>(
    rt: &R,
    alloc: Global,
    shape: Shape,
    many: bool,
) -> Result<bool, Fail> {
    let (looked, entries) = looked_beside(rt, alloc, shape, many)?;
    match history_of(alloc, entries.as_slice())? {
        Some(history) => Ok(is_history_of(history.as_slice(), looked.as_slice())),
        None => Err(Fail::new("a moment of the writer is not the number of its changes")),
    }
}

#[test]
fn answers_beside_evictions_are_true(rt: HostRuntime) -> Result<(), Fail> {
    assert!(rt; are_answers_true(&rt, rt.alloc(), shape(32), false)?);
    Ok(())
}

/// The buckets from which on a call for many keys touches their words ahead.
const LARGE: u32 = 131_072;

#[test]
fn answers_to_many_keys_beside_evictions_are_true(rt: HostRuntime) -> Result<(), Fail> {
    let alloc = rt.alloc();
    assert!(rt; are_answers_true(&rt, alloc, shape(32), true)?);
    assert!(rt; are_answers_true(&rt, alloc, shape(LARGE), true)?);
    Ok(())
}
