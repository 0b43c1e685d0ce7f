//! A reader that looks keys up in an order of its own, one or many by a call, and its answers.
ghost use Rattle.std.specs.Prelude.{◌≡◌, IfOk};

use crate::truth::is_true;
use crate::waiting::is_set;
use mc_cache::{Cache, Change, Reader, Reply};
use std::alloc::{AllocError, Global};
use std::sync::atomic::AtomicBool;

/// Lookups that don't wait for the writer's end.
const LOOKUPS: usize = 2000;

/// Lookups after these.
const LAST: usize = 64;

/// The keys of a call for many.
const MANY: usize = 48;

/// One of 64 keys for each number. Each key comes once in 64 numbers, if the factor is odd.
pub fn key_of(n: usize, factor: u64) -> u64 {
    (n as u64).wrapping_mul(factor) % 64
}

// Looks the keys up in turn, and writes down each answer; the last of them once the writer has ended, or none.
fn look_all(
    cache: &Cache<1>,
    reader: &mut Reader<1>,
    factor: u64,
    ended: &AtomicBool,
    replies: &mut [Reply<1>],
)
    requires { reader.old.of ≡ cache.now }
    ensures { reader.new.of ≡ reader.old.of }
{
    for n in 0..replies.len() {
        if n == LOOKUPS && !is_set(ended) {
            return;
        }
        replies[n] = reader.get(cache, key_of(n, factor));
    }
}

// The keys of the numbers from this one on.
fn write_keys(first: usize, factor: u64, keys: &mut [u64]) {
    for n in 0..keys.len() {
        keys[n] = key_of(first.wrapping_add(n), factor);
    }
}

// Looks keys up by calls for many keys. The last call waits for the writer's end.
fn look_many(
    cache: &Cache<1>,
    reader: &mut Reader<1>,
    factor: u64,
    ended: &AtomicBool,
    replies: &mut [Reply<1>],
)
    requires { reader.old.of ≡ cache.now }
    ensures { reader.new.of ≡ reader.old.of }
{
    let mut keys = [0u64; MANY];
    for first in 0..replies.len() {
        if first % MANY == 0 {
            if first >= LOOKUPS && !is_set(ended) {
                return;
            }
            let end = replies.len().min(first + MANY);
            write_keys(first, factor, &mut keys);
            reader.get_many(cache, &keys[..end - first], &mut replies[first..end]);
        }
    }
}

fn moment_of(reply: Reply<1>) -> Option<u64> {
    match reply {
        Reply::Found { at, .. } | Reply::Absent { at } => Some(at),
        Reply::Busy => None,
    }
}

// Whether the answers with a moment are true of the history, and their moments don't fall, up to that of the whole history.
fn are_true(history: &[Change<1>], factor: u64, replies: &[Reply<1>]) -> bool {
    let mut last = 0;
    for n in 0..replies.len() {
        let at = moment_of(replies[n]).unwrap_or(last);
        if at < last || !is_true(history, key_of(n, factor), replies[n]) {
            return false;
        }
        last = at;
    }
    last == history.len() as u64
}

// Room for all answers.
fn unanswered(alloc: Global) -> Result<Vec<Reply<1>>, AllocError> {
    vec![in alloc; Reply::Busy; LOOKUPS + LAST]
}

#[derive(Drop)]
pub struct Looker {
    pub reader: Reader<1>,
    factor: u64,
    many: bool,
    replies: Vec<Reply<1>>,
}

impl Looker {
    /// A looker that has not looked yet, with room for all answers. `many`: a call looks many keys up.
    pub fn new(
        alloc: Global,
        reader: Reader<1>,
        factor: u64,
        many: bool,
    ) -> Result<Looker, AllocError>
        ensures { IfOk result (λ l. l.reader ≡ reader) }
    {
        let replies = unanswered(alloc)?;
        Ok(Looker {
            reader,
            factor,
            many,
            replies,
        })
    }

    /// Looks the keys up in turn, and the last of them once the writer has ended.
    pub fn look_all(mut self, cache: &Cache<1>, ended: &AtomicBool) -> Looker
        requires { self.reader.of ≡ cache.now }
    {
        let replies = self.replies.as_mut_slice();
        if self.many {
            look_many(cache, &mut self.reader, self.factor, ended, replies);
        } else {
            look_all(cache, &mut self.reader, self.factor, ended, replies);
        }
        self
    }

    /// Whether the answers with a moment are true of the history, and their moments don't fall, up to that of the whole history.
    pub fn was_told_the_truth(&self, history: &[Change<1>]) -> bool {
        are_true(history, self.factor, self.replies.as_slice())
    }
}
