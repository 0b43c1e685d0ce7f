//! Threads that write to shards and look keys up between their tries.
ghost use Rattle.std.specs.Prelude.{◌≡◌, All, IfOk};
ghost use Rattle.mc_shards.specs.Sharded.{ArePassOf};

use crate::looker::key_of;
use crate::truth::is_true;
use crate::turns::{Meeting, Tried};
use mc_shards::{DeskError, Pass, Put, Remove, Reply, Shards};
use mc_words::Change;
use std::alloc::{AllocError, Global};
use std::thread;
use std::thread::Threads;

/// The calls of each thread.
const CALLS: usize = 400;

/// Keys are below this number.
pub const KEYS: u64 = 64;

/// The answers to one try of a thread, and to the lookup after it.
#[derive(Clone, Copy)]
struct Told {
    tried: Tried,
    key: u64,
    reply: Reply<1>,
}

fn try_put(shards: &Shards<1>, pass: &mut Pass<1>, key: u64, word: u64) -> Tried
    requires { ArePassOf shards.now pass.old }
    ensures { ArePassOf shards.now pass.new }
{
    let change = Change::Put(key, [word]);
    match pass.try_put(shards, key, [word]) {
        Ok(Put::Stored { at, .. } | Put::Renewed { at }) => Tried::Made { at, change },
        Err(DeskError::Call(_)) => Tried::Kept,
        Err(DeskError::Held) => Tried::Held,
    }
}

fn try_remove(shards: &Shards<1>, pass: &mut Pass<1>, key: u64) -> Tried
    requires { ArePassOf shards.now pass.old }
    ensures { ArePassOf shards.now pass.new }
{
    let change = Change::Remove(key);
    match pass.try_remove(shards, key) {
        Ok(Remove::Removed { at }) => Tried::Made { at, change },
        Ok(Remove::NotThere { .. }) | Err(DeskError::Call(_)) => Tried::Kept,
        Err(DeskError::Held) => Tried::Held,
    }
}

/// A thread that looks keys up, and also writes or not.
#[derive(Drop)]
pub struct Caller {
    pub pass: Pass<1>,
    who: u64,
    writes: bool,
    met: bool,
    told: Vec<Told>,
}

impl Caller {
    /// A caller that has not called yet, with room for all answers.
    pub fn new(alloc: Global, pass: Pass<1>, who: u64, writes: bool) -> Result<Caller, AllocError>
        ensures { IfOk result (λ c. c.pass ≡ pass) }
    {
        let none = Told {
            tried: Tried::Kept,
            key: 0,
            reply: Reply::Busy,
        };
        let told = vec![in alloc; none; CALLS]?;
        Ok(Caller {
            pass,
            who,
            writes,
            met: false,
            told,
        })
    }

    // Makes its calls in turn, once all others are there. Every fourth change removes.
    fn call_all(mut self, shards: &Shards<1>, meeting: &Meeting) -> Caller
        requires { ArePassOf shards.now self.pass }
    {
        self.met = meeting.wait();
        let told = self.told.as_mut_slice();
        call_each(shards, &mut self.pass, self.who, self.writes, told);
        self
    }

    /// How many changes it made in this shard.
    pub fn changes_in(&self, shards: &Shards<1>, shard: usize) -> usize {
        let mut many = 0usize;
        for told in self.told.as_slice() {
            if let Tried::Made { .. } = told.tried {
                if shards.shard_of(told.key) == shard {
                    many = many.wrapping_add(1);
                }
            }
        }
        many
    }

    /// Writes the changes that it made in this shard at their moments. Returns whether no other is there.
    pub fn lay_changes(
        &self,
        shards: &Shards<1>,
        shard: usize,
        places: &mut [Option<Change<1>>],
    ) -> bool {
        for told in self.told.as_slice() {
            let (at, change) = match told.tried {
                Tried::Made { at, change } if shards.shard_of(told.key) == shard => (at, change),
                _ => continue,
            };
            let n = at as usize;
            if n == 0 || n > places.len() || places[n - 1].is_some() {
                return false;
            }
            places[n - 1] = Some(change);
        }
        true
    }

    /// Whether all came together, and its answers for keys of this shard are true of the shard's history.
    pub fn was_told_the_truth(
        &self,
        shards: &Shards<1>,
        shard: usize,
        history: &[Change<1>],
    ) -> bool {
        for told in self.told.as_slice() {
            if shards.shard_of(told.key) == shard && !is_true(history, told.key, told.reply) {
                return false;
            }
        }
        self.met
    }
}

// One try and one lookup for each place.
fn call_each(shards: &Shards<1>, pass: &mut Pass<1>, who: u64, writes: bool, told: &mut [Told])
    requires { ArePassOf shards.now pass.old }
    ensures { ArePassOf shards.now pass.new }
{
    for n in 0..told.len() {
        let key = key_of(n, who.wrapping_mul(2) + 1) % KEYS;
        let tried = if !writes {
            Tried::Kept
        } else if n % 4 == 3 {
            try_remove(shards, pass, key)
        } else {
            try_put(shards, pass, key, (who << 32) | n as u64)
        };
        let reply = pass.get_or_desk(shards, key);
        told[n] = Told { tried, key, reply };
    }
}

/// Each makes its calls in a thread of its own.
pub fn call_in_threads<R: Threads + Sync>(
    rt: &R,
    shards: &Shards<1>,
    callers: Vec<Caller>,
) -> Result<Vec<Caller>, AllocError>
    requires of { All (λ c. ArePassOf shards.now c.pass) callers.items }
{
    let meeting = Meeting::of(callers.len());
    thread::map_vec(
        rt,
        callers,
        &|caller: Caller| -> Caller
            requires { ArePassOf shards.now caller.pass }
        { caller.call_all(shards, &meeting) },
    )
}

/// The history that the callers' changes make in this shard. `None` if a moment is missing or there twice.
pub fn history_of(
    alloc: Global,
    shards: &Shards<1>,
    shard: usize,
    callers: &[Caller],
) -> Result<Option<Vec<Change<1>>>, AllocError> {
    let mut many = 0usize;
    for caller in callers {
        many = many.wrapping_add(caller.changes_in(shards, shard));
    }
    let mut places = vec![in alloc; None; many]?;
    for caller in callers {
        if !caller.lay_changes(shards, shard, places.as_mut_slice()) {
            return Ok(None);
        }
    }
    let mut history = Vec::new(alloc);
    for place in places {
        let Some(change) = place else {
            return Ok(None);
        };
        history.push(change)?;
    }
    Ok(Some(history))
}
