//! Threads that take turns at a writer, and look keys up between their tries.
ghost use Rattle.std.specs.Prelude.{◌≡◌, All, IfOk};

use crate::looker::key_of;
use crate::truth::is_true;
use crate::waiting::TURNS;
use mc_cache::{Cache, Change, Desk, DeskError, Put, Reader, Remove, Reply};
use std::alloc::{AllocError, Global};
use std::sync::atomic::{AtomicU64, Ordering};
use std::thread;
use std::thread::Threads;

/// The calls of each thread.
const CALLS: usize = 400;

/// The numbers of the changes that are tried for until they win.
const STUBBORN: usize = 16;

/// How often one of these is tried for at most.
const TRIES: u32 = 1 << 24;

/// What came of a try.
#[derive(Clone, Copy, Debug, PartialEq, Eq)]
pub enum Tried {
    Held,
    /// It had the turn, and changed nothing.
    Kept,
    /// It had the turn, and made this change. `at` is the moment after it.
    Made { at: u64, change: Change<1> },
}

fn try_put(cache: &Cache<1>, desk: &Desk<1>, pass: &mut Reader<1>, key: u64, word: u64) -> Tried
    requires { (desk.now ≡ cache.now) × (pass.old.of ≡ cache.now) }
    ensures { pass.new.of ≡ pass.old.of }
{
    let change = Change::Put(key, [word]);
    match desk.try_put(cache, pass, key, [word]) {
        Ok(Put::Stored { at, .. } | Put::Renewed { at }) => Tried::Made { at, change },
        Err(DeskError::Call(_)) => Tried::Kept,
        Err(DeskError::Held) => Tried::Held,
    }
}

fn try_remove(cache: &Cache<1>, desk: &Desk<1>, pass: &mut Reader<1>, key: u64) -> Tried
    requires { (desk.now ≡ cache.now) × (pass.old.of ≡ cache.now) }
    ensures { pass.new.of ≡ pass.old.of }
{
    let change = Change::Remove(key);
    match desk.try_remove(cache, pass, key) {
        Ok(Remove::Removed { at }) => Tried::Made { at, change },
        Ok(Remove::NotThere { .. }) | Err(DeskError::Call(_)) => Tried::Kept,
        Err(DeskError::Held) => Tried::Held,
    }
}

// Tries to put until it had the turn, if that comes.
fn put_stubbornly(
    cache: &Cache<1>,
    desk: &Desk<1>,
    pass: &mut Reader<1>,
    key: u64,
    word: u64,
) -> Tried
    requires { (desk.now ≡ cache.now) × (pass.old.of ≡ cache.now) }
    ensures { pass.new.of ≡ pass.old.of }
{
    for _turn in 0..TRIES {
        let tried = try_put(cache, desk, pass, key, word);
        if tried != Tried::Held {
            return tried;
        }
        thread::yield_now();
    }
    Tried::Held
}

// The change of this number: every fourth removes.
fn try_change(
    cache: &Cache<1>,
    desk: &Desk<1>,
    pass: &mut Reader<1>,
    n: usize,
    key: u64,
    word: u64,
) -> Tried
    requires { (desk.now ≡ cache.now) × (pass.old.of ≡ cache.now) }
    ensures { pass.new.of ≡ pass.old.of }
{
    if n % STUBBORN == 0 {
        put_stubbornly(cache, desk, pass, key, word)
    } else if n % 4 == 3 {
        try_remove(cache, desk, pass, key)
    } else {
        try_put(cache, desk, pass, key, word)
    }
}

// Whether the change of this number was tried for stubbornly, and never came to its turn.
fn is_lost(n: usize, tried: Tried) -> bool {
    n % STUBBORN == 0 && tried == Tried::Held
}

/// The answers to one try of a thread, and to the lookup after it.
#[derive(Clone, Copy)]
struct Told {
    tried: Tried,
    key: u64,
    reply: Reply<1>,
}

fn moment_of(reply: Reply<1>) -> Option<u64> {
    match reply {
        Reply::Found { at, .. } | Reply::Absent { at } => Some(at),
        Reply::Busy => None,
    }
}

impl Told {
    // The moments that it names, if neither is lower than those before: the last one.
    fn moment_after(self, last: u64) -> Option<u64> {
        let made = match self.tried {
            Tried::Made { at, .. } => at,
            Tried::Kept | Tried::Held => last,
        };
        let at = moment_of(self.reply).unwrap_or(made);
        if made < last || at < made {
            return None;
        }
        Some(at)
    }
}

/// Where threads wait for each other.
#[derive(Drop)]
pub struct Meeting {
    here: AtomicU64,
    due: u64,
}

impl Meeting {
    /// Where `due` threads are awaited.
    pub fn of(due: usize) -> Meeting {
        Meeting {
            here: AtomicU64::new(0),
            due: due as u64,
        }
    }

    /// Waits until all are here. Whether they came in time.
    pub fn wait(&self) -> bool {
        self.here.fetch_add(1, Ordering::SeqCst);
        for _turn in 0..TURNS {
            if self.here.load(Ordering::SeqCst) >= self.due {
                return true;
            }
            thread::yield_now();
        }
        false
    }
}

/// A thread that looks keys up, and also writes or not.
#[derive(Drop)]
pub struct Caller {
    pub pass: Reader<1>,
    who: u64,
    writes: bool,
    met: bool,
    told: Vec<Told>,
}

impl Caller {
    /// A caller that has not called yet, with room for all answers.
    pub fn new(alloc: Global, pass: Reader<1>, who: u64, writes: bool) -> Result<Caller, AllocError>
        ensures { IfOk result (λ c. c.pass ≡ pass) }
    {
        let none = Told {
            tried: Tried::Kept,
            key: 0,
            reply: Reply::Busy,
        };
        let told = vec![in alloc; none; CALLS]?;
        Ok(Caller {
            pass,
            who,
            writes,
            met: false,
            told,
        })
    }

    // Makes its calls in turn, once all others are there.
    fn call_all(mut self, cache: &Cache<1>, desk: &Desk<1>, meeting: &Meeting) -> Caller
        requires { (desk.now ≡ cache.now) × (self.pass.of ≡ cache.now) }
    {
        self.met = meeting.wait();
        let told = self.told.as_mut_slice();
        call_each(cache, desk, &mut self.pass, self.who, self.writes, told);
        self
    }

    // Writes the changes that it made at their moments. Returns whether no other is there.
    fn lay_changes(&self, places: &mut [Option<Change<1>>]) -> bool {
        for told in self.told.as_slice() {
            if let Tried::Made { at, change } = told.tried {
                let n = at as usize;
                if n == 0 || n > places.len() || places[n - 1].is_some() {
                    return false;
                }
                places[n - 1] = Some(change);
            }
        }
        true
    }

    /// Whether a try of it was held.
    pub fn was_held(&self) -> bool {
        for told in self.told.as_slice() {
            if told.tried == Tried::Held {
                return true;
            }
        }
        false
    }

    /// Whether all came together, its answers are true of the history, their moments don't fall, and whatever it tried for
    /// stubbornly came to its turn.
    pub fn was_told_the_truth(&self, history: &[Change<1>]) -> bool {
        let told = self.told.as_slice();
        let mut last = 0;
        for n in 0..told.len() {
            let Some(at) = told[n].moment_after(last) else {
                return false;
            };
            last = at;
            if is_lost(n, told[n].tried) || !is_true(history, told[n].key, told[n].reply) {
                return false;
            }
        }
        self.met
    }
}

// One try and one lookup for each place. Ends if a change was tried for stubbornly, and lost.
fn call_each(
    cache: &Cache<1>,
    desk: &Desk<1>,
    pass: &mut Reader<1>,
    who: u64,
    writes: bool,
    told: &mut [Told],
)
    requires { (desk.now ≡ cache.now) × (pass.old.of ≡ cache.now) }
    ensures { pass.new.of ≡ pass.old.of }
{
    for n in 0..told.len() {
        let key = key_of(n, who.wrapping_mul(2) + 1) % 16;
        let tried = if writes {
            try_change(cache, desk, pass, n, key, (who << 32) | n as u64)
        } else {
            Tried::Kept
        };
        let reply = pass.get_or_desk(cache, desk, key);
        told[n] = Told { tried, key, reply };
        if is_lost(n, tried) {
            return;
        }
    }
}

/// Each makes its calls in a thread of its own.
pub fn call_in_threads<R: Threads + Sync>(
    rt: &R,
    cache: &Cache<1>,
    desk: &Desk<1>,
    callers: Vec<Caller>,
) -> Result<Vec<Caller>, AllocError>
    requires desk { desk.now ≡ cache.now }
    requires of { All (λ c. c.pass.of ≡ cache.now) callers.items }
{
    let meeting = Meeting::of(callers.len());
    thread::map_vec(
        rt,
        callers,
        &|caller: Caller| -> Caller
            requires { (desk.now ≡ cache.now) × (caller.pass.of ≡ cache.now) }
        { caller.call_all(cache, desk, &meeting) },
    )
}

/// The history that the callers' changes make. `None` if a moment up to this one is missing or there twice.
pub fn history_of(
    alloc: Global,
    callers: &[Caller],
    moment: u64,
) -> Result<Option<Vec<Change<1>>>, AllocError> {
    let mut places = vec![in alloc; None; moment as usize]?;
    for caller in callers {
        if !caller.lay_changes(places.as_mut_slice()) {
            return Ok(None);
        }
    }
    let mut history = Vec::new(alloc);
    for place in places {
        let Some(change) = place else {
            return Ok(None);
        };
        history.push(change)?;
    }
    Ok(Some(history))
}
