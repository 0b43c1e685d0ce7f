//! Threads that look keys up.
ghost use Rattle.std.specs.Prelude.{◌≡◌};

use crate::keys::{Draw, key_of};
use crate::stopwatch::Stopwatch;
use crate::tally::Tally;
use crate::tasks::Task;
use mc_cache::{Cache, Reader, Reply};
use std::io;
use std::time::{Clock, CpuClock};

/// The most keys that a call looks up.
const MOST: usize = 64;

/// One of the keys.
#[inline(always)]
fn draw_key(task: Task, draw: &mut Draw) -> u64 {
    let number = draw.below(task.numbers);
    key_of(task.first.wrapping_add(number))
}

// Looks 1024 keys up.
#[inline(never)]
fn look_often(cache: &Cache<4>, reader: &mut Reader<4>, task: Task, draw: &mut Draw) -> Tally
    requires { reader.old.of ≡ cache.now }
    ensures { reader.new.of ≡ reader.old.of }
{
    let mut tally = Tally::default();
    let mut drawn = *draw;
    for _ in 0..1024 {
        tally.count_reply(reader.get(cache, draw_key(task, &mut drawn)));
    }
    *draw = drawn;
    tally
}

// Looks keys up by 64 calls. The keys of a call are drawn while the answers of the one before it are counted.
#[inline(never)]
fn look_many(cache: &Cache<4>, reader: &mut Reader<4>, task: Task, draw: &mut Draw) -> Tally
    requires { reader.old.of ≡ cache.now }
    ensures { reader.new.of ≡ reader.old.of }
{
    let mut tally = Tally::default();
    let mut drawn = *draw;
    let mut keys = [0u64; MOST];
    let mut replies = [Reply::<4>::Busy; MOST];
    let many = MOST.min(task.many as usize);
    for n in 0..many {
        keys[n] = draw_key(task, &mut drawn);
    }
    for _ in 0..64 {
        reader.get_many(cache, &keys[..many], &mut replies[..many]);
        for n in 0..many {
            tally.count_reply(replies[n]);
            keys[n] = draw_key(task, &mut drawn);
        }
    }
    *draw = drawn;
    tally
}

/// Looks keys up until the time is over.
pub(crate) fn look_on<R: Clock + CpuClock>(
    rt: &R,
    cache: &Cache<4>,
    mut reader: Reader<4>,
    task: Task,
) -> io::Result<Tally>
    requires { reader.of ≡ cache.now }
{
    let mut draw = Draw::new(task.seed);
    let mut tally = Tally::default();
    let watch = Stopwatch::start(rt, task.alone)?;
    for _ in 0..u64::MAX {
        let spent = watch.elapsed(rt)?;
        if spent >= task.time {
            return Ok(tally.over(spent));
        }
        let looked = if task.many == 1 {
            look_often(cache, &mut reader, task, &mut draw)
        } else {
            look_many(cache, &mut reader, task, &mut draw)
        };
        tally = tally.and(looked);
    }
    Ok(tally)
}
