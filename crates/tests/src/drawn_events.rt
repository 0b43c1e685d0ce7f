//! Worlds that make drawn events, lawful or not: what a refused event leaves, and how far the versions come.
use crate::drawing::{Writer, drawn_shape};
use mc_core::{Unlawful, World};
use mc_words::{Checked, Shape};
use rand_core::Rng;
use rand_pcg::Lcg64Xsh32;
use std::alloc::Global;
use std::ops::Range;
use std::test::Fail;

/// How many worlds are drawn for a seed: five for each limit.
const WORLDS: u32 = 5 * LIMITS as u32;

/// How many limits there are: from 0 to 40.
const LIMITS: usize = 41;

/// The words of the world, the last ones are its bits, folded into one number, and the length of its history.
fn seen_of(world: &World<1>) -> (u64, usize) {
    let mut fold: u64 = 1;
    for n in 0..world.checked().words::<1>() {
        fold = fold
            .wrapping_mul(0x100_0000_01b3)
            .wrapping_add(world.word(n));
    }
    (fold, world.history().len())
}

/// Whether no version is more than the limit.
fn is_within(world: &World<1>) -> bool {
    let shape = world.checked().shape();
    for s in 0..shape.stripes {
        let n = world.checked().version_place(s);
        if world.word(n) > shape.limit {
            return false;
        }
    }
    true
}

/// A world that is asked to make drawn events, and a second one that is asked only for those that the first has made.
#[derive(Drop)]
struct Pair {
    world: World<1>,
    lawful: World<1>,
    writer: Writer,
    /// What is seen of the first world since the last event that it made.
    seen: (u64, usize),
    /// Whether an event was refused because of the limit.
    limited: bool,
}

impl Pair {
    fn new(alloc: Global, checked: &Checked) -> Result<Pair, Fail> {
        let world = World::new(alloc, checked, 2)?;
        let seen = seen_of(&world);
        Ok(Pair {
            world,
            lawful: World::new(alloc, checked, 2)?,
            writer: Writer::new(checked),
            seen,
            limited: false,
        })
    }

    /// Whether the event was made; nothing if a refused one changed the world, or the second world gave something else.
    fn step(&mut self, rng: &mut Lcg64Xsh32) -> Option<bool> {
        let event = self.writer.drawn_event(rng);
        let given = self.world.step(event);
        let now = seen_of(&self.world);
        if !is_within(&self.world) {
            return None;
        }
        if given == Err(Unlawful::Limit) {
            self.limited = true;
        }
        if given.is_err() {
            return if now == self.seen { Some(false) } else { None };
        }
        self.seen = now;
        self.writer.made(event);
        if self.lawful.step(event) == given {
            Some(true)
        } else {
            None
        }
    }

    /// Whether both worlds have the same words and the same history.
    fn is_one(&self) -> bool {
        seen_of(&self.world) == seen_of(&self.lawful)
            && self.world.history() == self.lawful.history()
    }
}

/// How many of a world's drawn events were lawful; nothing if one did what it may not.
fn lawful_of(rng: &mut Lcg64Xsh32, pair: &mut Pair, events: u32) -> Option<u32> {
    let mut lawful: u32 = 0;
    for _ in 0..events {
        if pair.step(rng)? {
            lawful = lawful.saturating_add(1);
        }
    }
    if pair.is_one() { Some(lawful) } else { None }
}

/// How many drawn events were lawful in the worlds of the seed, and how many were drawn; nothing if one changed what it must not. One
/// world after the other has the next limit, and the more events the higher that is. A seed draws 100,040. It is noted which limits refused one.
fn lawful_in_worlds(
    alloc: Global,
    seed: u64,
    reached: &mut [bool; LIMITS],
) -> Result<Option<(u32, u32)>, Fail> {
    let mut rng = Lcg64Xsh32::new(seed, 0);
    let mut all: u32 = 0;
    let mut drawn: u32 = 0;
    for world in 0..WORLDS {
        let limit = (seed
            .wrapping_mul(u64::from(WORLDS))
            .wrapping_add(u64::from(world))
            % LIMITS as u64) as usize;
        let shape = Shape {
            limit: limit as u64,
            ..drawn_shape(&mut rng, seed)
        };
        let mut pair = Pair::new(alloc, &shape.check()?)?;
        let events = 88 + 20 * limit as u32;
        let Some(lawful) = lawful_of(&mut rng, &mut pair, events) else {
            return Ok(None);
        };
        all = all.saturating_add(lawful);
        drawn = drawn.saturating_add(events);
        reached[limit] = reached[limit] || pair.limited;
    }
    Ok(Some((all, drawn)))
}

// The first of these seeds by which a refused event changed a world, too few or too many events were lawful, or not every limit refused one.
fn first_wrong(alloc: Global, seeds: Range<u64>) -> Result<Option<u64>, Fail> {
    for seed in seeds {
        let mut reached = [false; LIMITS];
        let Some((all, drawn)) = lawful_in_worlds(alloc, seed, &mut reached)? else {
            return Ok(Some(seed));
        };
        let some_were = (drawn / 4 + 1..drawn / 10 * 9).contains(&all);
        if !some_were || drawn < 100_000 || reached.contains(&false) {
            return Ok(Some(seed));
        }
    }
    Ok(None)
}

// Each test takes five seeds, so that it ends in time.
#[test]
fn refused_events_leave_the_world_as_it_was(rt: HostRuntime) -> Result<(), Fail> {
    assert_eq!(rt; first_wrong(rt.alloc(), 1..6)?, None);
    Ok(())
}

#[test]
fn refused_events_leave_a_second_world_as_it_was(rt: HostRuntime) -> Result<(), Fail> {
    assert_eq!(rt; first_wrong(rt.alloc(), 6..11)?, None);
    Ok(())
}

#[test]
fn refused_events_leave_a_third_world_as_it_was(rt: HostRuntime) -> Result<(), Fail> {
    assert_eq!(rt; first_wrong(rt.alloc(), 11..16)?, None);
    Ok(())
}

#[test]
fn refused_events_leave_a_fourth_world_as_it_was(rt: HostRuntime) -> Result<(), Fail> {
    assert_eq!(rt; first_wrong(rt.alloc(), 16..21)?, None);
    Ok(())
}
