//! Events that a world can't make without memory leave it unchanged, and aren't counted.
use crate::opening::SHAPE;
use crate::seen::Seen;
use mc_core::{Act, Change, Deed, Done, Event, Reply, Run, Unlawful, World, run};
use mc_words::{NoMemory, Place};
use std::alloc::Global;

/// The word of the slot that names the first item under tag 0.
const FIRST_ITEM: u64 = 1;

// The acts of the first put: key 0 with value 7.
fn fill_events() -> [Event; 7] {
    let place = Place { bucket: 0, slot: 0 };
    [
        Event::Write(Act::Open(0, Deed::Fill)),
        Event::Write(Act::Item(0, 0, 0)),
        Event::Write(Act::Item(0, 1, 7)),
        Event::Write(Act::Item(0, 2, 1)),
        Event::Write(Act::Slot(place, FIRST_ITEM)),
        Event::Write(Act::Moment),
        Event::Write(Act::Close),
    ]
}

// The acts of a put that is the change of that number: key 0 again, with the number as its value.
fn renew_events(number: u64) -> [Event; 5] {
    [
        Event::Write(Act::Open(0, Deed::Renew)),
        Event::Write(Act::Item(0, 1, number)),
        Event::Write(Act::Item(0, 2, number)),
        Event::Write(Act::Moment),
        Event::Write(Act::Close),
    ]
}

// A lookup of key 0 that finds it: version, slot, key, value, stamp, moment, version, mark.
const LOOKUP: [Event; 9] = [
    Event::Begin(0, 0),
    Event::Read(0),
    Event::Read(0),
    Event::Read(0),
    Event::Read(0),
    Event::Read(0),
    Event::Read(0),
    Event::Read(0),
    Event::Read(0),
];

// A number that depends on all words of the world, and on its changes.
fn digest(world: &World<1>) -> u64 {
    let mut digest = world.history().len() as u64;
    for n in 0..world.checked().words::<1>() {
        digest = digest.wrapping_mul(31).wrapping_add(world.word(n));
    }
    digest
}

// Runs the events, and runs them once more if memory was refused. Returns their answers, and whether it was refused.
fn run_or_again(
    alloc: Global,
    world: &mut World<1>,
    events: &[Event],
) -> Result<(Run<1>, bool), Seen> {
    let before = digest(world);
    if let Ok(ran) = run(alloc, world, events) {
        return Ok((ran, false));
    }
    if digest(world) != before {
        return Err(Seen::Wrong);
    }
    match run(alloc, world, events) {
        Ok(ran) => Ok((ran, true)),
        Err(NoMemory) if digest(world) == before => Err(Seen::RefusedTwice),
        Err(NoMemory) => Err(Seen::Wrong),
    }
}

// Whether the events of a put and of a lookup after it returned what they should.
fn are_right(put: &Run<1>, looked: &Run<1>) -> bool {
    let found = Done {
        reader: 0,
        key: 0,
        reply: Reply::Found {
            value: [7],
            at: 1,
            since: 1,
        },
        first: 8,
        last: 15,
    };
    let quiet = put.done.is_empty() && put.stopped.is_none() && looked.stopped.is_none();
    quiet && looked.done.len() == 1 && looked.done[0] == found
}

// A world with one reader.
fn new_world(alloc: Global) -> Result<World<1>, Seen> {
    let Ok(checked) = SHAPE.check() else {
        return Err(Seen::Wrong);
    };
    World::<1>::new(alloc, &checked, 1).map_err(|_| Seen::Before)
}

// A put and a lookup, each as a list of events.
fn run_both(alloc: Global) -> Result<Seen, Seen> {
    let mut world = new_world(alloc)?;
    let (put, first) = run_or_again(alloc, &mut world, &fill_events())?;
    let (looked, second) = run_or_again(alloc, &mut world, &LOOKUP)?;
    if !are_right(&put, &looked) {
        return Err(Seen::Wrong);
    }
    Ok(Seen::of_refusal(first || second))
}

/// Runs lists of events.
pub(crate) fn see_runs(alloc: Global) -> Seen {
    match run_both(alloc) {
        Ok(seen) | Err(seen) => seen,
    }
}

// Makes the event, and makes it once more if memory was refused. Whether it was.
fn step_or_again(world: &mut World<1>, event: Event) -> Result<bool, Seen> {
    let before = digest(world);
    match world.step(event) {
        Ok(_) => return Ok(false),
        Err(Unlawful::NoMemory) if digest(world) == before => {}
        Err(_) => return Err(Seen::Wrong),
    }
    match world.step(event) {
        Ok(_) => Ok(true),
        Err(Unlawful::NoMemory) if digest(world) == before => Err(Seen::RefusedTwice),
        Err(_) => Err(Seen::Wrong),
    }
}

// Makes the events. Whether memory was refused.
fn step_all(world: &mut World<1>, events: &[Event]) -> Result<bool, Seen> {
    let mut refused = false;
    for event in events {
        refused |= step_or_again(world, *event)?;
    }
    Ok(refused)
}

// Makes forty puts, each act an event.
fn step_through(alloc: Global) -> Result<Seen, Seen> {
    let mut world = new_world(alloc)?;
    let mut refused = step_all(&mut world, &fill_events())?;
    for number in 2..41 {
        refused |= step_all(&mut world, &renew_events(number))?;
    }
    if world.history().len() != 40 || world.history()[39] != Change::Put(0, [40]) {
        return Err(Seen::Wrong);
    }
    Ok(Seen::of_refusal(refused))
}

/// Makes changes until the stored history has grown some times.
pub(crate) fn see_moments(alloc: Global) -> Seen {
    match step_through(alloc) {
        Ok(seen) | Err(seen) => seen,
    }
}
