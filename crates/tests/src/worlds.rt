//! New worlds and short lists of events, with the shape that the stepper takes by default.
use crate::shapes::{checked, shape};
use mc_core::{
    Act, Change, Deed, Done, Event, Reply, Run, Stepped, Unlawful, World, WorldError, run, run_new,
};
use mc_words::{Checked, Place, Shape};
use std::alloc::{AllocError, Global};
use std::test::Fail;

/// A new world of `buckets` buckets and `items` items for `readers` readers.
fn new_world(alloc: Global, buckets: u32, items: u32, readers: u32) -> Result<World<1>, Fail> {
    let checked = checked(buckets, items, 2)?;
    Ok(World::new(alloc, &checked, readers)?)
}

/// Makes the event, and returns whether the world gives this.
fn gives(world: &mut World<1>, event: Event, given: Result<Stepped<1>, Unlawful>) -> bool {
    world.step(event) == given
}

/// What is due of a world.
#[derive(Clone, Copy)]
enum Row {
    /// The event is made, and gives this.
    Gives(Event, Result<Stepped<1>, Unlawful>),
    /// The word of this number, if the world has one.
    Word(usize, Option<u64>),
    /// The next words, up to the one of this number, are 0.
    Zeros(usize, usize),
}

fn is_so(world: &mut World<1>, row: Row) -> bool {
    match row {
        Row::Gives(event, given) => gives(world, event, given),
        Row::Word(n, word) => word_at(world, n) == word,
        Row::Zeros(from, to) => {
            for n in from..to {
                if word_at(world, n) != Some(0) {
                    return false;
                }
            }
            true
        }
    }
}

/// The first row that is not so, if there is one.
fn first_wrong(world: &mut World<1>, rows: &[Row]) -> Option<usize> {
    for n in 0..rows.len() {
        if !is_so(world, rows[n]) {
            return Some(n);
        }
    }
    None
}

/// Whether this lookup alone ended, and no event was refused.
fn ends_with(made: &Run<1>, done: Done<1>) -> bool {
    made.done.as_slice() == [done].as_slice() && made.stopped == None
}

/// Whether no lookup ended, and this event was refused.
fn stops_at(made: &Run<1>, event: usize, why: Unlawful) -> bool {
    made.done.is_empty() && made.stopped == Some((event, why))
}

/// Word `n` of the world, if it has one.
fn word_at(world: &World<1>, n: usize) -> Option<u64> {
    if n < world.checked().words::<1>() {
        Some(world.word(n))
    } else {
        None
    }
}

const FIRST: Place = Place { bucket: 0, slot: 0 };

const PAST_THE_LIMIT: [Row; 4] = [
    Row::Gives(Event::Write(Act::Item(0, 0, 0)), Err(Unlawful::NotLawful)),
    Row::Gives(Event::Write(Act::Open(0, Deed::Fill)), Err(Unlawful::Limit)),
    Row::Zeros(0, 67),
    Row::Word(67, None),
];

#[test]
fn a_new_world_refuses_a_write_and_an_open_past_the_limit(rt: HostRuntime) -> Result<(), Fail> {
    let shape = Shape {
        limit: 1,
        ..shape(4, 16, 2)
    };
    let mut world: World<1> = World::new(rt.alloc(), &shape.check()?, 2)?;
    assert!(rt; first_wrong(&mut world, &PAST_THE_LIMIT) == None);
    assert!(rt; world.history().is_empty());
    Ok(())
}

#[test]
fn a_list_of_events_is_run_up_to_the_first_refused(rt: HostRuntime) -> Result<(), Fail> {
    let mut world = new_world(rt.alloc(), 4, 16, 1)?;
    let mut events = [Event::Read(0); 13];
    events[0] = Event::Begin(0, 0);
    let made = run(rt.alloc(), &mut world, &events[..12])?;
    let done = Done {
        reader: 0,
        key: 0,
        reply: Reply::Absent { at: 0 },
        first: 1,
        last: 11,
    };
    assert!(rt; ends_with(&made, done));
    events[4] = Event::Begin(0, 0);
    let made = run(rt.alloc(), &mut world, &events)?;
    assert!(rt; stops_at(&made, 4, Unlawful::StillRunning));
    Ok(())
}

// The lookup makes an access before each refused event, and the others at the end. Its last number shows that only these were counted.
#[test]
fn a_refused_event_is_not_counted(rt: HostRuntime) -> Result<(), Fail> {
    let shape = Shape {
        limit: 1,
        ..shape(4, 16, 2)
    };
    let mut world: World<1> = World::new(rt.alloc(), &shape.check()?, 1)?;
    assert!(rt; gives(&mut world, Event::Begin(0, 0), Ok(Stepped::Nothing)));
    for (event, why) in [
        (Event::Write(Act::Close), Unlawful::NotLawful),
        (Event::Read(1), Unlawful::NoReader),
        (Event::Begin(0, 0), Unlawful::StillRunning),
        (Event::Write(Act::Open(0, Deed::Fill)), Unlawful::Limit),
    ] {
        let events = [Event::Read(0), event, Event::Read(0)];
        let made = run(rt.alloc(), &mut world, &events)?;
        assert!(rt; stops_at(&made, 1, why), "{why}");
    }
    let made = run(rt.alloc(), &mut world, &[Event::Read(0); 7])?;
    let done = Done {
        reader: 0,
        key: 0,
        reply: Reply::Absent { at: 0 },
        first: 1,
        last: 11,
    };
    assert!(rt; ends_with(&made, done));
    Ok(())
}

/// The acts of a fill of key 0 with 7 at this moment, and of its removal.
fn changes(moment: u64) -> [Act; 11] {
    [
        Act::Open(0, Deed::Fill),
        Act::Item(0, 0, 0),
        Act::Item(0, 1, 7),
        Act::Item(0, 2, moment),
        Act::Slot(FIRST, 1),
        Act::Moment,
        Act::Close,
        Act::Open(0, Deed::Remove),
        Act::Slot(FIRST, 0),
        Act::Moment,
        Act::Close,
    ]
}

/// The acts of 1,000 fills and removals.
fn thousand_changes(alloc: Global) -> Result<Vec<Event>, AllocError> {
    let mut events = Vec::new(alloc);
    for n in 0..1000u64 {
        for act in changes(2 * n + 1) {
            events.push(Event::Write(act))?;
        }
    }
    Ok(events)
}

/// `many` events of lookups of key 0, each of a begin and 11 accesses.
fn many_lookups(alloc: Global, many: u32) -> Result<Vec<Event>, AllocError> {
    let mut events = Vec::new(alloc);
    for n in 0..many {
        events.push(if n % 12 == 0 {
            Event::Begin(0, 0)
        } else {
            Event::Read(0)
        })?;
    }
    Ok(events)
}

/// Makes 1,000 fills and removals.
fn make_changes(alloc: Global, world: &mut World<1>) -> Result<Run<1>, Fail> {
    let events = thousand_changes(alloc)?;
    Ok(run(alloc, world, events.as_slice())?)
}

/// Makes 10,000 events of lookups.
fn make_lookups(alloc: Global, world: &mut World<1>) -> Result<Run<1>, Fail> {
    let events = many_lookups(alloc, 10_000)?;
    Ok(run(alloc, world, events.as_slice())?)
}

/// Whether each of these lookups found no key, and reported this moment.
fn are_absent(ended: &[Done<1>], at: u64) -> bool {
    for done in ended {
        if done.reply != (Reply::Absent { at }) {
            return false;
        }
    }
    true
}

#[test]
fn a_long_list_of_events_is_run(rt: HostRuntime) -> Result<(), Fail> {
    let alloc = rt.alloc();
    let mut world = new_world(alloc, 4, 16, 1)?;
    let made = make_changes(alloc, &mut world)?;
    assert!(rt; made.stopped == None);
    assert!(rt; made.done.is_empty());
    assert!(rt; world.history().len() == 2000);
    let made = make_lookups(alloc, &mut world)?;
    assert!(rt; made.stopped == None);
    assert!(rt; made.done.len() == 833);
    assert!(rt; are_absent(made.done.as_slice(), 2000));
    Ok(())
}

/// Whether the world makes each of these acts, and they read no bit.
fn makes_all(world: &mut World<1>, acts: &[Act]) -> bool {
    for act in acts {
        if !gives(world, Event::Write(*act), Ok(Stepped::Nothing)) {
            return false;
        }
    }
    true
}

#[test]
fn a_fill_and_a_lookup(rt: HostRuntime) -> Result<(), Fail> {
    let mut world = new_world(rt.alloc(), 4, 16, 1)?;
    assert!(rt; makes_all(&mut world, &changes(1)[..7]));
    assert!(rt; makes_all(&mut world, &[Act::Mark(0)]));
    assert!(rt; word_at(&world, 0) == Some(1));
    assert!(rt; word_at(&world, 1) == Some(2));
    assert!(rt; word_at(&world, 66) == Some(1));
    assert!(rt; world.history() == [Change::Put(0, [7])].as_slice());
    assert!(rt; gives(&mut world, Event::Begin(0, 0), Ok(Stepped::Nothing)));
    for word in [2, 1, 0, 7, 1, 1, 2] {
        assert!(rt; gives(&mut world, Event::Read(0), Ok(Stepped::Word(word))));
    }
    let done = Done {
        reader: 0,
        key: 0,
        reply: Reply::Found {
            value: [7],
            at: 1,
            since: 1,
        },
        first: 9,
        last: 16,
    };
    assert!(rt; gives(&mut world, Event::Read(0), Ok(Stepped::Done(done))));
    Ok(())
}

/// Whether a world for `readers` readers is refused for their number.
fn refuses_readers(alloc: Global, checked: &Checked, readers: u32) -> bool {
    let world: Result<World<1>, WorldError> = World::new(alloc, checked, readers);
    matches!(&world, Err(WorldError::Readers))
}

const THE_LAST_READER: [Row; 4] = [
    Row::Gives(Event::Begin(1023, 0), Ok(Stepped::Nothing)),
    Row::Gives(Event::Begin(1024, 0), Err(Unlawful::NoReader)),
    Row::Gives(Event::Read(1024), Err(Unlawful::NoReader)),
    Row::Gives(Event::Read(0), Err(Unlawful::NotLawful)),
];

#[test]
fn readers_are_from_1_to_1024(rt: HostRuntime) -> Result<(), Fail> {
    let checked = checked(4, 16, 2)?;
    assert!(rt; refuses_readers(rt.alloc(), &checked, 0));
    assert!(rt; refuses_readers(rt.alloc(), &checked, 1025));
    let mut world: World<1> = World::new(rt.alloc(), &checked, 1024)?;
    assert!(rt; first_wrong(&mut world, &THE_LAST_READER) == None);
    Ok(())
}

const MARKS: [Row; 6] = [
    Row::Gives(Event::Write(Act::Mark(63)), Ok(Stepped::Nothing)),
    Row::Gives(Event::Write(Act::Mark(64)), Ok(Stepped::Nothing)),
    Row::Gives(Event::Write(Act::Mark(0)), Ok(Stepped::Nothing)),
    Row::Word(325, Some(9223372036854775809)),
    Row::Word(326, Some(1)),
    Row::Word(327, None),
];

#[test]
fn sixty_four_items_share_a_word_of_bits(rt: HostRuntime) -> Result<(), Fail> {
    let mut world = new_world(rt.alloc(), 32, 65, 1)?;
    assert!(rt; first_wrong(&mut world, &MARKS) == None);
    Ok(())
}

/// The acts of a fill of the item under its own number, in the bucket of that number, and of its mark. As many items were
/// filled before it.
fn marked_fill(item: u32, value: u64) -> [Act; 8] {
    let key = u64::from(item);
    let place = Place {
        bucket: item,
        slot: 0,
    };
    [
        Act::Open(key, Deed::Fill),
        Act::Item(item, 0, key),
        Act::Item(item, 1, value),
        Act::Item(item, 2, key + 1),
        Act::Slot(place, key + 1),
        Act::Moment,
        Act::Close,
        Act::Mark(item),
    ]
}

const THE_HAND: [Row; 4] = [
    Row::Word(24, Some(3)),
    Row::Gives(Event::Write(Act::Hand(0)), Ok(Stepped::Word(1))),
    Row::Word(24, Some(2)),
    Row::Gives(Event::Write(Act::Hand(0)), Err(Unlawful::NotLawful)),
];

#[test]
fn the_hand_clears_one_bit_of_its_word(rt: HostRuntime) -> Result<(), Fail> {
    let mut world = new_world(rt.alloc(), 4, 2, 1)?;
    assert!(rt; world.checked().words::<1>() == 25);
    let filled = makes_all(&mut world, &marked_fill(0, 10))
        && makes_all(&mut world, &marked_fill(1, 11));
    assert!(rt; filled && first_wrong(&mut world, &THE_HAND) == None);
    Ok(())
}

/// A fill of key 0 with 7, a lookup of it to its end, and what that returns.
#[test]
fn a_lookup_after_a_fill_tells_the_value(rt: HostRuntime) -> Result<(), Fail> {
    let checked = checked(4, 16, 2)?;
    let mut events = [Event::Read(0); 16];
    for (event, act) in events.iter_mut().zip(&changes(1)[..7]) {
        *event = Event::Write(*act);
    }
    events[7] = Event::Begin(0, 0);
    let made: Run<1> = run_new(rt.alloc(), &checked, 1, &events)?;
    let done = Done {
        reader: 0,
        key: 0,
        reply: Reply::Found {
            value: [7],
            at: 1,
            since: 1,
        },
        first: 8,
        last: 15,
    };
    assert!(rt; ends_with(&made, done));
    Ok(())
}

#[test]
fn a_new_world_stops_at_an_event_that_is_refused(rt: HostRuntime) -> Result<(), Fail> {
    let checked = checked(4, 16, 2)?;
    let world: World<1> = World::new(rt.alloc(), &checked, 3)?;
    assert!(rt; world.readers() == 3);
    let events = [Event::Begin(0, 0), Event::Begin(1, 0), Event::Read(0)];
    let made: Run<1> = run_new(rt.alloc(), &checked, 1, &events)?;
    assert!(rt; stops_at(&made, 1, Unlawful::NoReader));
    Ok(())
}
