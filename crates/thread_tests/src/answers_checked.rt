//! Which records are wrong, worked out by hand.
use mc_load::{Record, check};
use mc_words::{Change, Reply};
use std::test::Fail;

fn told(key: u64, reply: Reply<1>) -> Record<1> {
    Record {
        reader: 0,
        key,
        reply,
    }
}

// The value of the first change, with this stamp.
fn found(at: u64, since: u64) -> Reply<1> {
    Reply::Found {
        value: [7],
        at,
        since,
    }
}

#[test]
fn wrong_answers_are_counted(rt: HostRuntime) -> Result<(), Fail> {
    let history = [Change::Put(0, [7]), Change::Put(0, [9]), Change::Evict(0)];
    let right = [
        told(0, Reply::Absent { at: 0 }),
        told(0, found(1, 1)),
        told(5, Reply::Absent { at: 3 }),
        told(0, Reply::Absent { at: 3 }),
        told(0, Reply::Busy),
    ];
    assert_eq!(rt; check(history.as_slice(), right.as_slice()), 0);
    let wrong = [
        told(0, Reply::Absent { at: 1 }),
        told(0, found(2, 1)),
        told(0, found(3, 1)),
        told(0, found(1, 0)),
        told(0, found(1, 2)),
        told(5, Reply::Absent { at: 4 }),
        told(0, Reply::Busy),
    ];
    assert_eq!(rt; check(history.as_slice(), wrong.as_slice()), 6);
    Ok(())
}
