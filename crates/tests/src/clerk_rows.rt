//! What a clerk answers, and what the words say then: rows worked out by hand.
ghost use Rattle.std.specs.Prelude.{IsTrue};
ghost use Rattle.mc_words.specs.Checks.{shape_of};
ghost use Rattle.tests.specs.Drivers.{IsBeside};

use crate::clerk::{Call, Entry, answers, look_up, start};
use crate::driver::Driver;
use crate::shapes::checked;
use mc_plan::{Answer, Clerk, IfError, Put, PutError, Remove, Why};
use std::alloc::Global;
use std::test::Fail;

/// An answer that is due, in short.
#[derive(Clone, Copy)]
enum Due {
    /// The moment of a put without an eviction, and the number of moves.
    Stored(u64, u8),
    /// Like `Stored`, and then the key that was evicted.
    Replaced(u64, u8, u64),
    Renewed(u64),
    Refused(PutError),
    /// The moment and the moves of a put that takes no other key's item.
    StoredKept(u64, u8),
    RenewedKept(u64),
    RefusedKept(Why),
    PutIf(Result<u64, IfError>),
    Remove(Remove),
}

fn stored(at: u64, moves: u8, evicted: Option<u64>) -> Put {
    Put::Stored { at, moves, evicted }
}

impl Due {
    fn answer(self) -> Answer {
        match self {
            Due::Stored(at, moves) => Answer::Put(Ok(stored(at, moves, None))),
            Due::Replaced(at, moves, key) => Answer::Put(Ok(stored(at, moves, Some(key)))),
            Due::Renewed(at) => Answer::Put(Ok(Put::Renewed { at })),
            Due::Refused(why) => Answer::Put(Err(why)),
            Due::StoredKept(at, moves) => Answer::Kept(Ok(stored(at, moves, None))),
            Due::RenewedKept(at) => Answer::Kept(Ok(Put::Renewed { at })),
            Due::RefusedKept(why) => Answer::Kept(Err(why)),
            Due::PutIf(told) => Answer::PutIf(told),
            Due::Remove(told) => Answer::Remove(Ok(told)),
        }
    }
}

/// A step of a test.
#[derive(Clone, Copy)]
enum Row {
    /// The call is made, and has this answer.
    Call(Call, Due),
    /// The words say this of the key, and the history has this length.
    Shows(u64, Option<Entry>, u64),
    /// From here on each bit is set again before it is read, or it is not.
    Marked(bool),
    /// The bit of the item is set.
    Mark(u32),
}

/// Takes the step, and returns whether its result is the one that is due.
fn is_so(clerk: &mut Clerk<1>, driver: &mut Driver, row: Row) -> bool
    requires { IsBeside clerk.old (shape_of driver.old.checked) driver.old.words.items }
    ensures beside { IsTrue result → IsBeside clerk.new (shape_of driver.new.checked) driver.new.words.items }
{
    match row {
        Row::Call(call, due) => answers(clerk, driver, call, due.answer()),
        Row::Shows(key, entry, at) => look_up(clerk, driver, key) == (entry, at),
        Row::Marked(marked) => {
            driver.marked = marked;
            true
        }
        Row::Mark(item) => {
            let _ = driver.swap(item, 1);
            true
        }
    }
}

/// Takes the steps in turn. Each must give what is due.
fn check_rows_of(clerk: &mut Clerk<1>, driver: &mut Driver, rows: &[Row]) -> Result<(), Fail>
    requires { IsBeside clerk.old (shape_of driver.old.checked) driver.old.words.items }
{
    for n in 0..rows.len() {
        if !is_so(clerk, driver, rows[n]) {
            return Err(Fail::new(format_args!("row {n} is not so")));
        }
    }
    Ok(())
}

/// Checks the rows with a new table of four buckets and `items` items.
fn check_rows(alloc: Global, items: u32, rows: &[Row]) -> Result<(), Fail> {
    let checked = checked(4, items, 2)?;
    let (mut clerk, mut driver) = start(alloc, &checked)?;
    check_rows_of(&mut clerk, &mut driver, rows)
}

/// A key of the buckets 0 and 1 under tag 1, so it can move to bucket 3.
const FAR: u64 = 72057594037927936;

/// Eight keys fill the buckets 0 and 1, and one more comes.
const A_NINTH_KEY: [Row; 12] = [
    Row::Call(Call::Put(FAR, FAR), Due::Stored(1, 0)),
    Row::Call(Call::Put(0, 0), Due::Stored(2, 0)),
    Row::Call(Call::Put(4, 4), Due::Stored(3, 0)),
    Row::Call(Call::Put(8, 8), Due::Stored(4, 0)),
    Row::Call(Call::Put(12, 12), Due::Stored(5, 0)),
    Row::Call(Call::Put(16, 16), Due::Stored(6, 0)),
    Row::Call(Call::Put(20, 20), Due::Stored(7, 0)),
    Row::Call(Call::Put(24, 24), Due::Stored(8, 0)),
    Row::Call(Call::Put(28, 5), Due::Stored(9, 1)),
    Row::Shows(28, Some((8, 5, 9)), 9),
    Row::Shows(FAR, Some((0, FAR, 1)), 9),
    Row::Shows(32, None, 9),
];

#[test]
fn a_key_moves_to_make_room(rt: HostRuntime) -> Result<(), Fail> {
    check_rows(rt.alloc(), 16, &A_NINTH_KEY)
}

const GIVEN_BACK: [Row; 7] = [
    Row::Call(Call::Put(0, 0), Due::Stored(1, 0)),
    Row::Call(Call::Put(1, 1), Due::Stored(2, 0)),
    Row::Call(Call::Remove(0), Due::Remove(Remove::Removed { at: 3 })),
    Row::Call(Call::Remove(0), Due::Remove(Remove::NotThere { at: 3 })),
    Row::Call(Call::Put(2, 5), Due::Stored(4, 0)),
    Row::Call(Call::Put(2, 9), Due::Renewed(5)),
    Row::Shows(2, Some((0, 9, 5)), 5),
];

#[test]
fn an_item_is_given_back_and_taken_again(rt: HostRuntime) -> Result<(), Fail> {
    check_rows(rt.alloc(), 2, &GIVEN_BACK)
}

const WITHOUT_A_MARK: [Row; 12] = [
    Row::Call(Call::Put(0, 0), Due::Stored(1, 0)),
    Row::Call(Call::Put(1, 1), Due::Stored(2, 0)),
    Row::Call(Call::Put(2, 2), Due::Stored(3, 0)),
    Row::Marked(true),
    Row::Call(Call::Put(3, 3), Due::Refused(PutError::AllRecent)),
    Row::Shows(3, None, 3),
    Row::Marked(false),
    Row::Call(Call::Put(3, 3), Due::Replaced(5, 0, 0)),
    Row::Shows(0, None, 5),
    Row::Mark(1),
    Row::Call(Call::Put(4, 4), Due::Replaced(7, 0, 2)),
    Row::Shows(4, Some((2, 4, 7)), 7),
];

#[test]
fn the_first_item_without_a_mark_is_taken(rt: HostRuntime) -> Result<(), Fail> {
    check_rows(rt.alloc(), 3, &WITHOUT_A_MARK)
}

const NO_ITEM_LEFT: [Row; 6] = [
    Row::Call(Call::PutKept(0, 7), Due::StoredKept(1, 0)),
    Row::Call(Call::Put(1, 8), Due::Stored(2, 0)),
    Row::Call(Call::PutKept(2, 9), Due::RefusedKept(Why::NoItem)),
    Row::Shows(2, None, 2),
    Row::Call(Call::PutKept(0, 9), Due::RenewedKept(3)),
    Row::Shows(0, Some((0, 9, 3)), 3),
];

#[test]
fn a_put_that_takes_no_other_keys_item_is_refused(rt: HostRuntime) -> Result<(), Fail> {
    check_rows(rt.alloc(), 2, &NO_ITEM_LEFT)
}

const BY_THE_STAMP: [Row; 6] = [
    Row::Call(Call::Put(0, 7), Due::Stored(1, 0)),
    Row::Call(Call::Put(1, 8), Due::Stored(2, 0)),
    Row::Call(Call::PutIf(0, 1, 9), Due::PutIf(Ok(3))),
    Row::Call(
        Call::PutIf(0, 1, 10),
        Due::PutIf(Err(IfError::Changed { since: 3 })),
    ),
    Row::Call(
        Call::PutIf(5, 0, 1),
        Due::PutIf(Err(IfError::NotThere { at: 3 })),
    ),
    Row::Shows(0, Some((0, 9, 3)), 3),
];

#[test]
fn a_key_is_put_while_its_stamp_is_the_one_asked_for(rt: HostRuntime) -> Result<(), Fail> {
    check_rows(rt.alloc(), 16, &BY_THE_STAMP)
}
