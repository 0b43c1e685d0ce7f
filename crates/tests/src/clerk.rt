//! Calls of a clerk over a plain list of words.
ghost use Rattle.std.specs.Prelude.{◌≡◌, IfOk, IfSome, IsTrue};
ghost use Rattle.mc_words.specs.Checks.{shape_of};
ghost use Rattle.tests.specs.Drivers.{IsBeside, IsMaking};

use crate::driver::{Driver, Look};
use mc_plan::{Answer, Clerk, NoMemory, moment, read};
use mc_words::Checked;
use std::alloc::Global;

/// A call of the clerk.
#[derive(Clone, Copy)]
pub(crate) enum Call {
    Put(u64, u64),
    /// A put that takes no other key's item.
    PutKept(u64, u64),
    /// The key, the stamp that it is to have, and the new value.
    PutIf(u64, u64, u64),
    Remove(u64),
}

/// Makes the acts of the call that the clerk is in, and takes its answer.
fn run(clerk: &mut Clerk<1>, driver: &mut Driver) -> Option<Answer>
    requires { IsMaking clerk.old (shape_of driver.old.checked) driver.old.words.items driver.old.key }
    ensures beside { IfSome result (λ a. IsBeside clerk.new (shape_of driver.new.checked) driver.new.words.items) }
{
    'acts: while let Some(act) = clerk.next() {
        if !driver.make(act) {
            return None;
        }
        let bit = driver.bit(act);
        clerk.after(&mut Look(driver.words.as_slice()), bit);
    }
    clerk.answer()
}

fn put(clerk: &mut Clerk<1>, driver: &mut Driver, key: u64, value: u64) -> Option<Answer>
    requires { IsBeside clerk.old (shape_of driver.old.checked) driver.old.words.items }
    ensures beside { IfSome result (λ a. IsBeside clerk.new (shape_of driver.new.checked) driver.new.words.items) }
{
    clerk.put(&mut Look(driver.words.as_slice()), key, [value]);
    run(clerk, driver)
}

fn put_kept(clerk: &mut Clerk<1>, driver: &mut Driver, key: u64, value: u64) -> Option<Answer>
    requires { IsBeside clerk.old (shape_of driver.old.checked) driver.old.words.items }
    ensures beside { IfSome result (λ a. IsBeside clerk.new (shape_of driver.new.checked) driver.new.words.items) }
{
    clerk.put_kept(&mut Look(driver.words.as_slice()), key, [value]);
    run(clerk, driver)
}

fn put_if(
    clerk: &mut Clerk<1>,
    driver: &mut Driver,
    key: u64,
    since: u64,
    value: u64,
) -> Option<Answer>
    requires { IsBeside clerk.old (shape_of driver.old.checked) driver.old.words.items }
    ensures beside { IfSome result (λ a. IsBeside clerk.new (shape_of driver.new.checked) driver.new.words.items) }
{
    clerk.put_if(&mut Look(driver.words.as_slice()), key, since, [value]);
    run(clerk, driver)
}

fn remove(clerk: &mut Clerk<1>, driver: &mut Driver, key: u64) -> Option<Answer>
    requires { IsBeside clerk.old (shape_of driver.old.checked) driver.old.words.items }
    ensures beside { IfSome result (λ a. IsBeside clerk.new (shape_of driver.new.checked) driver.new.words.items) }
{
    clerk.remove(&mut Look(driver.words.as_slice()), key);
    run(clerk, driver)
}

/// Makes a call, and takes its answer.
fn make(clerk: &mut Clerk<1>, driver: &mut Driver, call: Call) -> Option<Answer>
    requires { IsBeside clerk.old (shape_of driver.old.checked) driver.old.words.items }
    ensures beside { IfSome result (λ a. IsBeside clerk.new (shape_of driver.new.checked) driver.new.words.items) }
{
    match call {
        Call::Put(key, value) => put(clerk, driver, key, value),
        Call::PutKept(key, value) => put_kept(clerk, driver, key, value),
        Call::PutIf(key, since, value) => put_if(clerk, driver, key, since, value),
        Call::Remove(key) => remove(clerk, driver, key),
    }
}

/// Makes a call, and returns whether each act was made, and the answer is this one.
pub(crate) fn answers(clerk: &mut Clerk<1>, driver: &mut Driver, call: Call, wanted: Answer) -> bool
    requires { IsBeside clerk.old (shape_of driver.old.checked) driver.old.words.items }
    ensures beside { IsTrue result → IsBeside clerk.new (shape_of driver.new.checked) driver.new.words.items }
{
    let Some(answer) = make(clerk, driver, call) else {
        return false;
    };
    answer == wanted
}

/// The clerk of a new table, and its words.
pub(crate) fn start(alloc: Global, checked: &Checked) -> Result<(Clerk<1>, Driver), NoMemory>
    ensures beside { IfOk result (λ r. IsBeside r.0 (shape_of r.1.checked) r.1.words.items) }
{
    let clerk = Clerk::new(alloc, checked)?;
    let driver = Driver::new(alloc, checked)?;
    Ok((clerk, driver))
}

/// An item, its value, and the moment of its key's last put.
pub(crate) type Entry = (u32, u64, u64);

/// What the words say of the key, and the length of the history.
pub(crate) fn look_up(clerk: &Clerk<1>, driver: &Driver, key: u64) -> (Option<Entry>, u64)
    requires { IsBeside clerk.now (shape_of driver.now.checked) driver.now.words.items }
{
    let mut look = Look(driver.words.as_slice());
    let held = read::<1, Look>(&driver.checked, &mut look, key);
    let entry = match held {
        None => None,
        Some(held) => Some((held.item, held.value[0], held.since)),
    };
    (entry, moment(&driver.checked, &mut look))
}
