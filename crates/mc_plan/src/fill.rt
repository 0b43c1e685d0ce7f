//! The acts of a fill.
ghost use Rattle.std.specs.Prelude.{◌≡◌, ◌+◌, ◌<◌, ◌≤◌, ◌++◌, All};
ghost use Rattle.arrayvec.specs.ArrayVec.{array_vec_len};
ghost use Rattle.mc_words.specs.Checks.{shape_of};
ghost use Rattle.mc_words.specs.History.{IsWord};
ghost use Rattle.mc_words.specs.Places.{IsWidth};
ghost use Rattle.mc_plan.specs.Making.{ActsFill};
ghost use Rattle.mc_plan.specs.Plans.{fill_acts};

use crate::Plan;
use crate::value::add_payload;
use arrayvec::ArrayVec;
use mc_theory::{Act, Deed};
use mc_words::{Checked, Place};

/// Adds the acts that put a key, at a free item and in an empty slot of one of its buckets.
/// `at` is the moment that the put is to have. Condition: the list has room for them: `V + 6` acts of 64. The item is one of the table.
pub fn add_fill<const V: usize>(
    checked: &Checked,
    acts: &mut Plan,
    key: u64,
    value: &[u64; V],
    at: u64,
    item: u32,
    place: Place,
)
    requires width { IsWidth V }
    requires room { array_vec_len acts.old + V + 6 ≤ 64 }
    requires item { item < (shape_of checked.now).items }
    ensures items { acts.new.items ≡ acts.old.items ++ fill_acts (shape_of checked.now) key value.now at item place }
    ensures many { array_vec_len acts.new ≡ array_vec_len acts.old + V + 6 }
    ensures words { All IsWord value.now }
{
    let word = checked.slot_word(checked.tag(key), item);
    acts.push(Act::Open(key, Deed::Fill));
    acts.push(Act::Item(item, 0, key));
    add_payload(acts, item, value, at);
    acts.push(Act::Slot(place, word));
    acts.push(Act::Moment);
    acts.push(Act::Close);
}

// Nothing in this repository calls it: it is for those who plan without books.
/// The acts that put a key, at a free item and in an empty slot of one of its buckets.
/// `at` is the moment that the put is to have. Condition: a value has from 1 to 8 words, and the item is one of the table.
pub fn plan_fill<const V: usize>(
    checked: &Checked,
    key: u64,
    value: &[u64; V],
    at: u64,
    item: u32,
    place: Place,
) -> Plan
    requires width { IsWidth V }
    requires item { item < (shape_of checked.now).items }
    ensures items { result.items ≡ fill_acts (shape_of checked.now) key value.now at item place }
    ensures law { ActsFill V (shape_of checked.now) key value.now at item place result.items }
{
    let mut acts = ArrayVec::new();
    add_fill(checked, &mut acts, key, value, at, item, place);
    acts
}
