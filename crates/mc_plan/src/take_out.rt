//! The acts of a removal and of an eviction.
ghost use Rattle.std.specs.Prelude.{ℕ, ◌≡◌, ◌+◌, ◌≤◌, ◌++◌};
ghost use Rattle.arrayvec.specs.ArrayVec.{array_vec_len};
ghost use Rattle.mc_words.specs.declared.shape.Shape.{Shape};
ghost use Rattle.mc_words.specs.Shapes.{IsShape};
ghost use Rattle.mc_plan.specs.Making.{ActsRemove, ActsEvict};
ghost use Rattle.mc_plan.specs.Plans.{take_out_acts, remove_acts, evict_acts};

use crate::Plan;
use arrayvec::ArrayVec;
use mc_theory::{Act, Deed};
use mc_words::Place;

/// Adds the acts that take out the key in the slot, by a removal or an eviction.
fn add_take_out(acts: &mut Plan, key: u64, deed: Deed, place: Place)
    requires room { array_vec_len acts.old + 4 ≤ 64 }
    ensures items { acts.new.items ≡ acts.old.items ++ take_out_acts key deed place }
    ensures many { array_vec_len acts.new ≡ array_vec_len acts.old + 4 }
{
    acts.push(Act::Open(key, deed));
    acts.push(Act::Slot(place, 0));
    acts.push(Act::Moment);
    acts.push(Act::Close);
}

/// Adds the acts that take out the key in the slot. Condition: the list has room for them: 4 acts of 64.
pub fn add_remove(acts: &mut Plan, key: u64, place: Place)
    requires room { array_vec_len acts.old + 4 ≤ 64 }
    ensures items { acts.new.items ≡ acts.old.items ++ remove_acts key place }
    ensures many { array_vec_len acts.new ≡ array_vec_len acts.old + 4 }
{
    add_take_out(acts, key, Deed::Remove, place);
}

/// Adds the acts that take out the key in the slot, to make room for another.
/// Condition: the list has room for them: 4 acts of 64.
pub fn add_evict(acts: &mut Plan, key: u64, place: Place)
    requires room { array_vec_len acts.old + 4 ≤ 64 }
    ensures items { acts.new.items ≡ acts.old.items ++ evict_acts key place }
    ensures many { array_vec_len acts.new ≡ array_vec_len acts.old + 4 }
{
    add_take_out(acts, key, Deed::Evict, place);
}

// Nothing in this repository calls it: it is for those who plan without books.
/// The acts that take out the key in the slot.
pub fn plan_remove(key: u64, place: Place) -> Plan
    ensures items { result.items ≡ remove_acts key place }
    ensures law { (V : ℕ) (sh : Shape) → IsShape sh → ActsRemove V sh key place result.items }
{
    let mut acts = ArrayVec::new();
    add_remove(&mut acts, key, place);
    acts
}

// Nothing in this repository calls it: it is for those who plan without books.
/// The acts that take out the key in the slot, to make room for another.
pub fn plan_evict(key: u64, place: Place) -> Plan
    ensures items { result.items ≡ evict_acts key place }
    ensures law { (V : ℕ) (sh : Shape) → IsShape sh → ActsEvict V sh key place result.items }
{
    let mut acts = ArrayVec::new();
    add_evict(&mut acts, key, place);
    acts
}
