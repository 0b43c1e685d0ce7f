//! The acts of a renewal.
ghost use Rattle.std.specs.Prelude.{◌≡◌, ◌+◌, ◌≤◌, ◌++◌, All};
ghost use Rattle.arrayvec.specs.ArrayVec.{array_vec_len};
ghost use Rattle.mc_words.specs.declared.shape.Shape.{Shape};
ghost use Rattle.mc_words.specs.History.{IsWord};
ghost use Rattle.mc_words.specs.Places.{IsWidth};
ghost use Rattle.mc_words.specs.Shapes.{IsShape};
ghost use Rattle.mc_plan.specs.Making.{ActsRenew};
ghost use Rattle.mc_plan.specs.Plans.{renew_acts};

use crate::Plan;
use crate::value::add_payload;
use arrayvec::ArrayVec;
use mc_theory::{Act, Deed};

/// Adds the acts that put a new value of the key at the item.
/// `at` is the moment that the put is to have. Condition: the list has room for them: `V + 4` acts of 64.
pub fn add_renew<const V: usize>(acts: &mut Plan, key: u64, value: &[u64; V], at: u64, item: u32)
    requires width { IsWidth V }
    requires room { array_vec_len acts.old + V + 4 ≤ 64 }
    ensures items { acts.new.items ≡ acts.old.items ++ renew_acts key value.now at item }
    ensures many { array_vec_len acts.new ≡ array_vec_len acts.old + V + 4 }
    ensures words { All IsWord value.now }
{
    acts.push(Act::Open(key, Deed::Renew));
    add_payload(acts, item, value, at);
    acts.push(Act::Moment);
    acts.push(Act::Close);
}

// Nothing in this repository calls it: it is for those who plan without books.
/// The acts that put a new value of the key at the item, at the moment `at`. Condition: a value has from 1 to 8 words.
pub fn plan_renew<const V: usize>(key: u64, value: &[u64; V], at: u64, item: u32) -> Plan
    requires width { IsWidth V }
    ensures items { result.items ≡ renew_acts key value.now at item }
    ensures law { (sh : Shape) → IsShape sh → ActsRenew V sh key value.now at item result.items }
{
    let mut acts = ArrayVec::new();
    add_renew(&mut acts, key, value, at, item);
    acts
}
