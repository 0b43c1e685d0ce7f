//! The words of a value, and their writes into an item.
ghost use Rattle.std.specs.Prelude.{◌≡◌, ◌+◌, ◌≤◌, ◌++◌, All, length};
ghost use Rattle.arrayvec.specs.ArrayVec.{array_vec_len};
ghost use Rattle.mc_words.specs.History.{IsWord};
ghost use Rattle.mc_words.specs.Places.{IsWidth};
ghost use Rattle.mc_plan.specs.Plans.{payload_acts, value_acts};

use crate::Plan;
use mc_theory::Act;

/// The words of a value as a slice.
pub(crate) fn words_of<const V: usize>(value: &[u64; V]) -> &[u64]
    ensures value { result.now ≡ value.now }
    ensures len { length result.now ≡ V }
{
    value.as_slice()
}

/// Says that the words have 64 bits each. Does nothing.
pub(crate) fn have_words(words: &[u64])
    ensures { All IsWord words.now }
{
    let _many = words.len();
}

/// Adds the writes of the words into the item, after its key.
pub(crate) fn add_value(acts: &mut Plan, item: u32, value: &[u64])
    requires width { length value.now ≤ 8 }
    requires room { array_vec_len acts.old + length value.now ≤ 64 }
    ensures items { acts.new.items ≡ acts.old.items ++ value_acts item 1 value.now }
    ensures many { array_vec_len acts.new ≡ array_vec_len acts.old + length value.now }
    ensures words { All IsWord value.now }
{
    for (j, word) in value.iter().enumerate() {
        acts.push(Act::Item(item, j as u8 + 1, *word));
    }
}

/// Adds the writes of a value into the item, after its key, and of the stamp after it.
/// Condition: the list has room for them: `V + 1` acts of 64.
pub(crate) fn add_payload<const V: usize>(acts: &mut Plan, item: u32, value: &[u64; V], at: u64)
    requires width { IsWidth V }
    requires room { array_vec_len acts.old + V + 1 ≤ 64 }
    ensures items { acts.new.items ≡ acts.old.items ++ payload_acts item value.now at }
    ensures many { array_vec_len acts.new ≡ array_vec_len acts.old + V + 1 }
    ensures words { All IsWord value.now }
{
    add_value(acts, item, words_of(value));
    acts.push(Act::Item(item, V as u8 + 1, at));
}
