//! The words that a search reads.
ghost use Rattle.std.specs.Prelude.{◌≡◌, ◌<◌, ◌≤◌, length};
ghost use Rattle.mc_words.specs.Checks.{shape_of};
ghost use Rattle.mc_words.specs.Keys.{item_in, NamesSome};
ghost use Rattle.mc_words.specs.Places.{IsPlace, IsWidth, moment, payload, slot_number, slot, item, word_count};
ghost use Rattle.mc_search.specs.Readable.{HasSlots};

use mc_theory::Peek;
use mc_words::{Checked, Place, payload_words};

/// The word of a slot. Condition: the words reach as far as the last slot, and the slot is one of the table.
#[tactic(auto, unfolding(mc_words::specs::Places::slot))]
pub fn slot_at<P: Peek>(checked: &Checked, peek: &mut P, place: Place) -> u64
    requires words { HasSlots (shape_of checked.now) (P.words peek.old) }
    requires place { IsPlace (shape_of checked.now) place }
    ensures value { result ≡ slot (shape_of checked.now) (P.words peek.old) (slot_number place) }
    ensures kept { peek.new ≡ peek.old }
{
    peek.word(checked.slot_place(place))
}

/// A word of an item.
/// Condition: the words reach as far as the shape says, and the item is one of the table and has such a word.
#[tactic(auto, unfolding(mc_words::specs::Places::item))]
pub fn word_at<const V: usize, P: Peek>(checked: &Checked, peek: &mut P, i: u32, j: u8) -> u64
    requires width { IsWidth V }
    requires words { word_count V (shape_of checked.now) ≤ length (P.words peek.old) }
    requires item { i < (shape_of checked.now).items }
    requires word { j ≤ payload V }
    ensures value { result ≡ item V (shape_of checked.now) (P.words peek.old) i j }
    ensures kept { peek.new ≡ peek.old }
{
    peek.word(checked.item_place::<V>(i, j))
}

/// The stamp of an item: the moment of its last put.
/// Condition: the words reach as far as the shape says, and the item is one of the table.
pub fn stamp_at<const V: usize, P: Peek>(checked: &Checked, peek: &mut P, i: u32) -> u64
    requires width { IsWidth V }
    requires words { word_count V (shape_of checked.now) ≤ length (P.words peek.old) }
    requires item { i < (shape_of checked.now).items }
    ensures value { result ≡ item V (shape_of checked.now) (P.words peek.old) i (payload V) }
    ensures kept { peek.new ≡ peek.old }
{
    word_at::<V, P>(checked, peek, i, payload_words::<V>() as u8)
}

/// The key of an item. Condition: the words reach as far as the shape says, and the item is one of the table.
pub fn key_at<const V: usize, P: Peek>(checked: &Checked, peek: &mut P, i: u32) -> u64
    requires width { IsWidth V }
    requires words { word_count V (shape_of checked.now) ≤ length (P.words peek.old) }
    requires item { i < (shape_of checked.now).items }
    ensures value { result ≡ item V (shape_of checked.now) (P.words peek.old) i 0 }
    ensures kept { peek.new ≡ peek.old }
{
    word_at::<V, P>(checked, peek, i, 0)
}

/// The key of the item that a slot's word names. Condition: the words reach as far as the shape says, and the word names an item.
pub fn key_in<const V: usize, P: Peek>(checked: &Checked, peek: &mut P, word: u64) -> u64
    requires width { IsWidth V }
    requires words { word_count V (shape_of checked.now) ≤ length (P.words peek.old) }
    requires named { NamesSome (shape_of checked.now) word }
    ensures value { result ≡ item V (shape_of checked.now) (P.words peek.old) (item_in word) 0 }
    ensures kept { peek.new ≡ peek.old }
{
    key_at::<V, P>(checked, peek, checked.item_in(word))
}

/// The length of the history. Condition: there is a word.
#[tactic(auto, unfolding(mc_words::specs::Places::moment))]
pub fn moment<P: Peek>(checked: &Checked, peek: &mut P) -> u64
    requires { 0 < length (P.words peek.old) }
    ensures value { result ≡ moment (P.words peek.old) }
    ensures kept { peek.new ≡ peek.old }
{
    peek.word(checked.moment_place())
}
