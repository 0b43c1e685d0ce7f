//! Loads that go before lookups. They bring what the lookups will read into the processor's caches, and enter no record.
//!
//! None of them depends on a branch, and they are close to one another, so the processor waits for many at once. A lookup waits for one
//! word after the other, and a branch on a slot's tag delays the next key.
ghost use Rattle.std.specs.Prelude.{◌≡◌, ◌<◌, ◌≤◌, ℕ, All, length};
ghost use Rattle.mc_words.specs.Checks.{shape_of};
ghost use Rattle.mc_words.specs.Places.{IsWidth};
ghost use Rattle.mc_shared.specs.Views.{layout_of};
ghost use Rattle.mc_reader.specs.Aims.{IsAimIn, IsRow};

use mc_shared::{Cells, touch};
use mc_words::{Checked, Place};

/// The most keys whose words are touched together.
pub const GROUP: usize = 16;

/// Where the slots of a key's two buckets begin. `base` is the word of a slot that names item 0 under the key's tag.
#[derive(Clone, Copy)]
pub struct Aim {
    base: u64,
    first: usize,
    second: usize,
}

// Where the slots of a bucket begin.
#[inline(always)]
fn row_at<const V: usize>(checked: &Checked, bucket: u32) -> usize
    requires { bucket < (shape_of checked.now).buckets }
    ensures { IsRow V (shape_of checked.now) result }
{
    checked.slot_place(Place { bucket, slot: 0 })
}

// Where a lookup of the key looks.
#[inline(always)]
fn aim_at<const V: usize>(checked: &Checked, key: u64) -> Aim
    ensures { IsAimIn V (shape_of checked.now) result }
{
    let tag = checked.tag(key);
    let first = checked.first(key);
    let second = checked.alt(first, tag);
    Aim {
        base: checked.slot_word(tag, 0),
        first: row_at::<V>(checked, first),
        second: row_at::<V>(checked, second),
    }
}

// Where a lookup of each of the keys looks.
#[inline(always)]
fn aim_at_all<const V: usize>(checked: &Checked, keys: &[u64], aims: &mut [Aim])
    requires many { length keys.now ≤ length aims.old }
    requires aims { All (IsAimIn V (shape_of checked.now)) aims.old }
    ensures aims { All (IsAimIn V (shape_of checked.now)) aims.new }
{
    for i in 0..keys.len() {
        aims[i] = aim_at::<V>(checked, keys[i]);
    }
}

// Touches four slots, which may be in two cache lines.
#[inline(always)]
fn touch_row<const V: usize>(cells: &Cells<V>, row: usize)
    requires { IsRow V cells.now.layout.shape row }
{
    touch(cells, row);
    touch(cells, row + 3);
}

// The least number of an item that one of four slots seems to name under the tag of the base. If none does, it is the
// number of no item.
#[inline(always)]
fn least_named<const V: usize>(cells: &Cells<V>, row: usize, base: u64) -> u64
    requires { IsRow V cells.now.layout.shape row }
{
    let one = touch(cells, row).wrapping_sub(base);
    let two = touch(cells, row + 1).wrapping_sub(base);
    let three = touch(cells, row + 2).wrapping_sub(base);
    let four = touch(cells, row + 3).wrapping_sub(base);
    one.min(two).min(three.min(four))
}

// The item that the slots seem to name. If they name none, it is the last item.
#[inline(always)]
fn guess<const V: usize>(cells: &Cells<V>, aim: Aim, items: u32) -> u32
    requires aim { IsAimIn V cells.now.layout.shape aim }
    requires items { 1 ≤ items }
    ensures { result < items }
{
    let first = least_named(cells, aim.first, aim.base);
    let second = least_named(cells, aim.second, aim.base);
    first.min(second).min(u64::from(items - 1)) as u32
}

// A guess for each of the aims.
#[inline(always)]
fn guess_all<const V: usize>(cells: &Cells<V>, aims: &[Aim], items: u32, guesses: &mut [u32])
    requires many { length aims.now ≤ length guesses.old }
    requires aims { All (IsAimIn V cells.now.layout.shape) aims.now }
    requires items { 1 ≤ items }
    requires guesses { All (λ (i : ℕ). i < items) guesses.old }
    ensures guesses { All (λ (i : ℕ). i < items) guesses.new }
{
    for i in 0..aims.len() {
        guesses[i] = guess(cells, aims[i], items);
    }
}

// Touches the first and the last word of an item.
#[inline(always)]
fn touch_item<const V: usize>(cells: &Cells<V>, checked: &Checked, i: u32)
    requires layout { cells.now.layout ≡ layout_of V checked.now }
    requires width { IsWidth V }
    requires item { i < (shape_of checked.now).items }
{
    let key = checked.item_place::<V>(i, 0);
    let last = checked.item_place::<V>(i, V as u8);
    touch(cells, key);
    touch(cells, last);
}

/// Where a lookup of the key looks. It reads no word of the table.
#[inline(always)]
pub fn aim_of<const V: usize>(cells: &Cells<V>, key: u64) -> Aim
    ensures { IsAimIn V cells.now.layout.shape result }
{
    aim_at::<V>(cells.checked(), key)
}

/// Touches the slots of the two buckets.
#[inline(always)]
pub fn touch_slots<const V: usize>(cells: &Cells<V>, aim: Aim)
    requires { IsAimIn V cells.now.layout.shape aim }
{
    touch_row(cells, aim.first);
    touch_row(cells, aim.second);
}

/// The item that the slots of the two buckets seem to name. It changes nothing, and says nothing of the table.
#[inline(always)]
pub fn guess_named<const V: usize>(cells: &Cells<V>, aim: Aim) -> u32
    requires { IsAimIn V cells.now.layout.shape aim }
{
    guess(cells, aim, cells.checked().shape().items)
}

/// Touches this item, or the last one if there are fewer.
#[inline(always)]
pub fn touch_guessed<const V: usize>(cells: &Cells<V>, item: u32) {
    let checked = cells.checked();
    touch_item(cells, checked, item.min(checked.shape().items - 1));
}

/// Touches what the lookups of these keys will read: the slots of their buckets, and then the items that these seem to name.
/// Condition: the keys are at most as many as a group.
#[inline(never)]
pub(crate) fn touch_group<const V: usize>(cells: &Cells<V>, keys: &[u64])
    requires { length keys.now ≤ 16 }
{
    let checked = cells.checked();
    let items = checked.shape().items;
    let mut aims = [Aim {
        base: 0,
        first: 0,
        second: 0,
    }; GROUP];
    let mut guesses = [0u32; GROUP];
    aim_at_all::<V>(checked, keys, &mut aims);
    for i in 0..keys.len() {
        touch_slots(cells, aims[i]);
    }
    guess_all(cells, &aims[..keys.len()], items, &mut guesses);
    for i in 0..keys.len() {
        touch_item(cells, checked, guesses[i]);
    }
}
