//! Where keys are, on tables of plain words.
ghost use Rattle.std.specs.Prelude.{◌≡◌, ◌<◌, ◌≤◌, IsTrue, length};
ghost use Rattle.mc_words.specs.Checks.{shape_of};
ghost use Rattle.mc_words.specs.Places.{IsPlace, slot_number, item, word_count};
ghost use Rattle.mc_search.specs.Readable.{IsPlaced, IsPlacedAt};

use crate::shapes::checked;
use crate::table::{Table, slot_at, table_of};
use mc_plan::{Peek, find};
use mc_words::{Checked, Place};
use std::test::Fail;

/// The key of an item.
#[tactic(auto, unfolding(mc_words::specs::Places::item))]
fn key_at(checked: &Checked, table: &mut Table, i: u32) -> u64
    requires words { word_count 1 (shape_of checked.now) ≤ length table.old.list }
    requires item { i < (shape_of checked.now).items }
    ensures value { result ≡ item 1 (shape_of checked.now) table.old.list i 0 }
    ensures same { table.new.list ≡ table.old.list }
{
    table.word(checked.item_place::<1>(i, 0))
}

/// Whether the slot names an item of the key only under the key's tag, in a bucket of the key.
fn is_placed_at(checked: &Checked, table: &mut Table, key: u64, place: Place) -> bool
    requires words { word_count 1 (shape_of checked.now) ≤ length table.old.list }
    requires place { IsPlace (shape_of checked.now) place }
    ensures placed { IsTrue result → IsPlacedAt 1 (shape_of checked.now) table.old.list key (slot_number place) }
    ensures same { table.new.list ≡ table.old.list }
{
    let word = slot_at(checked, table, place);
    let Some((named, item)) = checked.slot_parts(word) else {
        return true;
    };
    let stored = key_at(checked, table, item);
    if stored != key {
        return true;
    }
    let tag = checked.tag(key);
    let first = checked.first(key);
    let second = checked.alt(first, tag);
    if named != tag {
        return false;
    }
    place.bucket == first || place.bucket == second
}

/// Whether a search for the key may read the table, whose values have one word.
fn is_placed(checked: &Checked, table: &mut Table, key: u64) -> bool
    ensures words { IsTrue result → word_count 1 (shape_of checked.now) ≤ length table.old.list }
    ensures placed { IsTrue result → IsPlaced 1 (shape_of checked.now) table.old.list key }
    ensures same { table.new.list ≡ table.old.list }
{
    if table.list.len() < checked.words::<1>() {
        return false;
    }
    for q in 0..4 * checked.shape().buckets {
        let place = Place {
            bucket: q / 4,
            slot: (q % 4) as u8,
        };
        if !is_placed_at(checked, table, key, place) {
            return false;
        }
    }
    true
}

/// Where the key is found, if a search for it may read the table.
fn found(checked: &Checked, table: &mut Table, key: u64) -> Option<Option<(Place, u32)>> {
    if is_placed(checked, table, key) {
        Some(find::<1, Table>(checked, table, key))
    } else {
        None
    }
}

/// Keys of the buckets 0 and 1 of four, the first of them under tag 1.
const KEYS: [u64; 8] = [72057594037927936, 0, 4, 8, 12, 16, 20, 24];

/// A table with these keys.
fn filled() -> Table {
    let mut table = table_of(&[4294967297, 2, 3, 4, 5, 6, 7, 8]);
    for (i, key) in KEYS.iter().enumerate() {
        table.list[18 + 3 * i] = *key;
    }
    table
}

#[test]
fn keys_are_found_where_they_stand(rt: HostRuntime) -> Result<(), Fail> {
    let checked = checked(4, 16, 2)?;
    let mut table = filled();
    for (i, key) in KEYS.iter().enumerate() {
        let place = Place {
            bucket: (i / 4) as u32,
            slot: (i % 4) as u8,
        };
        let here = found(&checked, &mut table, *key);
        assert!(rt; here == Some(Some((place, i as u32))), "{key}");
    }
    for key in [28, 1, 72057594037927940] {
        assert!(rt; found(&checked, &mut table, key) == Some(None), "{key}");
    }
    Ok(())
}
