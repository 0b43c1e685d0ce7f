//! `Finder::path` beside two plain searches on tables that a generator draws: one that follows every chain,
//! and one that takes the buckets in the order of the queue. No clause says which of several least paths is given.

ghost use Rattle.std.specs.Prelude.{◌≡◌};
ghost use Rattle.mc_words.specs.Checks.{shape_of};
ghost use Rattle.mc_search.specs.Readable.{HasSlots, IsFilled};

use crate::shapes::checked;
use crate::table::{Table, is_readable, table_of};
use arrayvec::ArrayVec;
use mc_plan::{Finder, Path};
use mc_words::{Checked, Place};
use rand_core::Rng;
use rand_pcg::Lcg64Xsh32;
use std::alloc::Global;
use std::test::Fail;

/// A table with few holes, whose slots name items under drawn tags.
fn drawn(rng: &mut Lcg64Xsh32) -> Table {
    let mut list = [0; 130];
    for q in 0..128 {
        let a = rng.next_u32();
        if a % 64 > 0 {
            list[2 + q] = (u64::from(a >> 24) << 32) + q as u64 + 1;
        }
    }
    Table { list }
}

/// The word of a slot, if there is one.
fn word_of(table: &Table, bucket: u32, slot: u32) -> u64 {
    let number = bucket.saturating_mul(4).saturating_add(slot) as usize;
    match table.list.get(number.saturating_add(2)) {
        Some(word) => *word,
        None => 0,
    }
}

fn empty_in(table: &Table, bucket: u32) -> Option<u32> {
    for slot in 0..4 {
        if word_of(table, bucket, slot) == 0 {
            return Some(slot);
        }
    }
    None
}

/// The other bucket of the item in the slot.
fn onward(checked: &Checked, table: &Table, bucket: u32, slot: u32) -> Option<u32> {
    let (tag, _) = checked.slot_parts(word_of(table, bucket, slot))?;
    if bucket < checked.shape().buckets {
        Some(checked.alt(bucket, tag))
    } else {
        None
    }
}

/// The length of the shortest chain from the bucket on that comes to none of the passed ones; a large number if
/// there is none within the depth.
fn shortest(checked: &Checked, table: &Table, bucket: u32, passed: u32, depth: u8) -> u8 {
    if empty_in(table, bucket).is_some() {
        return 0;
    }
    let mut best = 99;
    if depth == 0 {
        return best;
    }
    for slot in 0..4 {
        // The bucket itself was passed, so a slot that leads nowhere is left out below.
        let next = onward(checked, table, bucket, slot).unwrap_or(bucket);
        let mark = 1 << (next % 32);
        if passed & mark == 0 {
            let rest = shortest(checked, table, next, passed | mark, depth - 1);
            best = best.min(rest.saturating_add(1));
        }
    }
    best
}

/// A bucket of the plain queue, and what led to it.
#[derive(Clone, Copy, Default)]
struct Step {
    bucket: u32,
    from: usize,
    slot: u32,
    depth: u8,
}

fn join(queue: &mut ArrayVec<Step, 32>, step: Step) {
    for other in queue.as_slice() {
        if other.bucket == step.bucket {
            return;
        }
    }
    let _ = queue.try_push(step);
}

fn step_at(queue: &ArrayVec<Step, 32>, at: usize) -> Option<Step> {
    queue.as_slice().get(at).copied()
}

/// The numbers of the path's slots from the hole back to the first place.
fn way_back(queue: &ArrayVec<Step, 32>, end: usize, slot: u32) -> ArrayVec<u32, 9> {
    let mut way = ArrayVec::new();
    let mut at = end;
    let mut slot = slot;
    for _ in 0..9 {
        let Some(step) = step_at(queue, at) else {
            return way;
        };
        let _ = way.try_push(step.bucket.saturating_mul(4).saturating_add(slot));
        if step.depth == 0 {
            return way;
        }
        at = step.from;
        slot = step.slot;
    }
    way
}

/// The path by a queue that looks at a bucket when it is its turn.
fn in_order(checked: &Checked, table: &Table, first: u32, second: u32) -> ArrayVec<u32, 9> {
    let mut queue = ArrayVec::new();
    for bucket in [first, second] {
        let start = Step {
            bucket,
            from: 0,
            slot: 0,
            depth: 0,
        };
        join(&mut queue, start);
    }
    for front in 0..32 {
        let Some(step) = step_at(&queue, front) else {
            break;
        };
        if let Some(slot) = empty_in(table, step.bucket) {
            return way_back(&queue, front, slot);
        }
        if step.depth < checked.shape().depth {
            queue_from(checked, table, &mut queue, front, step);
        }
    }
    ArrayVec::new()
}

fn queue_from(
    checked: &Checked,
    table: &Table,
    queue: &mut ArrayVec<Step, 32>,
    front: usize,
    step: Step,
) {
    for slot in 0..4 {
        if let Some(bucket) = onward(checked, table, step.bucket, slot) {
            let next = Step {
                bucket,
                from: front,
                slot,
                depth: step.depth.saturating_add(1),
            };
            join(queue, next);
        }
    }
}

fn number_of(place: Place) -> u32 {
    place
        .bucket
        .saturating_mul(4)
        .saturating_add(u32::from(place.slot))
}

/// The numbers of the path's slots from the hole back to the first place; none without a path.
fn written(path: &Option<Path>) -> ArrayVec<u32, 9> {
    let mut way = ArrayVec::new();
    if let Some(path) = path {
        let _ = way.try_push(number_of(path.hole));
        for place in path.places.as_slice().iter().rev() {
            let _ = way.try_push(number_of(*place));
        }
    }
    way
}

/// Whether the finder's path is that of the queue, and as short as the shortest chain.
fn is_first_of_least(checked: &Checked, finder: &mut Finder, table: &mut Table, key: u64) -> bool
    requires slots { HasSlots (shape_of checked.now) table.old.list }
    requires filled { IsFilled (shape_of checked.now) table.old.list }
    requires finder { finder.old ≡ shape_of checked.now }
    ensures { finder.new ≡ finder.old }
{
    let depth = checked.shape().depth;
    let first = checked.first(key);
    let second = checked.alt(first, checked.tag(key));
    let way = written(&finder.path(table, key));
    let from_first = shortest(checked, table, first, 1 << (first % 32), depth);
    let from_second = shortest(checked, table, second, 1 << (second % 32), depth);
    let least = usize::from(from_first.min(from_second));
    let short = if way.is_empty() {
        least > usize::from(depth)
    } else {
        way.len() == least + 1
    };
    short && way.as_slice() == in_order(checked, table, first, second).as_slice()
}

/// The first of 500 drawn tables in which the path of a drawn key is not the one of the plain searches.
fn wrong_table(alloc: Global, rng: &mut Lcg64Xsh32, depth: u8) -> Result<Option<u32>, Fail> {
    let checked = checked(32, 128, depth)?;
    for n in 0..500 {
        let mut finder = Finder::new(alloc, &checked)?;
        let mut table = drawn(rng);
        let key = rng.next_u64();
        if !is_readable(&checked, &mut table)
            || !is_first_of_least(&checked, &mut finder, &mut table, key)
        {
            return Ok(Some(n));
        }
    }
    Ok(None)
}

#[test]
fn paths_are_the_first_of_the_least(rt: HostRuntime) -> Result<(), Fail> {
    let mut rng = Lcg64Xsh32::new(1, 0);
    for depth in 0..4 {
        let wrong = wrong_table(rt.alloc(), &mut rng, depth)?;
        assert_eq!(rt; wrong, None, "depth {depth}");
    }
    Ok(())
}

/// Key 28 has the buckets 0 and 1 of four. Item 0 is the only one there with tag 1, so it can move to bucket 3.
#[test]
fn items_go_to_their_other_buckets(rt: HostRuntime) -> Result<(), Fail> {
    let checked = checked(4, 16, 2)?;
    let mut finder = Finder::new(rt.alloc(), &checked)?;
    let mut free = table_of(&[4294967297, 2, 3, 4, 5, 6, 7, 8]);
    assert!(rt; is_readable(&checked, &mut free));
    let path = finder.path(&mut free, 28);
    assert!(rt; written(&path).as_slice() == [12, 0].as_slice());
    let mut full = table_of(&[4294967297, 2, 3, 4, 5, 6, 7, 8, 0, 0, 0, 0, 9, 10, 11, 12]);
    assert!(rt; is_readable(&checked, &mut full));
    let path = finder.path(&mut full, 28);
    assert!(rt; written(&path).as_slice() == [8, 12, 0].as_slice());
    Ok(())
}
