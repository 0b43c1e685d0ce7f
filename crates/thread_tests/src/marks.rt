//! Marks of two readers in one recency word: none of them is lost.
ghost use Rattle.std.specs.Prelude.{◌≡◌, ◌≤◌};

use mc_shared::{Cells, ReaderSeat, close, mark, mark_unless_set, open};
use mc_words::{Mix, Shape};
use std::alloc::Global;
use std::test::Fail;
use std::thread::{Threads, join};

const SHAPE: Shape = Shape {
    buckets: 32,
    items: 64,
    stripes: 1,
    depth: 2,
    tries: 2,
    limit: 1 << 62,
    mix: Mix::Plain,
};

const TABLES: u32 = 100;

// Marks every second item, from this one on.
fn mark_half(cells: &Cells<1>, reader: &mut ReaderSeat, first: u32, looks_first: bool)
    requires of { reader.old.of ≡ cells.now }
    requires first { first ≤ 1 }
    ensures of { reader.new.of ≡ reader.old.of }
{
    let items = cells.checked().shape().items;
    for k in 0..32 {
        let i = 2 * k + first;
        if i < items {
            if looks_first {
                mark_unless_set(cells, reader, i);
            } else {
                mark(cells, reader, i);
            }
        }
    }
}

// The recency word of a table in which two threads have marked every second item each.
#[tactic(auto, unfolding(mc_words::specs::Recency::recency_word, mc_words::specs::Recency::recency_words))]
fn marked_by_two<R: Threads + Sync>(rt: &R, alloc: Global, looks_first: bool) -> Result<u64, Fail> {
    let checked = SHAPE.check()?;
    let (cells, writer, mut readers) = open::<1>(alloc, &checked, 2)?;
    let (Some(mut one), Some(mut two)) = (readers.pop(), readers.pop()) else {
        return Err(Fail::new("no readers"));
    };
    let ((), ()) = join(
        rt,
        || mark_half(&cells, &mut one, 0, looks_first),
        || mark_half(&cells, &mut two, 1, looks_first),
    );
    let place = checked.recency_place::<1>(0);
    let words = close(cells, writer, readers);
    Ok(words.word(place))
}

#[test]
fn no_mark_is_lost(rt: HostRuntime) -> Result<(), Fail> {
    for looks_first in [false, true] {
        for _n in 0..TABLES {
            let word = marked_by_two(&rt, rt.alloc(), looks_first)?;
            assert_eq!(rt; word, u64::MAX);
        }
    }
    Ok(())
}
