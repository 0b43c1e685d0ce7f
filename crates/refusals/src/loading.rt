//! If a cache can't be opened with entries, nothing is kept, and the caller still has the entries. Entries that can't be listed
//! leave the words as they are.
ghost use Rattle.std.specs.Prelude.{◌≡◌, IfOk, IfSome};
ghost use Rattle.mc_writer.specs.WriterCalls.{IsRested};

use crate::opening::SHAPE;
use crate::seen::Seen;
use mc_cache::{OpenError, Opened, Reply, Why, open_with};
use mc_plan::{Books, Put, entries};
use mc_shared::{Cells, WriterSeat, open};
use mc_words::{NoMemory, Shape};
use mc_writer::{Pen, put};
use std::alloc::Global;

/// Two entries, and one for which no item is left.
const ENTRIES: [(u64, [u64; 1]); 3] = [(2, [12]), (1, [11]), (3, [13])];

// Opens a cache of two items with the three entries, and looks one up.
fn load(alloc: Global) -> Option<bool> {
    let shape = Shape { items: 2, ..SHAPE };
    match open_with::<1>(alloc, shape, 1, ENTRIES.as_slice()) {
        Ok(opened) => Some(is_loaded(opened)),
        Err(OpenError::NoMemory) => None,
        Err(_) => Some(false),
    }
}

// Whether the first two entries were taken, and the third is named.
fn is_loaded(opened: Opened<1>) -> bool
    requires { opened.writer.of ≡ opened.cache }
{
    let Opened {
        cache,
        mut writer,
        left,
        ..
    } = opened;
    let found = Reply::Found {
        value: [11],
        at: 2,
        since: 2,
    };
    let named = left.as_slice() == [(2, Why::NoItem)].as_slice();
    named && writer.get(&cache, 1) == found
}

/// Opens a cache with entries, and once more if memory was refused.
pub(crate) fn see_loading(alloc: Global) -> Seen {
    let first = load(alloc);
    if first.is_some() {
        return Seen::of_two(first, None);
    }
    Seen::of_two(None, load(alloc))
}

// Puts the two first entries, as the first calls of a writer. Whether each was stored.
fn put_both(cells: &Cells<1>, seat: &mut WriterSeat, books: &mut Books) -> bool
    requires of { seat.old.of ≡ cells.now }
    requires rested { IsRested 1 books.old seat.old }
    ensures of { seat.new.of ≡ seat.old.of }
    ensures rested { IsRested 1 books.new seat.new }
{
    let first = put(cells, seat, books, 2, &[12]);
    let second = put(cells, seat, books, 1, &[11]);
    first == Ok(stored(1)) && second == Ok(stored(2))
}

// What a put with this moment returns if it moved no key.
fn stored(at: u64) -> Put {
    Put::Stored {
        at,
        moves: 0,
        evicted: None,
    }
}

// Lists what the words hold. Whether it is the two entries, or `None` if memory was refused.
fn list(alloc: Global, cells: &Cells<1>, seat: &mut WriterSeat, books: &Books) -> Option<bool>
    requires of { seat.old.of ≡ cells.now }
    requires rested { IsRested 1 books.now seat.old }
    ensures seat { seat.new ≡ seat.old }
{
    let checked = cells.checked();
    let mut pen = Pen { cells, seat };
    match entries::<1, Pen<1>>(alloc, checked, &mut pen) {
        Ok(listed) => Some(listed.as_slice() == &ENTRIES[..2]),
        Err(NoMemory) => None,
    }
}

/// Lists what the words hold, and once more if memory was refused.
pub(crate) fn see_entries(alloc: Global) -> Seen {
    let Ok(checked) = SHAPE.check() else {
        return Seen::Wrong;
    };
    let Ok(mut books) = Books::new(alloc, &checked) else {
        return Seen::Before;
    };
    let Ok((cells, mut seat, _readers)) = open::<1>(alloc, &checked, 1) else {
        return Seen::Before;
    };
    if !put_both(&cells, &mut seat, &mut books) {
        return Seen::Wrong;
    }
    let first = list(alloc, &cells, &mut seat, &books);
    if first.is_some() {
        return Seen::of_two(first, None);
    }
    Seen::of_two(None, list(alloc, &cells, &mut seat, &books))
}
