//! Puts of many entries in one call: none, one group of 16, one more, and a hundred.
ghost use Rattle.std.specs.Prelude.{◌≡◌, ◌≤◌};

use crate::opened::open_for_one;
use mc_cache::{Cache, Put, PutError, Shape, Writer};
use std::test::Fail;

const MOST: usize = 100;

// Entries with different keys.
fn entries_from(first: u64) -> [(u64, [u64; 1]); MOST] {
    let mut entries = [(0, [0]); MOST];
    for i in 0..MOST {
        let key = first.wrapping_add(i as u64);
        entries[i] = (key, [key.wrapping_add(1)]);
    }
    entries
}

// Whether each entry was stored, one after the other, after so many changes.
fn are_stored(answers: &[Result<Put, PutError>], before: u64) -> bool {
    let mut right = true;
    for i in 0..answers.len() {
        let stored = Put::Stored {
            at: before.wrapping_add(i as u64).wrapping_add(1),
            moves: 0,
            evicted: None,
        };
        right = right && answers[i] == Ok(stored);
    }
    right
}

fn puts_all(cache: &Cache<1>, writer: &mut Writer<1>, first: u64, many: usize) -> bool
    requires of { writer.old.of ≡ cache.now }
    requires many { many ≤ 100 }
    ensures { writer.new.of ≡ writer.old.of }
{
    let before = writer.moment();
    let entries = entries_from(first);
    let mut answers = [Err(PutError::NoPath); MOST];
    writer.put_many(cache, &entries[..many], &mut answers[..many]);
    are_stored(&answers[..many], before)
}

#[test]
fn a_writer_puts_many_in_one_call(rt: HostRuntime) -> Result<(), Fail> {
    let (cache, mut writer, _reader) = open_for_one(rt.alloc(), Shape::for_items(1000)?)?;
    assert!(rt; puts_all(&cache, &mut writer, 0, 0));
    assert!(rt; puts_all(&cache, &mut writer, 0, 16));
    assert!(rt; puts_all(&cache, &mut writer, 16, 17));
    assert!(rt; puts_all(&cache, &mut writer, 33, 100));
    assert!(rt; writer.len() == 133);
    Ok(())
}
