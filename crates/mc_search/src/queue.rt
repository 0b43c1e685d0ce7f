//! The queue of a search, and the buckets that it has seen.
ghost use Rattle.std.specs.Prelude.{ℕ, ◌≡◌, ◌<◌, ◌≤◌, List, [], length, vec_capacity};
ghost use Rattle.mc_words.specs.declared.shape.Shape.{Shape};
ghost use Rattle.mc_words.specs.Keys.{first_of, second_of};
ghost use Rattle.mc_search.specs.Inside.Readable.{IsFull};
ghost use Rattle.mc_search.specs.Inside.Search.{IsQueue, IsUnmarked, IsAdded, IsSearching, AreFull};

/// A bucket that the search has seen, and the slot of an earlier one that leads to it.
#[derive(Clone, Copy)]
pub(crate) struct Entry {
    pub(crate) bucket: u32,
    /// The index of the earlier entry.
    pub(crate) from: u32,
    pub(crate) slot: u8,
    /// How many displacements lead here.
    pub(crate) depth: u8,
}

/// Puts the entry at the end, unless its bucket is there already. Returns whether it did.
pub(crate) fn add(queue: &mut Vec<Entry>, seen: &mut Vec<bool>, entry: Entry) -> bool
    requires queue { IsQueue queue.old.items seen.old.items }
    requires room { length seen.old.items ≤ vec_capacity queue.old }
    requires in_table { entry.bucket < length seen.old.items }
    ensures queue { IsQueue queue.new.items seen.new.items }
    ensures room { length seen.new.items ≤ vec_capacity queue.new }
    ensures size { length seen.new.items ≡ length seen.old.items }
    ensures added { IsAdded queue.old.items entry queue.new.items result }
{
    if seen[entry.bucket as usize] {
        return false;
    }
    seen[entry.bucket as usize] = true;
    match queue.push(entry) {
        Ok(()) => true,
        Err(_) => unreachable!(),
    }
}

/// Puts the two buckets of a key into the empty queue.
pub(crate) fn start(queue: &mut Vec<Entry>, seen: &mut Vec<bool>, first: u32, second: u32)
    requires queue { queue.old.items ≡ [] }
    requires room { length seen.old.items ≤ vec_capacity queue.old }
    requires unmarked { IsUnmarked seen.old.items }
    requires first { first < length seen.old.items }
    requires second { second < length seen.old.items }
    ensures queue { IsQueue queue.new.items seen.new.items }
    ensures room { length seen.new.items ≤ vec_capacity queue.new }
    ensures size { length seen.new.items ≡ length seen.old.items }
    ensures full { (sh : Shape) (w : List ℕ) → IsFull sh w first → IsFull sh w second → AreFull sh w queue.new.items }
    ensures searching { (sh : Shape) (w : List ℕ) (k : ℕ) → first ≡ first_of sh k → second ≡ second_of sh k → IsSearching sh w k 0 queue.new.items }
{
    let entry = Entry {
        bucket: first,
        from: 0,
        slot: 0,
        depth: 0,
    };
    let _ = add(queue, seen, entry);
    let entry = Entry {
        bucket: second,
        from: 0,
        slot: 0,
        depth: 0,
    };
    let _ = add(queue, seen, entry);
}

/// Takes the marks of the queued buckets away, and empties the queue.
pub(crate) fn clean(queue: &mut Vec<Entry>, seen: &mut Vec<bool>)
    requires queue { IsQueue queue.old.items seen.old.items }
    ensures queue { queue.new.items ≡ [] }
    ensures room { vec_capacity queue.new ≡ vec_capacity queue.old }
    ensures size { length seen.new.items ≡ length seen.old.items }
    ensures unmarked { IsUnmarked seen.new.items }
{
    'marks: for entry in queue.iter() {
        seen[entry.bucket as usize] = false;
    }
    queue.clear();
}
