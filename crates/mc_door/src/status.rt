//! The statuses, as numbers that C sees. `c/include/cefrodil.h` names them.

/// Done: found, put, removed, opened or closed.
pub const OK: u32 = 0;

/// The key isn't there.
pub const ABSENT: u32 = 1;

/// Every try of a lookup was spoiled by the writer.
pub const BUSY: u32 = 2;

/// No path of displacements leads to an empty slot.
pub const NO_PATH: u32 = 3;

/// Every item was used since the hand passed it.
pub const ALL_RECENT: u32 = 4;

/// The limit on version changes could be passed.
pub const SPENT: u32 = 5;

/// The key was put at another moment.
pub const CHANGED: u32 = 6;

/// The try for the turn didn't win.
pub const HELD: u32 = 7;

/// The handle isn't open.
pub const CLOSED: u32 = 8;

/// The handle holds the turns already.
pub const HOLDS: u32 = 9;

/// The value has another number of words than those of the cache.
pub const WIDTH: u32 = 10;

/// A handle that should be opened is open.
pub const IN_USE: u32 = 11;

/// No memory.
pub const NO_MEMORY: u32 = 12;

/// A value must have from 1 to 8 words.
pub const WORDS: u32 = 13;

/// The shape's `mix` is out of its range.
pub const MIX: u32 = 14;

/// The shape's `buckets` are.
pub const BUCKETS: u32 = 15;

/// The shape's `items` are.
pub const ITEMS: u32 = 16;

/// The shape's `stripes` are.
pub const STRIPES: u32 = 17;

/// The shape's `depth` is.
pub const DEPTH: u32 = 18;

/// The shape's `tries` are.
pub const TRIES: u32 = 19;

/// The shape's `limit` is.
pub const LIMIT: u32 = 20;

/// Handles must be from 1 to 1024, and those that are added no more than there are to spare.
pub const HANDLES: u32 = 21;

/// Counts that belong together don't fit.
pub const COUNT: u32 = 22;

/// Every item is in use.
pub const NO_ITEM: u32 = 23;

/// Shards must be a power of two from 1 to 256.
pub const SHARDS: u32 = 24;

/// The key is there, and was to be put only if it was absent.
pub const PRESENT: u32 = 25;

/// The handle holds no turns.
pub const HOLDS_NOT: u32 = 26;

/// The shape's `policy` is out of its range.
pub const POLICY: u32 = 28;
