//! What threads have done, and how long it took them.
ghost use Rattle.std.specs.Prelude.{◌≡◌};

use mc_cache::{DeskError, Put, PutError, Reply};
use std::time::Duration;

/// What a thread has done, or several together.
#[derive(Clone, Copy, Default)]
pub(crate) struct Tally {
    pub lookups: u64,
    pub hits: u64,
    pub busy: u64,
    /// Hits whose value was put together of several.
    pub torn: u64,
    pub writes: u64,
    /// Tries to put that didn't win the turn. They are no writes.
    pub held: u64,
    pub refused: u64,
    pub evicted: u64,
    pub nanos: u64,
    pub lookups_a_second: u64,
    pub writes_a_second: u64,
}

/// How many nanoseconds the time has.
pub(crate) fn nanos_of(time: Duration) -> u64 {
    u64::try_from(time.as_nanos()).unwrap_or(u64::MAX)
}

/// How many there were a second, if there were `many` in `nanos` nanoseconds.
fn a_second(many: u64, nanos: u64) -> u64 {
    if nanos == 0 {
        return 0;
    }
    let rate = u128::from(many) * 1_000_000_000 / u128::from(nanos);
    u64::try_from(rate).unwrap_or(u64::MAX)
}

impl Tally {
    /// Counts a lookup. Each word of a value is the same if it was read whole. It adds numbers and doesn't branch on the reply. If half of
    /// the keys are there, a processor would guess half of the branches wrong.
    #[inline(always)]
    pub(crate) fn count_reply(&mut self, reply: Reply<4>) {
        let (hit, busy, torn) = match reply {
            Reply::Found { value, .. } => {
                let differing = (value[0] ^ value[1])
                    | (value[0] ^ value[2])
                    | (value[0] ^ value[3]);
                (1, 0, u64::from(differing != 0))
            }
            Reply::Absent { .. } => (0, 0, 0),
            Reply::Busy => (0, 1, 0),
        };
        self.lookups = self.lookups.wrapping_add(1);
        self.hits = self.hits.wrapping_add(hit);
        self.busy = self.busy.wrapping_add(busy);
        self.torn = self.torn.wrapping_add(torn);
    }

    /// Counts a put.
    #[inline(always)]
    pub(crate) fn count_put(&mut self, stored: Result<Put, PutError>) {
        self.writes = self.writes.wrapping_add(1);
        match stored {
            Ok(
                Put::Stored {
                    evicted: Some(_),
                    ..
                },
            ) => self.evicted = self.evicted.wrapping_add(1),
            Ok(_) => {}
            Err(_) => self.refused = self.refused.wrapping_add(1),
        }
    }

    /// Counts a try to put.
    #[inline(always)]
    pub(crate) fn count_try(&mut self, tried: Result<Put, DeskError<PutError>>) {
        match tried {
            Ok(put) => self.count_put(Ok(put)),
            Err(DeskError::Call(why)) => self.count_put(Err(why)),
            Err(DeskError::Held) => self.held = self.held.wrapping_add(1),
        }
    }

    /// The tally, with the time that it took.
    pub(crate) fn over(self, time: Duration) -> Tally {
        let nanos = nanos_of(time);
        Tally {
            nanos,
            lookups_a_second: a_second(self.lookups.wrapping_sub(self.busy), nanos),
            writes_a_second: a_second(self.writes, nanos),
            ..self
        }
    }

    /// What both did.
    pub(crate) fn and(self, other: Tally) -> Tally {
        Tally {
            lookups: self.lookups.wrapping_add(other.lookups),
            hits: self.hits.wrapping_add(other.hits),
            busy: self.busy.wrapping_add(other.busy),
            torn: self.torn.wrapping_add(other.torn),
            writes: self.writes.wrapping_add(other.writes),
            held: self.held.wrapping_add(other.held),
            refused: self.refused.wrapping_add(other.refused),
            evicted: self.evicted.wrapping_add(other.evicted),
            nanos: self.nanos.wrapping_add(other.nanos),
            lookups_a_second: self.lookups_a_second.wrapping_add(other.lookups_a_second),
            writes_a_second: self.writes_a_second.wrapping_add(other.writes_a_second),
        }
    }
}
