//! What is printed.
use crate::tally::Tally;
use std::fmt;
use std::fmt::Display;

/// A quotient, as a decimal number with five digits after the point.
#[derive(Clone, Copy, Default)]
pub(crate) struct Quotient {
    pub top: u64,
    pub bottom: u64,
}

impl Display for Quotient {
    fn fmt<W: fmt::Write>(&self, f: &mut fmt::Formatter<W>) -> fmt::Result {
        if self.bottom == 0 {
            return write!(f, "0");
        }
        let rest = u128::from(self.top % self.bottom) * 100_000 / u128::from(self.bottom);
        write!(f, "{}.{rest:05}", self.top / self.bottom)
    }
}

/// The memory that was added for each of `keys` keys.
pub(crate) fn bytes_a_key(before: u64, after: u64, keys: u32) -> Quotient {
    Quotient {
        top: after.saturating_sub(before),
        bottom: u64::from(keys),
    }
}

/// The names of what was counted, in the order in which they are printed.
const COUNTED: [&str; 10] = [
    "lookups_s",
    "writes_s",
    "lookups",
    "hits",
    "busy",
    "torn",
    "writes",
    "held",
    "evicted",
    "refused",
];

/// What was counted, in that order.
fn counted(all: Tally) -> [u64; 10] {
    [
        all.lookups_a_second,
        all.writes_a_second,
        all.lookups,
        all.hits,
        all.busy,
        all.torn,
        all.writes,
        all.held,
        all.evicted,
        all.refused,
    ]
}

/// What was measured, as one line of JSON. What was not measured is 0.
#[derive(Clone, Copy, Default)]
pub(crate) struct Report {
    pub looked: Tally,
    pub written: Tally,
    /// Memory that the table took, by its keys.
    pub bytes_key: Quotient,
    /// Keys that were put until one was refused, by the slots.
    pub load_factor: Quotient,
    /// Nanoseconds in which a cache was closed and its entries listed.
    pub listed_ns: u64,
}

impl Display for Report {
    fn fmt<W: fmt::Write>(&self, f: &mut fmt::Formatter<W>) -> fmt::Result {
        let ns_lookup = Quotient {
            top: self.looked.nanos,
            bottom: self.looked.lookups.wrapping_sub(self.looked.busy),
        };
        write!(f, "{{\"name\":\"cefrodil\",\"ns_lookup\":{ns_lookup},")?;
        let numbers = counted(self.looked.and(self.written));
        for (name, number) in COUNTED.iter().zip(numbers.iter()) {
            write!(f, "\"{name}\":{number},")?;
        }
        let (load_factor, bytes_key) = (self.load_factor, self.bytes_key);
        write!(
            f,
            "\"load_factor\":{load_factor},\"bytes_key\":{bytes_key},"
        )?;
        let (written_ns, listed_ns) = (self.written.nanos, self.listed_ns);
        write!(f, "\"written_ns\":{written_ns},\"listed_ns\":{listed_ns}}}")
    }
}
