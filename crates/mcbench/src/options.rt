//! What the command line asks for.
use clap::builder::ValueParser;
use clap::{Arg, ArgMatches, Command, Error};
use mc_cache::{Mix, Policy, Shape};
use std::alloc::{AllocError, Global};
use std::convert::AsStr;
use std::io;
use std::time::Duration;

/// What is measured.
#[derive(Clone, Copy)]
pub(crate) enum Workload {
    /// Threads look up, or put, keys that the cache holds.
    Mixed,
    /// Threads look up keys that it doesn't hold.
    Absent,
    /// Threads look up keys of which it holds half.
    Half,
    /// Fresh keys are put into empty caches.
    Fill,
    /// Fresh keys are put into a full cache.
    Evict,
    /// Fresh keys are put until one is refused.
    Load,
    /// The entries of a full cache are taken into a larger one.
    Grow,
}

#[derive(Clone, Copy)]
pub(crate) struct Options {
    pub workload: Workload,
    pub readers: u32,
    pub writers: u32,
    pub keys: u32,
    pub capacity: u32,
    pub time: Duration,
    /// One in this many calls of the writer is a put.
    pub write_every: u32,
    pub seed: u32,
    /// Keys that a call of a reader looks up.
    pub many: u32,
    /// Shards with a writer each, among which the keys are divided; 0: one cache.
    pub shards: u32,
    /// The greatest share of slots in use, in percent; 0: the table is that of `Shape::for_items`.
    pub most_used: u32,
    pub policy: Policy,
}

/// The names of the workloads.
const WORKLOADS: [&str; 8] = [
    "hit", "half", "miss", "mixed", "fill", "evict", "load", "grow",
];

/// What each of them means.
const MEANT: [Workload; 8] = [
    Workload::Mixed,
    Workload::Half,
    Workload::Absent,
    Workload::Mixed,
    Workload::Fill,
    Workload::Evict,
    Workload::Load,
    Workload::Grow,
];

/// An option with one value.
struct Row {
    name: &'static str,
    takes: ValueParser<'static>,
    default: &'static str,
    help: &'static str,
}

/// The options, in the order of the help.
const ROWS: [Row; 12] = [
    Row {
        name: "workload",
        takes: ValueParser::Names(&WORKLOADS),
        default: "hit",
        help: "Keys that are there (hit, mixed), half of them (half) or none (miss); fresh keys into empty tables (fill), into a full one (evict), or until one is refused (load); a full one's entries into a larger one (grow)",
    },
    Row {
        name: "seconds",
        takes: ValueParser::Float,
        default: "0.3",
        help: "How long it is measured",
    },
    Row {
        name: "seed",
        takes: ValueParser::Signed(0, 4_294_967_295),
        default: "1",
        help: "Which keys are drawn",
    },
    Row {
        name: "keys",
        takes: ValueParser::Signed(1, 4_000_000),
        default: "1000",
        help: "Keys that are drawn",
    },
    Row {
        name: "capacity",
        takes: ValueParser::Signed(1, 4_000_000),
        default: "1000",
        help: "Keys for which the table is made",
    },
    Row {
        name: "readers",
        takes: ValueParser::Signed(0, 64),
        default: "1",
        help: "Threads that look keys up",
    },
    Row {
        name: "writers",
        takes: ValueParser::Signed(0, 8),
        default: "0",
        help: "Threads that put keys; where there are several, they take turns at keys that are there, and try once for each put",
    },
    Row {
        name: "many",
        takes: ValueParser::Signed(1, 64),
        default: "1",
        help: "Keys that a reader looks up by one call",
    },
    Row {
        name: "write-every",
        takes: ValueParser::Signed(1, 1_000_000),
        default: "1",
        help: "Of so many calls of a writer one is a put, the others look keys up",
    },
    Row {
        name: "shards",
        takes: ValueParser::Signed(0, 256),
        default: "0",
        help: "Shards, a power of two, with a writer each; all writers put keys that are there, and look keys up (0: one cache)",
    },
    Row {
        name: "most-used",
        takes: ValueParser::Signed(0, 100),
        default: "0",
        help: "The greatest share of slots in use, in percent (0: as Shape::for_items chooses)",
    },
    Row {
        name: "policy",
        takes: ValueParser::Names(&POLICIES),
        default: "clock",
        help: "Which key gives way in a full table: as CLOCK chooses, or a new one before one that was used again",
    },
];

/// The names of the policies.
const POLICIES: [&str; 2] = ["clock", "scan-resistant"];

/// The option of a row.
fn option<'a>(alloc: Global, row: &Row) -> Arg<'a> {
    Arg::new(alloc, row.name)
        .long(row.name)
        .value_parser(row.takes)
        .default_value(row.default)
        .help(row.help)
}

fn command<'a>(alloc: Global) -> Result<Command<'a>, AllocError> {
    let mut command = Command::new(alloc, "mcbench").about(
        "Measures the cache, and prints one line of JSON",
    );
    for row in &ROWS {
        command = command.arg(option(alloc, row))?;
    }
    Ok(command)
}

/// The workload with this name.
fn workload_in(matches: &ArgMatches<'_>) -> Workload {
    let asked = matches.get_str("workload");
    for (name, workload) in WORKLOADS.iter().zip(MEANT.iter()) {
        if asked == Some(*name) {
            return *workload;
        }
    }
    Workload::Mixed
}

/// The policy with this name.
fn policy_in(matches: &ArgMatches<'_>) -> Policy {
    if matches.get_str("policy") == Some("scan-resistant") {
        return Policy::ScanResistant;
    }
    Policy::Clock
}

fn number_in(matches: &ArgMatches<'_>, name: &str) -> u32 {
    matches.get_one::<u32>(name).unwrap_or(1)
}

/// The options of the words, the program's own name first.
pub(crate) fn options_of<S: AsStr>(alloc: Global, words: &[S]) -> Result<Options, Error> {
    let matches = command(alloc)?.try_get_matches_from(words)?;
    let seconds = matches.get_one::<f64>("seconds").unwrap_or(0.3);
    Ok(Options {
        workload: workload_in(&matches),
        readers: number_in(&matches, "readers"),
        writers: number_in(&matches, "writers"),
        keys: number_in(&matches, "keys"),
        capacity: number_in(&matches, "capacity"),
        time: Duration::try_from_secs_f64(seconds).unwrap_or(Duration::ZERO),
        write_every: number_in(&matches, "write-every"),
        seed: number_in(&matches, "seed"),
        many: number_in(&matches, "many"),
        shards: number_in(&matches, "shards"),
        most_used: number_in(&matches, "most-used"),
        policy: policy_in(&matches),
    })
}

/// The table with the fewest buckets of which `keys` keys fill at most this share, in percent.
fn by_hand(keys: u32, most_used: u32) -> Shape {
    let mut buckets = 2u32;
    for _ in 1..20u32 {
        let room = u64::from(buckets).saturating_mul(4 * u64::from(most_used));
        if room < u64::from(keys) * 100 {
            buckets = buckets.saturating_mul(2);
        }
    }
    Shape {
        buckets,
        items: keys,
        stripes: buckets.min(8192),
        depth: 5,
        tries: 8,
        limit: 1 << 62,
        mix: Mix::Fmix,
    }
}

impl Options {
    /// The number of the first key that no other measurement puts.
    pub(crate) fn fresh(&self) -> u64 {
        u64::from(self.seed % 256) << 32
    }

    /// How many readers the cache is opened with, the passes of writers that take turns among them.
    pub(crate) fn seats(&self) -> u32 {
        if self.writers > 1 {
            self.readers.saturating_add(self.writers)
        } else {
            self.readers.max(1)
        }
    }

    /// The table: as many items as keys, but as many as slots if it is to be filled until a put is refused.
    pub(crate) fn shape(&self) -> io::Result<Shape> {
        let shape = match self.most_used {
            0 => Shape::for_items(self.capacity),
            share => Ok(by_hand(self.capacity, share)),
        };
        let Ok(shape) = shape else {
            return Err(io::Error::other("there is no such shape"));
        };
        Ok(match self.workload {
            Workload::Load => Shape {
                items: shape.buckets.saturating_mul(4),
                ..shape
            },
            _ => shape,
        })
    }
}
