//! The options of `mcload`.
ghost use Rattle.std.specs.Prelude.{◌≡◌, false, IfOk, MatchResult, map};
ghost use Rattle.clap.specs.Words.{app_of, first_of, found_of, rows_of, rule_of};
ghost use Rattle.mc_options.specs.Inside.OptionRows.{row_rule, shared_load_rules};
ghost use Rattle.mc_options.specs.Options.{AreMixes, MixNames, with_rules};
ghost use Rattle.mc_options.specs.LoadOptions.{AreCommands, ReadsLoad, SaysLoad, command_rule, flag_rule, flags, is_given, load_draws, load_program, mcload_command};

use crate::options::{
    Defaults, MOST_SIZE, OptionRow, VERSION, number, refusal, shape_in, shared_rows, with_options,
};
use clap::builder::ValueParser;
use clap::{Arg, ArgAction, ArgMatches, Command, Error, value_parser};
use mc_words::Shape;
use std::alloc::{AllocError, Global};
use std::convert::AsStr;

/// What the command line of `mcload run` asks for.
#[derive(Clone, Copy)]
pub struct LoadOptions {
    pub shape: Shape,
    pub readers: u32,
    /// Of each reader, at most 2^20.
    pub lookups: u32,
    /// Keys of each call of a reader, from 1 to 64.
    pub many: u32,
    pub shards: u32,
    /// Whether a new key gives way before one that was used again.
    pub scan_resistant: bool,
    pub writers: u32,
    /// Calls of each writer, at most 2^20.
    pub writes: u32,
    pub keys: u64,
    pub seed: u64,
    /// Whether rates and delays are printed too.
    pub histogram: bool,
}

/// The most lookups of a reader, and the most calls of a writer.
const MOST_CALLS: u64 = 1_048_576;

/// The most keys of a reader's call.
const MOST_AT_ONCE: u64 = 64;

/// What the help says of a run, after the options.
const RUNS: &str = "\
One writer and the readers run in threads. The writer puts and removes keys that it draws, one call in eight a removal; each
reader looks up keys that it draws. Then each answer is compared with what the map held at the answer's moment.
Several writers share the cache by turns: each call is tried once, and what another's turn kept from it is counted too. With
several shards each shard has turns of its own, also for one writer, and answers are checked shard by shard.

Example:
  mcload run --readers 2 --keys 1000
writes
  lookups 4000
  writes 2000
  sum ok
  wrong 0";

/// The options of `mcload` that `mcstep` has too.
fn shared_load_rows<'a>() -> [OptionRow<'a>; 8]
    ensures { (mixes : MixNames) × AreMixes mixes × (map row_rule result ≡ shared_load_rules mixes) }
{
    let defaults = Defaults {
        buckets: "1024",
        items: "3072",
        stripes: "8192",
        depth: "5",
        tries: "8",
        mix: "fmix",
        readers: "3",
    };
    shared_rows(defaults, "The most changes of key versions, from 0 to 2^62")
}

/// The other options of `mcload` that have values, in the order of its help.
fn load_rows<'a>() -> [OptionRow<'a>; 7]
    ensures { map row_rule result ≡ load_draws }
{
    let word = value_parser!(u64);
    let calls = ValueParser::Signed(0, 1_048_576);
    [
        OptionRow {
            name: "lookups",
            takes: calls,
            default: "2000",
            help: "Lookups of each reader, from 0 to 1048576",
        },
        OptionRow {
            name: "many",
            takes: ValueParser::Signed(1, 64),
            default: "1",
            help: "Keys that a reader looks up by one call, from 1 to 64, where no turns are taken",
        },
        OptionRow {
            name: "shards",
            takes: ValueParser::Signed(0, 4_294_967_295),
            default: "1",
            help: "Shards, a power of two from 1 to 256; the shape is that of each shard",
        },
        OptionRow {
            name: "writers",
            takes: ValueParser::Signed(0, 4_294_967_295),
            default: "1",
            help: "Writers, from 1 to 8; where there are several, or several shards, they take turns",
        },
        OptionRow {
            name: "writes",
            takes: calls,
            default: "2000",
            help: "Calls of each writer, from 0 to 1048576",
        },
        OptionRow {
            name: "keys",
            takes: word,
            default: "64",
            help: "Keys are drawn from 0 up to this number, which is from 1 to 4294967296",
        },
        OptionRow {
            name: "seed",
            takes: word,
            default: "1",
            help: "The seed of all that is drawn",
        },
    ]
}

/// An option without a value.
fn flag<'a>(alloc: Global, name: &'a str, help: &'a str) -> Arg<'a>
    ensures rule { rule_of result ≡ flag_rule name.now }
    ensures local { result.global ≡ false }
{
    Arg::new(alloc, name)
        .long(name)
        .action(ArgAction::SetTrue)
        .help(help)
}

/// The command with the options without a value after its own.
fn with_flags<'a>(alloc: Global, command: Command<'a>) -> Result<Command<'a>, AllocError>
    ensures { IfOk result (λ c. app_of c ≡ with_rules (app_of command.entry) flags) }
{
    let policy = "A new key gives way before one that was used again, in place of CLOCK";
    let command = command.arg(flag(alloc, "scan-resistant", policy))?;
    let rates =
        "Also prints calls a second, and with one shard how far answers were behind the newest change";
    command.arg(flag(alloc, "histogram", rates))
}

/// The first argument.
fn command_arg<'a>(alloc: Global) -> Arg<'a>
    ensures rule { (commands : MixNames) × AreCommands commands × (rule_of result ≡ command_rule commands) }
    ensures local { result.global ≡ false }
{
    Arg::new(alloc, "command")
        .value_parser(ValueParser::Names(["run"].as_slice()))
        .required(true)
        .help("What to do: run")
}

/// The command without its options.
fn load_named<'a>(alloc: Global) -> Result<Command<'a>, AllocError>
    ensures { IfOk result (λ c. (commands : MixNames) × AreCommands commands × (app_of c ≡ mcload_command commands)) }
{
    Command::new(alloc, "mcload")
        .version(VERSION)
        .about("Runs one writer and several readers in threads, and checks every answer")
        .after_help(RUNS)
        .arg(command_arg(alloc))
}

fn load_command<'a>(alloc: Global) -> Result<Command<'a>, AllocError>
    ensures { IfOk result (λ c. (commands : MixNames) × (mixes : MixNames) × AreCommands commands × AreMixes mixes × (app_of c ≡ load_program commands mixes)) }
{
    let rows = shared_load_rows();
    let command = with_options(alloc, load_named(alloc)?, rows.as_slice())?;
    let rows = load_rows();
    let command = with_options(alloc, command, rows.as_slice())?;
    with_flags(alloc, command)
}

/// Whether an option without a value is given.
fn is_given(matches: &ArgMatches, name: &str) -> bool
    ensures { result ≡ is_given (first_of name.now (rows_of (found_of matches.now))) }
{
    match matches.get_str(name) {
        Some(text) => text == "true",
        None => false,
    }
}

/// The options that the matches say, or the name of the first that says nothing.
fn load_options_in(matches: &ArgMatches) -> Result<LoadOptions, &'static str>
    ensures { MatchResult result (SaysLoad (rows_of (found_of matches.now))) (λ name. (o : LoadOptions) → SaysLoad (rows_of (found_of matches.now)) o → ⊥) }
{
    let shape = match shape_in(matches) {
        Ok(shape) => shape,
        Err(name) => return Err(name),
    };
    let readers = number(matches, "readers", 0, MOST_SIZE)?;
    let lookups = number(matches, "lookups", 0, MOST_CALLS)?;
    let many = number(matches, "many", 1, MOST_AT_ONCE)?;
    let shards = number(matches, "shards", 0, MOST_SIZE)?;
    let writers = number(matches, "writers", 0, MOST_SIZE)?;
    let writes = number(matches, "writes", 0, MOST_CALLS)?;
    let keys = number(matches, "keys", 0, u64::MAX)?;
    let seed = number(matches, "seed", 0, u64::MAX)?;
    Ok(LoadOptions {
        shape,
        readers: readers as u32,
        lookups: lookups as u32,
        many: many as u32,
        shards: shards as u32,
        scan_resistant: is_given(matches, "scan-resistant"),
        writers: writers as u32,
        writes: writes as u32,
        keys,
        seed,
        histogram: is_given(matches, "histogram"),
    })
}

/// The options of the words, the program's own name first.
pub fn load_options_of<S: AsStr>(alloc: Global, words: &[S]) -> Result<LoadOptions, Error>
    ensures { ReadsLoad (map S.text words.now) result }
{
    let mut command = load_command(alloc)?;
    let matches = match command.try_get_matches_from_mut(words) {
        Ok(matches) => matches,
        Err(error) => return Err(error),
    };
    match load_options_in(&matches) {
        Ok(options) => Ok(options),
        Err(name) => Err(refusal(alloc, &mut command, &matches, name)),
    }
}
