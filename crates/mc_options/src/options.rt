//! The options of `mcstep` and `mctrace`.
ghost use Rattle.std.specs.Prelude.{◌≡◌, ◌⊎◌, false, IfOk, MatchResult, codes, map, option_and_then};
ghost use Rattle.std.specs.Result.{result_ok};
ghost use Rattle.clap.specs.Words.{app_of, first_of, found_of, kind_of, rows_of, rule_of};
ghost use Rattle.mc_words.specs.declared.shape.Shape.{Shape};
ghost use Rattle.mc_options.specs.Inside.OptionRows.{row_rule, step_rules, shared_rules};
ghost use Rattle.mc_options.specs.Options.{AreMixes, MixNames, Reads, Says, SaysShape, mix_in, whole_command, named_command, number_in, with_rules, words_rule};

use clap::builder::ValueParser;
use clap::error::ErrorKind;
use clap::{Arg, ArgMatches, Command, Error, value_parser};
use mc_script::are_digits;
use mc_words::{Mix, Shape};
use std::alloc::{AllocError, Global};
use std::convert::AsStr;

/// What the command line asks for.
#[derive(Clone, Copy)]
pub struct Options {
    pub shape: Shape,
    pub readers: u32,
    /// Words of a value: 1 or 2.
    pub words: u8,
}

/// What a program says of itself.
#[derive(Clone, Copy)]
pub struct Program<'a> {
    pub name: &'a str,
    /// What it does.
    pub about: &'a str,
    /// The end of the help's example: the command that takes the script, and what it writes.
    pub example: &'a str,
}

pub(crate) const VERSION: &str = "0.3.0";

/// What the help says of scripts, after the options and before the example's command.
const SCRIPTS: &str = "\
Commands of a script, one a line:
  put K V..            Puts key K with its value, as many numbers as --words says
  putif K M V..        Puts key K again, if its last put was at moment M
  remove K             Removes key K
  get K                Looks key K up
  stamp K              Looks key K up, and tells the moment of its last put
  begin put K V..      Begins a put, whose acts are made by w
  begin putif K M V..  Begins a put on that condition, whose acts are made by w
  begin remove K       Begins a removal, whose acts are made by w
  w [N]                Makes the next act of the writer's call, or the next N
  begin R get K        Begins a lookup by reader R, counted from 0, whose accesses are made by r
  r R [N]              Makes the next access of reader R's lookup, or the next N
  reopen B C           Opens a world with B buckets and C items, and puts the entries into it

Numbers are decimal. A line whose first word begins with # is a comment.

Example: a put falls between a reader's accesses, so the reader looks again.
  printf 'begin 0 get 0\\nr 0\\nput 0 7\\nr 0 14\\n' | ";

/// The most that a `u32` can be.
pub(crate) const MOST_SIZE: u64 = 4_294_967_295;

/// The most that a `u8` can be.
const MOST_BOUND: u64 = 255;

/// An option with one value.
#[derive(Clone, Copy)]
pub(crate) struct OptionRow<'a> {
    pub(crate) name: &'a str,
    pub(crate) takes: ValueParser<'a>,
    pub(crate) default: &'a str,
    pub(crate) help: &'a str,
}

fn option<'a>(alloc: Global, row: &OptionRow<'a>) -> Arg<'a>
    ensures rule { rule_of result ≡ row_rule row.now }
    ensures local { result.global ≡ false }
{
    Arg::new(alloc, row.name)
        .long(row.name)
        .value_parser(row.takes)
        .default_value(row.default)
        .help(row.help)
}

/// The command with these options after its own.
pub(crate) fn with_options<'a>(
    alloc: Global,
    mut command: Command<'a>,
    rows: &[OptionRow<'a>],
) -> Result<Command<'a>, AllocError>
    ensures { IfOk result (λ c. app_of c ≡ with_rules (app_of command.entry) (map row_rule rows.now)) }
{
    'rows: for row in rows {
        command = command.arg(option(alloc, row))?;
    }
    Ok(command)
}

/// The defaults of the options that both programs have.
#[derive(Clone, Copy)]
pub(crate) struct Defaults<'a> {
    pub(crate) buckets: &'a str,
    pub(crate) items: &'a str,
    pub(crate) stripes: &'a str,
    pub(crate) depth: &'a str,
    pub(crate) tries: &'a str,
    pub(crate) mix: &'a str,
    pub(crate) readers: &'a str,
}

/// The options that both programs have, in the order of their help, with these defaults. What the limit counts is the program's to say.
pub(crate) fn shared_rows<'a>(defaults: Defaults<'a>, limit: &'a str) -> [OptionRow<'a>; 8]
    ensures { (mixes : MixNames) × AreMixes mixes × (map row_rule result ≡ shared_rules mixes defaults.entry) }
{
    let size = value_parser!(u32);
    let byte = value_parser!(u8);
    let names = ["plain", "fmix"].as_slice();
    [
        OptionRow {
            name: "buckets",
            takes: size,
            default: defaults.buckets,
            help: "Buckets of four slots, a power of two from 2 to 1048576",
        },
        OptionRow {
            name: "items",
            takes: size,
            default: defaults.items,
            help: "The most keys, from 1 to four times the buckets",
        },
        OptionRow {
            name: "stripes",
            takes: size,
            default: defaults.stripes,
            help: "Version counters, a power of two from 1 to 65536",
        },
        OptionRow {
            name: "depth",
            takes: byte,
            default: defaults.depth,
            help: "The most keys that a put moves, from 0 to 8",
        },
        OptionRow {
            name: "tries",
            takes: byte,
            default: defaults.tries,
            help: "Tries of a lookup, from 1 to 64",
        },
        OptionRow {
            name: "limit",
            takes: value_parser!(u64),
            default: "4611686018427387904",
            help: limit,
        },
        OptionRow {
            name: "mix",
            takes: ValueParser::Names(names),
            default: defaults.mix,
            help: "How keys are mixed: not at all, or by MurmurHash3's finalizer",
        },
        OptionRow {
            name: "readers",
            takes: size,
            default: defaults.readers,
            help: "Readers, from 1 to 1024",
        },
    ]
}

/// The options that `mcload` has too.
fn step_rows<'a>() -> [OptionRow<'a>; 8]
    ensures { (mixes : MixNames) × AreMixes mixes × (map row_rule result ≡ step_rules mixes) }
{
    let defaults = Defaults {
        buckets: "4",
        items: "16",
        stripes: "1",
        depth: "2",
        tries: "2",
        mix: "plain",
        readers: "2",
    };
    shared_rows(
        defaults,
        "The most changes of key versions in a script, from 0 to 2^62",
    )
}

/// The option that `mcload` doesn't have.
fn words_row<'a>() -> OptionRow<'a>
    ensures { row_rule result ≡ words_rule }
{
    OptionRow {
        name: "words",
        takes: ValueParser::Signed(1, 2),
        default: "1",
        help: "Words of a value, 1 or 2",
    }
}

/// What the help says after the options.
fn help_of(alloc: Global, program: &Program<'_>) -> Result<String, AllocError> {
    let example = program.example;
    format!(in alloc; "{SCRIPTS}{example}")
}

/// The command without its options.
fn named<'a>(alloc: Global, program: Program<'a>, help: &'a str) -> Command<'a>
    ensures { app_of result ≡ named_command program.entry.name.now }
{
    Command::new(alloc, program.name)
        .version(VERSION)
        .about(program.about)
        .after_help(help)
}

fn command<'a>(
    alloc: Global,
    program: Program<'a>,
    help: &'a str,
) -> Result<Command<'a>, AllocError>
    ensures { IfOk result (λ c. (mixes : MixNames) × AreMixes mixes × (app_of c ≡ whole_command program.entry.name.now mixes)) }
{
    let rows = step_rows();
    let command = with_options(alloc, named(alloc, program, help), rows.as_slice())?;
    command.arg(option(alloc, &words_row()))
}

/// The number that a text of decimal digits says, if it is between the bounds.
fn number_in(text: &str, least: u64, most: u64) -> Option<u64>
    ensures { result ≡ number_in least most text.now }
{
    if text.is_empty() || !are_digits(text.as_bytes()) {
        return None;
    }
    match text.parse::<u64>() {
        Ok(value) => {
            if least <= value && value <= most {
                Some(value)
            } else {
                None
            }
        }
        Err(_) => None,
    }
}

fn mix_in(text: &str) -> Option<Mix>
    ensures { result ≡ mix_in text.now }
{
    if text == "fmix" {
        Some(Mix::Fmix)
    } else if text == "plain" {
        Some(Mix::Plain)
    } else {
        None
    }
}

/// The number that an option says, or the name of the option if it says none.
pub(crate) fn number<'a>(
    matches: &ArgMatches,
    name: &'a str,
    least: u64,
    most: u64,
) -> Result<u64, &'a str>
    ensures { result_ok result ≡ option_and_then (number_in least most) (first_of name.now (rows_of (found_of matches.now))) }
{
    match matches.get_str(name) {
        Some(text) => number_in(text, least, most).ok_or(name),
        None => Err(name),
    }
}

fn mix(matches: &ArgMatches) -> Result<Mix, &'static str>
    ensures { result_ok result ≡ option_and_then mix_in (first_of (codes "mix") (rows_of (found_of matches.now))) }
{
    match matches.get_str("mix") {
        Some(text) => mix_in(text).ok_or("mix"),
        None => Err("mix"),
    }
}

/// The shape that the matches say, or the name of the first option that says nothing.
pub(crate) fn shape_in(matches: &ArgMatches) -> Result<Shape, &'static str>
    ensures { MatchResult result (SaysShape (rows_of (found_of matches.now))) (λ name. (sh : Shape) → SaysShape (rows_of (found_of matches.now)) sh → ⊥) }
{
    let buckets = number(matches, "buckets", 0, MOST_SIZE)?;
    let items = number(matches, "items", 0, MOST_SIZE)?;
    let stripes = number(matches, "stripes", 0, MOST_SIZE)?;
    let depth = number(matches, "depth", 0, MOST_BOUND)?;
    let tries = number(matches, "tries", 0, MOST_BOUND)?;
    let limit = number(matches, "limit", 0, u64::MAX)?;
    let mix = mix(matches)?;
    Ok(Shape {
        buckets: buckets as u32,
        items: items as u32,
        stripes: stripes as u32,
        depth: depth as u8,
        tries: tries as u8,
        limit,
        mix,
    })
}

/// The options that the matches say, or the name of the first that says nothing.
fn options_in(matches: &ArgMatches) -> Result<Options, &'static str>
    ensures { MatchResult result (Says (rows_of (found_of matches.now))) (λ name. (o : Options) → Says (rows_of (found_of matches.now)) o → ⊥) }
{
    let shape = match shape_in(matches) {
        Ok(shape) => shape,
        Err(name) => return Err(name),
    };
    let readers = number(matches, "readers", 0, MOST_SIZE)?;
    let words = number(matches, "words", 1, 2)?;
    Ok(Options {
        shape,
        readers: readers as u32,
        words: words as u8,
    })
}

/// The fault of a number that has more than digits, as a sign.
fn digits_only(
    alloc: Global,
    command: &mut Command<'_>,
    name: &str,
    text: &str,
) -> Result<Error, AllocError>
    ensures { IfOk result (λ e. kind_of e ≡ ErrorKind.ValueValidation) }
{
    let message = format!(in alloc; "invalid value '{text}' for '--{name} <{name}>': digits only")?;
    command.error(ErrorKind::ValueValidation, message.as_str())
}

/// Why what an option says is refused: `clap` has reported all faults but those of digits.
pub(crate) fn refusal(
    alloc: Global,
    command: &mut Command<'_>,
    matches: &ArgMatches,
    name: &str,
) -> Error
    ensures { (kind_of result ≡ ErrorKind.OutOfMemory) ⊎ (kind_of result ≡ ErrorKind.ValueValidation) }
{
    let text = matches.get_str(name).unwrap_or("");
    match digits_only(alloc, command, name, text) {
        Ok(error) => error,
        Err(short) => Error::from(short),
    }
}

/// The options of the words, the program's own name first.
pub fn options_of<S: AsStr>(
    alloc: Global,
    program: Program<'_>,
    words: &[S],
) -> Result<Options, Error>
    ensures { Reads program.entry.name.now (map S.text words.now) result }
{
    let help = help_of(alloc, &program)?;
    let mut command = command(alloc, program, help.as_str())?;
    let matches = match command.try_get_matches_from_mut(words) {
        Ok(matches) => matches,
        Err(error) => return Err(error),
    };
    match options_in(&matches) {
        Ok(options) => Ok(options),
        Err(name) => Err(refusal(alloc, &mut command, &matches, name)),
    }
}
