//! The whole program `mcload`, over any streams.
ghost use Rattle.std.specs.Prelude.{◌≡◌, ◌++◌, IfSome, MatchResult, codes, false, if◌then◌else◌, map, true};
ghost use Rattle.std.specs.Bool.{Decides};
ghost use Rattle.mc_options.specs.Streams.{Tells, stream};
ghost use Rattle.mc_words.specs.declared.policy.Policy.TheVariants.{Clock, ScanResistant};
ghost use Rattle.mc_load.specs.Loads.{MayAskAtOnce};
ghost use Rattle.mc_load.specs.LoadPrograms.{IsAlone, Loads, RunsLoad, WritesLines, load_of, load_status, load_text};
ghost use Rattle.mc_load.specs.ShardLoads.{RefusesTurns, RunsTurns};
ghost use Rattle.mc_load.specs.Inside.Histograms.{AppendsSome};
ghost use Rattle.mc_load.specs.Told.{text_of};

use crate::asked::Load;
use crate::error::LoadError;
use crate::gate::Gate;
use crate::histogram::histogram;
use crate::load_told::{Lines, LoadRefusal};
use crate::meter::Meter;
use crate::turns::{MOST_WRITERS, Turns, TurnsRun};
use crate::turns_load::{run_desk, run_shards};
use crate::work::load_many;
use mc_cache::OpenError;
use mc_options::{FAILED, LoadOptions, REFUSED, load_options_of, tell, tell_fault};
use mc_script::send;
use mc_words::{MOST_READERS, Policy};
use std::alloc::Global;
use std::convert::AsStr;
use std::fmt::{InlineText, Write as _};
use std::io::Write;
use std::thread::Threads;
use std::time::Clock;

/// The most bytes of a report.
const ROOM: usize = 128;

/// Writes the lines of a report. Returns 3 if a write failed.
fn write_report<W: Write>(output: &mut W, told: Lines) -> u8
    ensures { WritesLines false (stream (W.contents output.old) (W.contents output.new)) (text_of told) result }
{
    let mut lines = InlineText::<ROOM>::new();
    if writeln!(lines, "{told}").is_err() {
        return FAILED;
    }
    let (_, all) = send(output, lines.as_str().as_bytes());
    if all { 0 } else { FAILED }
}

/// Writes what the meter shows. Returns 3 if a write failed, or there was no room for the text.
fn write_histogram<W: Write, C>(
    alloc: Global,
    output: &mut W,
    meter: &Meter<'_, C>,
    turns: &[Turns],
    shards: u32,
) -> u8
    ensures { AppendsSome (stream (W.contents output.old) (W.contents output.new)) result }
{
    let Ok(text) = histogram(alloc, meter, turns, shards) else {
        return FAILED;
    };
    let (_, all) = send(output, text.as_bytes());
    if all { 0 } else { FAILED }
}

/// Writes the lines of a report, and then what the meter shows, if there is one.
fn write_told<W: Write, C>(
    alloc: Global,
    output: &mut W,
    told: Lines,
    meter: &Option<Meter<'_, C>>,
    turns: &[Turns],
    options: LoadOptions,
) -> u8
    requires meter { IfSome meter.now (λ _. options.histogram ≡ true) }
    ensures { WritesLines options.histogram (stream (W.contents output.old) (W.contents output.new)) (text_of told) result }
{
    let status = write_report(output, told);
    if status != 0 {
        return status;
    }
    match meter {
        Some(meter) => write_histogram(alloc, output, meter, turns, options.shards),
        None => status,
    }
}

/// The exit status of a load that is refused.
fn status_of(why: LoadError) -> u8
    ensures { result ≡ load_status why }
{
    match why {
        LoadError::Writers
        | LoadError::Shards
        | LoadError::Keys
        | LoadError::Open(OpenError::Shape(_) | OpenError::Readers) => REFUSED,
        LoadError::NoMemory | LoadError::Open(OpenError::NoMemory) | LoadError::Gate { .. } => {
            FAILED
        }
    }
}

/// The load that the options ask for.
fn load_for(options: LoadOptions) -> Load
    ensures { result ≡ load_of options }
{
    let LoadOptions {
        shape,
        readers,
        lookups,
        writes,
        keys,
        seed,
        ..
    } = options;
    Load {
        shape,
        readers,
        lookups,
        writes,
        keys,
        seed,
    }
}

/// The policy that the options ask for.
fn policy_for(options: LoadOptions) -> Policy
    ensures { result ≡ (if options.scan_resistant then ScanResistant else Clock) }
{
    if options.scan_resistant {
        Policy::ScanResistant
    } else {
        Policy::Clock
    }
}

/// Prints why there is no report.
fn refuse<E: Write>(errors: &mut E, why: LoadError) -> u8
    ensures told { Tells (stream (E.contents errors.old) (E.contents errors.new)) (codes "refused: " ++ load_text why) }
    ensures status { result ≡ load_status why }
{
    tell(errors, LoadRefusal(why));
    status_of(why)
}

/// Whether one writer has one cache for itself.
fn is_alone(options: LoadOptions) -> bool
    ensures { Decides result (IsAlone options) }
{
    options.writers == 1 && options.shards == 1
}

/// The meter that the options ask for, if there is memory for it.
fn meter_for<'c, R: Clock>(
    alloc: Global,
    clock: &'c R,
    options: LoadOptions,
) -> Option<Meter<'c, R>>
    ensures { IfSome result (λ _. options.histogram ≡ true) }
{
    if !options.histogram {
        return None;
    }
    let readers = options.readers.min(MOST_READERS);
    let writers = options.writers.min(MOST_WRITERS as u32);
    Meter::new(alloc, clock, readers, writers).ok()
}

/// Runs a load with one writer, and writes its report.
fn run_alone<R: Threads + Sync + Clock, W: Write, E: Write>(
    rt: &R,
    alloc: Global,
    options: LoadOptions,
    meter: &Option<Meter<'_, R>>,
    output: &mut W,
    errors: &mut E,
) -> u8
    requires alone { IsAlone options }
    requires many { MayAskAtOnce options.many }
    requires meter { IfSome meter.now (λ _. options.histogram ≡ true) }
    ensures { RunsLoad options (stream (W.contents output.old) (W.contents output.new)) (stream (E.contents errors.old) (E.contents errors.new)) result }
{
    match load_many::<4, R, Option<Meter<'_, R>>>(
        rt,
        alloc,
        policy_for(options),
        load_for(options),
        meter,
        options.many,
    ) {
        Ok(report) => write_told(alloc, output, Lines::of(report), meter, &[], options),
        Err(why) => refuse(errors, why),
    }
}

/// Runs a load whose writers take turns, at the desk of one cache or at those of shards.
fn turns_for<R: Threads + Sync, G: Gate>(
    rt: &R,
    alloc: Global,
    options: LoadOptions,
    gate: &G,
) -> Result<TurnsRun, LoadError>
    ensures { MatchResult result (RunsTurns 4 (load_of options) options.shards options.writers)
        (RefusesTurns (G.may_refuse gate.now) (load_of options) options.shards options.writers) }
{
    let LoadOptions {
        shards,
        writers,
        ..
    } = options;
    let policy = policy_for(options);
    let load = load_for(options);
    if shards == 1 {
        run_desk::<4, R, G>(rt, alloc, policy, load, writers, gate)
    } else {
        run_shards::<4, R, G>(rt, alloc, policy, load, shards, writers, gate)
    }
}

/// Runs a load whose writers take turns, and writes its report.
fn run_turns<R: Threads + Sync + Clock, W: Write, E: Write>(
    rt: &R,
    alloc: Global,
    options: LoadOptions,
    meter: &Option<Meter<'_, R>>,
    output: &mut W,
    errors: &mut E,
) -> u8
    requires several { ¬ IsAlone options }
    requires meter { IfSome meter.now (λ _. options.histogram ≡ true) }
    ensures { RunsLoad options (stream (W.contents output.old) (W.contents output.new)) (stream (E.contents errors.old) (E.contents errors.new)) result }
{
    match turns_for(rt, alloc, options, meter) {
        Ok(run) => {
            let told = Lines::of_turns(run.report);
            write_told(alloc, output, told, meter, &run.turns, options)
        }
        Err(why) => refuse(errors, why),
    }
}

/// Runs what the options ask for.
fn run_for<R: Threads + Sync + Clock, W: Write, E: Write>(
    rt: &R,
    alloc: Global,
    options: LoadOptions,
    output: &mut W,
    errors: &mut E,
) -> u8
    requires many { MayAskAtOnce options.many }
    ensures { RunsLoad options (stream (W.contents output.old) (W.contents output.new)) (stream (E.contents errors.old) (E.contents errors.new)) result }
{
    let meter = meter_for(alloc, rt, options);
    if is_alone(options) {
        run_alone(rt, alloc, options, &meter, output, errors)
    } else {
        run_turns(rt, alloc, options, &meter, output, errors)
    }
}

/// The whole program `mcload`: the words of the command line, its own name first, and its two streams.
///
/// Returns the exit status: 0 if the report is written; 2 if an option, the shape, the readers or the keys are refused; 3 if there is no
/// memory or a write failed. Without memory to measure, `--histogram` adds nothing. The texts of help and version, and of a fault of the
/// words, are `clap`'s.
pub fn run_load<S: AsStr, R: Threads + Sync + Clock, W: Write, E: Write>(
    rt: &R,
    alloc: Global,
    words: &[S],
    output: &mut W,
    errors: &mut E,
) -> u8
    ensures { Loads (map S.text words.now) (stream (W.contents output.old) (W.contents output.new))
        (stream (E.contents errors.old) (E.contents errors.new)) result }
{
    let options = match load_options_of(alloc, words) {
        Ok(options) => options,
        Err(error) => return tell_fault(error, output, errors),
    };
    run_for(rt, alloc, options, output, errors)
}
