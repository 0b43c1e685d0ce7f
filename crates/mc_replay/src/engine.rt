//! A script from a reader, and the lines of its answers to a writer.
ghost use Rattle.std.specs.Prelude.{◌≡◌, ℕ, ◌≤◌, ◌<◌, ◌+◌, ◌^◌, true, length, Result, Ok, OnOk, string_bytes};
ghost use Rattle.mc_words.specs.Checks.{shape_of};
ghost use Rattle.mc_words.specs.Places.{IsWidth};
ghost use Rattle.mc_replay.specs.Faults.{as_replay_error};
ghost use Rattle.mc_replay.specs.Replay.{Scene, first_replay};
ghost use Rattle.mc_replay.specs.Scripts.{ReplaysKnown};
ghost use Rattle.mc_words.specs.Readers.{HasReaders};
ghost use Rattle.mc_replay.specs.Inside.Players.{Fits, FitsScene, shape_of_player, most_before};
ghost use Rattle.mc_replay.specs.Inside.Steps.{DoesLine, PlaysKnown, is_wanting};
ghost use Rattle.mc_replay.specs.declared.fault.Stop.{Stop};

use crate::command::do_command;
use crate::fault::{Fault, ReplayError, Stop};
use crate::player::Player;
use crate::watch::{Nobody, Watch};
use mc_script::{Line, ReadFault, parse, read_line, send};
use mc_words::Checked;
use std::alloc::Global;
use std::io::{BufRead, Write};

/// The most lines of a script.
const MOST_LINES: u64 = 1 << 40;

/// Does what a line says, and puts the lines of its answers into `text`.
fn do_line<const V: usize, O: Watch<V>>(
    alloc: Global,
    player: &mut Player<V>,
    text: &mut String,
    before: u64,
    line: &[u8],
    watch: &mut O,
) -> Result<(), Fault>
    requires fits { (s : Scene V) × FitsScene V player.old (most_before before) s }
    requires short { length line.now ≤ 4096 }
    ensures does { (s : Scene V) → FitsScene V player.old (most_before before) s → (t : Scene V) ×
        DoesLine V before s line.now (string_bytes text.new) t result ×
        OnOk result (FitsScene V player.new (most_before (before + 1)) t) }
    ensures few { OnOk result (before < 2 ^ 40) }
{
    text.clear();
    if before >= MOST_LINES {
        return Err(Fault::TooLong);
    }
    match parse(line) {
        Err(fault) => Err(Fault::of_line(fault)),
        Ok(None) => Ok(()),
        Ok(Some(command)) => do_command(alloc, player, text, command, watch),
    }
}

/// Whether memory ran out.
fn is_wanting(done: Result<(), Fault>) -> bool
    ensures { result ≡ is_wanting done }
{
    match done {
        Err(Fault::NoMemory) => true,
        _ => false,
    }
}

/// Reads the next line, does it and writes its answers: `false` if there is none.
fn play_line<const V: usize, R: BufRead, W: Write, O: Watch<V>>(
    alloc: Global,
    player: &mut Player<V>,
    text: &mut String,
    before: u64,
    input: &mut R,
    output: &mut W,
    watch: &mut O,
) -> Result<bool, Fault>
    requires { (s : Scene V) × FitsScene V player.old (most_before before) s }
    ensures plays { (s : Scene V) → FitsScene V player.old (most_before before) s → (t : Scene V) ×
        PlaysKnown V before s t (R.remaining input.old) (R.remaining input.new)
        (W.contents output.old) (W.contents output.new) result ×
        (result ≡ Ok true → FitsScene V player.new (most_before (before + 1)) t) }
    ensures few { result ≡ Ok true → before < 2 ^ 40 }
{
    let mut line = Line::new();
    match read_line(input, &mut line) {
        Err(ReadFault::ReadFailed) => return Err(Fault::ReadFailed),
        Err(ReadFault::TooLong) => return Err(Fault::TooLong),
        Ok(false) => return Ok(false),
        Ok(true) => {}
    }
    let done = do_line(alloc, player, text, before, line.as_slice(), watch);
    if is_wanting(done) {
        return Err(Fault::NoMemory);
    }
    let (_, is_whole) = send(output, text.as_bytes());
    if !is_whole {
        return Err(Fault::WriteFailed);
    }
    done?;
    Ok(true)
}

/// Plays the lines one after the other, up to the first that is refused.
fn play_lines<const V: usize, R: BufRead, W: Write, O: Watch<V>>(
    alloc: Global,
    player: &mut Player<V>,
    input: &mut R,
    output: &mut W,
    watch: &mut O,
) -> Result<(), Stop>
    requires { (readers : ℕ) × HasReaders readers × Fits V player.old 0 (first_replay V (shape_of_player player.old) readers) }
    ensures { (readers : ℕ) → HasReaders readers →
        Fits V player.old 0 (first_replay V (shape_of_player player.old) readers) →
        ReplaysKnown V (shape_of_player player.old) readers (R.remaining input.old) (R.remaining input.new)
        (W.contents output.old) (W.contents output.new) result }
{
    let mut text = String::new(alloc);
    'lines: for before in 0..u64::MAX {
        match play_line(alloc, player, &mut text, before, input, output, watch) {
            Ok(true) => {}
            Ok(false) => {
                watch.ended(&player.world);
                return Ok(());
            }
            Err(fault) => {
                let line = before + 1;
                return Err(Stop { line, fault });
            }
        }
    }
    unreachable!()
}

/// Replays the script that is left to read, with a watcher. Condition: a value has from 1 to 8 words.
pub fn play_watched<const V: usize, R: BufRead, W: Write, O: Watch<V>>(
    alloc: Global,
    checked: &Checked,
    readers: u32,
    input: &mut R,
    output: &mut W,
    watch: &mut O,
) -> Result<(), Stop>
    requires { IsWidth V }
    ensures { ReplaysKnown V (shape_of checked.now) readers (R.remaining input.old) (R.remaining input.new)
        (W.contents output.old) (W.contents output.new) result }
{
    match Player::<V>::new(alloc, checked, readers) {
        Ok(mut player) => {
            watch.opened(&player.world);
            play_lines(alloc, &mut player, input, output, watch)
        }
        Err(fault) => Err(Stop { line: 0, fault }),
    }
}

/// Replays the script that is left to read. Condition: a value has from 1 to 8 words.
pub fn play<const V: usize, R: BufRead, W: Write>(
    alloc: Global,
    checked: &Checked,
    readers: u32,
    input: &mut R,
    output: &mut W,
) -> Result<(), Stop>
    requires { IsWidth V }
    ensures { ReplaysKnown V (shape_of checked.now) readers (R.remaining input.old) (R.remaining input.new)
        (W.contents output.old) (W.contents output.new) result }
{
    play_watched::<V, R, W, Nobody>(alloc, checked, readers, input, output, &mut Nobody)
}

/// Replays the script that is left to read, and writes the lines of its answers.
///
/// The readers are numbered from 0, and there are from 1 to 1024 of them. The line of a call by single steps comes after
/// exactly its last act: once its acts are a whole call, they are the beginning of no other.
/// Condition: a value has from 1 to 8 words.
pub fn replay<const V: usize, R: BufRead, W: Write>(
    alloc: Global,
    checked: &Checked,
    readers: u32,
    input: &mut R,
    output: &mut W,
) -> Result<(), ReplayError>
    requires { IsWidth V }
    ensures { (r : Result (Unit {0}) Stop) ×
        ReplaysKnown V (shape_of checked.now) readers (R.remaining input.old) (R.remaining input.new)
        (W.contents output.old) (W.contents output.new) r × (result ≡ as_replay_error r) }
{
    match play::<V, R, W>(alloc, checked, readers, input, output) {
        Ok(()) => Ok(()),
        Err(stop) => Err(ReplayError {
            line: stop.line,
            number: stop.fault.number(),
        }),
    }
}
