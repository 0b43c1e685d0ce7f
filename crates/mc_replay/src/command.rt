//! What a command does, and the lines of its answers.
ghost use Rattle.std.specs.Prelude.{◌≡◌, OnOk, OnErr, Err, false, is_some, string_bytes, None};
ghost use Rattle.mc_plan.specs.Clerks.{next_act};
ghost use Rattle.mc_replay.specs.Replay.{ActsDo, BeginDoes, CallDoes, Does, GetDoes};
ghost use Rattle.mc_replay.specs.Texts.{reply_line, stamp_line};
ghost use Rattle.mc_replay.specs.Inside.Reopenings.{CommandDoneBy, sizes_of};
ghost use Rattle.mc_replay.specs.Inside.Players.{ActsOnce, CanAct, CanDo, DoesBy, call_of};
ghost use Rattle.mc_replay.specs.declared.fault.Fault.TheVariants.{NoMemory};

use crate::fault::Fault;
use crate::lines::{AnswerLine, ReplyLine, StampLine};
use crate::player::{Call, Player};
use crate::reading::{begin_get, reads};
use crate::reopening::reopen;
use crate::text::add_line;
use crate::watch::Watch;
use mc_script::Command;
use std::alloc::Global;

/// A whole call.
fn whole<const V: usize, O: Watch<V>>(
    player: &mut Player<V>,
    text: &mut String,
    call: Call<V>,
    watch: &mut O,
) -> Result<(), Fault>
    requires can { CanDo V player.old (string_bytes text.old) }
    requires idle { is_some (next_act player.old.clerk) ≡ false }
    ensures { DoesBy V player.old player.new (string_bytes text.new) result (λ sh s. CallDoes sh s (call_of call.entry)) }
{
    let answer = player.whole(call, watch)?;
    add_line(text, &AnswerLine(answer))
}

/// Begins a call, which is answered at once if it needs no act.
fn begin<const V: usize>(
    player: &mut Player<V>,
    text: &mut String,
    call: Call<V>,
) -> Result<(), Fault>
    requires can { CanDo V player.old (string_bytes text.old) }
    requires idle { is_some (next_act player.old.clerk) ≡ false }
    ensures { DoesBy V player.old player.new (string_bytes text.new) result (λ sh s. BeginDoes sh s (call_of call.entry)) }
{
    match player.begin(call) {
        Some(answer) => add_line(text, &AnswerLine(answer)),
        None => Ok(()),
    }
}

/// A whole lookup by the writer.
fn get<const V: usize, O: Watch<V>>(
    player: &mut Player<V>,
    text: &mut String,
    key: u64,
    watch: &mut O,
) -> Result<(), Fault>
    requires can { CanDo V player.old (string_bytes text.old) }
    requires idle { is_some (next_act player.old.clerk) ≡ false }
    ensures { DoesBy V player.old player.new (string_bytes text.new) result (λ sh s. GetDoes sh s key (reply_line {V = V})) }
{
    let reply = player.get(key, watch);
    add_line(text, &ReplyLine(reply))
}

/// A whole lookup by the writer, which reports the moment of the key's last put.
fn stamp<const V: usize, O: Watch<V>>(
    player: &mut Player<V>,
    text: &mut String,
    key: u64,
    watch: &mut O,
) -> Result<(), Fault>
    requires can { CanDo V player.old (string_bytes text.old) }
    requires idle { is_some (next_act player.old.clerk) ≡ false }
    ensures { DoesBy V player.old player.new (string_bytes text.new) result (λ sh s. GetDoes sh s key (stamp_line {V = V})) }
{
    let reply = player.get(key, watch);
    add_line(text, &StampLine(reply))
}

/// Makes an act of the writer's call, and writes the call's answer after its last one.
fn act<const V: usize, O: Watch<V>>(
    player: &mut Player<V>,
    text: &mut String,
    watch: &mut O,
) -> Result<(), Fault>
    requires { CanAct V player.old }
    ensures done { OnOk result (ActsOnce V player.old player.new (string_bytes text.old) (string_bytes text.new)) }
    ensures refused { OnErr result (result ≡ Err NoMemory) }
{
    match player.act(watch)? {
        Some(answer) => add_line(text, &AnswerLine(answer)),
        None => Ok(()),
    }
}

/// Makes `many` acts of the writer's call, up to its last one.
fn acts<const V: usize, O: Watch<V>>(
    player: &mut Player<V>,
    text: &mut String,
    many: u64,
    watch: &mut O,
) -> Result<(), Fault>
    requires { CanDo V player.old (string_bytes text.old) }
    ensures { DoesBy V player.old player.new (string_bytes text.new) result (λ sh s. ActsDo sh many s) }
{
    'acts: for _ in 0..many {
        if !player.is_running() {
            return Err(Fault::NothingToStep);
        }
        act(player, text, watch)?;
    }
    Ok(())
}

/// The buckets and items of a command that opens another world.
fn sizes_of<const V: usize>(command: &Command<V>) -> Option<(u64, u64)>
    ensures { result ≡ sizes_of command.now }
{
    if let Command::Reopen(buckets, items) = command {
        return Some((*buckets, *items));
    }
    None
}

/// Does a command in the world, and puts the lines of its answers into `text`.
fn do_here<const V: usize, O: Watch<V>>(
    player: &mut Player<V>,
    text: &mut String,
    command: Command<V>,
    watch: &mut O,
) -> Result<(), Fault>
    requires can { CanDo V player.old (string_bytes text.old) }
    requires stays { sizes_of command ≡ None }
    ensures { DoesBy V player.old player.new (string_bytes text.new) result (λ sh s. Does sh s command.entry) }
{
    match (command, player.is_running()) {
        (Command::Write(many), _) => acts(player, text, many, watch),
        (Command::BeginGet(reader, key), _) => begin_get(player, reader, key, watch),
        (Command::Read(reader, many), _) => reads(player, text, reader, many, watch),
        (Command::Reopen(_, _), _) => unreachable!(),
        (_, true) => Err(Fault::StillRunning),
        (Command::Put(key, value), false) => whole(player, text, Call::Put(key, value), watch),
        (Command::PutIf(key, since, value), false) => whole(
            player,
            text,
            Call::PutIf(key, since, value),
            watch,
        ),
        (Command::Remove(key), false) => whole(player, text, Call::Remove(key), watch),
        (Command::Get(key), false) => get(player, text, key, watch),
        (Command::Stamp(key), false) => stamp(player, text, key, watch),
        (Command::BeginPut(key, value), false) => begin(player, text, Call::Put(key, value)),
        (Command::BeginPutIf(key, since, value), false) => begin(
            player,
            text,
            Call::PutIf(key, since, value),
        ),
        (Command::BeginRemove(key), false) => begin(player, text, Call::Remove(key)),
    }
}

/// Does a command, and puts the lines of its answers into `text`.
pub(crate) fn do_command<const V: usize, O: Watch<V>>(
    alloc: Global,
    player: &mut Player<V>,
    text: &mut String,
    command: Command<V>,
    watch: &mut O,
) -> Result<(), Fault>
    requires { CanDo V player.old (string_bytes text.old) }
    ensures { CommandDoneBy V player.old player.new (string_bytes text.new) result command.entry }
{
    match sizes_of(&command) {
        Some((buckets, items)) => reopen(alloc, player, text, buckets, items, watch),
        None => do_here(player, text, command, watch),
    }
}
