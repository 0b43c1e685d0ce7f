//! The lines of readers.
ghost use Rattle.std.specs.Prelude.{◌≡◌, ◌<◌, ◌≤◌, ◌++◌, [], Err, OnOk, OnErr, IfOk, IfErr, length, string_bytes};
ghost use Rattle.mc_replay.specs.Replay.{AccessesDo, LookUpDoes, ReadsDo};
ghost use Rattle.mc_replay.specs.Inside.Players.{CanDo, DoesBy};
ghost use Rattle.mc_replay.specs.declared.fault.Fault.TheVariants.{NoMemory, NoSuchReader};
ghost use Rattle.mc_replay.specs.Inside.Texts.{end_text};

use crate::fault::Fault;
use crate::lines::DoneLine;
use crate::player::Player;
use crate::text::add_line;
use crate::watch::Watch;
use mc_core::{Event, Stepped, Unlawful};

/// The reader of this number.
fn reader_of<const V: usize>(player: &Player<V>, reader: u64) -> Result<u32, Fault>
    ensures ok { IfOk result (λ r. (r ≡ reader) × (r < length player.now.world.readers)) }
    ensures err { IfErr result (λ fault. (fault ≡ NoSuchReader) × (length player.now.world.readers ≤ reader)) }
{
    if reader < u64::from(player.world.readers()) {
        Ok(reader as u32)
    } else {
        Err(Fault::NoSuchReader)
    }
}

/// A reader begins a lookup.
pub(crate) fn begin_get<const V: usize, O: Watch<V>>(
    player: &mut Player<V>,
    reader: u64,
    key: u64,
    watch: &mut O,
) -> Result<(), Fault>
    requires { CanDo V player.old [] }
    ensures { DoesBy V player.old player.new [] result (λ sh s. LookUpDoes sh s reader key) }
{
    let reader = reader_of(player, reader)?;
    let event = Event::Begin(reader, key);
    match player.world.step(event) {
        Ok(given) => {
            watch.saw(event, &given);
            Ok(())
        }
        Err(Unlawful::StillRunning) => Err(Fault::StillRunning),
        Err(_) => unreachable!(),
    }
}

/// Adds the line of a lookup that has ended.
fn tell_end<const V: usize>(text: &mut String, given: Stepped<V>) -> Result<(), Fault>
    ensures ok { OnOk result (string_bytes text.new ≡ string_bytes text.old ++ end_text given.entry) }
    ensures err { OnErr result (result ≡ Err NoMemory) }
{
    match given {
        Stepped::Done(done) => add_line(text, &DoneLine(done)),
        Stepped::Nothing | Stepped::Word(_) => Ok(()),
    }
}

/// Makes `many` accesses of a reader, up to the last of its lookup.
fn accesses<const V: usize, O: Watch<V>>(
    player: &mut Player<V>,
    text: &mut String,
    reader: u32,
    many: u64,
    watch: &mut O,
) -> Result<(), Fault>
    requires can { CanDo V player.old (string_bytes text.old) }
    requires reader { reader < length player.old.world.readers }
    ensures { DoesBy V player.old player.new (string_bytes text.new) result (λ sh s. AccessesDo sh many s reader) }
{
    'accesses: for _ in 0..many {
        let given = match player.world.step(Event::Read(reader)) {
            Ok(given) => given,
            Err(Unlawful::NotLawful) => return Err(Fault::NothingToStep),
            Err(_) => unreachable!(),
        };
        watch.saw(Event::Read(reader), &given);
        tell_end(text, given)?;
    }
    Ok(())
}

/// A reader's accesses, if there is such a reader.
pub(crate) fn reads<const V: usize, O: Watch<V>>(
    player: &mut Player<V>,
    text: &mut String,
    reader: u64,
    many: u64,
    watch: &mut O,
) -> Result<(), Fault>
    requires { CanDo V player.old (string_bytes text.old) }
    ensures { DoesBy V player.old player.new (string_bytes text.new) result (λ sh s. ReadsDo sh s reader many) }
{
    let reader = reader_of(player, reader)?;
    accesses(player, text, reader, many, watch)
}
