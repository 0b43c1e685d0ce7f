//! What a line says.
ghost use Rattle.std.specs.Prelude.{◌≡◌};
ghost use Rattle.std.specs.Str.{is_utf8};
ghost use Rattle.mc_script.specs.Commands.{command_in};
ghost use Rattle.mc_script.specs.Inside.Commands.{form_in};
ghost use Rattle.mc_script.specs.Words.{words_of};

use crate::number::{entry, entry_if, numbers};
use crate::step::{begin, read, write};
use crate::words::{first_word, is_word};
use std::str;
use thiserror::Error;

/// A command of a script whose values have `V` words.
#[derive(Clone, Copy, PartialEq, Eq)]
pub enum Command<const V: usize> {
    Put(u64, [u64; V]),
    /// A `put`, if the moment of the key's last put is this one.
    PutIf(u64, u64, [u64; V]),
    Remove(u64),
    Get(u64),
    /// A `get` that reports the moment of the key's last put.
    Stamp(u64),
    /// A `put` by single acts.
    BeginPut(u64, [u64; V]),
    /// A `putif` by single acts.
    BeginPutIf(u64, u64, [u64; V]),
    /// A `remove` by single acts.
    BeginRemove(u64),
    /// This many acts of the writer, at least one.
    Write(u64),
    /// A reader begins to look up a key.
    BeginGet(u64, u64),
    /// This many accesses of a reader, at least one.
    Read(u64, u64),
    /// The entries are put into another world, with these numbers of buckets and items.
    Reopen(u64, u64),
}

/// Why a line is no command.
#[derive(Clone, Copy, Debug, PartialEq, Eq, Error)]
pub enum LineFault {
    #[error("not a command")]
    NotACommand,
    #[error("bad number")]
    BadNumber,
}

fn is_text(line: &[u8]) -> bool
    ensures { result ≡ is_utf8 line.now }
{
    match str::from_utf8(line) {
        Ok(_) => true,
        Err(_) => false,
    }
}

/// What a line's first word and those that follow it say.
#[tactic(auto, unfolding(crate::specs::Inside::Commands::form_in))]
fn form<const V: usize>(name: &[u8], words: &[u8]) -> Result<Command<V>, LineFault>
    ensures { result ≡ form_in V name.now (words_of words.now) }
{
    if is_word(name, b"put") {
        let (key, value) = entry(words)?;
        return Ok(Command::Put(key, value));
    }
    if is_word(name, b"putif") {
        let (key, since, value) = entry_if(words)?;
        return Ok(Command::PutIf(key, since, value));
    }
    if is_word(name, b"remove") {
        let key = numbers::<1>(words)?;
        return Ok(Command::Remove(key[0]));
    }
    if is_word(name, b"get") {
        let key = numbers::<1>(words)?;
        return Ok(Command::Get(key[0]));
    }
    if is_word(name, b"stamp") {
        let key = numbers::<1>(words)?;
        return Ok(Command::Stamp(key[0]));
    }
    if is_word(name, b"begin") {
        return begin(words);
    }
    if is_word(name, b"w") {
        return write(words);
    }
    if is_word(name, b"r") {
        return read(words);
    }
    if is_word(name, b"reopen") {
        let sizes = numbers::<2>(words)?;
        return Ok(Command::Reopen(sizes[0], sizes[1]));
    }
    Err(LineFault::NotACommand)
}

/// What a line says, or nothing if it has no words or is a comment.
#[tactic(auto, unfolding(crate::specs::Commands::command_by))]
pub fn parse<const V: usize>(line: &[u8]) -> Result<Option<Command<V>>, LineFault>
    ensures { result ≡ command_in V line.now }
{
    match first_word(line) {
        None => Ok(None),
        Some((name, words)) => {
            if name[0] == b'#' {
                return Ok(None);
            }
            if !is_text(line) {
                return Err(LineFault::NotACommand);
            }
            Ok(Some(form(name, words)?))
        }
    }
}
