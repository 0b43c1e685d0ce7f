//! The lines of single steps.
ghost use Rattle.std.specs.Prelude.{◌≡◌, ◌<◌};
ghost use Rattle.mc_script.specs.Inside.Commands.{begin_in, begin_put_in, begin_put_if_in, begin_remove_in, begin_get_in, write_in, write_one_in, write_many_in, read_in, read_one_in, read_many_in, otherwise, stepping};
ghost use Rattle.mc_script.specs.Inside.Numbers.{numbers_in};
ghost use Rattle.mc_script.specs.Words.{words_of};

use crate::command::{Command, LineFault};
use crate::number::{entry, entry_if, first_and, numbers};
use crate::words::{first_word, is_word};

/// The first of two readings of a line, unless its form isn't that of the line.
fn otherwise<const V: usize>(
    first: Result<Command<V>, LineFault>,
    second: Result<Command<V>, LineFault>,
) -> Result<Command<V>, LineFault>
    ensures { result ≡ otherwise first.entry second.entry }
{
    match first {
        Err(LineFault::NotACommand) => second,
        told => told,
    }
}

/// `put`, a key and the words of its value.
fn begin_put<const V: usize>(first: &[u8], words: &[u8]) -> Result<Command<V>, LineFault>
    ensures { result ≡ begin_put_in V first.now (words_of words.now) }
{
    if !is_word(first, b"put") {
        return Err(LineFault::NotACommand);
    }
    let (key, value) = entry(words)?;
    Ok(Command::BeginPut(key, value))
}

/// `putif`, a key, a moment and the words of a value.
fn begin_put_if<const V: usize>(first: &[u8], words: &[u8]) -> Result<Command<V>, LineFault>
    ensures { result ≡ begin_put_if_in V first.now (words_of words.now) }
{
    if !is_word(first, b"putif") {
        return Err(LineFault::NotACommand);
    }
    let (key, since, value) = entry_if(words)?;
    Ok(Command::BeginPutIf(key, since, value))
}

/// `remove` and a key.
fn begin_remove<const V: usize>(first: &[u8], words: &[u8]) -> Result<Command<V>, LineFault>
    ensures { result ≡ begin_remove_in V first.now (words_of words.now) }
{
    if !is_word(first, b"remove") {
        return Err(LineFault::NotACommand);
    }
    let key = numbers::<1>(words)?;
    Ok(Command::BeginRemove(key[0]))
}

/// A reader, `get` and a key.
fn begin_get<const V: usize>(first: &[u8], words: &[u8]) -> Result<Command<V>, LineFault>
    ensures { result ≡ begin_get_in V first.now (words_of words.now) }
{
    match first_word(words) {
        None => Err(LineFault::NotACommand),
        Some((second, rest)) => {
            if !is_word(second, b"get") {
                return Err(LineFault::NotACommand);
            }
            let (reader, key) = first_and::<1>(first, rest)?;
            Ok(Command::BeginGet(reader, key[0]))
        }
    }
}

/// What follows `begin`.
pub(crate) fn begin<const V: usize>(words: &[u8]) -> Result<Command<V>, LineFault>
    ensures { result ≡ begin_in V (words_of words.now) }
{
    match first_word(words) {
        None => Err(LineFault::NotACommand),
        Some((first, rest)) => otherwise(
            begin_put(first, rest),
            otherwise(
                begin_put_if(first, rest),
                otherwise(begin_remove(first, rest), begin_get(first, rest)),
            ),
        ),
    }
}

/// Exactly `N` numbers, of which the one at `j` isn't 0.
fn stepping<const N: usize>(words: &[u8], j: usize) -> Result<[u64; N], LineFault>
    requires { j < N }
    ensures { result ≡ stepping j (numbers_in N (words_of words.now)) }
{
    let found = numbers::<N>(words)?;
    if found[j] == 0 {
        return Err(LineFault::BadNumber);
    }
    Ok(found)
}

/// One act of the writer.
fn write_one<const V: usize>(words: &[u8]) -> Result<Command<V>, LineFault>
    ensures { result ≡ write_one_in V (words_of words.now) }
{
    let _ = numbers::<0>(words)?;
    Ok(Command::Write(1))
}

/// A number of the writer's acts.
fn write_many<const V: usize>(words: &[u8]) -> Result<Command<V>, LineFault>
    ensures { result ≡ write_many_in V (words_of words.now) }
{
    let found = stepping::<1>(words, 0)?;
    Ok(Command::Write(found[0]))
}

/// What follows `w`.
pub(crate) fn write<const V: usize>(words: &[u8]) -> Result<Command<V>, LineFault>
    ensures { result ≡ write_in V (words_of words.now) }
{
    otherwise(write_one(words), write_many(words))
}

/// A reader, for one access.
fn read_one<const V: usize>(words: &[u8]) -> Result<Command<V>, LineFault>
    ensures { result ≡ read_one_in V (words_of words.now) }
{
    let reader = numbers::<1>(words)?;
    Ok(Command::Read(reader[0], 1))
}

/// A reader, and a number of its accesses.
fn read_many<const V: usize>(words: &[u8]) -> Result<Command<V>, LineFault>
    ensures { result ≡ read_many_in V (words_of words.now) }
{
    let found = stepping::<2>(words, 1)?;
    Ok(Command::Read(found[0], found[1]))
}

/// What follows `r`.
pub(crate) fn read<const V: usize>(words: &[u8]) -> Result<Command<V>, LineFault>
    ensures { result ≡ read_in V (words_of words.now) }
{
    otherwise(read_one(words), read_many(words))
}
