//! The lines of a log.
use mc_check::Record;
use mc_words::{Change, Reply};
use std::str::SplitWhitespace;

/// What a line says.
#[derive(Drop)]
pub enum Said<const V: usize> {
    /// How many words a value has.
    Width(u64),
    /// The change that is the first, second, .. of the map.
    Change(u64, Change<V>),
    Answer(Record<V>),
    /// The line has no word.
    Nothing,
}

fn number(words: &mut SplitWhitespace<'_>) -> Option<u64> {
    words.next()?.parse::<u64>().ok()
}

fn value<const V: usize>(words: &mut SplitWhitespace<'_>) -> Option<[u64; V]> {
    let mut value = [0; V];
    for i in 0..V {
        value[i] = number(words)?;
    }
    Some(value)
}

fn put<const V: usize>(words: &mut SplitWhitespace<'_>) -> Option<Said<V>> {
    let at = number(words)?;
    let key = number(words)?;
    Some(Said::Change(at, Change::Put(key, value(words)?)))
}

fn found<const V: usize>(words: &mut SplitWhitespace<'_>) -> Option<Said<V>> {
    let at = number(words)?;
    let since = number(words)?;
    let key = number(words)?;
    let value = value(words)?;
    Some(answer(key, Reply::Found { value, at, since }))
}

fn answer<const V: usize>(key: u64, reply: Reply<V>) -> Said<V> {
    Said::Answer(Record {
        reader: 0,
        key,
        reply,
    })
}

/// What a line says that has this name and these words after it.
fn said_by<const V: usize>(name: &str, words: &mut SplitWhitespace<'_>) -> Option<Said<V>> {
    match name {
        "words" => Some(Said::Width(number(words)?)),
        "put" => put(words),
        "remove" => {
            let at = number(words)?;
            Some(Said::Change(at, Change::Remove(number(words)?)))
        }
        "evict" => {
            let at = number(words)?;
            Some(Said::Change(at, Change::Evict(number(words)?)))
        }
        "found" => found(words),
        "absent" => {
            let at = number(words)?;
            Some(answer(number(words)?, Reply::Absent { at }))
        }
        _ => None,
    }
}

/// What the line says, or nothing if it is no line of a log.
pub fn parse<const V: usize>(line: &str) -> Option<Said<V>> {
    let mut words = line.split_whitespace();
    let Some(name) = words.next() else {
        return Some(Said::Nothing);
    };
    let said = said_by(name, &mut words)?;
    if words.next().is_some() {
        return None;
    }
    Some(said)
}
