//! The numbers of a line.
ghost use Rattle.std.specs.Prelude.{◌≡◌, ◌<◌, ◌^◌, ◌+◌, ◌∷◌, true, cond, nat_lt, length};
ghost use Rattle.std.specs.List.{list_all};
ghost use Rattle.std.specs.Char.{is_ascii_digit};
ghost use Rattle.std.specs.Str.Parse.{digits_value};
ghost use Rattle.mc_script.specs.Inside.Numbers.{numbers_in, number_of, join_numbers, join_two};
ghost use Rattle.mc_script.specs.Words.{words_of};

use crate::command::LineFault;
use crate::words::first_word;
use std::str;

/// The most digits of a number.
const MOST_DIGITS: usize = 20;

/// Whether the bytes are decimal digits alone.
pub fn are_digits(word: &[u8]) -> bool
    ensures { result ≡ list_all is_ascii_digit word.now }
{
    word.iter().all(|b| b.is_ascii_digit())
}

/// The value of digits, if a `u64` holds it.
fn value(word: &[u8]) -> Option<u64>
    requires digits { list_all is_ascii_digit word.now ≡ true }
    requires some { 0 < length word.now }
    ensures { result ≡ cond (nat_lt (digits_value 10 word.now) (2 ^ 64)) (Some (digits_value 10 word.now)) None }
{
    match str::from_utf8(word) {
        Ok(text) => text.parse::<u64>().ok(),
        Err(_) => None,
    }
}

/// The number that a word is.
pub(crate) fn number(word: &[u8]) -> Option<u64>
    ensures { result ≡ number_of word.now }
{
    if word.is_empty() || word.len() > MOST_DIGITS || !are_digits(word) {
        return None;
    }
    value(word)
}

/// Exactly `N` numbers: a wrong count is reported before a wrong form.
pub(crate) fn numbers<const N: usize>(words: &[u8]) -> Result<[u64; N], LineFault>
    ensures { result ≡ numbers_in N (words_of words.now) }
{
    let mut found = [0; N];
    let mut rest = words;
    let mut are_good = true;
    'words: for i in 0..N {
        match first_word(rest) {
            None => return Err(LineFault::NotACommand),
            Some((word, more)) => {
                match number(word) {
                    Some(value) => found[i] = value,
                    None => are_good = false,
                }
                rest = more;
            }
        }
    }
    if first_word(rest).is_some() {
        return Err(LineFault::NotACommand);
    }
    if !are_good {
        return Err(LineFault::BadNumber);
    }
    Ok(found)
}

/// A first number, and exactly `N` others.
pub(crate) fn first_and<const N: usize>(
    first: &[u8],
    words: &[u8],
) -> Result<(u64, [u64; N]), LineFault>
    ensures { join_numbers result ≡ numbers_in (N + 1) (first.now ∷ words_of words.now) }
{
    let others = numbers(words)?;
    let first = number(first).ok_or(LineFault::BadNumber)?;
    Ok((first, others))
}

/// A key, and the words of its value.
pub(crate) fn entry<const V: usize>(words: &[u8]) -> Result<(u64, [u64; V]), LineFault>
    ensures { join_numbers result ≡ numbers_in (V + 1) (words_of words.now) }
{
    match first_word(words) {
        None => Err(LineFault::NotACommand),
        Some((key, rest)) => first_and(key, rest),
    }
}

/// A key, a moment, and the words of a value.
pub(crate) fn entry_if<const V: usize>(words: &[u8]) -> Result<(u64, u64, [u64; V]), LineFault>
    ensures { join_two result ≡ numbers_in (V + 2) (words_of words.now) }
{
    match first_word(words) {
        None => Err(LineFault::NotACommand),
        Some((key, rest)) => {
            let (since, value) = entry(rest)?;
            let key = number(key).ok_or(LineFault::BadNumber)?;
            Ok((key, since, value))
        }
    }
}
