//! The bytes that a line of a transcript stands for.
use std::alloc::AllocError;
use std::str;

/// The byte of two hexadecimal digits.
fn byte_of(high: u8, low: u8) -> Option<u8> {
    let high = char::from(high).to_digit(16)?;
    let low = char::from(low).to_digit(16)?;
    u8::try_from(high.checked_mul(16)?.checked_add(low)?).ok()
}

/// The byte that the text begins with, as itself or as an escape, and the text after it.
fn first_byte(text: &[u8]) -> Option<(u8, &[u8])> {
    match text {
        [b'\\', b'\\', rest @ ..] => Some((b'\\', rest)),
        [b'\\', b'r', rest @ ..] => Some((b'\r', rest)),
        [b'\\', b't', rest @ ..] => Some((b'\t', rest)),
        [b'\\', b'x', high, low, rest @ ..] => Some((byte_of(*high, *low)?, rest)),
        [b'\\', ..] => None,
        [byte, rest @ ..] => Some((*byte, rest)),
        [] => None,
    }
}

/// The byte that the text begins with, how many times it is there, and the text after it.
fn first_run(text: &[u8]) -> Option<(u8, usize, &[u8])> {
    let Some(run) = text.strip_prefix(b"\\{") else {
        let (byte, rest) = first_byte(text)?;
        return Some((byte, 1, rest));
    };
    let (byte, rest) = first_byte(run)?;
    let rest = rest.strip_prefix(b"*")?;
    let end = rest.iter().position(|b| *b == b'}')?;
    let (digits, rest) = rest.split_at_checked(end)?;
    let count = str::from_utf8(digits).ok()?.parse::<usize>().ok()?;
    Some((byte, count, rest.get(1..)?))
}

/// Adds the bytes of the line and its end; `false` if an escape is none.
pub(crate) fn add_line(bytes: &mut Vec<u8>, line: &[u8]) -> Result<bool, AllocError> {
    let mut text = line;
    // Each round takes a byte at least.
    for _ in 0..line.len() {
        if text.is_empty() || text == b"\\c".as_slice() {
            break;
        }
        let Some((byte, count, rest)) = first_run(text) else {
            return Ok(false);
        };
        bytes.resize(bytes.len().saturating_add(count), byte)?;
        text = rest;
    }
    if text.is_empty() {
        bytes.push(b'\n')?;
    }
    Ok(true)
}
