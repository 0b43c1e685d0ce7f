//! The words of a line, one after the other.
ghost use Rattle.std.specs.Prelude.{◌≡◌, position};
ghost use Rattle.std.specs.List.{prefix_len};
ghost use Rattle.std.specs.Str.{bytes_eq};
ghost use Rattle.mc_script.specs.Words.{is_blank, is_inner};
ghost use Rattle.mc_script.specs.Inside.Words.{FirstWord};

fn is_blank(byte: u8) -> bool
    ensures { result ≡ is_blank byte }
{
    byte == b' ' || byte == b'\t'
}

/// Where the first word begins.
fn word_start(text: &[u8]) -> Option<usize>
    ensures { result ≡ position is_inner text.now }
{
    text.iter().position(|b| !is_blank(*b))
}

/// Where the word at the front ends, if a blank follows.
fn word_end(text: &[u8]) -> Option<usize>
    ensures { result ≡ position is_blank text.now }
{
    text.iter().position(|b| is_blank(*b))
}

/// How long the word at the front is.
fn word_len(text: &[u8]) -> usize
    ensures { result ≡ prefix_len is_inner text.now }
{
    word_end(text).unwrap_or(text.len())
}

/// The first word, which has a byte, and the bytes that follow it.
pub(crate) fn first_word(text: &[u8]) -> Option<(&[u8], &[u8])>
    ensures { FirstWord text.now result }
{
    let start = word_start(text)?;
    let text = &text[start..];
    Some(text.split_at(word_len(text)))
}

pub(crate) fn is_word(word: &[u8], name: &[u8]) -> bool
    ensures { result ≡ bytes_eq word.now name.now }
{
    word == name
}
