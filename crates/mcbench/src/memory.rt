//! How much memory the program has.
use std::rt::Files;
use std::{fs, io};

/// The pages that are in memory: the second number of the system's account.
fn pages(account: &str) -> u64 {
    match account.split(' ').nth(1) {
        Some(word) => word.parse::<u64>().unwrap_or(0),
        None => 0,
    }
}

/// The bytes of the program that are in memory.
pub(crate) fn resident<R: Files + AllocGlobal>(rt: &R) -> io::Result<u64> {
    let account = fs::read_to_string(rt, "/proc/self/statm")?;
    Ok(pages(account.as_str()).wrapping_mul(4096))
}
