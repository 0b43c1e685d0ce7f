//! Plays the transcripts that come on standard input, and compares each answer with the one that is due there.
#![tactic(auto)]

mod escape;
mod player;
mod transcript;

use crate::player::Player;
use std::io;
use std::io::{BufRead, BufReader};
use std::process::ExitCode;

/// Plays all transcripts, and returns whether each passed.
fn play(rt: &HostRuntime) -> io::Result<bool> {
    let alloc = rt.alloc();
    let mut player = Player::new(alloc);
    for line in BufReader::new(alloc, rt.reader())?.lines(alloc) {
        player.take(rt, line?.as_str())?;
    }
    player.end(rt)
}

fn main(rt: HostRuntime) -> ExitCode {
    match play(&rt) {
        Ok(true) => ExitCode::SUCCESS,
        Ok(false) => ExitCode::FAILURE,
        Err(error) => {
            let _ = eprintln!(rt; "{error}");
            ExitCode::from(3)
        }
    }
}
