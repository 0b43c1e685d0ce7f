//! Makes one call that takes memory, and makes it again if memory was refused, for `.ci/refusals`, which refuses it. The status reports
//! what was seen; nothing is printed, as that might take memory too.
#![tactic(auto)]

mod closing;
mod closing_shards;
mod loading;
mod opening;
mod seen;
mod shards;
mod stamped;
mod world;

use crate::opening::{Making, see_making};
use crate::seen::Seen;
use std::alloc::Global;
use std::process::ExitCode;
use std::{env, io};

/// What the call of that name does, or `None` if there is none.
fn see(alloc: Global, name: &str) -> Option<Seen> {
    match name {
        "words" => Some(see_making(alloc, Making::Words)),
        "cache" => Some(see_making(alloc, Making::Cache)),
        "world" => Some(see_making(alloc, Making::World)),
        "finder" => Some(see_making(alloc, Making::Finder)),
        "clerk" => Some(see_making(alloc, Making::Clerk)),
        "run" => Some(world::see_runs(alloc)),
        "moment" => Some(world::see_moments(alloc)),
        "close" => Some(closing::see_closing(alloc)),
        "load" => Some(loading::see_loading(alloc)),
        "shards" => Some(shards::see_shards(alloc)),
        "close-shards" => Some(closing_shards::see_closing_shards(alloc)),
        "entries" => Some(loading::see_entries(alloc)),
        "stamped" => Some(stamped::see_stamped(alloc)),
        _ => None,
    }
}

/// Makes the call that the process's words name.
fn run(rt: &HostRuntime) -> io::Result<Option<Seen>> {
    let alloc = rt.alloc();
    let words: Vec<String> = env::args(rt)?.collect(alloc)?;
    Ok(words.get(1).and_then(|name| see(alloc, name.as_str())))
}

fn main(rt: HostRuntime) -> ExitCode {
    match run(&rt) {
        Ok(Some(seen)) => ExitCode::from(seen.status()),
        Ok(None) => ExitCode::from(2),
        Err(_) => ExitCode::from(Seen::Before.status()),
    }
}
