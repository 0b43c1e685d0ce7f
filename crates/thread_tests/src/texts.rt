//! The texts of what is refused.
use mc_cache::{AbsentError, OpenError, PutError};
use mc_core::WorldError;
use mc_load::LoadError;
use mc_words::ShapeError;
use std::alloc::AllocError;

const LOADS: [(LoadError, &str); 8] = [
    (
        LoadError::Open(OpenError::Shape(ShapeError::Depth)),
        "depth must be from 0 to 8",
    ),
    (
        LoadError::Open(OpenError::Readers),
        "readers must be from 1 to 1024",
    ),
    (LoadError::Open(OpenError::NoMemory), "no memory"),
    (LoadError::NoMemory, "no memory"),
    (LoadError::Keys, "keys must be from 1 to 4294967296"),
    (LoadError::Gate { who: 1, call: 2 }, "gate"),
    (LoadError::Writers, "writers must be from 1 to 8"),
    (
        LoadError::Shards,
        "shards must be a power of two from 1 to 256",
    ),
];

#[test]
fn refusals_are_told_in_these_words(rt: HostRuntime) -> Result<(), AllocError> {
    let alloc = rt.alloc();
    for (why, text) in LOADS {
        let told = format!(in alloc; "{why}")?;
        assert!(rt; told.as_str() == text, "{text}");
    }
    let told = format!(in alloc; "{}, {}", WorldError::Readers, WorldError::NoMemory)?;
    assert!(rt; told.as_str() == "readers must be from 1 to 1024, no memory");
    let present = AbsentError::Present { since: 3 };
    let told = format!(in alloc; "{present}, {}", AbsentError::Put(PutError::NoPath))?;
    assert!(rt; told.as_str() == "present since 3, no path");
    Ok(())
}
