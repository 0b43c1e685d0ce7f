//! Calls that make something. After a refusal nothing was made, and the memory that they had taken is given back.
use crate::seen::Seen;
use mc_cache::{OpenError, Policy, Put, open_by};
use mc_core::{World, WorldError};
use mc_plan::{Clerk, Finder};
use mc_words::{Checked, Mix, NoMemory, Shape};
use std::alloc::Global;

/// A small table.
pub(crate) const SHAPE: Shape = Shape {
    buckets: 4,
    items: 16,
    stripes: 2,
    depth: 2,
    tries: 2,
    limit: 1000,
    mix: Mix::Plain,
};

/// What is made.
#[derive(Clone, Copy)]
pub(crate) enum Making {
    /// The words that threads share.
    Words,
    Cache,
    World,
    Finder,
    Clerk,
}

// Opens a cache of the policy that takes the most memory, and puts a key into it.
fn make_cache(alloc: Global) -> Option<bool> {
    match open_by::<2>(alloc, Policy::ScanResistant, SHAPE, 3) {
        Ok((cache, mut writer, readers)) => {
            let stored = matches!(
                writer.put(&cache, 7, [70, 71]),
                Ok(Put::Stored {
                    at: 1,
                    moves: 0,
                    evicted: None
                })
            );
            Some(stored && readers.len() == 3)
        }
        Err(OpenError::NoMemory) => None,
        Err(_) => Some(false),
    }
}

// Whether what was made is as it should be, or `None` if memory was refused.
fn make(alloc: Global, checked: &Checked, making: Making) -> Option<bool> {
    match making {
        Making::Words => match mc_shared::open::<2>(alloc, checked, 3) {
            Ok((_words, _writer, readers)) => Some(readers.len() == 3),
            Err(NoMemory) => None,
        },
        Making::Cache => make_cache(alloc),
        Making::World => match World::<2>::new(alloc, checked, 3) {
            Ok(world) => Some(world.readers() == 3 && world.history().is_empty()),
            Err(WorldError::NoMemory) => None,
            Err(WorldError::Readers) => Some(false),
        },
        Making::Finder => match Finder::new(alloc, checked) {
            Ok(_finder) => Some(true),
            Err(NoMemory) => None,
        },
        Making::Clerk => match Clerk::<2>::new(alloc, checked) {
            Ok(_clerk) => Some(true),
            Err(NoMemory) => None,
        },
    }
}

/// Makes it, and once more if memory was refused.
pub(crate) fn see_making(alloc: Global, making: Making) -> Seen {
    let Ok(checked) = SHAPE.check() else {
        return Seen::Wrong;
    };
    let first = make(alloc, &checked, making);
    if first.is_some() {
        return Seen::of_two(first, None);
    }
    Seen::of_two(None, make(alloc, &checked, making))
}
