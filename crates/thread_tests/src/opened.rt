//! A new cache with its writer and its one reader.
ghost use Rattle.std.specs.Prelude.{◌≡◌, IfOk};

use mc_cache::{Cache, Policy, Reader, Shape, Writer, open_by};
use std::alloc::Global;
use std::test::Fail;

/// Opens a cache for one reader, with CLOCK.
pub fn open_for_one(alloc: Global, shape: Shape) -> Result<(Cache<1>, Writer<1>, Reader<1>), Fail>
    ensures { IfOk result (λ opened. (opened.1.of ≡ opened.0) × (opened.2.of ≡ opened.0)) }
{
    open_for_one_by(alloc, Policy::Clock, shape)
}

/// Opens a cache of this policy for one reader.
pub fn open_for_one_by(
    alloc: Global,
    policy: Policy,
    shape: Shape,
) -> Result<(Cache<1>, Writer<1>, Reader<1>), Fail>
    ensures { IfOk result (λ opened. (opened.1.of ≡ opened.0) × (opened.2.of ≡ opened.0)) }
{
    let (cache, writer, mut readers) = open_by::<1>(alloc, policy, shape, 1)?;
    match readers.pop() {
        Some(reader) => Ok((cache, writer, reader)),
        None => Err(Fail::new("no reader")),
    }
}
