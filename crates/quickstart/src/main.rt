//! A cache, its writer, and two readers that look keys up in threads of their own.
#![tactic(auto)]

ghost use Rattle.std.specs.Prelude.{◌≡◌};

use anyhow::bail;
use mc_cache::{Cache, Reader, Shape, Writer, open};
use std::thread::{Threads, join_mut};

/// Puts two keys: after the first both readers look a key up at once, after the second one asks beside the writer.
/// Condition: writer and readers are those of this cache.
fn put_and_look_up<R: Threads + Sync + Print>(
    rt: &R,
    cache: &Cache<1>,
    writer: &mut Writer<1>,
    one: &mut Reader<1>,
    two: &mut Reader<1>,
) -> anyhow::Result<()>
    requires { (writer.old.of ≡ cache.now) × (one.old.of ≡ cache.now) × (two.old.of ≡ cache.now) }
{
    writer.put(cache, 7, [70])?;
    let (hit, miss) = join_mut(rt, &mut || one.get(cache, 7), &mut || two.get(cache, 8));
    println!(rt; "{hit:?}, {miss:?}")?;
    writer.put(cache, 8, [80])?;
    let now = two.get_beside(cache, writer, 8);
    println!(rt; "{now:?}")?;
    Ok(())
}

fn main(rt: HostRuntime) -> anyhow::Result<()> {
    let shape = Shape::for_items(1000)?;
    let (cache, mut writer, mut readers) = open::<1>(rt.alloc(), shape, 2)?;
    let (Some(mut one), Some(mut two)) = (readers.pop(), readers.pop()) else {
        bail!("no readers");
    };
    put_and_look_up(&rt, &cache, &mut writer, &mut one, &mut two)
}
