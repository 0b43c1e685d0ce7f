//! A turn whose call is refused gives the writer back: no try after it is held.
ghost use Rattle.std.specs.Prelude.{◌≡◌};
ghost use Rattle.mc_shards.specs.Sharded.{ArePassOf};

use crate::opened::open_for_one;
use mc_cache::calls::{PuttingIf, PuttingIfAbsent, Swapping, SwappingIf, Taking};
use mc_cache::{AbsentError, Cache, Desk, DeskError, IfError, Mix, PutError, Reader, Shape, Spent};
use mc_shards::{Pass, Shards, open_shards};
use std::test::Fail;

/// A table in which no version may change.
const NONE: Shape = Shape {
    buckets: 4,
    items: 16,
    stripes: 1,
    depth: 2,
    tries: 2,
    limit: 0,
    mix: Mix::Fmix,
};

// Whether each call that writes is refused at the desk, one after the other.
fn each_is_spent(cache: &Cache<1>, desk: &Desk<1>, pass: &mut Reader<1>) -> bool
    requires { (desk.now ≡ cache.now) × (pass.old.of ≡ cache.now) }
{
    let put = DeskError::Call(PutError::Spent);
    let on_a_condition = DeskError::Call(IfError::Spent);
    let removal = DeskError::Call(Spent);
    let absent = DeskError::Call(AbsentError::Put(PutError::Spent));
    desk.try_put(cache, pass, 0, [7]) == Err(put)
        && desk.try_put_if(cache, pass, 0, 1, [7]) == Err(on_a_condition)
        && desk.try_call(cache, pass, PuttingIfAbsent(0, &[7])) == Err(absent)
        && desk.try_remove(cache, pass, 0) == Err(removal)
        && desk.try_call(cache, pass, Swapping(0, &[7])) == Err(put)
        && desk.try_call(cache, pass, SwappingIf(0, 1, &[7])) == Err(on_a_condition)
        && desk.try_call(cache, pass, Taking(0)) == Err(removal)
}

#[test]
fn a_refused_call_leaves_the_writer_at_the_desk(rt: HostRuntime) -> Result<(), Fail> {
    let (cache, writer, mut pass) = open_for_one(rt.alloc(), NONE)?;
    let desk = Desk::new(writer);
    assert!(rt; each_is_spent(&cache, &desk, &mut pass));
    let left = desk.end().map(|writer| writer.len());
    assert!(rt; left == Some(0));
    Ok(())
}

// Checks it by a pass of shards, and then one put more.
fn each_is_spent_by_shards(shards: &Shards<1>, pass: &mut Pass<1>) -> bool
    requires { ArePassOf shards.now pass.old }
{
    let put = DeskError::Call(PutError::Spent);
    let on_a_condition = DeskError::Call(IfError::Spent);
    let removal = DeskError::Call(Spent);
    let absent = DeskError::Call(AbsentError::Put(PutError::Spent));
    pass.try_put(shards, 0, [7]) == Err(put)
        && pass.try_call(shards, PuttingIf(0, 1, &[7])) == Err(on_a_condition)
        && pass.try_call(shards, PuttingIfAbsent(0, &[7])) == Err(absent)
        && pass.try_remove(shards, 0) == Err(removal)
        && pass.try_call(shards, Swapping(0, &[7])) == Err(put)
        && pass.try_call(shards, SwappingIf(0, 1, &[7])) == Err(on_a_condition)
        && pass.try_call(shards, Taking(0)) == Err(removal)
        && pass.try_put(shards, 0, [7]) == Err(put)
}

#[test]
fn a_refused_call_leaves_the_writer_at_its_shard(rt: HostRuntime) -> Result<(), Fail> {
    let (shards, mut passes) = open_shards::<1>(rt.alloc(), NONE, 2, 1)?;
    let Some(mut pass) = passes.pop() else {
        return Err(Fail::new("no pass"));
    };
    assert!(rt; each_is_spent_by_shards(&shards, &mut pass));
    Ok(())
}
