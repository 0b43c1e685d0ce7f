//! The hand's way round, and how a path is cut.
ghost use Rattle.std.specs.Prelude.{◌<◌, ◌^◌};

use arrayvec::ArrayVec;
use mc_plan::{Path, Sweep};
use mc_words::Place;
use std::test::Fail;

/// The victim of a sweep that reads these bits, and where the hand is then.
fn swept(items: u32, hand: u32, bits: &[u64]) -> (Option<u32>, u32)
    requires hand { hand < items }
    requires few { items < 2 ^ 31 }
{
    let mut sweep = Sweep::start(items, hand);
    for bit in bits {
        if sweep.next().is_none() {
            break;
        }
        sweep.after(*bit);
    }
    (sweep.victim(), sweep.hand())
}

#[test]
fn a_sweep_stops_at_the_first_clear_bit(rt: HostRuntime) -> Result<(), Fail> {
    assert!(rt; swept(3, 1, &[0, 0]) == (Some(1), 2));
    assert!(rt; swept(3, 1, &[1, 1, 1, 0, 0]) == (Some(1), 2));
    assert!(rt; swept(3, 1, &[1, 0]) == (Some(2), 0));
    assert!(rt; swept(3, 1, &[1, 1, 1, 1, 1, 1, 0]) == (None, 1));
    assert!(rt; swept(1, 0, &[1, 0]) == (Some(0), 0));
    Ok(())
}

fn place(bucket: u32, slot: u8) -> Place {
    Place { bucket, slot }
}

#[test]
fn a_path_is_cut_at_the_victim(rt: HostRuntime) -> Result<(), Fail> {
    let mut places = ArrayVec::new();
    for bucket in 0..3 {
        let _ = places.try_push(place(bucket, 1));
    }
    let mut path = Path {
        places,
        hole: place(3, 0),
    };
    path.cut_at(place(2, 0));
    assert!(rt; path.places.len() == 3);
    assert!(rt; path.hole == place(3, 0));
    path.cut_at(place(1, 1));
    assert!(rt; path.places.as_slice() == [place(0, 1)].as_slice());
    assert!(rt; path.hole == place(1, 1));
    assert!(rt; path.first() == place(0, 1));
    path.cut_at(place(0, 1));
    assert!(rt; path.places.is_empty());
    assert!(rt; path.hole == place(0, 1));
    Ok(())
}
