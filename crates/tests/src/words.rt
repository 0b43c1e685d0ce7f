//! Shapes and keys, beside values that come from elsewhere.
ghost use Rattle.std.specs.Prelude.{◌≡◌};
ghost use Rattle.mc_words.specs.Keys.{mixed_key};

use crate::shapes::{checked, shape};
use mc_words::{Checked, Mix, Shape, ShapeError};
use std::alloc::{AllocError, Global};

/// A checked shape of `buckets` buckets, whose keys are mixed.
fn mixed(buckets: u32) -> Result<Checked, ShapeError> {
    let shape = Shape {
        mix: Mix::Fmix,
        ..shape(buckets, 16, 0)
    };
    shape.check()
}

/// The tag of a key and its two buckets.
fn parts(checked: &Checked, key: u64) -> (u8, u32, u32) {
    let tag = checked.tag(key);
    let first = checked.first(key);
    (tag, first, checked.alt(first, tag))
}

/// What key 1 is when it is mixed, 0xb456_bcfc_34c2_cb2c. Calls show only parts of it.
#[tactic(auto, unfolding(mc_words::specs::Keys::mixed_key))]
fn one_is_mixed()
    ensures { mixed_key Mix.Fmix 1 ≡ 12994781566227106604 }
{}

#[test]
fn a_key_has_these_parts(rt: HostRuntime) -> Result<(), ShapeError> {
    one_is_mixed();
    let large = mixed(1 << 20)?;
    assert!(rt; (large.tag(0), large.first(0)) == (0, 0));
    assert!(rt; (large.tag(1), large.first(1)) == (0xb4, 0x2_cb2c));
    assert!(rt; parts(&mixed(4)?, 1) == (180, 0, 1));
    let plain = checked(4, 16, 0)?;
    for (key, wanted) in [
        (0, (0, 0, 1)),
        (1 << 56, (1, 0, 3)),
        (u64::MAX, (255, 3, 0)),
        (1 << 32, (0, 0, 1)),
    ] {
        assert!(rt; parts(&plain, key) == wanted, "{key}");
        assert!(rt; plain.stripe(key) == 0, "{key}");
    }
    Ok(())
}

#[test]
fn a_key_has_this_stripe(rt: HostRuntime) -> Result<(), ShapeError> {
    for (key, mix, stripes, wanted) in [
        (1, Mix::Fmix, 8192, 7420),
        (1 << 32, Mix::Plain, 2, 1),
        (u64::MAX, Mix::Plain, 1 << 16, (1 << 16) - 1),
    ] {
        let shape = Shape {
            stripes,
            mix,
            ..shape(4, 16, 0)
        };
        assert!(rt; shape.check()?.stripe(key) == wanted, "{key} of {stripes}");
    }
    Ok(())
}

/// The other bucket of key 0 under a tag.
fn other(checked: &Checked, tag: u8) -> u32 {
    let zero = checked.first(0);
    checked.alt(zero, tag)
}

/// Whether item 0 has this word under a tag, and the word names both.
fn is_word(checked: &Checked, tag: u8, word: u64) -> bool {
    checked.slot_word(tag, 0) == word && checked.slot_parts(word) == Some((tag, 0))
}

#[test]
fn the_buckets_of_a_tag_are_so_far_apart(rt: HostRuntime) -> Result<(), ShapeError> {
    let many = checked(1024, 16, 0)?;
    for (tag, offset) in [(0, 405), (1, 191), (255, 107)] {
        assert!(rt; other(&many, tag) == offset, "tag {tag} of 1024");
    }
    let four = checked(4, 16, 0)?;
    for tag in 0..=255u8 {
        let offset = if tag % 2 == 0 { 1 } else { 3 };
        assert!(rt; other(&four, tag) == offset, "tag {tag} of four");
    }
    assert!(rt; is_word(&four, 180, 773_094_113_281));
    assert!(rt; is_word(&four, 0, 1));
    assert!(rt; four.slot_parts(0) == None);
    assert!(rt; four.words::<1>() == 67);
    Ok(())
}

#[test]
fn a_checked_shape_is_kept(rt: HostRuntime) -> Result<(), ShapeError> {
    for wanted in [
        shape(2, 1, 0),
        Shape {
            mix: Mix::Fmix,
            ..shape(4, 16, 0)
        },
        shape(1 << 20, 1 << 22, 0),
        Shape {
            depth: 8,
            tries: 1,
            limit: 0,
            ..shape(4, 16, 0)
        },
        Shape {
            tries: 64,
            stripes: 1 << 16,
            ..shape(4, 16, 0)
        },
    ] {
        assert!(rt; wanted.check()?.shape() == wanted);
    }
    Ok(())
}

/// Whether the fault is reported in these words.
fn is_told(alloc: Global, fault: ShapeError, text: &str) -> Result<bool, AllocError> {
    Ok(format!(in alloc; "{fault}")?.as_str() == text)
}

#[test]
fn the_first_fault_of_a_shape_is_told(rt: HostRuntime) -> Result<(), AllocError> {
    let alloc = rt.alloc();
    let mut faulty = Shape {
        buckets: 3,
        items: 0,
        stripes: 3,
        depth: 9,
        tries: 0,
        limit: (1 << 62) + 1,
        mix: Mix::Plain,
    };
    for (fault, text) in [
        (
            ShapeError::Buckets,
            "buckets must be a power of two from 2 to 1048576",
        ),
        (
            ShapeError::Items,
            "items must be from 1 to four times the buckets",
        ),
        (
            ShapeError::Stripes,
            "stripes must be a power of two from 1 to 65536",
        ),
        (ShapeError::Depth, "depth must be from 0 to 8"),
        (ShapeError::Tries, "tries must be from 1 to 64"),
        (
            ShapeError::Limit,
            "limit must be from 0 to 4611686018427387904",
        ),
    ] {
        assert!(rt; faulty.check() == Err(fault));
        assert!(rt; is_told(alloc, fault, text)?, "{text}");
        match fault {
            ShapeError::Buckets => faulty.buckets = 4,
            ShapeError::Items => faulty.items = 16,
            ShapeError::Stripes => faulty.stripes = 1,
            ShapeError::Depth => faulty.depth = 0,
            ShapeError::Tries => faulty.tries = 2,
            ShapeError::Limit => faulty.limit = 0,
        }
    }
    assert!(rt; faulty.check().is_ok());
    Ok(())
}
