//! Scripts that a generator draws, beside a plain map.
use crate::drawn_lines::{Script, drawn_key, drawn_sizes, play};
use crate::plain::{ALL_RECENT, Plain};
use mc_words::{Checked, Mix, Shape};
use rand_core::Rng;
use rand_pcg::Lcg64Xsh32;
use std::alloc::Global;
use std::ops::Range;
use std::test::Fail;
use std::{io, str};

/// How scripts are drawn: `calls` whole calls, and accesses of a reader after one in `one_in` of them.
#[derive(Clone, Copy)]
struct Draws {
    calls: u64,
    one_in: u32,
    /// The most version changes in every fourth script.
    limit: u64,
    /// Whether the tables have few items, and readers look up between the hand's readings.
    sweeps: bool,
    /// Whether one call in three asks for a key's stamp, or depends on it.
    stamps: bool,
    /// Whether before one call in sixteen another world is opened, when no lookup runs.
    reopens: bool,
}

/// A small table of 1, 2 or 64 stripes. Every fifth has more than 64 items, unless the hand's readings are drawn.
fn shape_of(seed: u64, draws: &Draws, rng: &mut Lcg64Xsh32) -> Shape {
    let (buckets, items) = if draws.sweeps {
        (2, 1 + rng.next_u32() % 3)
    } else if seed % 5 == 4 {
        (32, 65 + rng.next_u32() % 64)
    } else {
        drawn_sizes(rng)
    };
    Shape {
        buckets,
        items,
        stripes: match seed % 3 {
            0 => 1,
            1 => 2,
            _ => 64,
        },
        depth: if draws.sweeps { 0 } else { (seed % 4) as u8 },
        tries: (1 + rng.next_u32() % 3) as u8,
        limit: if seed % 4 == 3 { draws.limit } else { 1 << 62 },
        mix: if rng.next_u32() % 2 == 0 {
            Mix::Plain
        } else {
            Mix::Fmix
        },
    }
}

/// Draws a script.
fn drawn(
    alloc: Global,
    checked: &Checked,
    rng: &mut Lcg64Xsh32,
    draws: &Draws,
) -> io::Result<Script> {
    let mut script = Script::new(alloc, checked);
    let keys = u64::from(checked.shape().items)
        .saturating_mul(2)
        .saturating_add(2);
    for number in 0..draws.calls {
        let key = drawn_key(rng, keys);
        if draws.reopens && rng.next_u32() % 16 == 0 {
            script.reopen(rng)?;
        }
        if draws.stamps && rng.next_u32() % 3 == 0 {
            script.stamp_call(rng.next_u32(), key, number)?;
        } else if draws.sweeps && rng.next_u32() % 2 == 0 {
            script.put_slowly(rng, keys, key, number)?;
        } else {
            script.call(rng.next_u32(), key, number)?;
        }
        if rng.next_u32().checked_rem(draws.one_in) == Some(0) {
            let reader = (rng.next_u32() % 2) as usize;
            script.read(reader, key, rng.next_u32())?;
        }
    }
    Ok(script)
}

/// How many puts of a drawn script are refused since every bit was set; none if a line is not answered as the plain
/// map says.
fn all_recent(alloc: Global, seed: u64, draws: &Draws) -> Result<Option<usize>, Fail> {
    let mut rng = Lcg64Xsh32::new(seed, 0);
    let shape = shape_of(seed, draws, &mut rng);
    let checked = shape.check()?;
    let script = drawn(alloc, &checked, &mut rng, draws)?;
    let (output, result) = play(alloc, &checked, script.text.as_str())?;
    if result != Ok(()) {
        return Ok(None);
    }
    let text = str::from_utf8(output.as_slice()).unwrap_or("");
    let mut plain = Plain::new(alloc, shape)?;
    if plain.first_wrong(script.asked.as_slice(), text)?.is_some() {
        return Ok(None);
    }
    let mut refused: usize = 0;
    for line in text.lines() {
        if line == ALL_RECENT {
            refused = refused.saturating_add(1);
        }
    }
    Ok(Some(refused))
}

/// How many puts of the seeds' scripts are refused since every bit was set, or the first seed whose script is not
/// answered as the plain map says.
fn all_recent_of(
    alloc: Global,
    seeds: Range<u64>,
    draws: &Draws,
) -> Result<Result<usize, u64>, Fail> {
    let mut all: usize = 0;
    for seed in seeds {
        match all_recent(alloc, seed, draws)? {
            Some(count) => all = all.saturating_add(count),
            None => return Ok(Err(seed)),
        }
    }
    Ok(Ok(all))
}

#[test]
fn drawn_scripts_are_answered_as_a_plain_map_says(rt: HostRuntime) -> Result<(), Fail> {
    let whole = Draws {
        calls: 1000,
        one_in: 500,
        limit: 1000,
        sweeps: false,
        stamps: false,
        reopens: false,
    };
    assert_eq!(rt;
        all_recent_of(rt.alloc(), 0..20, &whole)?,
        Ok(0),
        "whole calls"
    );
    let mixed = Draws {
        calls: 100,
        one_in: 3,
        limit: 60,
        sweeps: false,
        stamps: false,
        reopens: false,
    };
    assert_eq!(rt;
        all_recent_of(rt.alloc(), 20..40, &mixed)?,
        Ok(0),
        "calls and lookups"
    );
    Ok(())
}

#[test]
fn puts_on_a_condition_are_answered_as_a_plain_map_says(rt: HostRuntime) -> Result<(), Fail> {
    let draws = Draws {
        calls: 100,
        one_in: 3,
        limit: 60,
        sweeps: false,
        stamps: true,
        reopens: false,
    };
    assert_eq!(rt; all_recent_of(rt.alloc(), 50..60, &draws)?, Ok(0));
    Ok(())
}

#[test]
fn worlds_that_are_opened_anew_are_answered_as_a_plain_map_says(
    rt: HostRuntime,
) -> Result<(), Fail> {
    let draws = Draws {
        calls: 200,
        one_in: 3,
        limit: 1 << 62,
        sweeps: false,
        stamps: true,
        reopens: true,
    };
    assert_eq!(rt; all_recent_of(rt.alloc(), 60..75, &draws)?, Ok(0));
    Ok(())
}

#[test]
fn lookups_between_the_hands_readings_refuse_puts_as_a_plain_map_says(
    rt: HostRuntime,
) -> Result<(), Fail> {
    let draws = Draws {
        calls: 24,
        one_in: 3,
        limit: 60,
        sweeps: true,
        stamps: false,
        reopens: false,
    };
    match all_recent_of(rt.alloc(), 40..50, &draws)? {
        Ok(refused) => assert!(rt; refused >= 20, "{refused} puts are refused"),
        Err(seed) => assert!(rt; false, "seed {seed}"),
    }
    Ok(())
}
