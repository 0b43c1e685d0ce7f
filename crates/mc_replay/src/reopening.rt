//! The line `reopen`: the entries of the world are put into another one.
ghost use Rattle.std.specs.Prelude.{ℕ, ◌≡◌, ◌≤◌, ◌++◌, [], Err, IfOk, OnErr, OnOk, length, slice_get, string_bytes};
ghost use Rattle.mc_words.specs.Checks.{shape_of};
ghost use Rattle.mc_words.specs.Shapes.{IsShape};
ghost use Rattle.mc_theory.specs.Traces as traces;
ghost use Rattle.mc_plan.specs.Loads.{left_by};
ghost use Rattle.mc_replay.specs.Replay.{with_sizes};
ghost use Rattle.mc_replay.specs.Texts.{left_line, left_lines, reopened_lines};
ghost use Rattle.mc_replay.specs.Inside.Players.{IsIdle, most_entries, shape_of_player};
ghost use Rattle.mc_replay.specs.Inside.Reopenings.{CanReopen, HasLoaded, MovesTo, ReopensBy};
ghost use Rattle.mc_replay.specs.declared.fault.Fault.TheVariants.{BadShape, NoMemory};

use crate::fault::Fault;
use crate::lines::{LeftLine, ReopenedLine};
use crate::player::Player;
use crate::text::add_line;
use crate::watch::Watch;
use mc_plan::{Put, Why};
use mc_words::{Checked, Shape};
use std::alloc::Global;

/// The greatest number of buckets or items that a shape can name.
const MOST: u64 = (1 << 32) - 1;

/// The shape with `buckets` buckets and `items` items, if there is one.
fn resized(checked: &Checked, buckets: u64, items: u64) -> Result<Checked, Fault>
    ensures shape { IfOk result (λ c. shape_of c ≡ with_sizes (shape_of checked.now) buckets items) }
    ensures sound { OnOk result (IsShape (with_sizes (shape_of checked.now) buckets items)) }
    ensures refused { OnErr result ((result ≡ Err BadShape) × (IsShape (with_sizes (shape_of checked.now) buckets items) → ⊥)) }
{
    if buckets > MOST || items > MOST {
        return Err(Fault::BadShape);
    }
    let shape = Shape {
        buckets: buckets as u32,
        items: items as u32,
        ..checked.shape()
    };
    match shape.check() {
        Ok(checked) => Ok(checked),
        Err(_) => Err(Fault::BadShape),
    }
}

/// Names an entry, if it was left.
fn name(left: &mut Vec<(usize, Why)>, index: usize, told: Result<Put, Why>) -> Result<(), Fault>
    ensures ok { OnOk result (left.new.items ≡ left.old.items ++ left_by index told) }
    ensures err { OnErr result (result ≡ Err NoMemory) }
{
    if let Err(why) = told {
        if left.push((index, why)).is_err() {
            return Err(Fault::NoMemory);
        }
    }
    Ok(())
}

/// Puts entries into a new world, one after the other, as long as no other key must be evicted; those that are left are named.
fn load<const V: usize, O: Watch<V>>(
    alloc: Global,
    player: &mut Player<V>,
    entries: &[(u64, [u64; V])],
    watch: &mut O,
) -> Result<Vec<(usize, Why)>, Fault>
    requires few { length entries.now ≤ most_entries }
    requires idle { (w : traces.Trace V) × IsIdle V player.old 0 w }
    ensures loaded { IfOk result (λ left. (w : traces.Trace V) → IsIdle V player.old 0 w → HasLoaded V player.old player.new w entries.now left.items) }
    ensures refused { OnErr result (result ≡ Err NoMemory) }
{
    let mut left = Vec::new(alloc);
    for index in 0..entries.len() {
        let entry = entries[index];
        let told = player.put_kept(entry.0, entry.1, watch)?;
        name(&mut left, index, told)?;
    }
    Ok(left)
}

/// Adds the line of an entry that was left.
fn tell_left<const V: usize>(
    text: &mut String,
    entries: &[(u64, [u64; V])],
    index: usize,
    why: Why,
) -> Result<(), Fault>
    ensures ok { OnOk result (string_bytes text.new ≡ string_bytes text.old ++ left_line why (slice_get entries.now index)) }
    ensures err { OnErr result (result ≡ Err NoMemory) }
{
    match entries.get(index) {
        Some(entry) => add_line(text, &LeftLine { key: entry.0, why }),
        None => Ok(()),
    }
}

/// Adds the lines of the entries that were left.
fn tell_all<const V: usize>(
    text: &mut String,
    entries: &[(u64, [u64; V])],
    left: &[(usize, Why)],
) -> Result<(), Fault>
    ensures ok { OnOk result (string_bytes text.new ≡ string_bytes text.old ++ left_lines entries.now left.now) }
    ensures err { OnErr result (result ≡ Err NoMemory) }
{
    for at in 0..left.len() {
        let one = left[at];
        tell_left(text, entries, one.0, one.1)?;
    }
    Ok(())
}

/// Adds the lines that report another world.
fn tell<const V: usize>(
    text: &mut String,
    at: u64,
    entries: &[(u64, [u64; V])],
    left: &[(usize, Why)],
) -> Result<(), Fault>
    ensures ok { OnOk result (string_bytes text.new ≡ string_bytes text.old ++ reopened_lines at entries.now left.now) }
    ensures err { OnErr result (result ≡ Err NoMemory) }
{
    let many = left.len();
    add_line(text, &ReopenedLine { at, left: many })?;
    tell_all(text, entries, left)
}

/// A new world with this shape and the entries of another, which is reported.
fn moved<const V: usize, O: Watch<V>>(
    alloc: Global,
    player: &Player<V>,
    checked: &Checked,
    text: &mut String,
    watch: &mut O,
) -> Result<Player<V>, Fault>
    requires { (most : ℕ) × (w : traces.Trace V) × IsIdle V player.now most w }
    ensures moved { IfOk result (λ new. (b c : ℕ) → shape_of checked.now ≡ with_sizes (shape_of_player player.now) b c →
        string_bytes text.old ≡ [] → MovesTo V player.now new b c (string_bytes text.new)) }
    ensures refused { OnErr result (result ≡ Err NoMemory) }
{
    let entries = player.entries(alloc)?;
    // There are as many readers as before.
    let Ok(mut new) = Player::new(alloc, checked, player.world.readers()) else {
        return Err(Fault::NoMemory);
    };
    watch.opened(&new.world);
    let left = load(alloc, &mut new, &entries, watch)?;
    tell(text, new.moment(), &entries, &left)?;
    Ok(new)
}

/// Opens a world with `buckets` buckets and `items` items instead of the present one, which is kept until the other one is open.
pub(crate) fn reopen<const V: usize, O: Watch<V>>(
    alloc: Global,
    player: &mut Player<V>,
    text: &mut String,
    buckets: u64,
    items: u64,
    watch: &mut O,
) -> Result<(), Fault>
    requires { CanReopen V player.old (string_bytes text.old) }
    ensures does { ReopensBy V player.old player.new (string_bytes text.new) result buckets items }
    ensures stands { OnErr result (player.new ≡ player.old) }
{
    if player.is_running() {
        return Err(Fault::StillRunning);
    }
    if player.world.is_looking() {
        return Err(Fault::StillRunning);
    }
    let checked = resized(&player.world.checked(), buckets, items)?;
    let new = moved(alloc, player, &checked, text, watch)?;
    *player = new;
    Ok(())
}
