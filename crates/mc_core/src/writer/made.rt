//! Making an act that is allowed, one function an act.
ghost use Rattle.std.specs.Prelude.{◌≡◌, ◌+◌, ◌-◌, ◌^◌, ◌<◌, ℕ, [], ◌∷◌, OnOk, OnErr};
ghost use Rattle.mc_words.specs.Keys.{stripe_of};
ghost use Rattle.mc_words.specs.Places.{payload, version, moment};
ghost use Rattle.mc_theory.specs.Acts.{IsAllowed};
ghost use Rattle.mc_theory.specs.Inner.{StateHolds};
ghost use Rattle.mc_theory.specs.Phases.{first_phase, Closing};
ghost use Rattle.mc_theory.specs.Effects.{change_of, phase_after};
ghost use Rattle.mc_core.specs.Inside.Progresses.{count_at, fresh_slot};
ghost use Rattle.mc_core.specs.Inside.Writers.{shape_of_writer, words_of_writer, room_of, state_in, phase_at, UsedWell, IsMade, KeepsWriter};
ghost use Rattle.mc_theory.specs.declared.act.Act.{Act};
ghost use Rattle.mc_core.specs.declared.progress.Progress.{Progress};
ghost use Rattle.mc_core.specs.declared.written.Written.{Written};

use crate::progress::Progress;
use crate::writer::Writer;
use mc_theory::{Act, Deed};
use mc_words::Change;
use std::alloc::AllocError;

impl<const V: usize> Writer<V> {
    /// Opens a deed on a key.
    pub(crate) fn open_deed(&mut self, key: u64, deed: Deed)
        requires used { UsedWell {V = V} self.old.table }
        requires version { version (words_of_writer {V = V} self.old) (stripe_of (shape_of_writer {V = V} self.old) key) < 2 ^ 64 - 1 }
        requires version_steps { self.old.version_steps < 2 ^ 64 - 1 }
        ensures { (bit : ℕ) → IsMade {V = V} self.old self.new (Act.Open key deed) bit }
    {
        self.table.bump(key);
        self.cleared = None;
        self.version_steps += 1;
        self.progress = opening_of(key, deed);
    }

    /// Ends the deed on a key.
    fn close_deed_of(&mut self, key: u64)
        requires running { self.old.progress ≡ Progress.Closing key }
        requires used { UsedWell {V = V} self.old.table }
        requires version { version (words_of_writer {V = V} self.old) (stripe_of (shape_of_writer {V = V} self.old) key) < 2 ^ 64 - 1 }
        requires version_steps { self.old.version_steps < 2 ^ 64 - 1 }
        ensures { (bit : ℕ) → IsMade {V = V} self.old self.new Act.Close bit }
    {
        self.table.bump(key);
        self.version_steps += 1;
        self.progress = Progress::Quiet;
    }

    /// Turns the hand past an item whose bit was read.
    pub(crate) fn turn_hand(&mut self, i: u32, bit: u64)
        requires quiet { self.old.progress ≡ Progress.Quiet }
        requires item { i < (shape_of_writer {V = V} self.old).items }
        requires used { UsedWell {V = V} self.old.table }
        ensures { IsMade {V = V} self.old self.new (Act.Hand i) bit }
    {
        let next = i + 1;
        self.hand = if next == self.table.checked.shape().items {
            0
        } else {
            next
        };
        self.cleared = if bit == 0 { Some(i) } else { None };
    }

    /// Writes the key of a free item.
    fn write_key(&mut self, key: u64, i: u32, word: u64)
        requires running { self.old.progress ≡ Progress.Filling key }
        requires item { i < (shape_of_writer {V = V} self.old).items }
        requires used { UsedWell {V = V} self.old.table }
        ensures { (bit : ℕ) → IsMade {V = V} self.old self.new (Act.Item i 0 word) bit }
    {
        self.table.set_item(i, 0, word);
        self.progress = Progress::Keyed(key, i, 0);
    }

    /// Writes the next word of the item of a fill.
    fn write_next(&mut self, key: u64, i: u32, count: u8, word: u64)
        requires running { self.old.progress ≡ Progress.Keyed key i count }
        requires item { i < (shape_of_writer {V = V} self.old).items }
        requires more { count < payload V }
        requires used { UsedWell {V = V} self.old.table }
        ensures { (bit : ℕ) → IsMade {V = V} self.old self.new (Act.Item i (count + 1) word) bit }
    {
        self.table.set_item(i, count + 1, word);
        self.written.keep(count, word);
        self.progress = Progress::Keyed(key, i, count + 1);
    }

    /// Writes the next word of the item of a renewal.
    fn write_again(&mut self, key: u64, i: u32, count: u8, word: u64)
        requires running { self.old.progress ≡ Progress.Renewing key count }
        requires item { i < (shape_of_writer {V = V} self.old).items }
        requires more { count < payload V }
        requires used { UsedWell {V = V} self.old.table }
        ensures { (bit : ℕ) → IsMade {V = V} self.old self.new (Act.Item i (count + 1) word) bit }
    {
        self.table.set_item(i, count + 1, word);
        self.written.keep(count, word);
        self.progress = Progress::Renewing(key, count + 1);
    }

    /// Writes a word of an item as the running deed asks.
    pub(crate) fn write_item(&mut self, i: u32, j: u8, word: u64)
        requires holds { StateHolds (shape_of_writer {V = V} self.old) (state_in {V = V} self.old) }
        requires used { UsedWell {V = V} self.old.table }
        requires may { IsAllowed (shape_of_writer {V = V} self.old) (state_in {V = V} self.old) (Act.Item i j word) }
        ensures { (bit : ℕ) → IsMade {V = V} self.old self.new (Act.Item i j word) bit }
    {
        match self.progress {
            Progress::Filling(key) => self.write_key(key, i, word),
            Progress::Keyed(key, _, count) => self.write_next(key, i, count, word),
            Progress::Renewing(key, count) => self.write_again(key, i, count, word),
            _ => {}
        }
    }

    /// Ends the running deed.
    pub(crate) fn close_deed(&mut self)
        requires used { UsedWell {V = V} self.old.table }
        requires versions { (t : ℕ) → t < (shape_of_writer {V = V} self.old).stripes → version (words_of_writer {V = V} self.old) t < 2 ^ 64 - 1 }
        requires version_steps { self.old.version_steps < 2 ^ 64 - 1 }
        requires may { IsAllowed (shape_of_writer {V = V} self.old) (state_in {V = V} self.old) Act.Close }
        ensures { (bit : ℕ) → IsMade {V = V} self.old self.new Act.Close bit }
    {
        if let Progress::Closing(key) = self.progress {
            self.close_deed_of(key);
        }
    }

    /// Counts a change. There may be no memory for it.
    fn count_moment_of(&mut self, key: u64, change: Change<V>) -> Result<(), AllocError>
        requires moment { moment (words_of_writer {V = V} self.old) < 2 ^ 64 - 1 }
        requires used { UsedWell {V = V} self.old.table }
        requires change { change_of {V = V} (state_in {V = V} self.old).phase ≡ change ∷ [] }
        requires phase { phase_after (state_in {V = V} self.old).phase Act.Moment ≡ Closing key }
        ensures ok { OnOk result ((bit : ℕ) → IsMade {V = V} self.old self.new Act.Moment bit) }
        ensures err { OnErr result (KeepsWriter {V = V} self.old self.new) }
        ensures full { OnErr result (room_of {V = V} self.old ≡ 0) }
    {
        self.history.push(change)?;
        self.table.tick();
        self.progress = Progress::Closing(key);
        Ok(())
    }

    /// Counts the change of the running deed.
    pub(crate) fn count_moment(&mut self) -> Result<(), AllocError>
        requires moment { moment (words_of_writer {V = V} self.old) < 2 ^ 64 - 1 }
        requires used { UsedWell {V = V} self.old.table }
        requires may { IsAllowed (shape_of_writer {V = V} self.old) (state_in {V = V} self.old) Act.Moment }
        ensures ok { OnOk result ((bit : ℕ) → IsMade {V = V} self.old self.new Act.Moment bit) }
        ensures err { OnErr result (KeepsWriter {V = V} self.old self.new) }
        ensures full { OnErr result (room_of {V = V} self.old ≡ 0) }
    {
        match self.progress {
            Progress::Placed(key, _) => self.count_moment_of(
                key,
                Change::Put(key, self.written.value()),
            ),
            Progress::Renewing(key, _) => self.count_moment_of(
                key,
                Change::Put(key, self.written.value()),
            ),
            Progress::Removed(key, true) => self.count_moment_of(key, Change::Evict(key)),
            Progress::Removed(key, false) => self.count_moment_of(key, Change::Remove(key)),
            _ => Ok(()),
        }
    }
}

/// The progress with which a deed begins.
fn opening_of(key: u64, deed: Deed) -> Progress
    ensures phase { (V : ℕ) (xs : Written V) → phase_at {V = V} xs result ≡ first_phase key deed }
    ensures count { count_at result ≡ 0 }
    ensures slot { fresh_slot result ≡ 0 }
{
    match deed {
        Deed::Fill => Progress::Filling(key),
        Deed::Renew => Progress::Renewing(key, 0),
        Deed::Remove => Progress::Removing(key, false),
        Deed::Evict => Progress::Removing(key, true),
        Deed::Move => Progress::Moving(key),
    }
}
