//! Writing a slot, one function for each place in a deed where a slot is written.
ghost use Rattle.std.specs.Prelude.{◌≡◌, ℕ};
ghost use Rattle.mc_theory.specs.Acts.{IsAllowed};
ghost use Rattle.mc_theory.specs.Inner.{StateHolds};
ghost use Rattle.mc_core.specs.Inside.Writers.{shape_of_writer, state_in, UsedWell, IsMade};
ghost use Rattle.mc_theory.specs.declared.act.Act.{Act};
ghost use Rattle.mc_core.specs.declared.progress.Progress.{Progress};

use crate::progress::Progress;
use crate::writer::Writer;
use mc_theory::Act;
use mc_words::Place;

impl<const V: usize> Writer<V> {
    /// A slot names the item of a fill from now on.
    pub(crate) fn place_item(&mut self, key: u64, i: u32, count: u8, place: Place, word: u64)
        requires running { self.old.progress ≡ Progress.Keyed key i count }
        requires holds { StateHolds (shape_of_writer {V = V} self.old) (state_in {V = V} self.old) }
        requires used { UsedWell {V = V} self.old.table }
        requires may { IsAllowed (shape_of_writer {V = V} self.old) (state_in {V = V} self.old) (Act.Slot place word) }
        ensures { (bit : ℕ) → IsMade {V = V} self.old self.new (Act.Slot place word) bit }
    {
        self.table.set_slot(place, word);
        self.table.used[i as usize] = true;
        self.table.free -= 1;
        self.progress = Progress::Placed(key, i);
    }

    /// No slot names the item of a removed key from now on.
    pub(crate) fn clear_slot(&mut self, key: u64, evicts: bool, place: Place, word: u64)
        requires running { self.old.progress ≡ Progress.Removing key evicts }
        requires holds { StateHolds (shape_of_writer {V = V} self.old) (state_in {V = V} self.old) }
        requires used { UsedWell {V = V} self.old.table }
        requires may { IsAllowed (shape_of_writer {V = V} self.old) (state_in {V = V} self.old) (Act.Slot place word) }
        ensures { (bit : ℕ) → IsMade {V = V} self.old self.new (Act.Slot place word) bit }
    {
        if let Some(i) = self.table.stands(place, key) {
            self.table.set_slot(place, word);
            self.table.used[i as usize] = false;
            self.table.free += 1;
            self.progress = Progress::Removed(key, evicts);
        }
    }

    /// A second slot names the item of a key that moves.
    pub(crate) fn copy_slot(&mut self, key: u64, place: Place, word: u64)
        requires running { self.old.progress ≡ Progress.Moving key }
        requires holds { StateHolds (shape_of_writer {V = V} self.old) (state_in {V = V} self.old) }
        requires used { UsedWell {V = V} self.old.table }
        requires may { IsAllowed (shape_of_writer {V = V} self.old) (state_in {V = V} self.old) (Act.Slot place word) }
        ensures { (bit : ℕ) → IsMade {V = V} self.old self.new (Act.Slot place word) bit }
    {
        self.table.set_slot(place, word);
        self.progress = Progress::Moved(key, place);
    }

    /// The old slot of a key that moved names nothing from now on.
    pub(crate) fn leave_slot(&mut self, key: u64, fresh: Place, place: Place, word: u64)
        requires running { self.old.progress ≡ Progress.Moved key fresh }
        requires holds { StateHolds (shape_of_writer {V = V} self.old) (state_in {V = V} self.old) }
        requires used { UsedWell {V = V} self.old.table }
        requires may { IsAllowed (shape_of_writer {V = V} self.old) (state_in {V = V} self.old) (Act.Slot place word) }
        ensures { (bit : ℕ) → IsMade {V = V} self.old self.new (Act.Slot place word) bit }
    {
        self.table.set_slot(place, word);
        self.progress = Progress::Closing(key);
    }

    /// Writes a slot as the running deed asks.
    pub(crate) fn write_slot(&mut self, place: Place, word: u64)
        requires holds { StateHolds (shape_of_writer {V = V} self.old) (state_in {V = V} self.old) }
        requires used { UsedWell {V = V} self.old.table }
        requires may { IsAllowed (shape_of_writer {V = V} self.old) (state_in {V = V} self.old) (Act.Slot place word) }
        ensures { (bit : ℕ) → IsMade {V = V} self.old self.new (Act.Slot place word) bit }
    {
        match self.progress {
            Progress::Keyed(key, i, count) => self.place_item(key, i, count, place, word),
            Progress::Removing(key, evicts) => self.clear_slot(key, evicts, place, word),
            Progress::Moving(key) => self.copy_slot(key, place, word),
            Progress::Moved(key, fresh) => self.leave_slot(key, fresh, place, word),
            _ => {}
        }
    }
}
