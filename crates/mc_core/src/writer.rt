//! The writer of a world: its state, and which act it may make next.
ghost use Rattle.std.specs.Prelude.{◌≡◌, ◌<◌, ◌≤◌};
ghost use Rattle.std.specs.Prelude.{◌↔◌, IsTrue};
ghost use Rattle.mc_words.specs.Places.{payload};
ghost use Rattle.mc_theory.specs.declared.act.Act.{Act};
ghost use Rattle.mc_core.specs.Inside.Progresses.{count_at, fresh_slot};

use crate::progress::Progress;
use crate::table::Table;
use crate::written::Written;
use mc_theory::Act;
use mc_words::{Change, Checked};
use std::alloc::{AllocError, Global};

mod allowed;
mod made;
mod slots;

#[derive(Drop)]
pub(crate) struct Writer<const V: usize> {
    pub(crate) table: Table<V>,
    pub(crate) progress: Progress,
    pub(crate) written: Written<V>,
    pub(crate) hand: u32,
    pub(crate) cleared: Option<u32>,
    pub(crate) history: Vec<Change<V>>,
    pub(crate) version_steps: u64,
    ghost count_in: { count_at progress ≤ payload V },
    ghost slot_in: { fresh_slot progress < 4 },
}

impl<const V: usize> Writer<V> {
    ghost use Rattle.mc_theory.specs.Acts.{IsAllowed, IsAllowedByClock};
    ghost use Rattle.std.specs.Prelude.{◌^◌, IfOk, OnOk, OnErr};
    ghost use Rattle.mc_words.specs.Checks.{shape_of};
    ghost use Rattle.mc_words.specs.Places.{IsWidth};
    ghost use Rattle.mc_theory.specs.States.{opening};
    ghost use Rattle.mc_theory.specs.Inner.{StateHolds, StateCounted};
    ghost use Rattle.mc_core.specs.Inside.Writers.{shape_of_writer, room_of, state_in, UsedWell, IsMade, KeepsWriter};

    /// The writer of a new world.
    pub(crate) fn new(alloc: Global, checked: &Checked) -> Result<Writer<V>, AllocError>
        requires { IsWidth V }
        ensures { IfOk result (λ w. (shape_of_writer {V = V} w ≡ shape_of checked.now) ×
            (state_in {V = V} w ≡ opening V (shape_of checked.now)) × UsedWell {V = V} w.table) }
    {
        let table = Table::new(alloc, checked)?;
        Ok(Writer {
            table,
            progress: Progress::Quiet,
            written: Written::none(),
            hand: 0,
            cleared: None,
            history: Vec::new(alloc),
            version_steps: 0,
        })
    }

    /// Whether the act is allowed now, in CLOCK's order.
    pub(crate) fn allows(&self, act: Act) -> bool
        requires holds { StateHolds (shape_of_writer {V = V} self.now) (state_in {V = V} self.now) }
        requires used { UsedWell {V = V} self.now.table }
        ensures { IsTrue result ↔ IsAllowedByClock (shape_of_writer {V = V} self.now) (state_in {V = V} self.now) act }
    {
        self.may_make(act) && self.keeps_clock(act)
    }

    /// Whether the act is allowed now, in whatever order the hand goes.
    fn may_make(&self, act: Act) -> bool
        requires holds { StateHolds (shape_of_writer {V = V} self.now) (state_in {V = V} self.now) }
        requires used { UsedWell {V = V} self.now.table }
        ensures { IsTrue result ↔ IsAllowed (shape_of_writer {V = V} self.now) (state_in {V = V} self.now) act }
    {
        match self.progress {
            Progress::Quiet => self.may_when_quiet(act),
            Progress::Filling(key) => self.may_key(key, act),
            Progress::Keyed(key, item, count) => self.may_fill(key, item, count, act),
            Progress::Placed(_, _) | Progress::Removed(_, _) => act == Act::Moment,
            Progress::Renewing(key, count) => self.may_renew(key, count, act),
            Progress::Removing(key, evicts) => self.may_clear(key, evicts, act),
            Progress::Moving(key) => self.may_move(key, act),
            Progress::Moved(key, fresh) => self.may_leave(key, fresh, act),
            Progress::Closing(_) => act == Act::Close,
        }
    }

    /// Makes an act that is allowed; `bit` is what the hand reads. There may be no memory for the change that a `Moment` counts.
    pub(crate) fn make(&mut self, act: Act, bit: u64) -> Result<(), AllocError>
        requires holds { StateHolds (shape_of_writer {V = V} self.old) (state_in {V = V} self.old) }
        requires used { UsedWell {V = V} self.old.table }
        requires hand { self.old.hand < (shape_of_writer {V = V} self.old).items }
        requires counted { StateCounted (shape_of_writer {V = V} self.old) (state_in {V = V} self.old) }
        requires version_steps { self.old.version_steps ≤ 2 ^ 62 }
        requires may { IsAllowed (shape_of_writer {V = V} self.old) (state_in {V = V} self.old) act }
        ensures ok { OnOk result (IsMade {V = V} self.old self.new act bit) }
        ensures err { OnErr result (KeepsWriter {V = V} self.old self.new × (act ≡ Act.Moment)) }
        ensures full { OnErr result (room_of {V = V} self.old ≡ 0) }
    {
        match act {
            Act::Open(key, deed) => self.open_deed(key, deed),
            Act::Slot(place, word) => self.write_slot(place, word),
            Act::Item(i, j, word) => self.write_item(i, j, word),
            Act::Moment => return self.count_moment(),
            Act::Close => self.close_deed(),
            Act::Hand(i) => self.turn_hand(i, bit),
            Act::Mark(_) => {}
        }
        Ok(())
    }
}
