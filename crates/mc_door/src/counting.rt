//! The keys are counted, by a holder, or by a pass in a turn at each shard; and so are the changes.
ghost use Rattle.std.specs.Prelude.{◌≡◌, MatchOption};
ghost use Rattle.mc_cache.specs.declared.desk.DeskError.TheVariants as desk;
ghost use Rattle.mc_door.specs.AnySides.{role_in, width_of};
ghost use Rattle.mc_door.specs.Counting.{Counts};
ghost use Rattle.mc_door.specs.Held.{IsHeldOff, IsHolding};
ghost use Rattle.mc_door.specs.Listing.{HasStoppedList, SeesMore};
ghost use Rattle.mc_door.specs.Means.{MomentIs};
ghost use Rattle.mc_door.specs.Roles.{role_of};

use crate::any_side::AnySide;
use crate::side::{Hand, Side};
use crate::with_side;

impl<const V: usize> Side<V> {
    fn len(&mut self) -> Option<u64>
        ensures { MatchOption result (HasStoppedList V desk.Held (role_of self.old) (role_of self.new)) (Counts V (role_of self.old) (role_of self.new)) }
    {
        let many = match &mut self.hand {
            Hand::Pass(side) => side.pass.try_len(&side.shared.shards)?,
            Hand::Holder(side) => side.holder.len(&side.shared.shards),
            Hand::Nothing => unreachable!(),
        };
        Some(many as u64)
    }

    // The number of changes, by a side that holds. `None` by another.
    fn moment_held(&mut self) -> Option<u64>
        ensures same { role_of self.new ≡ role_of self.old }
        ensures known { MatchOption result (¬ IsHolding (role_of self.old)) (λ n. IsHolding (role_of self.old) × MomentIs V (role_of self.old) n) }
    {
        match &mut self.hand {
            Hand::Holder(side) => Some(side.holder.moment(&side.shared.shards)),
            _ => None,
        }
    }

    // The number of changes. A side that holds no turns takes them for this.
    fn moment(&mut self) -> Option<u64>
        ensures { MatchOption result (IsHeldOff (role_of self.old) (role_of self.new)) (λ n. SeesMore V (role_of self.old) (role_of self.new) × MomentIs V (role_of self.new) n) }
    {
        if let Some(known) = self.moment_held() {
            return Some(known);
        }
        if self.hold().is_err() {
            return None;
        }
        let known = self.moment_held();
        self.release();
        known
    }
}

impl AnySide {
    /// How many keys the cache holds. `None` if a try for a turn did not win.
    pub fn len(&mut self) -> Option<u64>
        ensures width { width_of self.new ≡ width_of self.old }
        ensures counted { MatchOption result (HasStoppedList (width_of self.old) desk.Held (role_in self.old) (role_in self.new)) (Counts (width_of self.old) (role_in self.old) (role_in self.new)) }
    {
        with_side!(self, side => side.len())
    }

    /// The number of changes made to the map. `None` if a try for a turn did not win.
    pub fn moment(&mut self) -> Option<u64>
        ensures width { width_of self.new ≡ width_of self.old }
        ensures told { MatchOption result (IsHeldOff (role_in self.old) (role_in self.new)) (λ n. SeesMore (width_of self.old) (role_in self.old) (role_in self.new) × MomentIs (width_of self.old) (role_in self.new) n) }
    {
        with_side!(self, side => side.moment())
    }
}
