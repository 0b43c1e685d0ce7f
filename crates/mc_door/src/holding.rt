//! A handle takes the turn of every shard and holds them, or gives them back.
ghost use Rattle.std.specs.Prelude.{◌≡◌, MatchBool, MatchResult};
ghost use Rattle.mc_door.specs.AnySides.{role_in, width_of};
ghost use Rattle.mc_door.specs.Held.{BeginsToHold, HasReleased, IsHolding, RefusesToHold};
ghost use Rattle.mc_door.specs.Roles.{role_of};

use crate::any_side::AnySide;
use crate::holder_side::HolderSide;
use crate::pass_side::PassSide;
use crate::side::{Hand, Side};
use crate::with_side;
use std::mem::replace;

/// Why a handle does not take the turns. Nothing was changed.
#[derive(Clone, Copy, Debug, PartialEq, Eq)]
pub enum HoldError {
    /// It holds them already.
    Holds,
    /// One of the tries did not win.
    Held,
}

impl<const V: usize> Side<V> {
    /// Takes the turn of every shard and holds it: `Pass::hold`.
    pub(crate) fn hold(&mut self) -> Result<(), HoldError>
        ensures { MatchResult result (λ _. BeginsToHold V (role_of self.old) (role_of self.new)) (λ why. RefusesToHold (role_of self.old) why × (role_of self.new ≡ role_of self.old)) }
    {
        if !matches!(&self.hand, Hand::Pass(_)) {
            return Err(HoldError::Holds);
        }
        let Hand::Pass(PassSide { shared, pass }) = replace(&mut self.hand, Hand::Nothing) else {
            unreachable!()
        };
        match pass.hold(&shared.shards) {
            Ok(holder) => {
                self.hand = Hand::Holder(HolderSide { shared, holder });
                Ok(())
            }
            Err(pass) => {
                self.hand = Hand::Pass(PassSide { shared, pass });
                Err(HoldError::Held)
            }
        }
    }

    /// Gives the turn of every shard back: `Holder::release`. Returns whether there were any.
    pub(crate) fn release(&mut self) -> bool
        ensures { MatchBool result (HasReleased V (role_of self.old) (role_of self.new)) ((¬ IsHolding (role_of self.old)) × (role_of self.new ≡ role_of self.old)) }
    {
        if !matches!(&self.hand, Hand::Holder(_)) {
            return false;
        }
        let Hand::Holder(side) = replace(&mut self.hand, Hand::Nothing) else {
            unreachable!()
        };
        let (shared, pass) = side.release();
        self.hand = Hand::Pass(PassSide { shared, pass });
        true
    }
}

impl AnySide {
    /// Takes the turn of every shard and holds it. `Err` changes nothing.
    pub fn hold(&mut self) -> Result<(), HoldError>
        ensures width { width_of self.new ≡ width_of self.old }
        ensures held { MatchResult result (λ _. BeginsToHold (width_of self.old) (role_in self.old) (role_in self.new)) (λ why. RefusesToHold (role_in self.old) why × (role_in self.new ≡ role_in self.old)) }
    {
        with_side!(self, side => side.hold())
    }

    /// Gives the turn of every shard back, and returns whether it held them.
    pub fn release(&mut self) -> bool
        ensures width { width_of self.new ≡ width_of self.old }
        ensures released { MatchBool result (HasReleased (width_of self.old) (role_in self.old) (role_in self.new)) ((¬ IsHolding (role_in self.old)) × (role_in self.new ≡ role_in self.old)) }
    {
        with_side!(self, side => side.release())
    }
}
