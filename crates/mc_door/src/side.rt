//! A side of a cache, for values of this many words.
ghost use Rattle.std.specs.Prelude.{◌≡◌};
ghost use Rattle.mc_door.specs.declared.side.Hand.TheVariants as hands;

use crate::holder_side::HolderSide;
use crate::pass_side::PassSide;

/// How a side writes: it tries for turns, or holds them all.
#[derive(Drop)]
pub enum Hand<const V: usize> {
    Pass(PassSide<V>),
    Holder(HolderSide<V>),
    /// It fills the place of the one that a call has taken out.
    Nothing,
}

/// What a handle is for.
#[derive(Drop)]
pub struct Side<const V: usize> {
    pub hand: Hand<V>,
    ghost there: { ¬ (hand ≡ hands.Nothing) },
}
