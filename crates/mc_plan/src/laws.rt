//! The laws of plans, one function each. A body does nothing: what it ensures is the law.
ghost use Rattle.mc_plan.specs.Due.{DueActsCanBeMade, PlansAreDue, PlansEndCalls, SweepsCanRead};
ghost use Rattle.mc_plan.specs.Moves.{MovesMakeRoom};
ghost use Rattle.mc_plan.specs.Puts.{PutsMakeRoom};
ghost use Rattle.mc_plan.specs.Replacing.{EvictionsMakeRoom};
ghost use Rattle.mc_plan.specs.Laws.{FillsPut, RenewalsPut, RemovalsTakeOut, EvictionsTakeOut, MovesKeepTheMap};

/// If a key has room, the acts of a fill are allowed, and put the key.
pub fn fills_put<const V: usize>()
    ensures { FillsPut V }
{}

/// If a key is at the item, the acts of a renewal are allowed, and put its new value.
pub fn renewals_put<const V: usize>()
    ensures { RenewalsPut V }
{}

/// If a key is in the slot, the acts of a removal are allowed, and take it out.
pub fn removals_take_out<const V: usize>()
    ensures { RemovalsTakeOut V }
{}

/// If a key is in the slot, at the item whose bit the hand found clear, the acts of an eviction are allowed, and take it out.
pub fn evictions_take_out<const V: usize>()
    ensures { EvictionsTakeOut V }
{}

/// If a key can move, the acts of a move are allowed, and the map stays as it was.
pub fn moves_keep_the_map<const V: usize>()
    ensures { MovesKeepTheMap V }
{}

/// If a chain leads from the key to a hole, its moves from the end backwards are allowed one after the other, and make room where it
/// begins.
pub fn moves_make_room<const V: usize>()
    ensures { MovesMakeRoom V }
{}

/// Let a key be absent, an item free, and let a chain lead from the key to a hole. Then the moves of the chain and a fill of its first
/// place are allowed one after the other, and put the key.
pub fn puts_make_room<const V: usize>()
    ensures { PutsMakeRoom V }
{}

/// Let a key be absent, another one be at the item whose bit the hand found clear, and let a chain lead from the key to a hole. Then these
/// are allowed one after the other: the eviction of the other key, the moves of the chain up to that key's slot, and a fill of its first
/// place. They take the other key out and put the key.
pub fn evictions_make_room<const V: usize>()
    ensures { EvictionsMakeRoom V }
{}

/// The acts of a plan are due in the state where it was made: they are allowed one after the other, and end quiet and within the limit.
pub fn plans_are_due<const V: usize>()
    ensures { PlansAreDue V }
{}

/// The act that is due next is allowed, and once it is made the others are due. So a writer that makes a plan's acts in their order needs no list of them.
pub fn due_acts_can_be_made<const V: usize>()
    ensures { DueActsCanBeMade V }
{}

/// While the hand looks for an item, the readings that it made were allowed one after the other, and so is its next one.
pub fn sweeps_can_read<const V: usize>()
    ensures { SweepsCanRead V }
{}

/// A sweep and then all acts of a plan are a whole call with the plan's answer, and the books are those of the state after it.
pub fn plans_end_calls<const V: usize>()
    ensures { PlansEndCalls V }
{}
