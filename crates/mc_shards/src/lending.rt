//! The place of a shard's writer. A pass that wins the place's word borrows the writer in place, so no turn moves it.
ghost use Rattle.std.specs.Prelude.{◌≡◌, ⊤, IfSome};
ghost use Rattle.mc_shards.specs.Lending.{HasTaken, IsKept};

use atomic_table::{Play, Seat, Shared, TableRule};
use mc_cache::Writer;
use std::snapshot::Snapshot;

// The word while the writer is there.
pub(crate) const FREE: u64 = 0;

// The word while a turn has the writer.
const LENT: u64 = 1;

// Only the first word is used. The others fill the rest of its cache line, so the words of two shards never share one.
pub(crate) const WORDS: usize = 16;

/// The rule of the word: while it is 0, the writer is there and at rest. It is the writer of the key's table.
pub(crate) struct LiesThere;

// The right to a lent writer. It is not `Drop`: a turn that forgets to give it back does not compile. No other file can take it apart.
pub(crate) struct Turn<const V: usize> {
    seat: Seat<Writer<V>, Snapshot<Writer<V>>>,
}

impl<const V: usize> Turn<V> {
    ghost use Rattle.std.specs.Borrow.{sem};
    ghost use Rattle.std.specs.Prelude.{◌∷◌};
    ghost use Rattle.atomic_table.specs.Table.{rest};
    ghost use Rattle.mc_shards.specs.Inside.Taken.{LendsWriter};

    // The writer where it lies, for the call of this turn.
    #[inline(always)]
    pub(crate) fn writer<'a>(
        &'a mut self,
        shared: &'a Shared<Writer<V>, Snapshot<Writer<V>>, Snapshot<Writer<V>>, LiesThere>,
    ) -> &'a mut Writer<V>
        requires turn { (self.old.seat.table_id ≡ shared.now.table_id) × HasTaken V self.old.seat.me }
        ensures* writes_back { sem 𝓛 (LendsWriter V.row self.entry result) }
        ensures value { self.old.seat.me.1 ≡ (0, result.now) ∷ rest self.old.seat.me.1 }
    {
        self.seat.slot_mut(shared, 0)
    }
}

impl<const V: usize> TableRule<Writer<V>, Snapshot<Writer<V>>, Snapshot<Writer<V>>> for LiesThere {
    ghost holds = { λ key s. IsKept V key.value.of s };

    ghost first = { λ key. key };
}

// A new seat loads the word.
struct Comes;

impl<const V: usize> Play<Writer<V>, Snapshot<Writer<V>>> for Comes {
    ghost then = { λ step before found after. after.0 ≡ before.0 };
}

// A seat tries to take the writer.
struct Takes;

impl<const V: usize> Play<Writer<V>, Snapshot<Writer<V>>> for Takes {
    ghost then = { λ step before found after. found ≡ 0 → (after.0 ≡ before.0) × HasTaken V after };
}

// A seat gives the writer back.
struct Gives;

impl<const V: usize> Play<Writer<V>, Snapshot<Writer<V>>> for Gives {
    ghost then = { λ step before found after. ⊤ };
}

// Takes the writer if it is there and the try wins. A word that says it is lent is not written.
#[inline(always)]
pub(crate) fn take<const V: usize>(
    shared: &Shared<Writer<V>, Snapshot<Writer<V>>, Snapshot<Writer<V>>, LiesThere>,
) -> Option<Turn<V>>
    requires sized { (shared.now.table_id.words ≡ 16) × (shared.now.table_id.slots ≡ 1) }
    ensures { IfSome result (λ turn. (turn.seat.table_id ≡ shared.now.table_id) × (turn.seat.me.0 ≡ shared.now.key) × HasTaken V turn.seat.me) }
{
    let (found, mut seat) = shared.load_new_seat::<Comes>(0);
    if found != FREE {
        return None;
    }
    if shared.compare_exchange::<Takes>(&mut seat, 0, FREE, LENT) != FREE {
        return None;
    }
    Some(Turn { seat })
}

// Gives the writer back. Nobody else writes the word meanwhile, so this one store does it.
#[inline(always)]
pub(crate) fn give<const V: usize>(
    shared: &Shared<Writer<V>, Snapshot<Writer<V>>, Snapshot<Writer<V>>, LiesThere>,
    turn: Turn<V>,
)
    requires sized { (shared.now.table_id.words ≡ 16) × (shared.now.table_id.slots ≡ 1) }
    requires turn { (turn.seat.table_id ≡ shared.now.table_id) × (turn.seat.me.0 ≡ shared.now.key) × HasTaken V turn.seat.me }
{
    let Turn { mut seat } = turn;
    shared.store::<Gives>(&mut seat, 0, FREE);
}
