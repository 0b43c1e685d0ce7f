//! How the writer leaves its desk for a turn, and comes back. No other file can take a turn apart, so the writer of a turn goes nowhere else.
ghost use Rattle.std.specs.Prelude.{◌≡◌, IfSome};
ghost use Rattle.std.specs.Borrow.{sem};
ghost use Rattle.mc_cache.specs.Resting.{IsFit};

use super::Desk;
use crate::writer::Writer;
use counted_slot::TAKEN;

// The words of the slot. The high half says whether the writer is there.
const HOME: u64 = 0;

const AWAY: u64 = 0x1_0000_0000;

// The writer, while a turn has it. It is not `Drop`: a turn that forgets to give it back does not compile.
pub(super) struct Turn<const V: usize> {
    writer: Writer<V>,
}

impl<const V: usize> Turn<V> {
    ghost use Rattle.mc_cache.specs.Inside.Taken.{LendsWriter};

    // The writer, for the call of this turn.
    #[inline(always)]
    pub(super) fn writer(&mut self) -> &mut Writer<V>
        ensures* writes_back { sem 𝓛 (LendsWriter V.row self.entry result) }
        ensures value { result.now ≡ self.old.writer }
    {
        &mut self.writer
    }
}

impl<const V: usize> Desk<V> {
    // Takes the writer if it is there and the try wins. A word that says it is not there is left alone, so that a turn which gives it back
    // is not in the way.
    pub(super) fn take(&self) -> Option<Turn<V>>
        ensures { IfSome result (λ turn. IsFit V self.now turn.writer) }
    {
        if self.slot.load() != HOME {
            return None;
        }
        let (found, claim) = self.slot.turn(HOME, TAKEN);
        if found != HOME {
            claim.done();
            return None;
        }
        match claim.put(None, AWAY) {
            Some(writer) => Some(Turn { writer }),
            None => None,
        }
    }

    // Tries once to give the writer back. If the try does not win, the writer is dropped.
    pub(super) fn give(&self, turn: Turn<V>)
        requires { turn.writer.of ≡ self.now }
    {
        let Turn { writer } = turn;
        writer.known();
        let (found, claim) = self.slot.turn(AWAY, AWAY + TAKEN);
        if found == AWAY {
            let _ = claim.put(Some(writer), HOME);
        } else {
            claim.done();
        }
    }
}
