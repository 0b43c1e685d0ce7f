//! The writer of a world makes its acts.
use crate::parts::Parts;
use crate::parts::bits::{bit_of, mark};
use mc_theory::{Act, Stepped, Unlawful, given_by};

impl<const V: usize> Parts<V> {
    ghost use Rattle.std.specs.Prelude.{◌≡◌, ◌+◌, ◌-◌, ◌^◌, ◌<◌, ◌≤◌, ◌↔◌, IfOk, IfErr, IsTrue};
    ghost use Rattle.mc_theory.specs.Traces as traces;
    ghost use Rattle.mc_theory.specs.Traces.{HasVersionSteps};
    ghost use Rattle.mc_core.specs.Inside.Parts.{shape_of_parts, StandFor, MakesEvent, PartsRefuse};
    ghost use Rattle.mc_theory.specs.declared.event.Event.TheVariants as event;

    /// Whether the act passes no limit.
    fn is_within(&self, act: Act) -> bool
        requires { self.now.writer.version_steps ≤ 2 ^ 62 }
        ensures { IsTrue result ↔ ((self.now.events < 2 ^ 64 - 1) × HasVersionSteps (shape_of_parts {V = V} self.now).limit self.now.writer.version_steps act) }
    {
        if self.events == u64::MAX {
            return false;
        }
        match act {
            Act::Open(_, _) => self.writer.version_steps + 2
                <= self.writer.table.checked.shape().limit,
            _ => true,
        }
    }

    /// The writer makes an act, if it is lawful.
    pub(crate) fn write(&mut self, act: Act) -> Result<Stepped<V>, Unlawful>
        requires { (seen : traces.Trace V) × StandFor {V = V} self.old seen }
        ensures made { IfOk result (λ out. MakesEvent {V = V} self.old self.new (event.Write act) out) }
        ensures refused { IfErr result (λ why. PartsRefuse {V = V} self.old self.new (event.Write act) why) }
    {
        if !self.writer.allows(act) {
            return Err(Unlawful::NotLawful);
        }
        if !self.is_within(act) {
            return Err(Unlawful::Limit);
        }
        let bit = bit_of(&self.bits, act);
        if self.writer.make(act, bit).is_err() {
            return Err(Unlawful::NoMemory);
        }
        mark(&mut self.bits, act);
        self.events += 1;
        Ok(given_by(act, bit))
    }
}
