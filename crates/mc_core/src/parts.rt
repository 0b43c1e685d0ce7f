//! The parts of a world, which only its own calls see. Each event is one atomic step.
ghost use Rattle.std.specs.Prelude.{◌≡◌, ◌<◌, ◌^◌, length};
ghost use Rattle.mc_core.specs.Inside.Writers.{shape_of_writer};

use crate::reader::Reader;
use crate::writer::Writer;
use mc_theory::{Event, Stepped, Unlawful};

mod bits;
mod lists;
mod opening;
mod reads;
mod writes;

#[derive(Drop)]
pub(crate) struct Parts<const V: usize> {
    pub(crate) writer: Writer<V>,
    /// The recency bits, by item.
    pub(crate) bits: Vec<u64>,
    /// For each reader, its lookup while one runs.
    pub(crate) readers: Vec<Option<Reader<V>>>,
    pub(crate) events: u64,
    ghost marked: { length bits.items ≡ (shape_of_writer writer).items },
    ghost countable: { length readers.items < 2 ^ 32 },
}

impl<const V: usize> Parts<V> {
    ghost use Rattle.std.specs.Prelude.{IfOk, IfErr};
    ghost use Rattle.mc_theory.specs.Traces as traces;
    ghost use Rattle.mc_core.specs.Inside.Parts.{StandFor, MakesEvent, PartsRefuse};

    /// Makes the event, if it is lawful.
    pub(crate) fn step(&mut self, event: Event) -> Result<Stepped<V>, Unlawful>
        requires { (seen : traces.Trace V) × StandFor {V = V} self.old seen }
        ensures made { IfOk result (λ out. MakesEvent {V = V} self.old self.new event out) }
        ensures refused { IfErr result (λ why. PartsRefuse {V = V} self.old self.new event why) }
    {
        match event {
            Event::Write(act) => self.write(act),
            Event::Begin(reader, key) => self.begin(reader, key),
            Event::Read(reader) => self.read(reader),
        }
    }
}
