//! The readers of a world begin lookups and make their accesses.
ghost use Rattle.std.specs.Prelude.{◌≡◌, Some, IsSome};
ghost use Rattle.mc_lookup.specs.Machine.{next_access, shape_for};
ghost use Rattle.mc_theory.specs.Writes.{IsAccess};

use crate::parts::Parts;
use crate::parts::bits::mark_read;
use crate::reader::Reader;
use mc_lookup::Lookup;
use mc_theory::{Access, Done, Stepped, Unlawful};

impl<const V: usize> Parts<V> {
    ghost use Rattle.std.specs.Prelude.{◌≡◌, ◌-◌, ◌^◌, ◌<◌, Some, IfOk, IfErr, slice_get};
    ghost use Rattle.mc_core.specs.Inside.Parts.{StandFor, MakesEvent, PartsRefuse};
    ghost use Rattle.mc_theory.specs.Traces as traces;
    ghost use Rattle.mc_theory.specs.declared.event.Event.TheVariants as event;

    /// A reader begins a lookup of a key.
    pub(crate) fn begin(&mut self, reader: u32, key: u64) -> Result<Stepped<V>, Unlawful>
        requires { (seen : traces.Trace V) × StandFor {V = V} self.old seen }
        ensures made { IfOk result (λ out. MakesEvent {V = V} self.old self.new (event.Begin reader key) out) }
        ensures refused { IfErr result (λ why. PartsRefuse {V = V} self.old self.new (event.Begin reader key) why) }
    {
        let at = reader as usize;
        if at >= self.readers.len() {
            return Err(Unlawful::NoReader);
        }
        if self.readers[at].is_some() {
            return Err(Unlawful::StillRunning);
        }
        if self.events == u64::MAX {
            return Err(Unlawful::Limit);
        }
        let lookup = Lookup::begin(&self.writer.table.checked, key);
        self.readers[at] = Some(Reader {
            lookup,
            first: None,
        });
        self.events += 1;
        Ok(Stepped::Nothing)
    }

    /// A reader makes its next access.
    pub(crate) fn read(&mut self, reader: u32) -> Result<Stepped<V>, Unlawful>
        requires { (seen : traces.Trace V) × StandFor {V = V} self.old seen }
        ensures made { IfOk result (λ out. MakesEvent {V = V} self.old self.new (event.Read reader) out) }
        ensures refused { IfErr result (λ why. PartsRefuse {V = V} self.old self.new (event.Read reader) why) }
    {
        let at = reader as usize;
        if at >= self.readers.len() {
            return Err(Unlawful::NoReader);
        }
        let Some(running) = self.readers[at] else {
            return Err(Unlawful::NotLawful);
        };
        if self.events == u64::MAX {
            return Err(Unlawful::Limit);
        }
        Ok(self.access(reader, running))
    }

    /// The next access of a lookup that runs.
    fn access(&mut self, reader: u32, running: Reader<V>) -> Stepped<V>
        requires running { slice_get self.old.readers.items reader ≡ Some (Some running) }
        requires events { self.old.events < 2 ^ 64 - 1 }
        requires stands { (seen : traces.Trace V) × StandFor {V = V} self.old seen }
        ensures { MakesEvent {V = V} self.old self.new (event.Read reader) result }
    {
        let Reader { mut lookup, first } = running;
        let access = next_access(&lookup);
        let word = self.writer.table.read(access);
        lookup.after(word);
        mark_read(&mut self.bits, access);
        let last = self.events;
        let first = first.unwrap_or(last);
        self.events += 1;
        match lookup.reply() {
            Some(reply) => {
                self.readers[reader as usize] = None;
                let key = lookup.key();
                Stepped::Done(Done {
                    reader,
                    key,
                    reply,
                    first,
                    last,
                })
            }
            None => {
                self.readers[reader as usize] = Some(Reader {
                    lookup,
                    first: Some(first),
                });
                Stepped::Word(word)
            }
        }
    }
}

/// The access that comes next in a lookup that hasn't ended.
fn next_access<const V: usize>(lookup: &Lookup<V>) -> Access
    requires { IsSome (next_access {V = V} lookup.now) }
    ensures next { next_access {V = V} lookup.now ≡ Some result }
    ensures range { IsAccess V (shape_for {V = V} lookup.now) result }
{
    match lookup.next() {
        Some(access) => access,
        None => unreachable!(),
    }
}
