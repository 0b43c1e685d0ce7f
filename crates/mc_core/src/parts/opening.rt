//! The parts of a new world.
use crate::parts::Parts;
use crate::writer::Writer;
use mc_words::Checked;
use std::alloc::{AllocError, Global};

impl<const V: usize> Parts<V> {
    ghost use Rattle.std.specs.Prelude.{◌≡◌, IfOk};
    ghost use Rattle.mc_words.specs.Checks.{shape_of};
    ghost use Rattle.mc_words.specs.Places.{IsWidth};
    ghost use Rattle.mc_core.specs.Inside.Parts.{shape_of_parts, StandFor};
    ghost use Rattle.mc_theory.specs.Traces.{first_trace};

    /// The parts of a new world with `readers` readers.
    pub(crate) fn new(
        alloc: Global,
        checked: &Checked,
        readers: u32,
    ) -> Result<Parts<V>, AllocError>
        requires { IsWidth V }
        ensures { IfOk result (λ p. (shape_of_parts {V = V} p ≡ shape_of checked.now) × StandFor {V = V} p (first_trace V (shape_of checked.now) readers)) }
    {
        let writer = Writer::new(alloc, checked)?;
        let mut bits = Vec::new(alloc);
        bits.resize(checked.shape().items as usize, 0)?;
        let mut lookups = Vec::new(alloc);
        lookups.resize(readers as usize, None)?;
        Ok(Parts {
            writer,
            bits,
            readers: lookups,
            events: 0,
        })
    }
}
