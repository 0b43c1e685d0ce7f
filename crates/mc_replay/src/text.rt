//! A text that grows line by line.
ghost use Rattle.std.specs.Prelude.{◌≡◌, ◌++◌, ◌∷◌, [], IfSome, OnOk, OnErr, Err, string_bytes};
ghost use Rattle.mc_replay.specs.declared.fault.Fault.TheVariants.{NoMemory};

use crate::fault::Fault;
use std::fmt;

/// Adds a line.
pub(crate) fn add_line<L: fmt::Display>(text: &mut String, line: &L) -> Result<(), Fault>
    ensures ok { OnOk result (IfSome (L.output line.now) (λ out. string_bytes text.new ≡ string_bytes text.old ++ (out ++ 10 ∷ []))) }
    ensures err { OnErr result (result ≡ Err NoMemory) }
{
    match writeln!(text, "{line}") {
        Ok(()) => Ok(()),
        Err(_) => Err(Fault::NoMemory),
    }
}
