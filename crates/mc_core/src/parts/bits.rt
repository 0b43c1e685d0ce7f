//! The recency bits of a world, by item: what an act or an access reads of them and sets.
ghost use Rattle.std.specs.Prelude.{◌≡◌, ◌<◌, length};
ghost use Rattle.mc_core.specs.Inside.Seen.{ReadsIn, MarksIn};
ghost use Rattle.mc_theory.specs.Traces.{bit_of, bits_after, bits_read};

use mc_theory::{Access, Act};

/// The bit that the act reads.
pub(crate) fn bit_of(bits: &Vec<u64>, act: Act) -> u64
    requires { ReadsIn (length bits.now.items) act }
    ensures { result ≡ bit_of bits.now.items act }
{
    if let Act::Hand(i) = act {
        bits[i as usize]
    } else {
        0
    }
}

/// Sets or clears the bit as the act does.
pub(crate) fn mark(bits: &mut Vec<u64>, act: Act)
    requires { ReadsIn (length bits.old.items) act }
    ensures bits { bits.new.items ≡ bits_after bits.old.items act }
    ensures many { length bits.new.items ≡ length bits.old.items }
{
    match act {
        Act::Hand(i) => bits[i as usize] = 0,
        Act::Mark(i) => bits[i as usize] = 1,
        _ => {}
    }
}

/// Sets the bit of an item, if the access is a mark.
pub(crate) fn mark_read(bits: &mut Vec<u64>, access: Access)
    requires { MarksIn (length bits.old.items) access }
    ensures bits { bits.new.items ≡ bits_read bits.old.items access }
    ensures many { length bits.new.items ≡ length bits.old.items }
{
    if let Access::Mark(i) = access {
        bits[i as usize] = 1;
    }
}
