//! The laws of the lookup machine, one function each. A body does nothing: what it ensures is the law.
ghost use Rattle.mc_lookup.specs.Course.{CanEnd, NextIsDetermined, NextIsInTable};
ghost use Rattle.mc_lookup.specs.Findings.{FindingsStay};

/// The access that a lookup asks for is the only one with which it can continue.
pub fn next_is_determined<const V: usize>()
    ensures { NextIsDetermined V }
{}

/// Every lookup can be ended by some readings.
pub fn lookups_can_end<const V: usize>()
    ensures { CanEnd V }
{}

/// No lookup asks for what the table doesn't have.
pub fn next_is_in_table<const V: usize>()
    ensures { NextIsInTable V }
{}

/// While the version that a try read first stays, all that the try has read of its key is still so.
pub fn findings_stay<const V: usize>()
    ensures { FindingsStay V }
{}
