//! What callers may rely on, with full signatures: a call, a field or a variant that is lost or changed doesn't compile here.
//!
//! Nothing here runs. What is named here changes only by a decision of the owner.
#![tactic(auto)]

mod calls;
mod loads;
mod types;

fn main() {}
