//! What is asked before each call of a worker.
ghost use Rattle.std.specs.Prelude.{◌≡◌, ⊤, ℕ, false};

use std::marker::Sync;

/// Lets calls through. `who` is 0 for the writer and `r + 1` for reader `r`; each worker's calls are numbered from 1.
pub trait Gate: Sync {
    // Which calls it may refuse, by worker and number: any, if an implementation says nothing.
    ghost may_refuse: { Self → ℕ → ℕ → Type 0 } = { λ _ _ _. ⊤ };

    /// Whether the call may be made. If not, the worker stops.
    fn before(&self, who: u32, call: u64) -> bool
        ensures { result ≡ false → may_refuse self.now who call };

    /// The call was made. `at` is the moment of its answer, if it has one.
    fn after(&self, who: u32, call: u64, at: Option<u64>);
}

/// Lets every call through.
pub struct Free;

impl Gate for Free {
    ghost may_refuse = { λ _ _ _. ⊥ };

    fn before(&self, _who: u32, _call: u64) -> bool {
        true
    }

    fn after(&self, _who: u32, _call: u64, _at: Option<u64>) {}
}

/// What the steps of a worker ask of a gate.
pub(crate) trait Asks {
    ghost may: { Self → ℕ → ℕ → Type 0 };

    fn before(&self, who: u32, call: u64) -> bool
        ensures { result ≡ false → may self.now who call };

    fn after(&self, who: u32, call: u64, at: Option<u64>);
}

/// A gate for the steps of one worker.
#[derive(Drop)]
pub(crate) struct Asked<'g, G> {
    pub(crate) gate: &'g G,
}

impl<'g, G: Gate> Asks for Asked<'g, G> {
    ghost may = { λ asked. G.may_refuse asked.gate.now };

    fn before(&self, who: u32, call: u64) -> bool {
        self.gate.before(who, call)
    }

    fn after(&self, who: u32, call: u64, at: Option<u64>) {
        self.gate.after(who, call, at);
    }
}
