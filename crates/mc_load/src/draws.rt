//! What a worker draws.
ghost use Rattle.std.specs.Prelude.{ℕ, ◌≡◌, ◌+◌, ◌%◌, ◌≤◌, ◌↔◌, IsTrue};
ghost use Rattle.mc_load.specs.Draws.{drawn_key, drawn_word};

use crate::asked::Load;
use rand_core::utils::NextWord;
use rand_pcg::Lcg64Xsh32;

/// The draws of one worker: a generator of the load's seed, on a stream of the worker's own.
#[derive(Drop)]
pub struct Draws {
    generator: Lcg64Xsh32,
    keys: u64,
    ghost some_keys: { 1 ≤ keys },
}

impl Draws {
    ghost use Rattle.mc_load.specs.Drawn.{HasDrawn};

    /// From the first word on. Condition: the load has some keys.
    pub fn new(load: Load, stream: u64) -> Draws
        requires { 1 ≤ load.keys }
        ensures { HasDrawn load stream 0 result }
    {
        Draws {
            generator: Lcg64Xsh32::new(load.seed, stream),
            keys: load.keys,
        }
    }

    /// A key below the number of keys.
    pub fn key(&mut self) -> u64
        ensures drawn { (load : Load) (who n : ℕ) → HasDrawn load who n self.old → HasDrawn load who (n + 1) self.new }
        ensures key { (load : Load) (who n : ℕ) → HasDrawn load who n self.old → result ≡ drawn_key load who n }
    {
        u64::from(self.generator.next_word()) % self.keys
    }

    /// Whether a call of the writer is a removal: one in eight is.
    pub fn is_removal(&mut self) -> bool
        ensures drawn { (load : Load) (who n : ℕ) → HasDrawn load who n self.old → HasDrawn load who (n + 1) self.new }
        ensures removal { (load : Load) (who n : ℕ) → HasDrawn load who n self.old → (IsTrue result ↔ (drawn_word load who n % 8 ≡ 0)) }
    {
        self.generator.next_word() % 8 == 0
    }
}
