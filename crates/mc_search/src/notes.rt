//! Which keys gave way lately.
ghost use Rattle.std.specs.Prelude.{◌≡◌, ◌^◌, ◌<◌, ◌≤◌, IfOk, length};

use std::alloc::{AllocError, Global};

/// Fingerprints of keys that gave way while they were new. Its memory is taken once: two bytes an item.
#[derive(Drop)]
pub(crate) struct Notes {
    prints: Vec<u16>,
    /// How many of the places are used. A key stays noted until about so many others were.
    places: u32,
}

impl Notes {
    ghost use Rattle.mc_search.specs.Notes.{AreNotes};

    /// No key is noted. Condition: there are items, and fewer than 2^31.
    pub(crate) fn new(alloc: Global, items: u32) -> Result<Notes, AllocError>
        requires some { 0 < items }
        requires few { items < 2 ^ 31 }
        ensures { IfOk result AreNotes }
    {
        let prints = vec![in alloc; 0u16; items as usize]?;
        Ok(Notes { prints, places: 1 })
    }

    // Where a key is noted: by 32 bits that name no shard.
    fn place(&self, mixed: u64) -> usize
        requires { AreNotes self.now }
        ensures { result < length self.now.prints.items }
    {
        (((mixed & 0xffff_ffff) * u64::from(self.places)) >> 32) as usize
    }

    /// Whether the key is noted. Its note is cleared.
    pub(crate) fn take(&mut self, mixed: u64) -> bool
        requires { AreNotes self.old }
        ensures { AreNotes self.new }
    {
        let place = self.place(mixed);
        let is_noted = self.prints[place] == print_of(mixed);
        if is_noted {
            self.prints[place] = 0;
        }
        is_noted
    }

    /// Notes a key.
    pub(crate) fn write(&mut self, mixed: u64)
        requires { AreNotes self.old }
        ensures { AreNotes self.new }
    {
        let place = self.place(mixed);
        self.prints[place] = print_of(mixed);
    }

    /// Uses about as many places as items are in use, which is one more or one less than before. A table may hold far fewer keys than it could, if
    /// they are evicted by their weights: then keys would stay noted for too long.
    pub(crate) fn fit(&mut self, used: u64)
        requires { AreNotes self.old }
        ensures { AreNotes self.new }
    {
        let places = u64::from(self.places);
        if used > places {
            self.places = (2 * self.places).min(self.prints.len() as u32);
        } else if used < places / 8 * 3 {
            self.places /= 2;
        }
    }
}

/// A key's fingerprint, of the bits above those of its place. It isn't 0, which is no key's.
fn print_of(mixed: u64) -> u16 {
    (((mixed >> 32) & 0xffff) as u16).max(1)
}
