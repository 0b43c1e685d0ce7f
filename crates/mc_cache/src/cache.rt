//! The words of a cache.
ghost use Rattle.std.specs.Prelude.{◌≡◌};

use mc_reader::{Aim, aim_of, guess_named, touch_ahead, touch_guessed, touch_slots};
use mc_shared::Cells;
use std::marker::Model;

/// The shared memory of a cache. Lend it to every thread. In contracts it is the table that was opened.
#[derive(Drop)]
pub struct Cache<const V: usize> {
    pub(crate) cells: Cells<V>,
}

impl<const V: usize> Model for Cache<V> {
    ghost use Rattle.mc_shared.specs.Records.{Opening};

    ghost Value = { Opening };

    ghost view = { λ c. c.cells };
}

impl<const V: usize> Cache<V> {
    ghost use Rattle.mc_words.specs.Places.{IsWidth};
    ghost use Rattle.mc_words.specs.Shapes.{IsShape};
    ghost use Rattle.mc_reader.specs.Aims.{IsAimIn};

    /// What always holds of a cache, for proofs: a value has from 1 to 8 words, and the shape was checked. Does nothing at run time.
    #[inline(always)]
    pub fn known(&self)
        ensures width { IsWidth V }
        ensures shape { IsShape self.now.layout.shape }
    {
        self.cells.checked();
    }

    /// How many keys the cache holds at most: the items of its shape.
    pub fn capacity(&self) -> usize
        ensures { result ≡ self.now.layout.shape.items }
    {
        self.cells.checked().shape().items as usize
    }

    /// Loads ahead the words that lookups of the first of these keys will read, of `GROUP` keys at most. In a large cache the lookups
    /// then wait less. It changes nothing, and no answer depends on it.
    pub fn touch_ahead(&self, keys: &[u64]) {
        touch_ahead(&self.cells, keys);
    }

    /// Where a lookup of the key looks. It reads no word of the table.
    #[inline(always)]
    pub fn aim_of(&self, key: u64) -> Aim
        ensures { IsAimIn V self.now.layout.shape result }
    {
        aim_of(&self.cells, key)
    }

    /// Loads the slots of the two buckets.
    #[inline(always)]
    pub fn touch_slots(&self, aim: Aim)
        requires { IsAimIn V self.now.layout.shape aim }
    {
        touch_slots(&self.cells, aim);
    }

    /// The item that the slots of the two buckets seem to name.
    #[inline(always)]
    pub fn guess_named(&self, aim: Aim) -> u32
        requires { IsAimIn V self.now.layout.shape aim }
    {
        guess_named(&self.cells, aim)
    }

    /// Loads the words of this item, or of the last one if there are fewer.
    #[inline(always)]
    pub fn touch_guessed(&self, item: u32) {
        touch_guessed(&self.cells, item);
    }
}
