//! A side of a cache whose values have one of eight widths.
ghost use Rattle.std.specs.Prelude.{◌≡◌, IfOk, MatchResult, length};
ghost use Rattle.mc_door.specs.AnySides.{role_in, width_of};
ghost use Rattle.mc_door.specs.Listing.{HasListed, RefusesList, SeesMore};
ghost use Rattle.mc_door.specs.Means.{CapacityIs, GetOrTurnTells, GetTells};
ghost use Rattle.mc_door.specs.NewPasses.{AreMore, width_on};
ghost use Rattle.mc_door.specs.Swaps.{SwapTells};
ghost use Rattle.mc_door.specs.Writes.{WriteTells};

use crate::listed::ListError;
use crate::outcome::RawReply;
use crate::rest::Rest;
use crate::shared::MoreError;
use crate::side::Side;
use crate::widths::with_sides;
use crate::write::{Swap, Write};
use std::alloc::Global;

/// What a handle keeps: a side of a cache, whose values have as many words as the variant says.
#[derive(Drop)]
pub enum AnySide {
    One(Side<1>),
    Two(Side<2>),
    Three(Side<3>),
    Four(Side<4>),
    Five(Side<5>),
    Six(Side<6>),
    Seven(Side<7>),
    Eight(Side<8>),
}

/// What is done with the side that an `AnySide` is, whatever its width.
#[macro_export]
macro_rules! with_side {
    ($held:expr, $side:ident => $done:expr) => {
        match $held {
            $crate::AnySide::One($side) => $done,
            $crate::AnySide::Two($side) => $done,
            $crate::AnySide::Three($side) => $done,
            $crate::AnySide::Four($side) => $done,
            $crate::AnySide::Five($side) => $done,
            $crate::AnySide::Six($side) => $done,
            $crate::AnySide::Seven($side) => $done,
            $crate::AnySide::Eight($side) => $done,
        }
    };
}

impl AnySide {
    /// How many words a value has.
    pub fn words(&self) -> usize
        ensures { result ≡ width_of self.now }
    {
        with_side!(self, side => side.words())
    }
}

// Lookups are cold here: if the width is known, they bypass these.
impl AnySide {
    /// What the cache holds of the key: `Side::get`.
    #[cold]
    #[inline(never)]
    pub fn get(&mut self, key: u64, value: &mut [u64], reply: &mut RawReply) -> u32
        ensures width { width_of self.new ≡ width_of self.old }
        ensures told { GetTells (width_of self.old) (role_in self.old) (role_in self.new) (self.new ≡ self.old) key value.old value.new (record { status = result; reply = reply.new }) }
    {
        with_side!(self, side => side.get_apart(key, value, reply))
    }

    /// What the cache holds of the key: `Side::get_or_turn`.
    #[cold]
    #[inline(never)]
    pub fn get_or_turn(&mut self, key: u64, value: &mut [u64], reply: &mut RawReply) -> u32
        ensures width { width_of self.new ≡ width_of self.old }
        ensures told { GetOrTurnTells (width_of self.old) (role_in self.old) (role_in self.new) (self.new ≡ self.old) key value.old value.new (record { status = result; reply = reply.new }) }
    {
        with_side!(self, side => side.get_or_turn_apart(key, value, reply))
    }

    /// A put by a caller that does not know the width: `AnySide::write`.
    #[cold]
    #[inline(never)]
    pub fn put(&mut self, key: u64, value: &[u64], reply: &mut RawReply) -> u32
        ensures width { width_of self.new ≡ width_of self.old }
        ensures told { WriteTells (width_of self.old) (role_in self.old) (role_in self.new) (self.new ≡ self.old) key Write.Put value.now (record { status = result; reply = reply.new }) }
    {
        self.write(key, Write::Put, value, reply)
    }

    /// A write by a holder, or by a pass, which tries for the turn.
    #[inline(always)]
    pub fn write(&mut self, key: u64, call: Write, value: &[u64], reply: &mut RawReply) -> u32
        ensures width { width_of self.new ≡ width_of self.old }
        ensures told { WriteTells (width_of self.old) (role_in self.old) (role_in self.new) (self.new ≡ self.old) key call value.now (record { status = result; reply = reply.new }) }
    {
        with_side!(self, side => side.write(key, call, value, reply))
    }

    /// A write that also returns the entry which gives way.
    #[inline(always)]
    pub fn swap(
        &mut self,
        key: u64,
        call: Swap,
        value: &[u64],
        old: &mut [u64],
        reply: &mut RawReply,
    ) -> u32
        ensures width { width_of self.new ≡ width_of self.old }
        ensures told { SwapTells (width_of self.old) (role_in self.old) (role_in self.new) (self.new ≡ self.old) key call value.now old.old old.new (record { status = result; reply = reply.new }) }
    {
        with_side!(self, side => side.swap(key, call, value, old, reply))
    }
}

impl AnySide {
    /// Loads ahead the words that a lookup of the key will read. No answer depends on it.
    #[inline(always)]
    pub fn prefetch(&self, key: u64) {
        with_side!(self, side => side.prefetch(key));
    }

    /// How many keys the cache holds at most, shards all together.
    pub fn capacity(&self) -> u64
        ensures { CapacityIs (width_of self.now) (role_in self.now) result }
    {
        with_side!(self, side => side.capacity())
    }

    /// Writes each key of the cache with its value, and returns how many they are.
    pub fn entries(&mut self, alloc: Global, words: &mut [u64]) -> Result<usize, ListError>
        ensures width { width_of self.new ≡ width_of self.old }
        ensures more { SeesMore (width_of self.old) (role_in self.old) (role_in self.new) }
        ensures listed { MatchResult result (λ count. HasListed (width_of self.old) (role_in self.new) words.old words.new count)
            (λ e. RefusesList (width_of self.old) (role_in self.old) (role_in self.new) (length words.old) e × (words.new ≡ words.old)) }
    {
        with_side!(self, side => side.entries(alloc, words))
    }

    /// Takes `many` of the spare passes of its shards. `Rest::next` gives them.
    pub fn more(&self, alloc: Global, many: usize) -> Result<Rest, MoreError>
        ensures { IfOk result (λ rest. (width_on rest ≡ width_of self.now) × AreMore (role_in self.now) many rest) }
    {
        macro_rules! more {
            ($side:ident, $variant:ident) => {
                Ok(Rest::$variant($side.more(alloc, many)?))
            };
        }
        with_sides!(AnySide, self, more)
    }
}
