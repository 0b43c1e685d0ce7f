//! What the writer looks through and writes with, and its acts, one by one.
ghost use Rattle.std.specs.Prelude.{◌≡◌, ◌^◌, ◌<◌, [], ◌∷◌};
ghost use Rattle.mc_words.specs.KeyParts.{HasParts};
ghost use Rattle.mc_words.specs.Places.{IsWidth, item_place};
ghost use Rattle.mc_theory.specs.Lists.{state_of};
ghost use Rattle.mc_theory.specs.declared.act.Act.TheVariants as act;

use mc_shared::{
    Cells, Running, WriterSeat, close_deed, count_moment, fetch, open_deed_by, set_mark,
    set_mark_unless_set, write_item_from, write_slot,
};
use mc_theory::{Deed, Peek};
use mc_words::{KeyParts, Place};

/// The words of a table and the seat of its writer: each word is loaded where it is looked at, and each act is made on them.
#[derive(Drop)]
pub struct Pen<'a, const V: usize> {
    pub cells: &'a Cells<V>,
    pub seat: &'a mut WriterSeat,
    ghost of: { seat.now.of ≡ cells.now },
}

impl<'a, const V: usize> Peek for Pen<'a, V> {
    ghost words = { λ pen. (state_of V pen.cells.now.layout.shape pen.seat.now.acts).words };

    fn word(&mut self, n: usize) -> u64 {
        fetch(self.cells, self.seat, n)
    }
}

// The condition of each act is that it is due next.
impl<'a, const V: usize> Pen<'a, V> {
    ghost use Rattle.mc_shared.specs.Running.{IsRunning};
    ghost use Rattle.mc_writer.specs.Inside.Pens.{IsDue, HasMade};

    /// Opens a deed on a key, which has these parts.
    pub(crate) fn open_deed(&mut self, key: u64, parts: KeyParts, deed: Deed) -> Running
        requires due { IsDue V (act.Open key deed ∷ []) self.old }
        requires parts { HasParts self.old.cells.now.layout.shape key parts }
        ensures made { HasMade V (act.Open key deed ∷ []) self.old self.new }
        ensures running { IsRunning V self.new.seat.now result }
    {
        open_deed_by(self.cells, self.seat, key, deed, parts)
    }

    /// Writes word `j` of an item, for a caller that has computed where the items begin.
    pub(crate) fn write_item_from(&mut self, items: usize, i: u32, j: u8, word: u64)
        requires width { IsWidth V }
        requires items { (items ≡ item_place V self.old.cells.now.layout.shape 0 0) × (items < 2 ^ 40) }
        requires due { IsDue V (act.Item i j word ∷ []) self.old }
        ensures made { HasMade V (act.Item i j word ∷ []) self.old self.new }
    {
        write_item_from(self.cells, self.seat, items, i, j, word);
    }

    /// Writes a slot word.
    pub(crate) fn write_slot(&mut self, place: Place, word: u64)
        requires due { IsDue V (act.Slot place word ∷ []) self.old }
        ensures made { HasMade V (act.Slot place word ∷ []) self.old self.new }
    {
        write_slot(self.cells, self.seat, place, word);
    }

    /// Counts the change of the deed that runs.
    pub(crate) fn count_moment(&mut self)
        requires due { IsDue V (act.Moment ∷ []) self.old }
        ensures made { HasMade V (act.Moment ∷ []) self.old self.new }
    {
        count_moment(self.cells, self.seat);
    }

    /// Closes the deed that runs, which has this version.
    pub(crate) fn close_deed(&mut self, running: Running)
        requires due { IsDue V (act.Close ∷ []) self.old }
        requires running { IsRunning V self.old.seat.now running }
        ensures made { HasMade V (act.Close ∷ []) self.old self.new }
    {
        close_deed(self.cells, self.seat, running);
    }

    /// Marks an item whose bit is likely clear: it was free, or the hand has just passed it.
    pub(crate) fn set_mark(&mut self, i: u32)
        requires due { IsDue V (act.Mark i ∷ []) self.old }
        ensures made { HasMade V (act.Mark i ∷ []) self.old self.new }
    {
        set_mark(self.cells, self.seat, i);
    }

    /// Marks an item.
    pub(crate) fn set_mark_unless_set(&mut self, i: u32)
        requires due { IsDue V (act.Mark i ∷ []) self.old }
        ensures made { HasMade V (act.Mark i ∷ []) self.old self.new }
    {
        set_mark_unless_set(self.cells, self.seat, i);
    }
}
