//! The places of the words that a lookup reads, computed once.
ghost use Rattle.std.specs.Prelude.{◌≡◌};
ghost use Rattle.mc_words.specs.Checks.{shape_of};
ghost use Rattle.mc_words.specs.Places.{IsWidth};
ghost use Rattle.mc_lookup.specs.Machine.{shape_for};
ghost use Rattle.mc_reader.specs.Inside.Rows.{ArePlacesOf};

use mc_lookup::Lookup;
use mc_words::Checked;

/// The places of the key's version, of slot 0 of each of its two buckets, and of item 0.
#[derive(Clone, Copy)]
pub(crate) struct Places {
    pub version: usize,
    pub first: usize,
    pub second: usize,
    pub items: usize,
}

impl Places {
    /// The places of a lookup's words in a table of this shape.
    pub(crate) fn of<const V: usize>(checked: &Checked, lookup: &Lookup<V>) -> Places
        requires width { IsWidth V }
        requires shape { shape_for {V = V} lookup.now ≡ shape_of checked.now }
        ensures { ArePlacesOf V (shape_of checked.now) lookup.now.key result }
    {
        Places {
            version: checked.version_place(lookup.stripe()),
            first: checked.slot_place(lookup.place(0)),
            second: checked.slot_place(lookup.place(4)),
            items: checked.item_place::<V>(0, 0),
        }
    }
}
