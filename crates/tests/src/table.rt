//! Tables of plain words.
ghost use Rattle.std.specs.Prelude.{◌≡◌, IsTrue};
ghost use Rattle.mc_words.specs.Checks.{shape_of};
ghost use Rattle.mc_words.specs.Places.{IsPlace, slot_number, slot};
ghost use Rattle.mc_search.specs.Readable.{HasSlots, IsFilled};

use mc_plan::Peek;
use mc_words::{Checked, Place};

/// The words of a small table: those of one stripe, 32 buckets and no item, or of fewer buckets and some items.
#[derive(Drop)]
pub(crate) struct Table {
    pub(crate) list: [u64; 130],
}

impl Peek for Table {
    ghost words = { λ t. t.list };

    fn word(&mut self, n: usize) -> u64 {
        self.list[n]
    }
}

/// A table whose first slots have these words.
pub(crate) fn table_of(words: &[u64]) -> Table {
    let mut list = [0; 130];
    for (q, word) in words.iter().enumerate() {
        if q < 128 {
            list[2 + q] = *word;
        }
    }
    Table { list }
}

/// The word of a slot.
#[tactic(auto, unfolding(mc_words::specs::Places::slot))]
pub(crate) fn slot_at(checked: &Checked, table: &mut Table, place: Place) -> u64
    requires words { HasSlots (shape_of checked.now) table.old.list }
    requires place { IsPlace (shape_of checked.now) place }
    ensures value { result ≡ slot (shape_of checked.now) table.old.list (slot_number place) }
    ensures same { table.new.list ≡ table.old.list }
{
    table.word(checked.slot_place(place))
}

/// Whether a search may read the table.
pub(crate) fn is_readable(checked: &Checked, table: &mut Table) -> bool
    ensures readable { IsTrue result → HasSlots (shape_of checked.now) table.old.list × IsFilled (shape_of checked.now) table.old.list }
    ensures same { table.new.list ≡ table.old.list }
{
    let shape = checked.shape();
    let slots = 4 * shape.buckets;
    if table.list.len() < 1 + shape.stripes as usize + slots as usize {
        return false;
    }
    for q in 0..slots {
        let place = Place {
            bucket: q / 4,
            slot: (q % 4) as u8,
        };
        let word = slot_at(checked, table, place);
        if word != 0 && checked.slot_parts(word).is_none() {
            return false;
        }
    }
    true
}
