//! The shared words of a table whose values have `V` words: they are opened, and closed.
ghost use Rattle.std.specs.Prelude.{◌≡◌, ◌^◌, ◌<◌, ℕ, [], IfOk, All, length, slice_index};
ghost use Rattle.mc_words.specs.Checks.{shape_of};
ghost use Rattle.mc_words.specs.KeyParts.{HasParts};
ghost use Rattle.mc_words.specs.Places.{IsWidth, all_words, item_place, recency_place, word_count};
ghost use Rattle.mc_words.specs.Readers.{HasReaders};
ghost use Rattle.mc_theory.specs.Lists.{state_of};
ghost use Rattle.mc_shared.specs.Views.{layout_of};
ghost use Rattle.mc_shared.specs.Records.{writer_record, new_readers, IsNewReader};

use crate::layout::Layout;
use crate::opening::open_words;
use crate::ruled_words::RuledWords;
use crate::seats::{ReaderSeat, WriterSeat};
use crate::words::Words;
use mc_words::{Checked, KeyParts, NoMemory};
use std::alloc::Global;
use std::marker::Model;

/// The words of a table, which all threads share, and their rule.
#[derive(Drop)]
pub struct Cells<const V: usize> {
    pub(crate) ruled: RuledWords,
    pub(crate) checked: Checked,
    /// Where the items begin, computed once.
    items_start: usize,
    /// Where the recency words begin.
    recency_start: usize,
}

impl<const V: usize> Model for Cells<V> {
    ghost use Rattle.std.specs.Prelude.{◌≡◌};
    ghost use Rattle.mc_words.specs.Checks.{shape_of};
    ghost use Rattle.mc_words.specs.Places.{IsWidth};
    ghost use Rattle.mc_shared.specs.Inside.Starts.{AreStarts};
    ghost use Rattle.mc_shared.specs.Records.{Opening};
    ghost use Rattle.mc_shared.specs.Views.{layout_of};

    ghost Value = { Opening };

    ghost view = { λ c. c.ruled };

    ghost invariant = { λ c. (c.ruled.layout ≡ layout_of V c.checked) × IsWidth V × AreStarts V (shape_of c.checked) c.items_start c.recency_start };
}

impl<const V: usize> Cells<V> {
    /// The shape of the table.
    pub fn checked(&self) -> &Checked
        ensures layout { self.now.layout ≡ layout_of V result.now }
        ensures width { IsWidth V }
    {
        &self.checked
    }

    /// The parts of the key.
    #[inline(always)]
    pub fn parts(&self, key: u64) -> KeyParts
        ensures { HasParts self.now.layout.shape key result }
    {
        self.checked.parts(key)
    }

    /// Where the recency words begin.
    pub fn recency_start(&self) -> usize
        ensures value { result ≡ word_count V self.now.layout.shape }
        ensures small { result < 2 ^ 40 }
    {
        self.recency_start
    }

    /// Where the word that holds the recency bit of an item is.
    #[inline(always)]
    #[tactic(auto, unfolding(mc_words::specs::Recency::recency_word))]
    pub(crate) fn recency_place(&self, i: u32) -> usize
        ensures { result ≡ recency_place V self.now.layout.shape i }
    {
        self.recency_start + i as usize / 64
    }

    /// Where the items begin.
    pub fn items_start(&self) -> usize
        ensures value { result ≡ item_place V self.now.layout.shape 0 0 }
        ensures small { result < 2 ^ 40 }
    {
        self.items_start
    }
}

/// A table with empty records, and the requested number of readers' seats, numbered from 0. `Err(NoMemory)` if the words or the seats can't
/// be stored.
/// Condition: a value has from 1 to 8 words, and there are from 1 to 1024 readers.
#[tactic(auto, using(crate::proofs::NewReaders::all_new))]
pub fn open<const V: usize>(
    alloc: Global,
    checked: &Checked,
    readers: u32,
) -> Result<(Cells<V>, WriterSeat, Vec<ReaderSeat>), NoMemory>
    requires width { IsWidth V }
    requires readers { HasReaders readers }
    ensures cells { IfOk result (λ r. r.0.layout ≡ layout_of V checked.now) }
    ensures writer { IfOk result (λ r. r.1 ≡ writer_record r.0 [] []) }
    ensures readers { IfOk result (λ r. r.2.items ≡ new_readers r.0 readers) }
    ensures fresh { IfOk result (λ r. All (IsNewReader r.0) r.2.items) }
{
    let layout = Layout {
        shape: checked.shape(),
        width: V,
        policy: checked.policy(),
    };
    let (ruled, writer, seats) = open_words(alloc, layout, checked.words::<V>(), readers)?;
    let cells = Cells {
        ruled,
        checked: *checked,
        items_start: checked.item_place::<V>(0, 0),
        recency_start: checked.recency_start::<V>(),
    };
    Ok((cells, writer, seats))
}

/// The words at the end. Those before the recency words are those after all acts.
/// Condition: the writer's seat is that of these words.
pub fn close<const V: usize>(cells: Cells<V>, writer: WriterSeat, readers: Vec<ReaderSeat>) -> Words
    requires { writer.of ≡ cells }
    ensures length { length result ≡ all_words V cells.entry.layout.shape }
    ensures words { (n : ℕ) → n < word_count V cells.entry.layout.shape →
        slice_index result n ≡ slice_index (state_of V cells.entry.layout.shape writer.acts).words n }
{
    let Cells { ruled, .. } = cells;
    ruled.close(writer, readers)
}
