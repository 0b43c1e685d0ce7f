//! The shared words, without the number of words of a value in their type. Steps on a seat are made here alone, and each is of a play that
//! `SeatPlay` lists, or of a cut that `SeatCut` lists.
ghost use Rattle.std.specs.Prelude.{◌≡◌, ◌<◌, ℕ, [], IfOk, length, slice_index};
ghost use Rattle.std.specs.Int.RustNames.{bit_and, bit_or};
ghost use mathlib.Core.Option.{none};
ghost use Rattle.atomic_table.specs.Table.{step, Allows, Splits, Joins};
ghost use Rattle.mc_words.specs.Places.{all_words, word_count, IsWidth};
ghost use Rattle.mc_words.specs.Shapes.{IsShape};
ghost use Rattle.mc_shared.specs.SeatPlays.{says, kept_part, new_part};
ghost use Rattle.mc_shared.specs.Steps.{joined_view};
ghost use Rattle.mc_shared.specs.TableRule.{Ruled, word_after};
ghost use Rattle.mc_shared.specs.Views.{spent_view, writer_view, new_tally};

use crate::layout::Layout;
use crate::plays::{Cuts, Known, Meeting, NamesCut, NamesPlay, Plays, Ruling};
use crate::seats::{ReaderSeat, WriterSeat};
use crate::words::Words;
use atomic_table::{Seat, Table};
use std::alloc::{AllocError, Global};
use std::marker::Model;

/// The words of a table, which all threads share.
#[derive(Drop)]
pub struct RuledWords {
    table: Table<(), Known, Layout, Ruling, Global>,
}

impl Model for RuledWords {
    ghost use Rattle.mc_shared.specs.Records.{Opening};
    ghost use Rattle.mc_shared.specs.Inside.Seats.{IsLaid, opening_of};

    ghost Value = { Opening };

    ghost view = { λ b. opening_of b.table.shared.table_id b.table.shared.key };

    ghost invariant = { λ b. IsLaid b.table.shared.table_id b.table.shared.key };
}

impl RuledWords {
    /// The words of a new table, all 0, and the writer's seat.
    pub(crate) fn lay(
        alloc: Global,
        layout: Layout,
        words: usize,
    ) -> Result<(RuledWords, Seat<(), Known>), AllocError>
        requires shape { IsShape layout.shape × IsWidth layout.width }
        requires words { words ≡ all_words layout.width layout.shape }
        ensures ruled { IfOk result (λ r. r.0.layout ≡ layout) }
        ensures seat { IfOk result (λ r. (r.1.table_id ≡ r.0.table) × (r.1.me ≡ (writer_view layout [] new_tally, []))) }
    {
        let zeros = vec![in alloc; 0u64; words]?;
        let (table, seat) = Table::<(), Known, Layout, Ruling, Global>::of_words(
            alloc,
            zeros.as_slice(),
            &layout,
        )?;
        Ok((RuledWords { table }, seat))
    }

    /// The words at the end, those of recency left aside.
    pub(crate) fn close(self, writer: WriterSeat, readers: Vec<ReaderSeat>) -> Words
        requires { writer.of ≡ self }
        ensures length { length result ≡ all_words self.layout.width self.layout.shape }
        ensures words { (n : ℕ) → n < word_count self.layout.width self.layout.shape → slice_index result n ≡ word_after self.layout writer.acts n }
    {
        drop(readers);
        let RuledWords { table } = self;
        let WriterSeat { seat } = writer;
        Words {
            closed: table.close_with(seat),
        }
    }

    /// A load on a seat.
    #[inline(always)]
    pub(crate) fn load<P: NamesPlay>(&self, seat: &mut Seat<(), Known>, place: usize) -> u64
        requires of { seat.old.table_id ≡ self.now.table }
        requires place { place < all_words self.now.layout.width self.now.layout.shape }
        requires allowed { Allows (Ruled self.now.layout) 0 seat.old.id seat.old.me place (λ n. n) (says P.play (step 0 place 0 0 none) seat.old.me) }
        ensures of { (seat.new.table_id ≡ seat.old.table_id) × (seat.new.id ≡ seat.old.id) }
        ensures told { says P.play (step 0 place 0 0 none) seat.old.me result seat.new.me }
    {
        self.table.shared.load::<Plays<P>>(seat, place)
    }

    /// A store on a seat.
    #[inline(always)]
    pub(crate) fn store<P: NamesPlay>(&self, seat: &mut Seat<(), Known>, place: usize, new: u64)
        requires of { seat.old.table_id ≡ self.now.table }
        requires place { place < all_words self.now.layout.width self.now.layout.shape }
        requires allowed { Allows (Ruled self.now.layout) 0 seat.old.id seat.old.me place (λ _. new) (λ _. says P.play (step 0 place new 0 none) seat.old.me new) }
        ensures of { (seat.new.table_id ≡ seat.old.table_id) × (seat.new.id ≡ seat.old.id) }
        ensures told { says P.play (step 0 place new 0 none) seat.old.me new seat.new.me }
    {
        self.table.shared.store::<Plays<P>>(seat, place, new);
    }

    /// A `fetch_and` on a seat.
    #[inline(always)]
    pub(crate) fn fetch_and<P: NamesPlay>(
        &self,
        seat: &mut Seat<(), Known>,
        place: usize,
        mask: u64,
    ) -> u64
        requires of { seat.old.table_id ≡ self.now.table }
        requires place { place < all_words self.now.layout.width self.now.layout.shape }
        requires allowed { Allows (Ruled self.now.layout) 0 seat.old.id seat.old.me place (λ n. bit_and n mask) (says P.play (step 0 place mask 0 none) seat.old.me) }
        ensures of { (seat.new.table_id ≡ seat.old.table_id) × (seat.new.id ≡ seat.old.id) }
        ensures told { says P.play (step 0 place mask 0 none) seat.old.me result seat.new.me }
    {
        self.table.shared.fetch_and::<Plays<P>>(seat, place, mask)
    }

    /// A `fetch_or` on a seat.
    #[inline(always)]
    pub(crate) fn fetch_or<P: NamesPlay>(
        &self,
        seat: &mut Seat<(), Known>,
        place: usize,
        mask: u64,
    ) -> u64
        requires of { seat.old.table_id ≡ self.now.table }
        requires place { place < all_words self.now.layout.width self.now.layout.shape }
        requires allowed { Allows (Ruled self.now.layout) 0 seat.old.id seat.old.me place (λ n. bit_or n mask) (says P.play (step 0 place mask 0 none) seat.old.me) }
        ensures of { (seat.new.table_id ≡ seat.old.table_id) × (seat.new.id ≡ seat.old.id) }
        ensures told { says P.play (step 0 place mask 0 none) seat.old.me result seat.new.me }
    {
        self.table.shared.fetch_or::<Plays<P>>(seat, place, mask)
    }

    /// Cuts a seat in two.
    pub(crate) fn split<C: NamesCut>(&self, seat: &mut Seat<(), Known>) -> Seat<(), Known>
        requires of { seat.old.table_id ≡ self.now.table }
        requires allowed { Splits (Ruled self.now.layout) seat.old.id seat.old.me.0 (kept_part C.cut seat.old.me.0) (new_part C.cut seat.old.me.0) }
        ensures of { (seat.new.table_id ≡ seat.old.table_id) × (seat.new.id ≡ seat.old.id) × (result.table_id ≡ seat.old.table_id) }
        ensures kept { seat.new.me ≡ (kept_part C.cut seat.old.me.0, seat.old.me.1) }
        ensures new { result.me ≡ (new_part C.cut seat.old.me.0, []) }
    {
        self.table.shared.split_seat::<Cuts<C>>(seat)
    }

    /// Joins a reader's seat to the writer's.
    pub(crate) fn join(&self, seat: &mut Seat<(), Known>, other: Seat<(), Known>)
        requires of { (seat.old.table_id ≡ self.now.table) × (other.table_id ≡ self.now.table) }
        requires empty { other.me.1 ≡ [] }
        requires allowed { Joins (Ruled self.now.layout) seat.old.id seat.old.me.0 other.id other.me.0 (joined_view seat.old.me.0 other.me.0) spent_view }
        ensures of { (seat.new.table_id ≡ seat.old.table_id) × (seat.new.id ≡ seat.old.id) }
        ensures joined { seat.new.me ≡ (joined_view seat.old.me.0 other.me.0, seat.old.me.1) }
    {
        self.table.shared.join_seat::<Meeting>(seat, other);
    }

    /// A load on no seat, which tells nothing.
    #[inline(always)]
    pub(crate) fn touch(&self, place: usize) -> u64
        requires { place < all_words self.now.layout.width self.now.layout.shape }
    {
        self.table.shared.peek(place)
    }
}
