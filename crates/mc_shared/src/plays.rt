//! What seats know, the rule of a table, and the names of what is played on a seat.
use crate::layout::Layout;
use atomic_table::{Join, Play, Split, TableRule};
use std::marker::{Brand, Model, PhantomData};

/// What a seat knows. No value of it is made.
pub struct Known {
    nothing: (),
}

impl Model for Known {
    ghost use Rattle.mc_shared.specs.Views.{View, spent_view};

    ghost Value = { View };

    ghost view = { λ k. spent_view };
}

/// The rule of a table.
pub struct Ruling;

impl TableRule<(), Known, Layout> for Ruling {
    ghost use Rattle.mc_shared.specs.TableRule.{Ruled};
    ghost use Rattle.mc_shared.specs.Views.{new_writer_view};

    ghost holds = { Ruled };

    ghost first = { new_writer_view };
}

/// Names the act of a step. Each call picks it.
pub trait NamesAct {
    ghost use Rattle.mc_theory.specs.declared.act.Act.{Act};

    ghost act: { Act };
}

impl NamesAct for Brand {
    ghost use Rattle.mc_theory.specs.declared.act.Act.TheVariants.{Moment};

    ghost act = { Moment };
}

/// Names the access of a reading. Each call picks it.
pub trait NamesAccess {
    ghost use Rattle.mc_theory.specs.declared.access.Access.{Access};

    ghost access: { Access };
}

impl NamesAccess for Brand {
    ghost use Rattle.mc_theory.specs.declared.access.Access.TheVariants.{Moment};

    ghost access = { Moment };
}

/// Names the item of a mark. Each call picks it.
pub trait NamesItem {
    ghost use Rattle.std.specs.Prelude.{ℕ};

    ghost item: { ℕ };
}

impl NamesItem for Brand {
    ghost item = { 0 };
}

/// Names what is played on a seat.
pub(crate) trait NamesPlay {
    ghost use Rattle.mc_shared.specs.SeatPlays.{SeatPlay};

    ghost play: { SeatPlay };
}

/// The play of this name. No other type plays on a seat.
pub(crate) struct Plays<P> {
    of: PhantomData<P>,
}

impl<P: NamesPlay> Play<(), Known> for Plays<P> {
    ghost use Rattle.mc_shared.specs.SeatPlays.{says};

    ghost then = { says P.play };
}

/// Names how a seat is cut.
pub(crate) trait NamesCut {
    ghost use Rattle.mc_shared.specs.SeatPlays.{SeatCut};

    ghost cut: { SeatCut };
}

/// The cut of this name.
pub(crate) struct Cuts<C> {
    of: PhantomData<C>,
}

impl<C: NamesCut> Split<Known> for Cuts<C> {
    ghost use Rattle.mc_shared.specs.SeatPlays.{kept_part, new_part};

    ghost left = { kept_part C.cut };

    ghost right = { new_part C.cut };
}

/// A load by the writer that adds nothing to its record.
pub(crate) struct Fetches;

impl NamesPlay for Fetches {
    ghost use Rattle.mc_shared.specs.SeatPlays.{fetches};

    ghost play = { fetches };
}

/// A step of the writer that makes the act.
pub(crate) struct Makes<J> {
    of: PhantomData<J>,
}

impl<J: NamesAct> NamesPlay for Makes<J> {
    ghost use Rattle.mc_shared.specs.SeatPlays.{makes};

    ghost play = { makes J.act };
}

/// A load by the writer that marks the item if it finds its bit set.
pub(crate) struct MakesMarkIfSet<J> {
    of: PhantomData<J>,
}

impl<J: NamesAct> NamesPlay for MakesMarkIfSet<J> {
    ghost use Rattle.mc_shared.specs.SeatPlays.{marks_if_set};

    ghost play = { marks_if_set J.act };
}

/// The hand's step, by which the writer clears the bit of an item.
pub(crate) struct TurnsHand<J> {
    of: PhantomData<J>,
}

impl<J: NamesAct> NamesPlay for TurnsHand<J> {
    ghost use Rattle.mc_shared.specs.SeatPlays.{turns};

    ghost play = { turns J.act };
}

/// A load by the writer that is the hand's reading of the item if it finds its bit clear.
pub(crate) struct MakesReadingIfClear<J> {
    of: PhantomData<J>,
}

impl<J: NamesAct> NamesPlay for MakesReadingIfClear<J> {
    ghost use Rattle.mc_shared.specs.SeatPlays.{turns_if_clear};

    ghost play = { turns_if_clear J.act };
}

/// A load of a reader.
pub(crate) struct Reads<J> {
    of: PhantomData<J>,
}

impl<J: NamesAccess> NamesPlay for Reads<J> {
    ghost use Rattle.mc_shared.specs.SeatPlays.{reads};

    ghost play = { reads J.access };
}

/// A step of a reader that sets a recency bit.
pub(crate) struct Marks<J> {
    of: PhantomData<J>,
}

impl<J: NamesItem> NamesPlay for Marks<J> {
    ghost use Rattle.mc_shared.specs.SeatPlays.{marks};

    ghost play = { marks J.item };
}

/// A load by a reader that marks the item if it finds its bit set.
pub(crate) struct MarksIfSet<J> {
    of: PhantomData<J>,
}

impl<J: NamesItem> NamesPlay for MarksIfSet<J> {
    ghost use Rattle.mc_shared.specs.SeatPlays.{notices};

    ghost play = { notices J.item };
}

/// A load on the writer's seat, with a reader joined to it.
pub(crate) struct Compares;

impl NamesPlay for Compares {
    ghost use Rattle.mc_shared.specs.SeatPlays.{compares};

    ghost play = { compares };
}

/// A new reader is split off the writer.
pub(crate) struct NewReader;

impl NamesCut for NewReader {
    ghost use Rattle.mc_shared.specs.SeatPlays.{seats};

    ghost cut = { seats };
}

/// The reader that was joined to the writer is split off again.
pub(crate) struct Parting;

impl NamesCut for Parting {
    ghost use Rattle.mc_shared.specs.SeatPlays.{parts};

    ghost cut = { parts };
}

/// A reader is joined to the writer.
pub(crate) struct Meeting;

impl Join<Known> for Meeting {
    ghost use Rattle.mc_shared.specs.Steps.{joined_view};
    ghost use Rattle.mc_shared.specs.Views.{spent_view};

    ghost both = { joined_view };

    ghost spent = { spent_view };
}
