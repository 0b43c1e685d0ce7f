//! The seats of the writer and of the readers.
use crate::plays::Known;
use atomic_table::{Badge, Seat};
use std::marker::Model;

/// The writer's seat. Contracts see it as the acts that were made on it, each with its note.
#[derive(Drop)]
pub struct WriterSeat {
    pub(crate) seat: Seat<(), Known>,
}

impl Model for WriterSeat {
    ghost use Rattle.mc_shared.specs.Views.{acts_of, tally_of};
    ghost use Rattle.mc_shared.specs.Inside.Seats.{IsWriter};
    ghost use Rattle.mc_shared.specs.Records.{WriterRecord, writer_record};
    ghost use Rattle.mc_shared.specs.Inside.Seats.{opening_of};

    ghost Value = { WriterRecord };

    ghost view = { λ w. writer_record (opening_of w.seat.table_id w.seat.me.0.layout) (acts_of w.seat.me.0) (tally_of w.seat.me.0).notes };

    ghost invariant = { λ w. IsWriter w.seat.me };
}

impl WriterSeat {
    ghost use Rattle.mc_shared.specs.SeatFacts.{IsRun};
    ghost use Rattle.std.specs.Prelude.{◌≡◌, length};

    /// What is always known of the acts: there is a note beside each.
    pub fn known(&self)
        ensures run { IsRun self.now.of.layout self.now.acts }
        ensures paired { length self.now.notes ≡ length self.now.acts }
    {
        let _seat = &self.seat;
    }
}

/// A reader's seat. Contracts see it as its number, the last front that was seen on it, and what was read and marked.
#[derive(Drop)]
pub struct ReaderSeat {
    pub(crate) badge: Badge<Known>,
}

impl Model for ReaderSeat {
    ghost use Rattle.mc_shared.specs.Views.{number_of, front_of, done_of};
    ghost use Rattle.mc_shared.specs.Inside.Seats.{view_of, IsReader};
    ghost use Rattle.mc_shared.specs.Records.{ReaderRecord, reader_record};
    ghost use Rattle.mc_shared.specs.Inside.Seats.{opening_of};

    ghost Value = { ReaderRecord };

    ghost view = { λ r. reader_record (opening_of r.badge.table_id (view_of r.badge.views).layout) (number_of (view_of r.badge.views)) (front_of (view_of r.badge.views)) (done_of (view_of r.badge.views)) };

    ghost invariant = { λ r. IsReader r.badge.views };
}

impl ReaderSeat {
    ghost use Rattle.mc_shared.specs.Views.{AreLawful};
    ghost use Rattle.mc_shared.specs.TableRule.{IsRecord};

    /// What is always known of the front and of what was read.
    pub fn known(&self)
        ensures lawful { AreLawful self.now.of.layout self.now.front }
        ensures recorded { IsRecord self.now.of.layout self.now.front self.now.done }
    {
        let _badge = &self.badge;
    }
}
