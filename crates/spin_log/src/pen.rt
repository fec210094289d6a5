//! Pens, by which lanes add to a log, and notes of what a pen knows.

use crate::view::View;
use atomic_table::Seat;
use spin_values::Sequence;
use std::marker::Model;

/// Pens, in order.
pub type Pens = Sequence<Pen>;

/// Adds the rows of one lane to a log. Contracts see its log, the number of lanes, its lane, its front (the part
/// of the log that it knows), the rows that it published, and its pins: how many rows there were each time that
/// it found no next one.
#[derive(Drop)]
pub struct Pen {
    pub(crate) seat: Seat<(), View>,
    pub(crate) lane: u8,
    /// The front's length.
    pub(crate) length: u16,
    /// How many rows it published.
    pub(crate) published: u16,
}

impl Model for Pen {
    ghost use Rattle.spin_log.specs.Pens.{PenValue, pen_value, only_hand};
    ghost use Rattle.spin_log.specs.Inner.Seats.{IsPenSeat};

    ghost Value = { PenValue };

    ghost view = { λ p. pen_value p.seat.table_id (only_hand p.seat.me.0.hands) };

    ghost invariant = { λ p. IsPenSeat p.seat.table_id p.seat.me p.lane p.length p.published };
}

impl Pen {
    ghost use Rattle.std.specs.Prelude.{◌≡◌, ◌<◌, ◌≤◌, length};
    ghost use Rattle.spin_word.specs.declared.command.TheConstants.{MAX_LANES};
    ghost use Rattle.spin_log.specs.Pens.{IsPen};

    /// The lane, which is below the number of lanes, and this is at most [`MAX_LANES`](spin_word::MAX_LANES).
    pub fn lane(&self) -> u8
        ensures lane { result ≡ self.now.lane }
        ensures below { (self.now.lane < self.now.lanes) × (self.now.lanes ≤ MAX_LANES) }
    {
        self.lane
    }

    /// The length of the front, in rows. It is at most [`MAX_PLACE`](spin_word::MAX_PLACE).
    ///
    /// The second clause tells what is so of every pen: its front is rows of commands of lanes below the number
    /// of lanes, those of its own lane are its own rows, and its pins don't fall and lie in its front.
    pub fn front(&self) -> u16
        ensures length { result ≡ length self.now.front }
        ensures pen { IsPen self.now }
    {
        self.length
    }
}

// A part of the log that some pen knew. Contracts see its log and that part.
#[derive(Drop)]
pub(crate) struct Note {
    pub(crate) seat: Seat<(), View>,
    pub(crate) length: u16,
}

impl Model for Note {
    ghost use Rattle.spin_log.specs.Inner.Seats.{NoteValue, only_front, IsNoteSeat};

    ghost Value = { NoteValue };

    ghost view = { λ n. record { log = n.seat.table_id; front = only_front n.seat.me.0.older } };

    ghost invariant = { λ n. IsNoteSeat n.seat.me n.length };
}
