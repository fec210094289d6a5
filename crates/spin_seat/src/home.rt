//! Homes for the seats of a hub.

ghost use Rattle.std.specs.Prelude.{IfOk};
ghost use Rattle.spin_table.specs.SetupOf.{data_of};
ghost use Rattle.spin_seat.specs.Homes.{AreFor, IsKeyOf};

use crate::seat::Seat;
use boxcar::tag::{Names, Tag};
use spin_homes::{Fit, Homes, Ticket};
use spin_log::Log;
use spin_table::Setup;
use spin_values::{NoMemory, Sequence};
use std::alloc::Global;

/// Which hub's seats the homes are for: which log, over which setup, following on which state. It has no bytes, and only
/// clauses read it.
#[derive(Drop)]
pub struct HomeKey {
    /// The log, in numbers.
    pub log: Tag,
    /// The setup.
    pub setup: Tag,
    /// The state on which the log follows.
    pub first: Tag,
}

struct LogNumbers;

impl Names<Log> for LogNumbers {
    ghost use Rattle.spin_seat.specs.Codes.{log_numbers};

    ghost numbers = { λ log. log_numbers log.id };
}

struct SetupNumbers;

impl Names<Setup> for SetupNumbers {
    ghost use Rattle.spin_table.specs.SetupOf.{data_of};
    ghost use Rattle.spin_seat.specs.Codes.{setup_numbers};

    ghost numbers = { λ setup. setup_numbers (data_of setup) };
}

struct FirstNumbers;

impl Names<Seat> for FirstNumbers {
    ghost use Rattle.spin_seat.specs.Codes.{state_numbers};

    ghost numbers = { λ seat. state_numbers seat.base };
}

/// At home at the index of a lane may be the seat of that lane, of the key's hub.
pub struct OfHub;

impl Fit<Seat, HomeKey> for OfHub {
    ghost use Rattle.spin_seat.specs.Homes.{IsHomeSeat};

    ghost fits = { IsHomeSeat };
}

/// A home for the seat of each lane of a hub.
pub type SeatHomes = Homes<Seat, HomeKey, OfHub>;

/// The right to bring the seat of a lane home.
pub type SeatTicket = Ticket<Seat, HomeKey>;

/// Such tickets, in the order of lanes.
pub type SeatTickets = Sequence<SeatTicket>;

// The key of homes for the seats of this log over this setup, of which this is one.
fn key_of(log: &Log, setup: &Setup, seat: &Seat) -> HomeKey
    ensures { IsKeyOf result log.now.id (data_of setup.now) seat.now.base }
{
    HomeKey {
        log: Tag::of::<Log, LogNumbers>(log),
        setup: Tag::of::<Setup, SetupNumbers>(setup),
        first: Tag::of::<Seat, FirstNumbers>(seat),
    }
}

// Homes for the seats of so many lanes of this log, of which this is one, each empty; and the tickets of all.
pub(crate) fn homes_of(
    alloc: Global,
    log: &Log,
    setup: &Setup,
    seat: &Seat,
    lanes: u8,
) -> Result<(SeatHomes, SeatTickets), NoMemory>
    ensures key { IfOk result (λ made. IsKeyOf made.0.table.shared.key log.now.id (data_of setup.now) seat.now.base) }
    ensures tickets { IfOk result (λ made. AreFor lanes made.0.table.shared.table_id made.1) }
{
    let key = key_of(log, setup, seat);
    let (homes, tickets) = Homes::new(alloc, usize::from(lanes), &key)?;
    Ok((homes, SeatTickets::from_vec(tickets)))
}
