//! Seats from new pens, and the pens of seats.

ghost use Rattle.std.specs.Prelude.{◌≡◌, ◌≤◌, [], All, IfOk, map, length, vec_capacity};
ghost use Rattle.std.specs.Arc.{arc_value};
ghost use Rattle.spin_word.specs.declared.command.TheConstants.{MAX_PLACE};
ghost use Rattle.spin_table.specs.SetupOf.{data_of};
ghost use Rattle.spin_table.specs.Soundness.{IsSoundVersion};
ghost use Rattle.spin_table.specs.Renewals.{NameGiven};
ghost use Rattle.spin_seat.specs.Seats.{IsSeatFrom};

use crate::seat::{Seat, Seats};
use spin_log::{Pen, Pens};
use spin_table::{Setup, Version};
use spin_values::NoMemory;
use std::alloc::Global;
use std::sync::Arc;

// A seat at each pen, at this version, on which the log follows, where no pen knows any row.
pub(crate) fn seats_of(
    alloc: Global,
    _setup: &Setup,
    first: &Arc<Version>,
    pens: Pens,
) -> Result<Seats, NoMemory>
    requires new { All (λ pen. pen.front ≡ []) pens }
    requires fits { (arc_value first.now).state.place ≤ MAX_PLACE }
    requires sound { IsSoundVersion (data_of _setup.now) (arc_value first.now) }
    requires given { NameGiven (arc_value first.now).state }
    ensures pens { IfOk result (λ seats. map (λ seat. seat.pen) seats ≡ pens) }
    ensures seats { IfOk result (λ seats.
        All (IsSeatFrom (data_of _setup.now) (arc_value first.now).state) seats) }
{
    let mut pens = pens;
    let mut seats = Seats::new(alloc);
    while let Some(pen) = pens.take_first() {
        let first = Arc::try_clone(first)?;
        let version = Arc::try_clone(&first)?;
        seats.push(Seat {
            pen,
            base: first,
            version,
            pending: None,
        })?;
    }
    Ok(seats)
}

// The pens of the seats, in order, put into this empty list, which has room for them.
pub(crate) fn pens_of(room: Vec<Pen>, seats: Seats) -> Pens
    requires empty { room.items ≡ [] }
    requires room { length seats ≤ vec_capacity room }
    ensures { result ≡ map (λ seat. seat.pen) seats }
{
    let mut pens = room;
    let mut seats = seats;
    while let Some(seat) = seats.take_first() {
        let Seat {
            pen,
            base: _first,
            version: _version,
            pending: _,
        } = seat;
        pens.push_reserved(pen);
    }
    Pens::from_vec(pens)
}
