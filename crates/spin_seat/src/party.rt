//! A hub whose seats go out and come home.

ghost use Rattle.std.specs.Prelude.{◌≡◌, ◌<◌, ◌≤◌, ℕ, List, All, map, length, vec_capacity, IfOk, IfErr, IfSome, MatchResult};
ghost use Rattle.spin_word.specs.declared.command.TheConstants.{MAX_LANES, MAX_PLACE};
ghost use Rattle.spin_log.specs.Rows.{IsCommandBelow};
ghost use Rattle.spin_log.specs.History.{LogAction};
ghost use Rattle.spin_log.specs.Pens.{StandsIn, IsHistory, new_pens};
ghost use Rattle.spin_table.specs.SetupOf.{data_of};
ghost use Rattle.spin_table.specs.States.{State, start_of};
ghost use Rattle.spin_seat.specs.Replay.{IsCleanFrom};
ghost use Rattle.spin_seat.specs.Seats.{IsSeatOf, AreFrom, AreOfLanes};
ghost use Rattle.spin_seat.specs.Weaves.{AnswersAreLegalFrom};
ghost use Rattle.spin_seat.specs.Homes.{AreFor};
ghost use Rattle.spin_seat.specs.Parties.{IsAway, IsWellParty};
ghost use Rattle.spin_seat.specs.RenewedHubs.{AreAllSeats, KnowMore, IsFaultOf, IsRenewal};

use crate::home::{SeatHomes, SeatTicket, SeatTickets, homes_of};
use crate::hub::Hub;
use crate::renew::Moved;
use crate::renewal::Stayed;
use crate::seat::{Seat, Seats};
use spin_code::Sincere;
use spin_log::Rows;
use spin_objects::Catalogue;
use spin_table::Setup;
use spin_values::{NoMemory, Numbers};
use std::alloc::Global;

/// A hub, and a home for the seat of each lane. Handles share it by reference: a seat that one of them has done with goes
/// home, and whoever takes it out of there knows that it is the seat of that lane of the hub.
#[derive(Drop)]
pub struct Party {
    /// The hub.
    pub hub: Hub,
    /// The homes of its seats.
    pub homes: SeatHomes,
}

/// A seat that is away from its home, with the ticket by which it goes back. Where it is let go, its lane stays without a
/// seat until the hub is renewed.
#[derive(Drop)]
pub struct Away {
    /// The ticket.
    pub ticket: SeatTicket,
    /// The seat.
    pub seat: Seat,
}

/// What a party leaves that was renewed: its new seats and tickets, in the order of lanes; the rows of the log that was
/// closed; and the numbers that the live bindings had, as [`Renewal`](crate::Renewal) has them.
#[derive(Drop)]
pub struct Renewed {
    /// The seats, each away from its home.
    pub seats: Seats,
    /// Their tickets.
    pub tickets: SeatTickets,
    /// The rows of the log that was closed.
    pub rows: Rows,
    /// The numbers that the live bindings had, rising: that at index k, from 0, is now k + 1.
    pub live: Numbers,
}

impl Party {
    /// A hub of so many lanes as [`Hub::new`] makes it, with the home of each seat; all seats are away, and these are
    /// their tickets. After want of memory the setup is gone.
    pub fn new(
        alloc: Global,
        setup: Setup,
        lanes: u8,
    ) -> Result<(Party, Seats, SeatTickets), NoMemory>
        requires some { 0 < lanes }
        requires few { lanes ≤ MAX_LANES }
        ensures setup { IfOk result (λ made. made.0.hub.setup ≡ setup) }
        ensures lanes { IfOk result (λ made. made.0.hub.log.lanes ≡ lanes) }
        ensures pens { IfOk result (λ made. map (λ seat. seat.pen) made.1 ≡ new_pens made.0.hub.log.id lanes) }
        ensures seats { IfOk result (λ made. All (IsSeatOf (data_of setup)) made.1) }
        ensures own { IfOk result (λ made. All (λ seat. seat.pen.log ≡ made.0.hub.log.id) made.1) }
        ensures all { IfOk result (λ made. length made.1 ≡ lanes) }
        ensures order { IfOk result (λ made. AreOfLanes 0 made.1) }
        ensures well { IfOk result (λ made. IsWellParty made.0 (start_of (data_of setup))) }
        ensures tickets { IfOk result (λ made. AreFor lanes made.0.homes.table.shared.table_id made.2) }
    {
        let (hub, seats) = Hub::new(alloc, setup, lanes)?;
        let (homes, tickets) = homes_of(alloc, &hub.log, &hub.setup, seats.get(0), lanes)?;
        Ok((Party { hub, homes }, seats, tickets))
    }

    /// Takes the seat of a lane out of its home; `None` where it is away. It takes no memory and waits for nobody.
    pub fn take(&self, lane: usize) -> Option<Away>
        requires lane { lane < self.now.hub.log.lanes }
        requires well { (first : State) × IsWellParty self.now first }
        ensures { (first : State) → IsWellParty self.now first
            → IfSome result (λ away. IsAway self.now first lane away.ticket away.seat) }
    {
        let (ticket, seat) = self.homes.take(lane)?;
        Some(Away { ticket, seat })
    }

    /// Brings a seat of the hub home. It takes no memory and waits for nobody.
    pub fn give(&self, away: Away)
        requires { (first : State) × (lane : ℕ) × IsWellParty self.now first
            × IsAway self.now first lane away.ticket away.seat }
    {
        let Away { ticket, seat } = away;
        self.homes.give(ticket, seat);
    }

    /// Renews the hub, whose seats are all handed in, as [`Hub::renew`] does, in place, and with new homes. After a fault
    /// the party is as it was, and the seats come back, each of which may have read rows of other lanes; their tickets
    /// are good as before.
    pub fn renew(&mut self, alloc: Global, seats: Seats) -> Result<Renewed, Stayed>
        requires sincere { ⟦<Catalogue as Sincere>⟧.sincere self.old.hub.setup.catalogue }
        requires all { AreAllSeats (data_of self.old.hub.setup) self.old.hub.log seats }
        ensures all { let d = data_of self.old.hub.setup in
            MatchResult result
            (λ done. AreAllSeats d self.new.hub.log done.seats)
            (λ left. AreAllSeats d self.new.hub.log left.seats) }
        ensures setup { self.new.hub.setup ≡ self.old.hub.setup }
        ensures log { MatchResult result
            (λ _. self.new.hub.log.lanes ≡ self.old.hub.log.lanes)
            (λ _. self.new ≡ self.old) }
        ensures pens { IfOk result (λ done.
            map (λ seat. seat.pen) done.seats ≡ new_pens self.new.hub.log.id self.old.hub.log.lanes) }
        ensures well { IfOk result (λ done. (first : State) → AreFrom first done.seats → IsWellParty self.new first) }
        ensures tickets { IfOk result (λ done.
            AreFor self.old.hub.log.lanes self.new.homes.table.shared.table_id done.tickets) }
        ensures more { IfErr result (λ left. KnowMore (data_of self.old.hub.setup) seats left.seats) }
        ensures fault { let d = data_of self.old.hub.setup in
            (first : State) → AreFrom first seats
            → IfErr result (λ left. IsFaultOf d first left.seats left.fault) }
        ensures renewed { let d = data_of self.old.hub.setup in
            (first : State) → AreFrom first seats
            → IfOk result (λ done. IsRenewal d first done.rows done.live done.seats) }
        ensures clean { (first : State) → AreFrom first seats
            → IfOk result (λ done. IsCleanFrom (data_of self.old.hub.setup) first done.rows) }
        ensures legal { (first : State) → AreFrom first seats
            → IfOk result (λ done. AnswersAreLegalFrom (data_of self.old.hub.setup) first seats done.rows) }
        ensures each { IfOk result (λ done. All (λ seat. StandsIn done.rows seat.pen) seats) }
        ensures history { let pens = map (λ seat. seat.pen) seats in
            IfOk result (λ done. (moments : List LogAction) × IsHistory done.rows pens moments) }
        ensures rows { IfOk result (λ done.
            All (IsCommandBelow self.old.hub.log.lanes) done.rows × (length done.rows ≤ MAX_PLACE)) }
    {
        match self.hub.renew_in(alloc, seats) {
            Ok(moved) => {
                let Moved {
                    seats,
                    homes,
                    tickets,
                    rows,
                    live,
                } = moved;
                self.homes = homes;
                Ok(Renewed {
                    seats,
                    tickets,
                    rows,
                    live,
                })
            }
            Err(stayed) => Err(stayed),
        }
    }
}
