//! Seats: each thread of a host raises events and gives commands on its own replica of the
//! dispatcher, and what all of them answer is one history of the plain dispatcher.
//!
//! [`Hub::new`] makes one [`Seat`] for each lane. A seat has a pen of the shared log, and a version
//! of its own. It reads on, row by row, and applies what it reads; a raise is answered on the
//! version at which it found no next row, and so is a refusal; an accepted command has its whole
//! next version before one exchange publishes it. No call takes a lock or waits for another lane.
//! [`Hub::meet`] lets two seats know what each other knows, and [`Hub::close`] gives the whole log.
//! [`Hub::renew`] goes on over a new log, with nothing lost that is bound. A [`Party`] is a hub with a home for each seat:
//! what goes home comes back as the seat that it is, whoever had it meanwhile.
//! [`seats_answer_one_history`] has the laws by which the answers of all seats are one history.
#![tactic(auto)]

mod answer;
mod closing;
mod gather;
mod home;
mod hub;
mod law;
mod live;
mod next;
mod party;
mod raise_into;
mod renew;
mod renewal;
mod seat;
mod seats;

pub use answer::{Judged, Raised, SeatFault};
pub use closing::CloseRoom;
pub use home::{HomeKey, OfHub, SeatHomes, SeatTicket, SeatTickets};
pub use hub::Hub;
pub use law::{renewals_go_on, seats_answer_one_history};
pub use party::{Away, Party, Renewed};
pub use renewal::{RenewFault, Renewal, Stayed, Unrenewed};
pub use seat::{Seat, Seats};
pub use spin_table::Verdicted;
