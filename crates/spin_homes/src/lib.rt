//! Values that come back: each has a home of its own in a table that threads share, and what is taken out of a home fits
//! the table's key, whoever put it there.
//!
//! [`Homes`] has the homes, and a [`Ticket`] is the right to put a value into one of them; [`Fit`] says which value may be
//! at home where.
#![tactic(auto)]

mod homes;
mod rule;

pub use homes::{Homes, Ticket, Tickets};
pub use rule::{Fit, HomesRule};
