//! Open raises: a raise of one event on one version, in which a host is told the firings one by one, runs handlers and
//! guards of its own, and says what became of each.
//!
//! - `gift` has what a host's own handler gives, and what of it is refused;
//! - `firing` is what a host is told, and why its answer isn't taken; `turn` is all that can come next;
//! - `frame` is one raise of one event, whose firings are found, told and answered;
//! - [`OpenRaise`] is such a raise on a version that is pinned, with the raises within it, by the host or upwards by acts;
//!   `fault` has why one isn't opened, and `upward` keeps what acts ask for; [`Spare`] is room that raises have left;
//! - `law` has what holds of whole raises, and `driving` makes one of acts alone.
#![tactic(auto)]

mod driving;
mod fault;
mod firing;
mod frame;
mod gift;
mod law;
mod open;
mod spare;
mod turn;
mod upward;

pub use driving::raise_by_acts;
pub use fault::{RaiseFault, begin_fault};
pub use firing::{AnswerFault, Firing};
pub use frame::{Due, Frame};
pub use gift::{Gift, GiftFault, Given, gift_fault};
pub use law::{acts_make_a_plain_raise, firings_are_those_reached, nesting_ends};
pub use open::{Level, OpenRaise, Room};
pub use spare::Spare;
pub use turn::Turn;
pub use upward::Upward;
