//! Commands, and the rows of four words that they are packed into.
//!
//! - [`command`] has the command, its parts and its limits, and tells the valid commands;
//! - [`row`] has the row of a command, and the way back;
//! - [`work`] has what a lane asks for besides.
//!
//! The definitions stand in `specs/Commands.antt` (which commands are valid) and `specs/Rows.antt` (which
//! row stands for which command, and the lane that a row carries).
#![tactic(auto)]

mod command;
mod limits;
mod row;
mod work;

pub use command::{
    Command, GUARD_LIMIT, HANDLER_LIMIT, LANE_LIMIT, MAX_EVENTS, MAX_LANES, MAX_PLACE, Mode,
    NO_BINDING, NO_BINDINGS, Op, Place, is_valid,
};
pub use limits::limits_are_stated;
pub use row::{Row, pack, unpack};
pub use work::{Deed, Work};
