//! Endpoints: boxed objects under names, each of which takes the pieces that are sent to it until it is retired.
//!
//! - [`Endpoint`] is what an endpoint does;
//! - [`Ends`] holds endpoints by name: it adds, delivers and retires; it delivers a list of sends in one call, counts
//!   those that are lost, and retires a list of endpoints;
//! - [`KeepEnd`] keeps its pieces in memory that it takes at once, [`GatherEnd`] in memory that it takes as they come,
//!   and hands them out; [`FileEnd`] appends them to a file;
//! - [`EndsFault`], [`DeliverFault`] and [`Unknown`] are the answers that aren't success.
#![tactic(auto)]

mod endpoint;
mod ends;
mod faults;
mod file_end;
mod gather_end;
mod keep_end;
mod limits;
mod pieces;
mod sends;

pub use endpoint::Endpoint;
pub use ends::{Ends, EndsSeen, MAX_ENDPOINTS};
pub use faults::{DeliverFault, EndsFault, Unknown};
pub use file_end::FileEnd;
pub use gather_end::GatherEnd;
pub use keep_end::KeepEnd;
pub use limits::limits_are_stated;
pub use sends::{Lost, Sent};
pub use spin_outside::{Count, Failed};
