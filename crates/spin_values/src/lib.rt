//! What events carry: words and bytes, the types of events, and the lists that all crates share.
//!
//! - [`list`] is the one generic list, which contracts see as a plain list of its items;
//! - [`text`] is the bytes of a name or a word;
//! - [`values`] has arguments and their lists, [`types`] the types of events;
//! - [`steps`] counts what a call does;
//! - [`no_memory`] is the one answer for want of memory.
#![tactic(auto)]

mod limits;
mod list;
mod no_memory;
mod steps;
mod text;
mod types;
mod values;

pub use limits::limits_are_stated;
pub use list::{Numbers, Octets, Sequence, Words};
pub use no_memory::NoMemory;
pub use steps::Steps;
pub use text::{Text, Texts};
pub use types::{EventType, Kind, MAX_PARAMS, Param, Params, same_kinds, same_type};
pub use values::{Args, SetFault, Value, fits, set};
