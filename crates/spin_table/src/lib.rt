//! The state of the dispatcher: what never changes, and versions of what commands change.
//!
//! - an [`EventDef`] is an event as a setup declares it, and a [`Setup`] all that never changes; a [`SetupFault`] says
//!   why there is no such setup, and `build` finds it out;
//! - a [`Refusal`] says why a command is refused, and `judging` finds out which refusal is the first, over `units`
//!   (which handlers and guards an event can have) and `live` (its live bindings);
//! - `changes` makes the bindings of an event after a command, and `lists` their plan over the guards of `guarding`;
//! - a [`Version`] is a state that never changes, of which a command makes the next; [`steps_are_one`] says that it
//!   makes but one. `renewal` makes the version whose live bindings are numbered anew.
#![tactic(auto)]

mod build;
mod changes;
mod event;
mod fault;
mod guarding;
mod judging;
mod law;
mod limits;
mod lists;
mod live;
mod refusal;
mod renewal;
mod setup;
mod units;
mod version;

pub use build::{are_all_fit, is_fit_rule, raises_fit};
pub use event::{Authority, EventDef, EventList};
pub use fault::SetupFault;
pub use law::{renamed_steps_are_alike, renewals_keep_meaning, steps_are_one};
pub use limits::limits_are_stated;
pub use refusal::{Refusal, StepFault, Verdicted};
pub use setup::{MAX_LIVE, MAX_MODULES, Setup};
pub use spin_word::MAX_EVENTS;
pub use units::{is_fit_guard, is_fit_handler};
pub use version::Version;
