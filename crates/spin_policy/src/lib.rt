//! Policies: which requests of other modules the owner of an event allows, denies or restricts.
//!
//! The module that owns an event is asked about each request of another module (Pardyak and Bershad,
//! OSDI 1996: authorisers).
//!
//! - [`rule`] is one rule: whom it speaks of, and what it decides;
//! - [`policy`] is a list of rules, of which the first that matches decides, by [`judge`];
//! - [`authoriser`] is an object that answers as its policy does.
#![tactic(auto)]

mod authoriser;
mod limits;
mod policy;
mod rule;

pub use authoriser::Authoriser;
pub use limits::limits_are_stated;
pub use policy::{MAX_RULES, Policy, PolicyFault, judge};
pub use rule::{Effect, Forced, MAX_GUARDS, OpMatch, Request, Rule, Verdict};
