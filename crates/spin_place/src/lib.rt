//! In which order the bindings of an event run.
//!
//! - [`binding`] is an installed handler with its place, and when one binding must precede another;
//! - [`run_order`] finds the least order that all constraints allow, or a cycle that shows that there is none;
//! - [`unplaced`] tells of bindings that ask for no place, which stand in their order already;
//! - [`ring`] tells whether numbers are such a cycle.
#![tactic(auto)]

mod binding;
mod candidate;
mod cycle;
mod links;
mod ring;
mod run_order;
mod unplaced;

pub use binding::{Binding, must_precede};
pub use ring::is_cycle;
pub use run_order::{OrderFault, order};
pub use unplaced::are_unplaced;
