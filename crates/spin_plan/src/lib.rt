//! Plans: the bindings of an event in the order in which they run, and which of them is next.
//!
//! - [`plan`] has the plan, and the walk that finds the next binding whose guards all hold;
//! - [`read`] is an argument or a field of one; [`reads`] has what the guards of a binding require to be constants,
//!   [`key`] what most bindings require;
//! - [`index`] has the positions of bindings by the constant that they require.
#![tactic(auto)]

mod index;
mod key;
mod plan;
mod read;
mod reads;

pub use plan::Plan;
