//! One raise of one event: along its bindings in order, guards are tested when they are reached, on the arguments as
//! earlier handlers left them; handlers run, or are left to jobs; their results merge; and the event's default runs
//! where no binding did.
//!
//! - a [`Bound`] is an event as a raise finds it, and a [`Runner`] says who raises it;
//! - an [`Answer`] is what a raise answers, and `merging` has how results become one;
//! - [`step`] goes on to the next handler that runs, for callers that put work of their own between handlers;
//! - [`next_firing`], [`fire`], [`after_result`] and [`default_next`] are what a step is made of, for callers that
//!   choose between finding a binding and doing its act;
//! - [`raise`] is the whole raise.
#![tactic(auto)]

mod answer;
mod bound;
mod merging;
mod raising;
mod stepping;

pub use answer::Answer;
pub use bound::{Bound, Runner};
pub use merging::{after_result, default_next, last_of};
pub use raising::raise;
pub use stepping::{Progress, Stepped, fire, next_firing, run_handler, step};
