//! What handlers and guards do, as data: expressions, tests, acts and merges, with the meaning of each.
//!
//! - [`expr`] has numbers that are computed from arguments, [`test`] what is asked of arguments;
//! - [`act`] has what a handler does, step by step, [`merge`] how several results become one;
//! - [`check`] finds the first fault of a test, an act or a merge, over [`depth`], [`nodes`] and [`uses`];
//! - [`requirement`] finds what a test requires of an argument or a field;
//! - [`guards`] is what is asked of a collection of guards.
//!
//! No call of this crate takes memory.
#![tactic(auto)]

mod act;
mod check;
mod depth;
mod expr;
mod guards;
mod limits;
mod merge;
mod nodes;
mod requirement;
mod test;
mod uses;

pub use act::{Act, ActStep, Layer, Part, Parts, Steplist};
pub use check::{ActFault, check_act, check_merge, check_test};
pub use depth::MAX_DEPTH;
pub use expr::{Expr, argument_bytes, argument_word, value};
pub use guards::{Guards, Sincere};
pub use limits::limits_are_stated;
pub use merge::Merge;
pub use nodes::MAX_NODES;
pub use requirement::{is_same_read, required, requirements_are_met};
pub use test::{Cmp, Test, holds};
