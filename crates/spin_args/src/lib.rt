//! The words of a command line: what they ask for, or that they ask for nothing.
#![tactic(auto)]

mod words;

pub use words::{Asked, read_words};
