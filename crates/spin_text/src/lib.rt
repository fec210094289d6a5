//! The text of the program's lines: numbers, words and line ends, which append to bytes.
//!
//! - `number` writes numbers in decimal digits, and bytes in hexadecimal ones;
//! - `word` writes words behind one space each;
//! - `line` ends lines.
#![tactic(auto)]

mod line;
mod number;
mod word;

pub use line::{end_line, put_line};
pub use number::{put_decimal, put_hex};
pub use word::{put_number, put_numbers, put_word};
