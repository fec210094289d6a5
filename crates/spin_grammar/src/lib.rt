//! The lines of scripts: the words that they are made of, and what the words say.
//!
//! The format is read from left to right: what is wanted at a place, and the word there, fix what
//! is wanted next.
//! So tables say which words there are ([`keywords`] has one for each place), and a line is read in one
//! pass, without recursion on its depth. Only what isn't too deep is kept.
//!
//! - [`lines`] takes the lines off a text, [`words`] the words off a line;
//! - [`limits`] has the limits of numbers, names and texts;
//! - [`number`] and [`names`] read numbers, names, signatures and bytes;
//! - [`tokens`] reads what a single word says, over [`keywords`], whose tables [`lookup`] looks at;
//! - [`expression`], [`test`], [`act`], [`rule`] and [`work`] read what several words say;
//! - [`line`] reads a whole line of a [`kind`], and [`laws`] says that its words say one thing;
//! - [`cause`] has why a line isn't in the grammar, [`fault`] that or want of memory.
//!
//! The definitions stand in `specs/`: the table in `Grammar.antt`, over `Words.antt` and
//! `Spelling.antt`; what a
//! line says in `Lines.antt`, over `Forms.antt` and `Tasks.antt`; its canonical words in
//! `Canonical.antt`; the
//! laws in `Laws.antt`, over `Bare.antt`. What only private functions cite stands in `specs/Inner`.
#![tactic(auto)]

mod act;
mod cause;
mod expression;
mod fault;
mod keywords;
mod kind;
mod laws;
mod limits;
mod line;
mod lines;
mod lookup;
mod names;
mod number;
mod rule;
mod test;
mod tokens;
mod words;
mod work;

pub use cause::Cause;
pub use fault::Fault;
pub use kind::Kind;
pub use laws::{checks_are_bare, lines_are_one, lines_are_respelled};
pub use limits::{
    LAST_ARGUMENT, LAST_ENDPOINT, LAST_EVENT, LAST_GUARD, LAST_HANDLER, LAST_LANE, LAST_MODULE,
    LAST_PLACE, LAST_TARGET, MAX_IMPOSED, MAX_MODULES, MAX_NAME, MAX_NAMED, MAX_OFFSET,
    MAX_PACKETS, MAX_PARTS, MAX_QUOTA, MAX_TEXT, MAX_WIDTH,
};
pub use line::{Statement, read_line};
pub use lines::Lines;
pub use lookup::look_up;
pub use number::number_of;
pub use words::Words;
