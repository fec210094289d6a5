//! The one thing that running lanes share: a log of commands, to which each lane adds and which none changes.
//!
//! A command is a row of four words. Its lane writes the row into its own part of a table of atomic words, and
//! then one compare-exchange on the first log word that is 0 puts the row's number there: this publishes the row,
//! once and at that place. A load that finds the next log word 0 pins the present end of the log. Nothing else is
//! shared, nothing waits, and only [`Log::new`], [`RowRoom::new`] and [`Log::close`] take memory.
//!
//! - [`Log`] has the calls; [`Look`] and [`Publish`] are what they answer, and [`RowRoom`] is got before a log is
//!   closed where that must not fail;
//! - [`Pen`] is what a lane adds to the log by, of which there is one for each lane;
//! - [`LogRule`] names the fact that holds between any two atomic steps;
//! - [`front_is_log`] is the law that lanes which all met know the whole log.
//!
//! # What a caller learns, and when
//!
//! A [`Pen`] is seen as a record `PenValue` (`specs/Pens.antt`): its log, the number of lanes, its lane, its
//! front (the part of the log that it knows), its own rows, and its pins (how many rows there were each time that
//! it found no next one). A [`Log`] is seen as its id and its number of lanes; a pen is of a log where the pen's
//! `log` is the log's `id`.
//!
//! | when | what is known |
//! |---|---|
//! | at any time, of one pen ([`Pen::front`]) | its lane is below the number of lanes; its front has at most [`MAX_PLACE`] rows, each of a command of a lane below that number; its own rows are exactly the front's rows of its lane; its pins don't fall, and none is greater than the front's length |
//! | [`Log::look`], [`Log::publish`] | the whole new value of the pen, and so that all else stays; a row that was read stands for a command of another lane below the number of lanes |
//! | [`Log::meet`] | of the two fronts one begins the other, and both pens have the longer one; by [`Pen::front`] before and after it, the longer has no further row of either lane |
//! | [`Log::close`], [`Log::close_into`] | the whole list of rows; each pen's front begins it; each pen's own rows are exactly the list's rows of its lane, and all lie in its front; one order of all publishes and pins has the list and each pen's pins |
//! | after it ([`front_is_log`]) | where a pen of each lane is there and all have one front, that front is the whole list |
//! | never | an order between two pens that haven't met; what the log holds at present; when a step is made |
//!
//! What holds between any two atomic steps stands in `specs/Rule.antt`, and what each kind of step tells in
//! `specs/Steps.antt`. No clause of a call names the log's present content, since another lane may add to it at
//! any time. A clause names what the acting pen knows, and the rule makes that a part of the one log.
#![tactic(auto)]

mod laws;
mod log;
mod pen;
mod rule;
mod view;

pub use laws::front_is_log;
pub use log::{Log, Look, Publish, RowRoom, Rows};
pub use pen::{Pen, Pens};
pub use rule::LogRule;
pub use spin_word::{MAX_LANES, MAX_PLACE};
