//! Scripts: a text is read by the script language, or its first bad line is found and why it is bad.
//!
//! - `script` is what a script says, and `read` reads it;
//! - `draft` is the script so far, and `head` what a line as a whole is behind it;
//! - `write` writes its canonical text;
//! - `declare`, `units`, `rules` and `lanes` add a line to it, or say why it can't stand there.
#![tactic(auto)]

mod declare;
mod draft;
mod head;
mod lanes;
mod laws;
mod limits;
mod read;
mod rules;
mod script;
mod units;
mod write;

pub use head::all_allowed;
pub use lanes::{MAX_DEEDS, MAX_EARLY_COMMANDS};
pub use laws::{outcomes_are_one, outcomes_are_there};
pub use limits::limits_are_stated;
pub use read::{MAX_EARLY_LIVE, read_script};
pub use script::{Line, Lines, Script, ScriptFault, Segment, Segments};
pub use spin_grammar::MAX_TEXT;
pub use spin_word::{Deed, Work};
pub use write::law::{
    declarations_are_back, deeds_are_back, scripts_can_be_written, scripts_come_back,
    written_lines_are_read,
};
pub use write::{op_word, write_script};
