//! What a report is judged to be.

use crate::reading::Unread;

/// What a text is judged to be that may be the report of a script.
#[derive(Clone, Copy, PartialEq, Eq, Debug)]
pub enum Verdict {
    /// It is the report of one legal history of the script.
    History,
    /// It isn't.
    NoHistory,
    /// What it is judged by isn't read.
    Unread(Unread),
}
