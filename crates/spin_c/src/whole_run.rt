//! What a whole run comes to, as C has it.

use crate::reading::Unread;
use spin_values::{Octets, Sequence};

/// A send of a run: to which endpoint, and which range of all bytes that are sent it has.
#[repr(C)]
#[derive(Clone, Copy, PartialEq, Eq, Debug)]
pub struct SpinSending {
    /// The number of the endpoint.
    pub endpoint: u64,
    /// Where its bytes begin.
    pub at: u64,
    /// How many bytes.
    pub length: u64,
}

/// How long the parts are that a run hands out; or where the script is none or the capture is refused, and why. What
/// isn't told is 0.
#[repr(C)]
#[derive(Clone, Copy, PartialEq, Eq, Debug)]
pub struct SpinRan {
    /// How many bytes the report has.
    pub report: u64,
    /// How many sends there are.
    pub sends: u64,
    /// How many bytes these have together.
    pub bytes: u64,
    /// As [`SpinFault`](crate::SpinFault) has it.
    pub line: u32,
    /// As [`SpinFault`](crate::SpinFault) has it.
    pub cause: u32,
}

/// What a run hands out.
#[derive(Drop)]
pub struct Output {
    /// The text of the report.
    pub report: Octets,
    /// What endpoints received, in the order of the history.
    pub sends: Sequence<SpinSending>,
    /// The bytes of the sends, one behind another.
    pub bytes: Octets,
}

/// What a whole run comes to.
#[derive(Drop)]
pub enum Whole {
    /// It hands this out.
    Ran(Output),
    /// What it begins with isn't read, or there was no memory.
    Unread(Unread),
}
