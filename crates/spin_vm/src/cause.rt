//! Why a trace isn't in the grammar.

use thiserror::Error;

/// Why a line of a trace is bad. The causes are numbered from 1 in this order.
#[derive(Clone, Copy, Debug, PartialEq, Eq, Error)]
pub enum TraceCause {
    /// The trace is over 1,048,576 bytes.
    #[error("the trace is too large")]
    TooLarge = 1,
    /// A byte is neither a tab nor printable ASCII.
    #[error("a byte isn't printable ASCII")]
    NotAscii = 2,
    /// The first line that isn't skipped isn't `vm 1`.
    #[error("the first line isn't `vm 1`")]
    Version = 3,
    /// The line has none of the forms.
    #[error("the line has none of the forms")]
    Form = 4,
    /// A space isn't the next number, or is over 63.
    #[error("the space isn't the next one")]
    Next = 5,
    /// A space isn't declared.
    #[error("the space isn't declared")]
    Undeclared = 6,
    /// A region has no pages, ends past the last page, or has a page of another region of its space.
    #[error("the region is empty, too far, or on another")]
    Region = 7,
    /// A space has 256 regions already.
    #[error("the space has too many regions")]
    Regions = 8,
}
