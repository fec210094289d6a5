//! Why a line isn't in the grammar.

use thiserror::Error;

/// Why a line isn't in the grammar. The causes are numbered from 1 in this order.
#[derive(Clone, Copy, Debug, PartialEq, Eq, Error)]
pub enum Cause {
    /// The text is over 1,048,576 bytes.
    #[error("the text is too large")]
    TooLarge = 1,
    /// A byte is neither a tab nor printable ASCII.
    #[error("a byte isn't printable ASCII")]
    NotAscii = 2,
    /// The first line that isn't skipped doesn't name a version that is known.
    #[error("the first line names no version")]
    Version = 3,
    /// The first word begins no line.
    #[error("the first word begins no line")]
    Keyword = 4,
    /// The line stands in the wrong section.
    #[error("the line stands in the wrong section")]
    Order = 5,
    /// A number in its range was wanted.
    #[error("a number was wanted")]
    Number = 6,
    /// A signature was wanted.
    #[error("a signature was wanted")]
    Signature = 7,
    /// A name was wanted.
    #[error("a name was wanted")]
    Name = 8,
    /// One of several fixed words, an expression, a test, a step or a part was wanted.
    #[error("another word was wanted")]
    Word = 9,
    /// A value that begins with `x` isn't bytes.
    #[error("the value isn't bytes")]
    Bytes = 10,
    /// The line ends too early, or a word is left over.
    #[error("the line ends too early or too late")]
    End = 11,
    /// A number isn't the next one.
    #[error("the number isn't the next one")]
    Next = 12,
    /// There are too many of something.
    #[error("there are too many")]
    Limit = 13,
    /// An expression or a test is too deep.
    #[error("it is too deep")]
    TooDeep = 14,
    /// An act, a test or a merge has too many nodes.
    #[error("it is too long")]
    TooLong = 15,
    /// There is no argument of that number.
    #[error("there is no such argument")]
    BadArg = 16,
    /// An argument has the wrong kind.
    #[error("an argument has the wrong kind")]
    BadKind = 17,
    /// An argument that is set isn't var.
    #[error("an argument can't be set")]
    NotVar = 18,
    /// A result stands where none is given.
    #[error("no result is given")]
    NoResult = 19,
    /// Something that isn't declared is named.
    #[error("it isn't declared")]
    Undeclared = 20,
    /// Two things that are joined don't fit.
    #[error("they don't fit")]
    Mismatch = 21,
    /// There is no native of that kind and name.
    #[error("there is no such native")]
    Native = 22,
    /// A name, a default or an authoriser stands already.
    #[error("it stands already")]
    Repeated = 23,
    /// There is no such lane.
    #[error("there is no such lane")]
    Lane = 24,
}
