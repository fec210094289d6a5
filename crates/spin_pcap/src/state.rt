//! How a reader stands.

/// How a reader stands.
#[derive(Clone, Copy, Debug, PartialEq, Eq)]
pub enum State {
    /// It reads on.
    Reading,
    /// It came to the end.
    End,
    /// It came to an end within a record, of which so many bytes are there.
    Cut(u32),
    /// It refused, by the fault of that number.
    Spoilt(u8),
}
