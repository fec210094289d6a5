//! What comes next in a capture.

/// What comes next in a capture.
#[derive(Clone, Copy, Debug, PartialEq, Eq)]
pub enum Next {
    /// A whole record, whose captured bytes were given.
    Packet,
    /// The capture ends behind a whole record, or behind its header.
    End,
    /// The capture ends within a record, of which so many bytes are there.
    Cut(u32),
}
