//! How a trace ends.

/// How a trace over a script ends.
#[derive(Clone, Copy, Debug, PartialEq, Eq)]
pub enum VmEnd {
    /// The whole output was written.
    Whole,
    /// The text isn't a trace.
    Trace {
        /// Its first bad line, counted from 1; 0 where the text is too large.
        line: u32,
        /// The number of the cause, by [`TraceCause`](crate::TraceCause).
        cause: u8,
    },
    /// The sink failed.
    WriteFault,
    /// There was no memory.
    NoMemory,
}
