//! What a raise answers.

/// The answer of a raise.
#[derive(Clone, Copy, PartialEq, Eq, Debug)]
pub enum Answer {
    /// Bindings ran, and their results merged to this one.
    Value(u64),
    /// Bindings ran, and none gave a result that is merged.
    Done,
    /// No binding ran, and the event's default did. This is its result, if it gave one.
    Default(Option<u64>),
    /// No binding ran, and the event has no default.
    NoHandler,
}
