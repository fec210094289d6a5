//! The kinds of lines behind the first.

/// What a line behind the first declares or asks for. The kinds stand in the order of their
/// sections.
#[derive(Clone, Copy, Debug, PartialEq, Eq)]
pub enum Kind {
    /// The number of modules.
    Modules,
    /// An event.
    Event,
    /// An endpoint.
    Endpoint,
    /// A handler.
    Handler,
    /// A guard.
    Guard,
    /// A rule of an event's policy.
    Rule,
    /// A native authoriser of an event.
    Authoriser,
    /// An event's first default.
    Default,
    /// A deed of a lane.
    Lane,
    /// The end of a segment.
    Barrier,
    /// An endpoint that is retired before a segment.
    Retire,
}
