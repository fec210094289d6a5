//! The limits of reassembly and of echo requests.

ghost use Rattle.spin_reass.specs.Limits.{AreStated};

/// The greatest number of bytes of an echo request that an endpoint answers.
pub const MAX_ECHO: usize = 65_535;

/// The greatest number of datagrams that are open at a time.
pub const MAX_OPEN: usize = 64;

/// The greatest number of bytes that a datagram carries: what a packet has beside a header without options.
pub const MAX_PAYLOAD: u32 = 65_515;

/// The limits that the definitions cite have the values that the documents give them.
pub fn limits_are_stated()
    ensures { AreStated }
{}
