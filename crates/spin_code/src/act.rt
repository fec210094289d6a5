//! Acts: what a handler does, step by step.

use crate::expr::Expr;
use spin_values::Sequence;

/// One argument of a raise upwards.
#[derive(PartialEq, Drop, Debug)]
pub enum Part {
    /// A word of this value.
    Word(Expr),
    /// The bytes of an argument from a place on, none where that lies past the end.
    Bytes {
        /// The number of the argument, counted from 0.
        arg: u8,
        /// How many of its bytes are left out at the front.
        from: u16,
    },
}

/// The arguments of a raise upwards, in order.
pub type Parts = Sequence<Part>;

/// The headers that a layer step reads before it raises its event.
#[derive(Clone, Copy, PartialEq, Eq, Debug)]
pub enum Layer {
    /// Argument 0 is an Ethernet frame that holds an IPv4 packet (RFC 791).
    Ipv4,
    /// Argument 0 is a UDP packet (RFC 768), after which come protocol, source address and destination address.
    Udp,
}

/// A step of an act. It sees the arguments as earlier steps left them.
#[derive(PartialEq, Drop, Debug)]
pub enum ActStep {
    /// Replaces the word of an argument, and changes nothing where there is none.
    Set {
        /// The number of the argument, counted from 0.
        arg: u8,
        /// Its new value.
        to: Expr,
    },
    /// Sends the bytes of an argument from a place on, none where that lies past the end.
    Send {
        /// The number of the endpoint.
        endpoint: u8,
        /// The number of the argument, counted from 0.
        arg: u8,
        /// How many of its bytes are left out at the front.
        from: u16,
    },
    /// Gives this result. The last one of an act is its result.
    Result(Expr),
    /// Raises an event upwards.
    Up {
        /// The number of the event.
        event: u8,
        /// Its arguments.
        parts: Parts,
    },
    /// Reads headers, and raises an event upwards with what they say and what they enclose, or drops the packet
    /// with the first fault.
    Layer {
        /// The headers that are read.
        kind: Layer,
        /// The number of the event.
        event: u8,
    },
}

/// Steps in order.
pub type Steplist = Sequence<ActStep>;

/// What a handler does: its steps, one after the other.
#[derive(PartialEq, Drop, Debug)]
pub struct Act {
    /// The steps in order.
    pub steps: Steplist,
}
