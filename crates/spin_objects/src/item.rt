//! What a raise gives, item by item.

use spin_headers::HeaderFault;
use spin_values::{Args, Octets, Sequence};

/// One thing that a raise gives.
#[derive(PartialEq, Drop, Debug)]
pub enum Item {
    /// The handler of the binding of this number runs, 0 being the event's default. What its act gives follows.
    Ran(u16),
    /// The act gives this result. The last one is the act's.
    Result(u64),
    /// The act sends bytes.
    Send {
        /// The number of the endpoint.
        endpoint: u8,
        /// What is sent.
        bytes: Octets,
    },
    /// The act raises an event upwards.
    Up {
        /// The number of the event.
        event: u8,
        /// Its arguments.
        args: Args,
    },
    /// The act drops a packet, since its headers have this fault.
    Dropped(HeaderFault),
    /// The binding of this number is left to a job, which has a copy of the arguments.
    Job {
        /// The number of the binding.
        number: u16,
        /// The arguments as they stood.
        args: Args,
    },
}

/// What a raise gives, in order.
pub type Outcome = Sequence<Item>;
