//! What a run hands out.

ghost use Rattle.std.specs.Prelude.{◌≡◌};

use spin_values::{Octets, Sequence};
use std::marker::Model;

/// Bytes that were sent to the endpoint of a number. Contracts see them as an endpoint does.
#[derive(Debug, Drop)]
pub struct Sending {
    pub(crate) endpoint: u8,
    pub(crate) bytes: Octets,
}

impl Model for Sending {
    ghost use Rattle.spin_endpoint.specs.Sends.{SentSeen};

    ghost Value = { SentSeen };

    ghost view = { λ s. record { endpoint = s.endpoint; bytes = s.bytes } };
}

impl Sending {
    /// The number of the endpoint.
    pub fn endpoint(&self) -> u8
        ensures { result ≡ self.now.endpoint }
    {
        self.endpoint
    }

    /// The bytes.
    pub fn bytes(&self) -> &[u8]
        ensures { result.now ≡ self.now.bytes }
    {
        self.bytes.as_slice()
    }
}

/// Sends in the order in which they were made.
pub type Sendings = Sequence<Sending>;

/// What a run hands out.
#[derive(Debug, Drop)]
pub struct Ran {
    /// The text of the report.
    pub report: Octets,
    /// What endpoints received, in the order of the history; what was lost isn't among it.
    pub sends: Sendings,
}
