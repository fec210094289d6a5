//! Why a message gets no reply.

ghost use Rattle.std.specs.Prelude.{◌≡◌};
ghost use Rattle.spin_reass.specs.Echoes.{number_of_fault};

use thiserror::Error;

/// Why a message gets no reply. The first that applies is answered, in this order, in which they are numbered from 1.
#[derive(Debug, Clone, Copy, PartialEq, Eq, Error)]
pub enum EchoFault {
    /// There are fewer than 8 bytes.
    #[error("the message is shorter than its header")]
    Short = 1,
    /// The type isn't 8, or the code isn't 0.
    #[error("the message is no echo request")]
    NotEcho = 2,
    /// The message's 16-bit words don't sum to 0xFFFF.
    #[error("the checksum is wrong")]
    Checksum = 3,
}

impl EchoFault {
    /// The number of the fault, from 1 in the order above.
    pub fn number(self) -> u8
        ensures { result ≡ number_of_fault self }
    {
        self as u8
    }
}
