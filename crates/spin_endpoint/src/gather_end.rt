//! An endpoint in memory, which hands its pieces out.

ghost use Rattle.std.specs.Prelude.{◌≡◌, ◌∷◌, ◌++◌, [], OnOk, OnErr, IsSomeAnd, Some};
ghost use Rattle.spin_endpoint.specs.Endpoints.{untouched};

use crate::endpoint::Endpoint;
use spin_outside::{Count, Failed};
use spin_values::{NoMemory, Octets, Sequence};
use std::alloc::Global;
use std::marker::Model;

/// Keeps the pieces that it receives, for which it takes memory as they come, and hands them out. Contracts see what is
/// seen of an endpoint.
#[derive(Drop)]
pub struct GatherEnd {
    received: Sequence<Octets>,
    finishes: u64,
    faults: Count,
}

impl Model for GatherEnd {
    ghost use Rattle.std.specs.Prelude.{Some};
    ghost use Rattle.spin_endpoint.specs.Endpoints.{EndpointSeen};

    ghost Value = { EndpointSeen };

    ghost view = { λ e. record {
      pieces = Some e.received;
      finishes = e.finishes;
      faults = e.faults.number;
    } };
}

impl GatherEnd {
    /// An endpoint that has received nothing. It takes no memory.
    pub fn new(alloc: Global) -> GatherEnd
        ensures { result ≡ untouched }
    {
        GatherEnd {
            received: Sequence::new(alloc),
            finishes: 0,
            faults: Count::new(),
        }
    }
}

// Keeps a copy of the piece. After want of memory none is kept.
fn keep(received: &mut Sequence<Octets>, piece: &[u8]) -> Result<(), NoMemory>
    ensures ok { OnOk result (received.new ≡ received.old ++ piece.now ∷ []) }
    ensures err { OnErr result (received.new ≡ received.old) }
{
    let copy = Octets::from_bytes(received.allocator(), piece)?;
    received.push(copy)
}

impl Endpoint for GatherEnd {
    ghost seen = { λ e. e };

    /// Keeps the piece. It fails only for want of memory.
    fn take(&mut self, bytes: &[u8]) -> Result<(), Failed> {
        match keep(&mut self.received, bytes) {
            Ok(()) => Ok(()),
            Err(NoMemory) => {
                self.faults.raise();
                Err(Failed)
            }
        }
    }

    fn finish(&mut self) {
        self.finishes = self.finishes.saturating_add(1);
    }

    /// Always hands them out.
    fn pieces(&self) -> Option<&[Octets]>
        ensures { IsSomeAnd result (λ pieces. self.now.pieces ≡ Some pieces.now) }
    {
        Some(self.received.as_slice())
    }
}
