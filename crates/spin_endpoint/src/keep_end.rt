//! An endpoint in memory, which tells its pieces.

ghost use Rattle.std.specs.Prelude.{◌≡◌, IfOk, OnOk, OnErr, is_err};
ghost use Rattle.spin_endpoint.specs.Endpoints.{Takes};
ghost use Rattle.spin_outside.specs.Calls.{with_failing};
ghost use Rattle.spin_outside.specs.Counts.{raised_by};
ghost use Rattle.spin_endpoint.specs.Keeping.{empty_end, keep_seen, refuses, taken};

use crate::endpoint::Endpoint;
use crate::pieces::Pieces;
use spin_outside::{Count, Failed, FailingCalls};
use spin_values::NoMemory;
use std::alloc::Global;
use std::marker::Model;

/// Keeps the pieces that it receives, and tells them.
#[derive(Debug, Drop)]
pub struct KeepEnd {
    kept: Pieces,
    calls: FailingCalls,
    finishes: u64,
    faults: Count,
}

impl Model for KeepEnd {
    ghost use Rattle.spin_endpoint.specs.Keeping.{KeepState};

    ghost Value = { KeepState };

    ghost view = { λ k. record {
      kept = k.kept;
      calls = k.calls;
      finishes = k.finishes;
      faults = k.faults.number;
    } };
}

impl KeepEnd {
    /// An endpoint with room for so many pieces with so many bytes in all, for which it takes the memory now.
    pub fn new(alloc: Global, pieces: u32, bytes: u32) -> Result<KeepEnd, NoMemory>
        ensures { IfOk result (λ end. end ≡ empty_end pieces bytes) }
    {
        Ok(KeepEnd {
            kept: Pieces::new(alloc, pieces, bytes)?,
            calls: FailingCalls::new(alloc),
            finishes: 0,
            faults: Count::new(),
        })
    }

    /// Lets the `take` of that number fail, counted from 0. After want of memory nothing is changed.
    pub fn fail_at(&mut self, call: u32) -> Result<(), NoMemory>
        ensures ok { OnOk result
            (self.new ≡ record self.old { calls = with_failing self.old.calls call }) }
        ensures err { OnErr result (self.new ≡ self.old) }
    {
        self.calls.fail_at(call)
    }
}

impl Endpoint for KeepEnd {
    ghost seen = { keep_seen };

    /// Keeps the piece, and takes no memory. It fails exactly where the number of the call is listed, or the piece
    /// doesn't fit the room left.
    fn take(&mut self, bytes: &[u8]) -> Result<(), Failed>
        ensures takes { Takes bytes.now result (keep_seen self.old) (keep_seen self.new) }
        ensures exactly { is_err result ≡ refuses self.old bytes.now }
        ensures state { self.new ≡ taken self.old bytes.now }
    {
        let listed = self.calls.count();
        if listed || !self.kept.push(bytes) {
            self.faults.raise();
            return Err(Failed);
        }
        Ok(())
    }

    fn finish(&mut self)
        ensures { self.new ≡ record self.old { finishes = raised_by self.old.finishes 1 } }
    {
        self.finishes = self.finishes.saturating_add(1);
    }
}
