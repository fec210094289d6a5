//! A sink in memory, which tells what it took.

ghost use Rattle.std.specs.Prelude.{◌≡◌, ◌<◌, ◌≤◌, ◌+◌, ◌++◌, ℕ, List, Option, Some, length, IfOk};
ghost use Rattle.std.specs.Prelude.{OnOk, OnErr, MatchResult, take, is_err, IsOk, vec_capacity};
ghost use Rattle.std.specs.Io.KnownBytes.{WriteAppends};
ghost use Rattle.spin_outside.specs.Counts.{FailsByCount};
ghost use Rattle.spin_outside.specs.Calls.{with_failing};
ghost use Rattle.spin_outside.specs.Memory.{empty_sink, sink_seen, refuses, written, fitting};

use crate::calls::FailingCalls;
use crate::count::Count;
use crate::faults::Failed;
use crate::pieces::moved_at_most;
use crate::sink::Sink;
use spin_values::NoMemory;
use std::alloc::Global;
use std::marker::Model;

/// A sink with room for a number of bytes. It tells what it took.
#[derive(Debug, Drop)]
pub struct MemSink {
    taken: Vec<u8>,
    room: u32,
    piece: Option<u32>,
    calls: FailingCalls,
    faults: Count,
}

impl Model for MemSink {
    ghost use Rattle.std.specs.Prelude.{◌≤◌, ◌<◌, ◌≡◌, length, vec_capacity, IfSome};
    ghost use Rattle.spin_outside.specs.Memory.{SinkState};

    ghost Value = { SinkState };

    ghost view = { λ s. record {
      taken = s.taken.items;
      room = s.room;
      piece = s.piece;
      calls = s.calls;
      faults = s.faults.number;
    } };

    ghost invariant = { λ s. (length s.taken.items ≤ s.room) × (s.room ≤ vec_capacity s.taken)
        × IfSome s.piece (λ piece. 0 < piece) };
}

impl MemSink {
    /// An empty sink with room for so many bytes, for which it takes the memory now.
    pub fn new(alloc: Global, room: u32) -> Result<MemSink, NoMemory>
        ensures { IfOk result (λ sink. sink ≡ empty_sink room) }
    {
        Ok(MemSink {
            taken: Vec::with_capacity(alloc, room as usize)?,
            room,
            piece: None,
            calls: FailingCalls::new(alloc),
            faults: Count::new(),
        })
    }

    /// What was taken.
    pub fn bytes(&self) -> &[u8]
        ensures { result.now ≡ self.now.taken }
    {
        &self.taken
    }

    /// Lets the write of that number fail, counted from 0. After want of memory nothing is changed.
    pub fn fail_at(&mut self, call: u32) -> Result<(), NoMemory>
        ensures ok { OnOk result
            (self.new ≡ record self.old { calls = with_failing self.old.calls call }) }
        ensures err { OnErr result (self.new ≡ self.old) }
    {
        self.calls.fail_at(call)
    }

    /// From now on a call moves at most so many bytes.
    pub fn in_pieces(&mut self, size: u32)
        requires { 0 < size }
        ensures { self.new ≡ record self.old { piece = Some size } }
    {
        self.piece = Some(size);
    }
}

impl Sink for MemSink {
    ghost seen = { sink_seen };

    /// Takes as many bytes as the room left takes and are allowed in a call, and no memory. It fails exactly where
    /// the number of the call is listed, or no room is left.
    fn write(&mut self, bytes: &[u8]) -> Result<usize, Failed>
        requires { 0 < length bytes.now }
        ensures some { IfOk result (λ n. (0 < n) × (n ≤ length bytes.now)) }
        ensures taken { WriteAppends (Some self.old.taken) (Some self.new.taken) result bytes.now }
        ensures cause { FailsByCount self.old.faults self.new.faults result }
        ensures exactly { is_err result ≡ refuses self.old }
        ensures count { IfOk result (λ n. n ≡ length (fitting self.old bytes.now)) }
        ensures state { self.new ≡ written self.old bytes.now }
    {
        let listed = self.calls.count();
        let left = self.room as usize - self.taken.len();
        if listed || left == 0 {
            self.faults.raise();
            return Err(Failed);
        }
        let count = bytes.len().min(moved_at_most(self.piece, left));
        match self.taken.extend_from_slice(&bytes[..count]) {
            Ok(()) => Ok(count),
            Err(_) => {
                self.faults.raise();
                Err(Failed)
            }
        }
    }
}
