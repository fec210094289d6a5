//! A source in memory, which tells what it has left.

ghost use Rattle.std.specs.Prelude.{◌≡◌, ◌<◌, ◌≤◌, ◌++◌, ℕ, List, Option, Some, None, length};
ghost use Rattle.std.specs.Prelude.{take, IfOk, OnOk, OnErr, is_err};
ghost use Rattle.std.specs.Io.{ReadsAtMost};
ghost use Rattle.std.specs.Io.KnownBytes.{ReadConsumes};
ghost use Rattle.spin_outside.specs.Calls.{with_failing, next_fails};
ghost use Rattle.spin_outside.specs.Counts.{FailsByCount};
ghost use Rattle.spin_outside.specs.Sources.{TakesMore, full_source, memory_seen, handed};
ghost use Rattle.spin_outside.specs.Sources.{after_read};

use crate::calls::FailingCalls;
use crate::count::Count;
use crate::faults::Failed;
use crate::pieces::moved_at_most;
use crate::source::Source;
use spin_values::{NoMemory, Octets};
use std::marker::Model;

/// A source of bytes in memory. Its calls are counted from 0.
#[derive(Debug, Drop)]
pub struct MemSource {
    bytes: Octets,
    position: usize,
    piece: Option<u32>,
    calls: FailingCalls,
    taken: u64,
    faults: Count,
}

impl Model for MemSource {
    ghost use Rattle.std.specs.Prelude.{◌≤◌, ◌<◌, length, drop, IfSome};
    ghost use Rattle.spin_outside.specs.Sources.{SourceState};

    ghost Value = { SourceState };

    ghost view = { λ s. record {
      left = drop s.position s.bytes;
      piece = s.piece;
      calls = s.calls;
      taken = s.taken;
      faults = s.faults.number;
    } };

    ghost invariant = { λ s.
        (s.position ≤ length s.bytes) × IfSome s.piece (λ piece. 0 < piece) };
}

impl MemSource {
    /// A source that has these bytes left, and moves as many in a call as fit the buffer.
    pub fn new(bytes: Octets) -> MemSource
        ensures { result ≡ full_source bytes }
    {
        let calls = FailingCalls::new(bytes.allocator());
        MemSource {
            bytes,
            position: 0,
            piece: None,
            calls,
            taken: 0,
            faults: Count::new(),
        }
    }

    /// Lets the call of that number fail, counted from 0. After want of memory nothing is changed.
    pub fn fail_at(&mut self, call: u32) -> Result<(), NoMemory>
        ensures ok { OnOk result
            (self.new ≡ record self.old { calls = with_failing self.old.calls call }) }
        ensures err { OnErr result (self.new ≡ self.old) }
    {
        self.calls.fail_at(call)
    }

    /// From now on a call moves at most so many bytes.
    pub fn in_pieces(&mut self, size: u32)
        requires { 0 < size }
        ensures { self.new ≡ record self.old { piece = Some size } }
    {
        self.piece = Some(size);
    }

    /// How many bytes were taken in all.
    pub fn taken(&self) -> u64
        ensures { result ≡ self.now.taken }
    {
        self.taken
    }
}

impl Source for MemSource {
    ghost seen = { memory_seen };

    /// Moves as many bytes as are left, fit the buffer and are allowed in a piece. It fails exactly where the number
    /// of the call is listed.
    fn read(&mut self, buf: &mut [u8]) -> Result<usize, Failed>
        requires { 0 < length buf.old }
        ensures some { ReadsAtMost result buf.new }
        ensures taken { ReadConsumes (Some self.old.left) (Some self.new.left) result buf.new }
        ensures count { TakesMore (Some self.old.taken) (Some self.new.taken) result }
        ensures keep { (memory_seen self.new).keep ≡ (memory_seen self.old).keep }
        ensures cause { FailsByCount self.old.faults self.new.faults result }
        ensures exactly { is_err result ≡ next_fails self.old.calls }
        ensures handed { IfOk result (λ n. take n buf.new ≡ handed self.old (length buf.old)) }
        ensures state { self.new ≡ after_read self.old (length buf.old) }
    {
        if self.calls.count() {
            self.faults.raise();
            return Err(Failed);
        }
        let room = moved_at_most(self.piece, buf.len());
        let left = &self.bytes.as_slice()[self.position..];
        let count = left.len().min(room);
        buf[..count].copy_from_slice(&left[..count]);
        self.position += count;
        self.taken = self.taken.saturating_add(count as u64);
        Ok(count)
    }
}
