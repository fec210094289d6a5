//! A source over bytes that are held in memory, and a capture among them.

ghost use Rattle.std.specs.Prelude.{◌≡◌, ◌<◌, length, Some, IfOk, IfErr};
ghost use Rattle.std.specs.Io.{ReadsAtMost};
ghost use Rattle.std.specs.Io.KnownBytes.{ReadConsumes};
ghost use Rattle.spin_outside.specs.Counts.{FailsByCount};
ghost use Rattle.spin_outside.specs.Sources.{TakesMore};
ghost use Rattle.spin_inputs.specs.Held.{held_seen};
ghost use Rattle.spin_inputs.specs.Holding.{HeaderRefuses, IsBehind};

use crate::end::{End, end_at};
use spin_outside::{Failed, Source};
use spin_pcap::{BadRecord, Reader};
use spin_values::Octets;
use std::alloc::Global;
use std::marker::Model;

/// A source that has these bytes left, and never fails.
#[derive(Debug, Drop)]
pub struct BytesSource {
    bytes: Octets,
    position: usize,
}

impl Model for BytesSource {
    ghost use Rattle.std.specs.Prelude.{◌≤◌, ℕ, List, length, drop};

    ghost Value = { List ℕ };

    ghost view = { λ s. drop s.position s.bytes };

    ghost invariant = { λ s. s.position ≤ length s.bytes };
}

impl BytesSource {
    /// A source of these bytes.
    pub fn new(bytes: Octets) -> BytesSource
        ensures { result ≡ bytes }
    {
        BytesSource { bytes, position: 0 }
    }
}

impl Source for BytesSource {
    ghost seen = { held_seen };

    fn read(&mut self, buf: &mut [u8]) -> Result<usize, Failed>
        requires { 0 < length buf.old }
        ensures some { ReadsAtMost result buf.new }
        ensures taken { ReadConsumes (Some self.old) (Some self.new) result buf.new }
        ensures count { TakesMore (held_seen self.old).taken (held_seen self.new).taken result }
        ensures keep { (held_seen self.new).keep ≡ (held_seen self.old).keep }
        ensures cause { FailsByCount (held_seen self.old).faults (held_seen self.new).faults result }
    {
        let left = &self.bytes.as_slice()[self.position..];
        let count = left.len().min(buf.len());
        buf[..count].copy_from_slice(&left[..count]);
        self.position += count;
        Ok(count)
    }
}

/// A capture in memory whose header was read.
#[derive(Drop)]
pub struct HeldCapture {
    /// The bytes that are left.
    pub source: BytesSource,
    /// What reads its records.
    pub reader: Reader,
}

/// Reads the header of a capture in memory.
pub fn behind_header(alloc: Global, bytes: Octets) -> Result<HeldCapture, End>
    ensures behind { IfOk result (λ capture. IsBehind bytes capture.source capture.reader) }
    ensures refused { IfErr result (HeaderRefuses bytes) }
{
    let mut source = BytesSource::new(bytes);
    match Reader::start(alloc, &mut source) {
        Ok(reader) => Ok(HeldCapture { source, reader }),
        Err(fault) => Err(end_at(BadRecord::at(0, fault))),
    }
}
