//! Captures as C hands them in.

ghost use Rattle.std.specs.Prelude.{◌≡◌, ◌<◌, length, Some, IfOk, IfErr, option_map};
ghost use Rattle.std.specs.Option.{option_copied};
ghost use Rattle.std.specs.Io.{ReadsAtMost};
ghost use Rattle.std.specs.Io.KnownBytes.{ReadConsumes};
ghost use Rattle.spin_check.specs.RunTexts.{capture_of};
ghost use Rattle.spin_outside.specs.Counts.{FailsByCount};
ghost use Rattle.spin_outside.specs.Sources.{TakesMore};
ghost use Rattle.spin_c.specs.Packets.{AreCaptured, IsStopped, given_if, packets_seen};

use spin_outside::{Failed, Source};
use spin_pcap::{BadRecord, Captured, read_capture};
use std::alloc::Global;
use std::marker::Model;

// A source of bytes that are handed in. It never fails.
#[derive(Drop)]
struct Packets<'a> {
    left: &'a [u8],
}

impl<'a> Model for Packets<'a> {
    ghost use Rattle.std.specs.Prelude.{ℕ, List};

    ghost Value = { List ℕ };

    ghost view = { λ s. s.left.now };
}

impl Source for Packets<'_> {
    ghost seen = { packets_seen };

    fn read(&mut self, buf: &mut [u8]) -> Result<usize, Failed>
        requires { 0 < length buf.old }
        ensures some { ReadsAtMost result buf.new }
        ensures taken { ReadConsumes (Some self.old) (Some self.new) result buf.new }
        ensures count { TakesMore (packets_seen self.old).taken (packets_seen self.new).taken result }
        ensures keep { (packets_seen self.new).keep ≡ (packets_seen self.old).keep }
        ensures cause { FailsByCount (packets_seen self.old).faults (packets_seen self.new).faults result }
    {
        let count = self.left.len().min(buf.len());
        let (piece, rest) = self.left.split_at(count);
        buf[..count].copy_from_slice(piece);
        self.left = rest;
        Ok(count)
    }
}

// These bytes, if they are handed in.
pub(crate) fn given_if(has_packets: u32, packets: &[u8]) -> Option<&[u8]>
    ensures { option_copied result ≡ given_if has_packets packets.now }
{
    if has_packets == 0 {
        None
    } else {
        Some(packets)
    }
}

// The capture of these bytes, read whole, if they are handed in.
pub(crate) fn captured_of(
    alloc: Global,
    packets: Option<&[u8]>,
) -> Result<Option<Captured>, BadRecord>
    ensures read { IfOk result
        (λ capture. AreCaptured (option_copied packets.entry) (option_map capture_of capture)) }
    ensures refused { IfErr result (IsStopped (option_copied packets.entry)) }
{
    let Some(packets) = packets else {
        return Ok(None);
    };
    let mut source = Packets { left: packets };
    Ok(Some(read_capture(alloc, &mut source)?))
}
