//! The records of a capture, found in a window and lent there.

ghost use Rattle.std.specs.Prelude.{◌≤◌, [], length};
ghost use Rattle.spin_pcap.specs.Passing.{Passes, ReadsByCount};
ghost use Rattle.spin_frames.specs.declared.records.TheConstants.{MAX_WINDOW};
ghost use Rattle.spin_frames.specs.Packets.{Finds};

use spin_outside::Source;
use spin_pcap::{MAX_CAPTURED, Order, PcapFault};

/// The most bytes that a window holds. A record of the greatest length has room in it several times.
pub const MAX_WINDOW: usize = 1_048_576;

/// The bytes that were taken from a capture and not given up yet.
pub type Window = spin_pcap::Window<MAX_WINDOW>;

/// The number of bytes of the header of a record.
pub const RECORD: usize = 16;

/// What stands at the front of a window.
#[derive(Clone, Copy, Debug, PartialEq, Eq)]
pub enum Found {
    /// A whole record, with so many captured bytes.
    Record(usize),
    /// Nothing: the capture ends.
    End,
    /// So many bytes that are no whole record, and behind them nothing.
    Cut(usize),
}

/// Reads until a whole record stands at the front of the window, or nothing is left. Nothing is given up, and no byte
/// is copied but those that the window moves to its front before a read.
///
/// [`PcapFault::TooLong`] comes exactly where the record's captured length is over 262,144, and
/// [`PcapFault::ReadFault`] only where the source's count of faults rose.
pub fn find_record<S: Source>(
    window: &mut Window,
    source: &mut S,
    order: Order,
) -> Result<Found, PcapFault>
    ensures finds { Finds order result window.new (S.seen source.new).left }
    ensures passed { Passes [] window.old (S.seen source.old) window.new (S.seen source.new) }
    ensures bound { length window.new ≤ MAX_WINDOW }
    ensures cause { ReadsByCount (S.seen source.old).faults (S.seen source.new).faults result }
{
    window.need(source, RECORD)?;
    let held = window.held();
    if held.is_empty() {
        return Ok(Found::End);
    }
    if held.len() < RECORD {
        return Ok(Found::Cut(held.len()));
    }
    let captured = order.read_u32(&held[8..]);
    if captured > MAX_CAPTURED {
        return Err(PcapFault::TooLong);
    }
    let size = captured as usize;
    window.need(source, RECORD + size)?;
    let held = window.held();
    if held.len() < RECORD + size {
        return Ok(Found::Cut(held.len()));
    }
    Ok(Found::Record(size))
}
