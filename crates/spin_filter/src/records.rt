//! The records of a capture, one after another.

ghost use Rattle.std.specs.Prelude.{◌≡◌, ◌<◌, ◌≤◌, ◌+◌, List, length, take, drop, IfOk, IfSome, MatchResult};
ghost use Rattle.spin_endpoint.specs.declared.ends.TheConstants.{MAX_ENDPOINTS};
ghost use Rattle.spin_table.specs.SetupOf.{data_of};
ghost use Rattle.spin_table.specs.Soundness.{IsSoundVersion};
ghost use Rattle.spin_pcap.specs.Passing.{left_for};
ghost use Rattle.spin_frames.specs.Written.{with_waiting};
ghost use Rattle.spin_filter.specs.Passing.{Passed};
ghost use Rattle.spin_filter.specs.Rounds as rounds;
ghost use Rattle.spin_filter.specs.Histories.{ArePassed, AreRecords, happened_in};
ghost use Rattle.spin_filter.specs.Sending.{outlets_at, IsDone};
ghost use Rattle.spin_filter.specs.Inner.Stopping.{StandsBehind, StopsRecords};
ghost use Rattle.spin_filter.specs.Stops.{IsSentFrom};

use crate::outlets::Outlets;
use crate::passing::{Passing, Room, pass_record};
use crate::stop::Stop;
use crate::taken::Taken;
use spin_code::Sincere;
use spin_endpoint::{Ends, EndsSeen};
use spin_frames::{Found, Head, RECORD, Window, find_record};
use spin_objects::Catalogue;
use spin_outside::{Sink, Source};
use spin_pcap::PcapFault;

// The event whose turn it is at the record of that number, counted from 0.
fn event_at(round: &[u8], number: u64) -> u8
    requires { 0 < length round.now }
    ensures { result ≡ rounds.event_at round.now number }
{
    round[(number % round.len() as u64) as usize]
}

// The record with so many captured bytes that stands at the front of the window.
fn front(window: &Window, head: Head, size: usize) -> Taken<'_>
    requires there { 16 + size ≤ length window.now }
    ensures { result ≡ record {
      head = head;
      packet = record { header = take 16 window.now; frame = take size (drop 16 window.now) };
    } }
{
    let held = window.held();
    Taken::new(head, &held[..RECORD], &held[RECORD..RECORD + size])
}

// Passes the records that are left of a capture whose header was read, each as the event whose turn it is, and answers
// how many bytes behind them are no whole record.
pub(crate) fn pass_records<S: Source, W: Sink + Drop>(
    passing: &Passing<'_>,
    head: Head,
    window: &mut Window,
    source: &mut S,
    outlets: &mut Outlets<W>,
) -> Result<usize, Stop>
    requires sincere { ⟦<Catalogue as Sincere>⟧.sincere passing.now.setup.now.catalogue }
    requires sound { IsSoundVersion (data_of passing.now.setup.now) passing.now.version.now }
    requires few { length passing.now.names.now ≤ MAX_ENDPOINTS }
    requires some { 0 < length passing.now.round.now }
    ensures passed { let before = outlets_at (⟦<Ends as EndsSeen>⟧.all outlets.old.ends)
        (with_waiting (W.seen outlets.old.file.sink) outlets.old.file.waiting) outlets.old.counts in
        let after = outlets_at (⟦<Ends as EndsSeen>⟧.all outlets.new.ends)
        (with_waiting (W.seen outlets.new.file.sink) outlets.new.file.waiting) outlets.new.counts in
        let left = left_for window.old (S.seen source.old).left in
        MatchResult result
        (λ cut. (passed : List Passed)
        × ArePassed (data_of passing.now.setup.now) passing.now.version.now.state passing.now.round.now head passed
        × IfSome left (λ bytes. AreRecords head.order bytes passed cut)
        × IsDone passing.now.names.now passing.now.capture (happened_in passed)
        before after)
        (StopsRecords passing.now.names.now passing.now.capture
        (IsSentFrom (data_of passing.now.setup.now) passing.now.version.now.state passing.now.round.now
        (StandsBehind head left))
        head.order left (S.seen source.old).faults (S.seen source.new).faults
        before after) }
    ensures faults { IfOk result (λ _. (S.seen source.new).faults ≡ (S.seen source.old).faults) }
    ensures keep { (S.seen source.new).keep ≡ (S.seen source.old).keep }
{
    let mut room = Room::new(passing.alloc);
    for number in 0..u64::MAX {
        let size = match find_record(window, source, head.order) {
            Ok(Found::Record(size)) => size,
            Ok(Found::End) => return Ok(0),
            Ok(Found::Cut(count)) => return Ok(count),
            Err(fault) => return Err(Stop::at(number + 1, fault)),
        };
        let taken = front(window, head, size);
        let event = event_at(passing.round, number);
        pass_record(passing, &taken, event, &mut room, outlets)?;
        window.skip(RECORD + size);
    }
    Err(Stop::at(u64::MAX, PcapFault::TooManyRecords))
}
