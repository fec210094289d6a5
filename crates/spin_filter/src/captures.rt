//! Captures, one after another.

ghost use Rattle.std.specs.Prelude.{◌≡◌, ◌<◌, ◌≤◌, List, length, drop, IfErr, IfOk, IfSome, MatchResult, Some, sum_by};
ghost use Rattle.spin_endpoint.specs.declared.ends.TheConstants.{MAX_ENDPOINTS};
ghost use Rattle.spin_table.specs.SetupOf.{data_of};
ghost use Rattle.spin_table.specs.Soundness.{IsSoundVersion};
ghost use Rattle.spin_pcap.specs.Passing.{left_for};
ghost use Rattle.spin_frames.specs.Heads.{IsHead};
ghost use Rattle.spin_frames.specs.Written.{with_waiting};
ghost use Rattle.spin_filter.specs.Counting.{capped};
ghost use Rattle.spin_filter.specs.Histories.{PassedCapture, IsCaptureOf, IsFound, AreFound, AllPassed, ArePassed, records_of, happened_in};
ghost use Rattle.spin_filter.specs.Sending.{outlets_at, IsDone};
ghost use Rattle.spin_filter.specs.Inner.Stopping.{StandsStill, StandsInFile, StandsNamed, StopsHeader, StopsCapture, StopsNamed};
ghost use Rattle.spin_filter.specs.Stops.{IsSentFrom, StandsIn, StopsPass};

use crate::outlets::Outlets;
use crate::passing::Passing;
use crate::records::pass_records;
use crate::stop::Stop;
use crate::tally::more_by;
use spin_code::Sincere;
use spin_endpoint::{Ends, EndsSeen};
use spin_frames::{HEAD, Head, Window, read_head};
use spin_objects::Catalogue;
use spin_outside::{FindFault, Shelf, ShelfSource, Sink, Source};
use spin_values::Text;

// Reads the header of a capture.
fn start<S: Source>(window: &mut Window, source: &mut S) -> Result<Head, Stop>
    ensures head { IfOk result (λ head. IfSome (S.seen source.old).left (λ file. IsHead file head
        × (left_for window.new (S.seen source.new).left ≡ Some (drop 24 file)))) }
    ensures faults { IfOk result (λ _. (S.seen source.new).faults ≡ (S.seen source.old).faults) }
    ensures stop { IfErr result
        (StopsHeader (S.seen source.old).left (S.seen source.old).faults (S.seen source.new).faults) }
    ensures keep { (S.seen source.new).keep ≡ (S.seen source.old).keep }
{
    window.clear();
    if let Err(_) = window.need(source, HEAD) {
        return Err(Stop::Unread);
    }
    match read_head(window.held()) {
        Ok(head) => {
            window.skip(HEAD);
            Ok(head)
        }
        Err(fault) => Err(Stop::at(0, fault)),
    }
}

// Passes the records of a capture, and answers how many bytes behind them are no whole record. The window holds nothing
// of another capture afterwards.
pub(crate) fn pass_capture<S: Source, W: Sink + Drop>(
    passing: &Passing<'_>,
    window: &mut Window,
    source: &mut S,
    outlets: &mut Outlets<W>,
) -> Result<usize, Stop>
    requires sincere { ⟦<Catalogue as Sincere>⟧.sincere passing.now.setup.now.catalogue }
    requires sound { IsSoundVersion (data_of passing.now.setup.now) passing.now.version.now }
    requires few { length passing.now.names.now ≤ MAX_ENDPOINTS }
    requires some { 0 < length passing.now.round.now }
    ensures passed { let before = outlets_at (⟦<Ends as EndsSeen>⟧.all outlets.old.ends)
        (with_waiting (W.seen outlets.old.file.sink) outlets.old.file.waiting) outlets.old.counts in
        let after = outlets_at (⟦<Ends as EndsSeen>⟧.all outlets.new.ends)
        (with_waiting (W.seen outlets.new.file.sink) outlets.new.file.waiting) outlets.new.counts in
        MatchResult result
        (λ cut. (seen : PassedCapture) × (seen.cut ≡ cut)
        × ArePassed (data_of passing.now.setup.now) passing.now.version.now.state passing.now.round.now seen.head seen.passed
        × IfSome (S.seen source.old).left (λ file. IsCaptureOf file seen)
        × IsDone passing.now.names.now passing.now.capture (happened_in seen.passed)
        before after)
        (StopsCapture passing.now.names.now passing.now.capture
        (IsSentFrom (data_of passing.now.setup.now) passing.now.version.now.state passing.now.round.now
        (StandsInFile (S.seen source.old).left))
        (S.seen source.old).left (S.seen source.old).faults (S.seen source.new).faults
        before after) }
    ensures faults { IfOk result (λ _. (S.seen source.new).faults ≡ (S.seen source.old).faults) }
    ensures keep { (S.seen source.new).keep ≡ (S.seen source.old).keep }
{
    let head = start(window, source)?;
    let cut = pass_records(passing, head, window, source, outlets)?;
    Ok(cut)
}

// Passes the records of the capture of that name.
fn pass_named<F: Shelf, W: Sink + Drop>(
    passing: &Passing<'_>,
    window: &mut Window,
    name: &Text,
    shelf: &mut F,
    outlets: &mut Outlets<W>,
) -> Result<usize, Stop>
    requires sincere { ⟦<Catalogue as Sincere>⟧.sincere passing.now.setup.now.catalogue }
    requires sound { IsSoundVersion (data_of passing.now.setup.now) passing.now.version.now }
    requires few { length passing.now.names.now ≤ MAX_ENDPOINTS }
    requires some { 0 < length passing.now.round.now }
    ensures passed { let before = outlets_at (⟦<Ends as EndsSeen>⟧.all outlets.old.ends)
        (with_waiting (W.seen outlets.old.file.sink) outlets.old.file.waiting) outlets.old.counts in
        let after = outlets_at (⟦<Ends as EndsSeen>⟧.all outlets.new.ends)
        (with_waiting (W.seen outlets.new.file.sink) outlets.new.file.waiting) outlets.new.counts in
        MatchResult result
        (λ cut. (seen : PassedCapture) × (seen.cut ≡ cut)
        × ArePassed (data_of passing.now.setup.now) passing.now.version.now.state passing.now.round.now seen.head seen.passed
        × IfSome (F.seen shelf.old).files (λ files. IsFound files name.now seen)
        × IsDone passing.now.names.now passing.now.capture (happened_in seen.passed)
        before after)
        (StopsNamed passing.now.names.now passing.now.capture
        (IsSentFrom (data_of passing.now.setup.now) passing.now.version.now.state passing.now.round.now
        (StandsNamed (F.seen shelf.old).files name.now))
        name.now (F.seen shelf.old) (F.seen shelf.new)
        before after) }
    ensures stood { IfOk result (λ _. StandsStill (F.seen shelf.old) (F.seen shelf.new)) }
    ensures files { (F.seen shelf.new).files ≡ (F.seen shelf.old).files }
{
    let number = match shelf.find(name) {
        Ok(number) => number,
        Err(FindFault::Absent) => return Err(Stop::Absent),
        Err(FindFault::Failed) => return Err(Stop::Unread),
        Err(FindFault::NoMemory) => return Err(Stop::NoMemory),
    };
    let mut source = ShelfSource {
        shelf,
        file: number,
    };
    let cut = pass_capture(passing, window, &mut source, outlets)?;
    Ok(cut)
}

// Passes the records of the captures of these names, one capture after another, and answers how many bytes behind the
// records of each are no whole record, in all; that count stands still at the greatest number of 64 bits.
pub(crate) fn pass_captures<F: Shelf, W: Sink + Drop>(
    passing: &Passing<'_>,
    captures: &[Text],
    shelf: &mut F,
    outlets: &mut Outlets<W>,
) -> Result<u64, Stop>
    requires sincere { ⟦<Catalogue as Sincere>⟧.sincere passing.now.setup.now.catalogue }
    requires sound { IsSoundVersion (data_of passing.now.setup.now) passing.now.version.now }
    requires few { length passing.now.names.now ≤ MAX_ENDPOINTS }
    requires some { 0 < length passing.now.round.now }
    ensures passed { let before = outlets_at (⟦<Ends as EndsSeen>⟧.all outlets.old.ends)
        (with_waiting (W.seen outlets.old.file.sink) outlets.old.file.waiting) outlets.old.counts in
        let after = outlets_at (⟦<Ends as EndsSeen>⟧.all outlets.new.ends)
        (with_waiting (W.seen outlets.new.file.sink) outlets.new.file.waiting) outlets.new.counts in
        MatchResult result
        (λ cut. (seen : List PassedCapture)
        × AllPassed (data_of passing.now.setup.now) passing.now.version.now.state passing.now.round.now seen
        × IfSome (F.seen shelf.old).files (λ files. AreFound files captures.now seen)
        × (cut ≡ capped (sum_by (λ c. c.cut) seen))
        × IsDone passing.now.names.now passing.now.capture (happened_in (records_of seen))
        before after)
        (StopsPass passing.now.names.now passing.now.capture
        (IsSentFrom (data_of passing.now.setup.now) passing.now.version.now.state passing.now.round.now
        (StandsIn (F.seen shelf.old).files captures.now))
        captures.now (F.seen shelf.old) (F.seen shelf.new)
        before after) }
    ensures stood { IfOk result (λ _. StandsStill (F.seen shelf.old) (F.seen shelf.new)) }
    ensures files { (F.seen shelf.new).files ≡ (F.seen shelf.old).files }
{
    let mut window = Window::new(passing.alloc)?;
    let mut cut = 0u64;
    for name in captures {
        let more = pass_named(passing, &mut window, name, shelf, outlets)?;
        cut = more_by(cut, more);
    }
    Ok(cut)
}
