//! Runs over an outside of which one call fails, each in turn, and over one that moves little at a time.

ghost use Rattle.std.specs.Prelude.{◌<◌};

use crate::captures::capture;
use crate::filter;
use crate::noting::{DROPPED, NEVER, Notes, are_both, fresh_notes, noted, noting_ends};
use crate::top::{put, shelf_with, status_with};
use spin_objects::Natives;
use spin_outside::{MemShelf, MemSink, MemSource};
use spin_run::RunEnd;
use spin_values::{NoMemory, Octets};
use std::alloc::Global;
use std::process::Abort;
use std::test::Fail;
use std::thread::Threads;

// A script whose endpoint is retired between two sends, each from the second byte on.
const RETIRING: &[u8] = b"\
spin 1
event 0 0 b last
endpoint 0 out0
handler 1 b send 0 0 1
lane 0 install 0 0 1 0 free plain
lane 0 raise 0 x2d6162
barrier
retire 0
lane 0 raise 0 x2d63
";

// Its report where the endpoint is there.
const RETIRED: &[u8] = b"\
report 1
segment 0 at 0
1 0 5 install ok
1 0 6 raise run 0 1 send 0 2 = done
retire 0 ok
segment 1 at 1
1 0 9 raise run 0 1 send 0 1 = done
lost 0 1
end 1
";

// What is run.
#[derive(Clone, Copy)]
enum Row {
    // The filter, over its 40 records.
    Filter,
    // The filter, over the first two of them and a rest of five bytes.
    Cut,
    // The script with a retirement, over no capture.
    Retiring,
}

impl Row {
    fn script(self) -> &'static [u8] {
        match self {
            Row::Filter | Row::Cut => filter::SCRIPT,
            Row::Retiring => RETIRING,
        }
    }

    // The bytes of the capture; none where there is no capture.
    fn capture(self, alloc: Global) -> Result<Octets, NoMemory> {
        match self {
            Row::Filter => capture(alloc, 40),
            Row::Cut => cut_capture(alloc),
            Row::Retiring => Ok(Octets::new(alloc)),
        }
    }

    // The words that run it.
    fn words(self) -> &'static [&'static [u8]] {
        match self {
            Row::Filter | Row::Cut => &[b"run", b"script", b"packets"],
            Row::Retiring => &[b"run", b"script"],
        }
    }

    // What a whole run writes.
    fn report(self, alloc: Global) -> Result<Octets, NoMemory> {
        match self {
            Row::Filter => filter::report_of(alloc, 40, b"end 4 records 40 used 40 cut 0\n"),
            Row::Cut => filter::report_of(alloc, 2, b"end 4 records 2 used 2 cut 5\n"),
            Row::Retiring => Octets::from_bytes(alloc, RETIRED),
        }
    }

    // What the endpoint notes of a whole run.
    fn notes(self, alloc: Global) -> Result<Octets, NoMemory> {
        match self {
            Row::Filter => filter::payloads(alloc, 10),
            Row::Cut => Ok(Octets::new(alloc)),
            Row::Retiring => Octets::from_bytes(alloc, b"ab,.,"),
        }
    }
}

fn cut_capture(alloc: Global) -> Result<Octets, NoMemory> {
    let mut file = capture(alloc, 2)?;
    file.extend_from_slice(&[0; 5])?;
    Ok(file)
}

// The calls of which one fails.
#[derive(Clone, Copy)]
enum Kind {
    Find,
    Read,
    Write,
    Delivery,
}

// One call fails: that of this number among those of its kind, counted from 0.
#[derive(Clone, Copy)]
struct Failing {
    kind: Kind,
    call: u32,
}

// No run comes to that call.
const NONE_FAILS: Failing = Failing {
    kind: Kind::Find,
    call: u32::MAX,
};

// A shelf with the row's files, of which a read moves at most so many bytes.
fn shelf_of(alloc: Global, row: Row, failing: Failing, size: u32) -> Result<MemShelf, NoMemory>
    requires { 0 < size }
{
    let mut shelf = shelf_with(alloc, row.script())?;
    put(
        alloc,
        &mut shelf,
        b"packets",
        row.capture(alloc)?.as_slice(),
    )?;
    shelf.in_pieces(size);
    match failing.kind {
        Kind::Find => shelf.fail_find(failing.call)?,
        Kind::Read => shelf.fail_read(failing.call)?,
        Kind::Write | Kind::Delivery => {}
    }
    Ok(shelf)
}

// A sink with room for each report, of which a write moves at most so many bytes; one whose call fails takes whole
// pieces before.
fn sink_of(alloc: Global, failing: Failing, size: u32) -> Result<MemSink, NoMemory>
    requires { 0 < size }
{
    let mut sink = MemSink::new(alloc, 4000)?;
    match failing.kind {
        Kind::Write => sink.fail_at(failing.call)?,
        Kind::Find | Kind::Read | Kind::Delivery => sink.in_pieces(size),
    }
    Ok(sink)
}

// The delivery that fails.
fn failing_delivery(failing: Failing) -> u32 {
    match failing.kind {
        Kind::Delivery => failing.call,
        Kind::Find | Kind::Read | Kind::Write => NEVER,
    }
}

// What a run came to.
#[derive(Drop)]
struct Outcome {
    status: u8,
    report: MemSink,
    notes: Notes,
}

// Runs the row over an outside that moves at most so many bytes in a call, and of which that call fails.
fn run<R: Threads + Sync>(
    rt: &R,
    alloc: Global,
    row: Row,
    failing: Failing,
    size: u32,
) -> Result<Outcome, Fail>
    requires { 0 < size }
{
    let notes = fresh_notes(alloc)?;
    let mut ends = noting_ends(alloc, &notes, failing_delivery(failing))?;
    let mut shelf = shelf_of(alloc, row, failing, size)?;
    let mut report = sink_of(alloc, failing, size)?;
    let natives = Natives::new(alloc);
    let words = row.words();
    let status = status_with(
        rt,
        alloc,
        words,
        &mut shelf,
        &mut report,
        natives,
        &mut ends,
    )?;
    Ok(Outcome {
        status,
        report,
        notes,
    })
}

// What a whole run of a row writes and delivers.
#[derive(Drop)]
struct Whole {
    report: Octets,
    notes: Octets,
}

impl Whole {
    fn of(alloc: Global, row: Row) -> Result<Whole, NoMemory> {
        let report = row.report(alloc)?;
        let notes = row.notes(alloc)?;
        Ok(Whole { report, notes })
    }
}

// So many parts from the front, each of which ends by the mark; all where there are no more.
fn front(bytes: &[u8], mark: u8, parts: u32) -> &[u8] {
    let mut left = parts;
    let mut len = 0usize;
    for byte in bytes {
        if left == 0 {
            break;
        }
        len = len.wrapping_add(1);
        if *byte == mark {
            left = left.wrapping_sub(1);
        }
    }
    &bytes[..len.min(bytes.len())]
}

// How much of what a whole run writes, or delivers: so many lines or notes, or as many as the failing call's number.
#[derive(Clone, Copy)]
enum Part {
    Just(u32),
    Call,
    All,
}

impl Part {
    fn of(self, call: u32) -> u32 {
        match self {
            Part::Just(count) => count,
            Part::Call => call,
            Part::All => u32::MAX,
        }
    }
}

// How a run ends.
#[derive(Clone, Copy)]
enum End {
    Whole,
    NoScript,
    NoPackets,
    NoWrite,
    NoDelivery,
}

impl End {
    fn status(self) -> u8 {
        match self {
            End::Whole => 0,
            End::NoScript | End::NoPackets => 4,
            End::NoWrite => 5,
            End::NoDelivery => 8,
        }
    }

    // The stop line.
    fn line(self) -> &'static [u8] {
        match self {
            End::Whole | End::NoWrite => b"",
            End::NoScript => b"stop 4 read script\n",
            End::NoPackets => b"stop 4 read packets\n",
            End::NoDelivery => b"stop 8 endpoint 0\n",
        }
    }
}

// What a run comes to: its end, the lines that it writes before its stop line, and what the endpoint notes.
type Wanted = (End, Part, Part);

impl Outcome {
    // Whether the run in which the call of that number failed came to this.
    fn is(&self, wanted: Wanted, whole: &Whole, call: u32) -> bool {
        let (end, lines, notes) = wanted;
        let lines = front(whole.report.as_slice(), b'\n', lines.of(call));
        let notes = front(whole.notes.as_slice(), b',', notes.of(call));
        self.status == end.status()
            && are_both(self.report.bytes(), lines, end.line())
            && noted(&self.notes, notes, DROPPED)
    }
}

// The calls of a kind from one number to before another, and what each run comes to in which one of them fails.
type Stops = (Row, Kind, u32, u32, Wanted);

// How many bytes a call moves at most where calls fail: more than a line has, and fewer than a capture.
const PIECE: u32 = 500;

// The first of the calls whose failure comes to something else.
fn first_wrong<R: Threads + Sync>(
    rt: &R,
    alloc: Global,
    stops: Stops,
) -> Result<Option<u32>, Fail> {
    let (row, kind, from, to, wanted) = stops;
    let whole = Whole::of(alloc, row)?;
    for call in from..to {
        let outcome = run(rt, alloc, row, Failing { kind, call }, PIECE)?;
        if !outcome.is(wanted, &whole, call) {
            return Ok(Some(call));
        }
    }
    Ok(None)
}

const WHOLE: Wanted = (End::Whole, Part::All, Part::All);

const NO_SCRIPT: Wanted = (End::NoScript, Part::Just(0), Part::Just(0));

// For each row and kind the calls from 0 on, up to the first number that no run comes to.
const STOPS: [Stops; 28] = [
    (Row::Filter, Kind::Find, 0, 1, NO_SCRIPT),
    (
        Row::Filter,
        Kind::Find,
        1,
        2,
        (End::NoPackets, Part::Just(0), Part::Just(0)),
    ),
    (Row::Filter, Kind::Find, 2, 3, WHOLE),
    // The script comes in one piece, and a second read finds its end.
    (Row::Filter, Kind::Read, 0, 2, NO_SCRIPT),
    // The capture comes in seven pieces. The first has its header, and the second segment wants the others.
    (
        Row::Filter,
        Kind::Read,
        2,
        3,
        (End::NoPackets, Part::Just(0), Part::Just(0)),
    ),
    (
        Row::Filter,
        Kind::Read,
        3,
        9,
        (End::NoPackets, Part::Just(6), Part::Just(0)),
    ),
    // An eighth finds the end, when all segments are done.
    (
        Row::Filter,
        Kind::Read,
        9,
        10,
        (End::NoPackets, Part::Just(47), Part::All),
    ),
    (Row::Filter, Kind::Read, 10, 11, WHOLE),
    // A segment is written by two calls: the line that begins it, and all that stands behind it.
    (
        Row::Filter,
        Kind::Write,
        0,
        3,
        (End::NoWrite, Part::Call, Part::Just(0)),
    ),
    // What the second segment sends is delivered before its text is written.
    (
        Row::Filter,
        Kind::Write,
        3,
        4,
        (End::NoWrite, Part::Just(6), Part::All),
    ),
    (
        Row::Filter,
        Kind::Write,
        4,
        5,
        (End::NoWrite, Part::Just(7), Part::All),
    ),
    (
        Row::Filter,
        Kind::Write,
        5,
        6,
        (End::NoWrite, Part::Just(47), Part::All),
    ),
    (Row::Filter, Kind::Write, 6, 7, WHOLE),
    (
        Row::Filter,
        Kind::Delivery,
        0,
        20,
        (End::NoDelivery, Part::Just(6), Part::Call),
    ),
    (Row::Filter, Kind::Delivery, 20, 21, WHOLE),
    (Row::Retiring, Kind::Find, 0, 1, NO_SCRIPT),
    (Row::Retiring, Kind::Find, 1, 2, WHOLE),
    (Row::Retiring, Kind::Read, 0, 2, NO_SCRIPT),
    (Row::Retiring, Kind::Read, 2, 3, WHOLE),
    (
        Row::Retiring,
        Kind::Write,
        0,
        1,
        (End::NoWrite, Part::Call, Part::Just(0)),
    ),
    (
        Row::Retiring,
        Kind::Write,
        1,
        3,
        (End::NoWrite, Part::Call, Part::Just(1)),
    ),
    // The endpoint is retired before the second segment, whose first piece is the line that tells it.
    (
        Row::Retiring,
        Kind::Write,
        3,
        4,
        (End::NoWrite, Part::Just(4), Part::All),
    ),
    (
        Row::Retiring,
        Kind::Write,
        4,
        5,
        (End::NoWrite, Part::Just(5), Part::All),
    ),
    (
        Row::Retiring,
        Kind::Write,
        5,
        6,
        (End::NoWrite, Part::Just(6), Part::All),
    ),
    (
        Row::Retiring,
        Kind::Write,
        6,
        7,
        (End::NoWrite, Part::Just(8), Part::All),
    ),
    (Row::Retiring, Kind::Write, 7, 8, WHOLE),
    (
        Row::Retiring,
        Kind::Delivery,
        0,
        1,
        (End::NoDelivery, Part::Just(1), Part::Call),
    ),
    (Row::Retiring, Kind::Delivery, 1, 2, WHOLE),
];

#[test]
fn each_call_fails_in_turn(rt: HostRuntime) -> Result<(), Fail> {
    for stops in STOPS {
        assert_eq!(rt; first_wrong(&rt, rt.alloc(), stops)?, None);
    }
    Ok(())
}

// Rows, and how many bytes a call moves at most.
const PIECES: [(Row, u32); 6] = [
    (Row::Filter, 1),
    (Row::Filter, 7),
    (Row::Filter, 65_536),
    (Row::Cut, 1),
    (Row::Cut, 7),
    (Row::Cut, 65_536),
];

#[test]
fn runs_in_pieces(rt: HostRuntime) -> Result<(), Fail> {
    for (row, size) in PIECES {
        let outcome = run(&rt, rt.alloc(), row, NONE_FAILS, size)?;
        let whole = Whole::of(rt.alloc(), row)?;
        assert!(rt; outcome.is(WHOLE, &whole, 0), "{size}");
    }
    Ok(())
}

// The row's capture as a source of which a read moves at most so many bytes.
fn source_of(alloc: Global, row: Row, size: u32) -> Result<MemSource, NoMemory>
    requires { 0 < size }
{
    let mut source = MemSource::new(row.capture(alloc)?);
    source.in_pieces(size);
    Ok(source)
}

// What the filter writes over the row's capture, of which a read moves at most so many bytes.
fn report_in_pieces<R: Threads + Sync + Abort>(
    rt: &R,
    alloc: Global,
    row: Row,
    size: u32,
) -> Result<MemSink, Fail>
    requires { 0 < size }
{
    let mut report = sink_of(alloc, NONE_FAILS, size)?;
    let mut source = source_of(alloc, row, size)?;
    let end = filter::filtered(rt, alloc, &mut source, &mut report, 20, 540)?;
    assert_eq!(rt; end, RunEnd::Whole);
    Ok(report)
}

#[test]
fn sources_in_pieces(rt: HostRuntime) -> Result<(), Fail> {
    for (row, size) in PIECES {
        let wanted = row.report(rt.alloc())?;
        let report = report_in_pieces(&rt, rt.alloc(), row, size)?;
        assert_eq!(rt; report.bytes(), wanted.as_slice());
    }
    Ok(())
}
