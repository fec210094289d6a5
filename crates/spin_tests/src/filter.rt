//! A filter of packets over a capture of ARP, TCP and DNS: its whole report, and endpoints that fail.

use crate::captures::{ANSWER, QUERY, capture, push_record};
use crate::noting::ends_of;
use spin_endpoint::{Ends, KeepEnd};
use spin_objects::Natives;
use spin_outside::{MemSink, MemSource, OpenGate};
use spin_pcap::{MAX_HELD, Reader};
use spin_run::{RunEnd, run_script};
use spin_script::read_script;
use spin_values::{NoMemory, Octets};
use std::alloc::Global;
use std::test::Fail;
use std::thread::Threads;

pub(crate) const SCRIPT: &[u8] = b"\
spin 1
event 0 0 b last
event 1 0 bwww last
event 2 0 bwwww last
endpoint 0 out0
handler 1 b layer ipv4 1
handler 2 bwww layer udp 2
handler 3 bwwww send 0 0 0
guard 1 b == f 0 12 2 0x0800
guard 2 bwww == a1 17
guard 3 bwwww == a2 53
guard 4 bwwww == a1 53
lane 0 install 0 0 1 1 free plain
lane 0 install 1 0 2 2 free plain
lane 0 install 2 0 3 3 free plain
lane 0 install 2 0 3 4 free plain
barrier
lane 0 packet 0 40
";

// What stands in the report before the packets.
const INSTALLED: &[u8] = b"\
report 1
segment 0 at 0
1 0 13 install ok
2 0 14 install ok
3 0 15 install ok
4 0 16 install ok
";

// What is told of a frame, by its number modulo 4.
const TOLD: [&[u8]; 4] = [
    b"run 0 1 up 1 run 1 2 up 2 run 2 4 send 0 35 back done back done = done\n",
    b"= nohandler\n",
    b"run 0 1 up 1 back nohandler = done\n",
    b"run 0 1 up 1 run 1 2 up 2 run 2 3 send 0 19 back done back done = done\n",
];

// How many bytes the 40 records have.
const RECORDS: u64 = 3180;

// The 40 records in turn, and so many copies of the first one behind them.
fn capture_and_copies(alloc: Global, copies: u32) -> Result<Octets, NoMemory> {
    let mut file = capture(alloc, 40)?;
    for _ in 0..copies {
        push_record(&mut file, 1)?;
    }
    Ok(file)
}

// Adds the line of the packet of that number.
fn put_packet(report: &mut Octets, number: u8) -> Result<(), NoMemory> {
    report.extend_from_slice(b"4 0 18.")?;
    if number >= 10 {
        report.push(b'0' + number / 10)?;
    }
    report.push(b'0' + number % 10)?;
    report.extend_from_slice(b" packet ")?;
    report.extend_from_slice(TOLD[usize::from(number % 4)])
}

// The report of a whole run over so many records, which has this last line.
pub(crate) fn report_of(alloc: Global, records: u8, end: &[u8]) -> Result<Octets, NoMemory> {
    let mut report = Octets::from_bytes(alloc, INSTALLED)?;
    report.extend_from_slice(b"segment 1 at 4\n")?;
    for number in 1..=records {
        put_packet(&mut report, number)?;
    }
    report.extend_from_slice(end)?;
    Ok(report)
}

// The report of a whole run over the 40 records.
fn whole_report(alloc: Global) -> Result<Octets, NoMemory> {
    report_of(alloc, 40, b"end 4 records 40 used 40 cut 0\n")
}

// What is sent of so many queries and their answers in turn, with a comma behind each.
pub(crate) fn payloads(alloc: Global, queries: u8) -> Result<Octets, NoMemory> {
    let mut bytes = Octets::new(alloc);
    for _ in 0..queries {
        bytes.extend_from_slice(&QUERY[42..])?;
        bytes.push(b',')?;
        bytes.extend_from_slice(&ANSWER[42..])?;
        bytes.push(b',')?;
    }
    Ok(bytes)
}

// An endpoint `out0` that has room for so many pieces, and so many bytes of them.
fn kept(alloc: Global, pieces: u32, bytes: u32) -> Result<Ends, Fail> {
    ends_of(
        alloc,
        b"out0",
        Box::new(alloc, KeepEnd::new(alloc, pieces, bytes)?)?,
    )
}

// Runs the filter over the capture, with an endpoint that has room for so many pieces, and so many bytes of them.
pub(crate) fn filtered<R: Threads + Sync>(
    rt: &R,
    alloc: Global,
    source: &mut MemSource,
    report: &mut MemSink,
    pieces: u32,
    bytes: u32,
) -> Result<RunEnd, Fail> {
    let mut ends = kept(alloc, pieces, bytes)?;
    let reader = Reader::start(alloc, source)?;
    let script = read_script(alloc, SCRIPT, Natives::new(alloc))?;
    Ok(run_script(
        rt,
        alloc,
        script,
        Some(reader),
        source,
        report,
        &mut ends,
        &OpenGate,
    ))
}

// How the filter ends over so many copies of a record more than its capture, with an endpoint of such room; what it
// writes; and how many bytes it takes.
fn filtered_to<R: Threads + Sync>(
    rt: &R,
    alloc: Global,
    pieces: u32,
    bytes: u32,
    copies: u32,
) -> Result<(RunEnd, MemSink, u64), Fail> {
    let mut report = MemSink::new(alloc, 4000)?;
    let mut source = MemSource::new(capture_and_copies(alloc, copies)?);
    let end = filtered(rt, alloc, &mut source, &mut report, pieces, bytes)?;
    Ok((end, report, source.taken()))
}

// What is written of a run that ends so.
fn written_by(alloc: Global, end: RunEnd) -> Result<Octets, NoMemory> {
    match end {
        RunEnd::Whole => whole_report(alloc),
        _ => Octets::from_bytes(alloc, INSTALLED),
    }
}

#[test]
fn the_sends_of_a_filter_fit_or_fail(rt: HostRuntime) -> Result<(), Fail> {
    let alloc = rt.alloc();
    for (pieces, bytes, copies, wanted) in [
        (20, 540, 0, RunEnd::Whole),
        (19, 540, 0, RunEnd::Endpoint(0)),
        (20, 539, 0, RunEnd::Endpoint(0)),
        (0, 0, 100_000, RunEnd::Endpoint(0)),
    ] {
        let written = written_by(alloc, wanted)?;
        let (end, report, taken) = filtered_to(&rt, alloc, pieces, bytes, copies)?;
        assert_eq!(rt; end, wanted);
        assert_eq!(rt; report.bytes(), written.as_slice());
        assert!(rt; taken <= 24 + RECORDS + MAX_HELD as u64);
    }
    Ok(())
}
