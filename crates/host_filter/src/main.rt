//! A packet filter, as a host embeds the dispatcher: of a capture in memory the datagrams to port 53 go to an endpoint
//! of the host's own, which counts them.
#![tactic(auto)]

ghost use Rattle.std.specs.Prelude.{None};

use spin::{
    Endpoint, Ends, Failed, MemSource, Natives, NoMemory, Octets, OpenGate, Reader, RunEnd,
    StdSink, Text, read_script, run_script, write_ipv4, write_udp,
};
use std::alloc::Global;
use std::cell::Cell;
use std::io::{self, Print};
use std::process::ExitCode;
use std::rc::Rc;
use std::thread::Threads;

// Frames climb from Ethernet over IPv4 to UDP; what is for port 53 is sent to the endpoint `dns`.
const SCRIPT: &[u8] = b"spin 1
event 0 0 b last
event 1 0 bwww last
event 2 0 bwwww last
endpoint 0 dns
handler 1 b layer ipv4 1
handler 2 bwww layer udp 2
handler 3 bwwww send 0 0 0
guard 1 b == f 0 12 2 0x0800
guard 2 bwww == a1 17
guard 3 bwwww == a2 53
lane 0 install 0 0 1 1 free plain
lane 0 install 1 0 2 2 free plain
lane 0 install 2 0 3 3 free plain
barrier
lane 0 packet 0 1000
";

// How many pieces an endpoint took, and how many bytes in all.
#[derive(Drop)]
struct Tally {
    pieces: Cell<u64>,
    bytes: Cell<u64>,
}

// Counts what it takes, and keeps nothing of it.
#[derive(Drop)]
struct Counter {
    tally: Rc<Tally>,
    finishes: u64,
}

impl Endpoint for Counter {
    ghost seen = { λ c. record { pieces = None; finishes = c.finishes; faults = 0 } };

    fn take(&mut self, bytes: &[u8]) -> Result<(), Failed> {
        let Tally { pieces, bytes: sum } = &*self.tally;
        pieces.set(pieces.get().saturating_add(1));
        sum.set(sum.get().saturating_add(bytes.len() as u64));
        Ok(())
    }

    fn finish(&mut self) {
        self.finishes = self.finishes.saturating_add(1);
    }
}

// Appends a record of the capture: an Ethernet frame with a datagram of eight bytes to that port.
fn add_record(capture: &mut Octets, port: u16) -> Result<(), NoMemory> {
    let (from, to) = (0x0a00_0001, 0x0a00_0002);
    let mut packet = [0u8; 20];
    write_ipv4(1, 64, 17, from, to, 16, &mut packet);
    let mut datagram = [0u8; 16];
    write_udp(from, to, 40_000, port, b"question", &mut datagram);
    capture.extend_from_slice(&[0; 8])?;
    capture.extend_from_slice(&[50, 0, 0, 0, 50, 0, 0, 0])?;
    capture.extend_from_slice(b"\x02\0\0\0\0\x02\x02\0\0\0\0\x01\x08\x00")?;
    capture.extend_from_slice(&packet)?;
    capture.extend_from_slice(&datagram)
}

// A capture of datagrams to these ports, whose numbers have the lowest byte first (classic pcap 2.4).
fn capture_of(alloc: Global, ports: &[u16]) -> Result<Octets, NoMemory> {
    let mut capture = Octets::from_bytes(alloc, &[0xd4, 0xc3, 0xb2, 0xa1, 2, 0, 4, 0])?;
    capture.extend_from_slice(&[0; 8])?;
    capture.extend_from_slice(&[0, 0, 4, 0, 1, 0, 0, 0])?;
    for port in ports {
        add_record(&mut capture, *port)?;
    }
    Ok(capture)
}

// A tally of nothing.
fn no_tally(alloc: Global) -> Result<Rc<Tally>, NoMemory> {
    let tally = Tally {
        pieces: Cell::new(0),
        bytes: Cell::new(0),
    };
    Ok(Rc::new(alloc, tally)?)
}

// Whether the run of the script over five datagrams, two of them for other ports, came to its end.
fn is_run_whole<R: Print + Threads + Sync>(
    rt: &R,
    alloc: Global,
    ends: &mut Ends,
) -> Result<bool, NoMemory> {
    let mut source = MemSource::new(capture_of(alloc, &[53, 80, 53, 123, 53])?);
    let Ok(reader) = Reader::start(alloc, &mut source) else {
        return Ok(false);
    };
    let Ok(script) = read_script(alloc, SCRIPT, Natives::new(alloc)) else {
        return Ok(false);
    };
    let mut out = StdSink::new(io::writer(rt));
    let end = run_script(
        rt,
        alloc,
        script,
        Some(reader),
        &mut source,
        &mut out,
        ends,
        &OpenGate,
    );
    Ok(matches!(end, RunEnd::Whole))
}

fn main(rt: HostRuntime) -> Result<ExitCode, NoMemory> {
    let alloc = rt.alloc();
    let tally = no_tally(alloc)?;
    let counter = Counter {
        tally: tally.clone()?,
        finishes: 0,
    };
    let object: Box<dyn Endpoint> = Box::new(alloc, counter)?;
    let mut ends = Ends::new(alloc);
    let is_added = ends.add(Text::from_bytes(alloc, b"dns")?, object).is_ok();
    let is_whole = is_added && is_run_whole(&rt, alloc, &mut ends)?;
    let _ = println!(rt;
        "{} datagrams, {} bytes",
        tally.pieces.get(),
        tally.bytes.get()
    );
    Ok(ExitCode::from(if is_whole { 0 } else { 1 }))
}
