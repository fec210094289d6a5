//! Fragments joined in captures, and replies to echo requests. A fragment is `OFFSET:MORE:TTL:BYTES`: its offset in
//! units of 8 bytes, 1 where more follow, its time to live, and its bytes in hexadecimal digits.
//!
//! - `join FRAGMENTS`: the joined capture of these fragments, with commas between them;
//! - `many FRONTS BACK BYTES`: how much longer a joined capture is than the capture, of the fronts of so many datagrams
//!   and then the back of the one of that number, with these bytes behind them; or the refusal;
//! - `file BYTES`: the refusal of a file;
//! - `read FRAGMENT`: the offset that is read of it, whether more follow, and why it's no packet of its own;
//! - `echo MESSAGE`: what is answered to a message of up to 64 bytes, and the reply.

ghost use Rattle.std.specs.Prelude.{◌≤◌, length};

use crate::captures::{LITTLE, push_frame};
use crate::fault::Fault;
use crate::told::{tell, tell_bytes, tell_word};
use crate::words::{Words, hex};
use spin_headers::{checksum, read_fragment, read_ipv4, write_ipv4};
use spin_outside::{MemSource, Octets};
use spin_pcap::BadRecord;
use spin_reass::{echo_reply, join_capture};
use std::alloc::Global;

// What is done.
#[derive(Clone, Copy)]
enum Kind {
    Join,
    Many,
    File,
    Read,
    Echo,
}

const KINDS: [(&str, Kind); 5] = [
    ("join", Kind::Join),
    ("many", Kind::Many),
    ("file", Kind::File),
    ("read", Kind::Read),
    ("echo", Kind::Echo),
];

pub(crate) fn answer(alloc: Global, words: &mut Words, out: &mut String) -> Result<(), Fault> {
    match words.one_of(&KINDS)? {
        Kind::Join => join_fragments(alloc, words.word()?, out),
        Kind::Many => many(alloc, words, out),
        Kind::File => tell_joined(out, &join(alloc, words.bytes(alloc)?)),
        Kind::Read => read(alloc, words.word()?, out),
        Kind::Echo => echo(words.bytes(alloc)?.as_slice(), out),
    }
}

const SOURCE: u32 = 0x0a00_0001;

const DESTINATION: u32 = 0x0a00_0002;

// The header of each frame.
const ETHER: &[u8; 14] = b"\x02\0\0\0\0\x02\x02\0\0\0\0\x01\x08\0";

// What a fragment says of itself.
#[derive(Clone, Copy)]
struct Part {
    ident: u16,
    offset: u16,
    more: bool,
    ttl: u8,
}

// The packet's header of a fragment with so many bytes.
fn header_of(part: Part, len: usize) -> [u8; 20] {
    let len = u16::try_from(len).unwrap_or(0).min(65_515);
    let mut header = [0u8; 20];
    write_ipv4(
        part.ident,
        part.ttl,
        17,
        SOURCE,
        DESTINATION,
        len,
        &mut header,
    );
    let flag = if part.more { 0x2000 } else { 0 };
    let [high, low] = (part.offset % 0x2000 + flag).to_be_bytes();
    header[6] = high;
    header[7] = low;
    header[10] = 0;
    header[11] = 0;
    let [high, low] = checksum(&header).to_be_bytes();
    header[10] = high;
    header[11] = low;
    header
}

// The frame of a fragment.
fn frame_of(alloc: Global, part: Part, bytes: &[u8]) -> Result<Octets, Fault> {
    let mut frame = Octets::from_bytes(alloc, ETHER)?;
    frame.extend_from_slice(&header_of(part, bytes.len()))?;
    frame.extend_from_slice(bytes)?;
    Ok(frame)
}

// The frame of the fragment of datagram 1 that a word is.
fn frame_of_word(alloc: Global, word: &str) -> Result<Octets, Fault> {
    let mut parts = Words::parts(word);
    let (offset, more, ttl) = (parts.u16()?, parts.u8()? == 1, parts.u8()?);
    let part = Part {
        ident: 1,
        offset,
        more,
        ttl,
    };
    frame_of(alloc, part, hex(alloc, parts.word()?)?.as_slice())
}

// The joined capture of these bytes, which come in pieces.
fn join(alloc: Global, file: Octets) -> Result<Octets, BadRecord> {
    let mut source = MemSource::new(file);
    source.in_pieces(11);
    join_capture(alloc, &mut source)
}

fn tell_joined(out: &mut String, joined: &Result<Octets, BadRecord>) -> Result<(), Fault> {
    match joined {
        Ok(joined) => tell_bytes(out, joined.as_slice()),
        Err(fault) => tell(out, fault),
    }
}

fn join_fragments(alloc: Global, fragments: &str, out: &mut String) -> Result<(), Fault> {
    let mut file = Octets::from_bytes(alloc, &LITTLE)?;
    for word in fragments.split(',') {
        push_frame(&mut file, 0, frame_of_word(alloc, word)?.as_slice())?;
    }
    tell_joined(out, &join(alloc, file))
}

// The first 16 bytes of a datagram, and the last 8.
const FRONT: &[u8] = b"\x00\x35\x04\x00\x00\x18\0\0abcdefgh";

const BACK: &[u8] = b"ijklmnop";

// Adds the record of the front of a datagram, or of its back.
fn push_half(alloc: Global, file: &mut Octets, ident: u16, more: bool) -> Result<(), Fault> {
    let (offset, bytes) = if more { (0, FRONT) } else { (2, BACK) };
    let part = Part {
        ident,
        offset,
        more,
        ttl: 64,
    };
    push_frame(file, 0, frame_of(alloc, part, bytes)?.as_slice())
}

// A capture of the fronts of so many datagrams, and then the back of the one of that number.
fn fronts_and_back(alloc: Global, fronts: u16, back: u16) -> Result<Octets, Fault> {
    let mut file = Octets::from_bytes(alloc, &LITTLE)?;
    for ident in 0..fronts {
        push_half(alloc, &mut file, ident, true)?;
    }
    push_half(alloc, &mut file, back, false)?;
    Ok(file)
}

fn many(alloc: Global, words: &mut Words, out: &mut String) -> Result<(), Fault> {
    let mut file = fronts_and_back(alloc, words.u16()?, words.u16()?)?;
    let len = file.len();
    file.extend_from_slice(words.bytes(alloc)?.as_slice())?;
    match join(alloc, file) {
        Ok(joined) => tell(out, &joined.len().wrapping_sub(len)),
        Err(fault) => tell(out, &fault),
    }
}

fn read(alloc: Global, word: &str, out: &mut String) -> Result<(), Fault> {
    let frame = frame_of_word(alloc, word)?;
    let packet = frame.as_slice().get(14..).unwrap_or(b"");
    let Ok(read) = read_fragment(packet) else {
        return Err(Fault::Wrong("a fragment is refused"));
    };
    tell(out, &read.offset)?;
    tell(out, &read.more)?;
    match read_ipv4(packet) {
        Ok(header) => tell_word(
            out,
            if header == read.header {
                "whole"
            } else {
                "another"
            },
        ),
        Err(fault) => tell(out, &fault),
    }
}

fn echo(message: &[u8], out: &mut String) -> Result<(), Fault> {
    let mut buffer = [0xffu8; 64];
    if message.len() > 64 {
        return Err(Fault::BadRow);
    }
    let reply = &mut buffer[..message.len()];
    tell(out, &echo_reply(message, reply))?;
    tell_bytes(out, reply)
}
