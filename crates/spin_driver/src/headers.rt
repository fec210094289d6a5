//! Headers whose answers were computed elsewhere. What is refused of them is among the cases.
//!
//! - `sum BYTES`: the complement of their sum;
//! - `ether BYTES`, `ipv4 BYTES`, `udp SOURCE DESTINATION BYTES`: the header that is read;
//! - `write_ipv4 IDENT TTL PROTOCOL SOURCE DESTINATION LENGTH`: the header that is written for such a packet;
//! - `write_udp SOURCE DESTINATION PORT PORT BYTES`: the datagram that is written, with up to 56 bytes.

use crate::fault::Fault;
use crate::told::{tell, tell_bytes};
use crate::words::Words;
use spin_headers::{checksum, read_ether, read_ipv4, read_udp, write_ipv4, write_udp};
use std::alloc::Global;

// What is done with a header.
#[derive(Clone, Copy)]
enum Kind {
    Sum,
    Ether,
    Ipv4,
    Udp,
    WriteIpv4,
    WriteUdp,
}

const KINDS: [(&str, Kind); 6] = [
    ("sum", Kind::Sum),
    ("ether", Kind::Ether),
    ("ipv4", Kind::Ipv4),
    ("udp", Kind::Udp),
    ("write_ipv4", Kind::WriteIpv4),
    ("write_udp", Kind::WriteUdp),
];

pub(crate) fn answer(alloc: Global, words: &mut Words, out: &mut String) -> Result<(), Fault> {
    match words.one_of(&KINDS)? {
        Kind::Sum => tell(out, &checksum(words.bytes(alloc)?.as_slice())),
        Kind::Ether => tell(out, &read_ether(words.bytes(alloc)?.as_slice())),
        Kind::Ipv4 => tell(out, &read_ipv4(words.bytes(alloc)?.as_slice())),
        Kind::Udp => udp(alloc, words, out),
        Kind::WriteIpv4 => written_ipv4(words, out),
        Kind::WriteUdp => written_udp(alloc, words, out),
    }
}

fn udp(alloc: Global, words: &mut Words, out: &mut String) -> Result<(), Fault> {
    let (source, destination) = (words.u32()?, words.u32()?);
    let bytes = words.bytes(alloc)?;
    tell(out, &read_udp(bytes.as_slice(), source, destination))
}

fn written_ipv4(words: &mut Words, out: &mut String) -> Result<(), Fault> {
    let (ident, ttl, protocol) = (words.u16()?, words.u8()?, words.u8()?);
    let (source, destination, len) = (words.u32()?, words.u32()?, words.u16()?);
    if len > 65_515 {
        return Err(Fault::BadRow);
    }
    let mut header = [0xffu8; 20];
    write_ipv4(ident, ttl, protocol, source, destination, len, &mut header);
    tell_bytes(out, &header)
}

fn written_udp(alloc: Global, words: &mut Words, out: &mut String) -> Result<(), Fault> {
    let (source, destination) = (words.u32()?, words.u32()?);
    let (from, to) = (words.u16()?, words.u16()?);
    let payload = words.bytes(alloc)?;
    if payload.len() > 56 {
        return Err(Fault::BadRow);
    }
    let mut buffer = [0xffu8; 64];
    let datagram = &mut buffer[..8 + payload.len()];
    write_udp(source, destination, from, to, payload.as_slice(), datagram);
    tell_bytes(out, datagram)
}
