//! A datagram of which not all parts came yet.

ghost use Rattle.std.specs.Prelude.{◌≡◌, ◌≤◌, ◌++◌, true, [], length, slice_get, take, IfOk, OnOk};
ghost use Rattle.spin_reass.specs.Fragments.{end_of, is_sound};
ghost use Rattle.spin_reass.specs.Inner.Orderly.{are_orderly, place_from, part_before, ends_by};
ghost use Rattle.spin_reass.specs.Inner.Orderly.{may_stand_before, added_to, makes_whole, front_ttl};
ghost use Rattle.spin_reass.specs.Joining.{last_end};
ghost use Rattle.spin_reass.specs.Joining as specs;

use crate::limits::MAX_PAYLOAD;
use crate::piece::{ETHER, Key, Part};
use spin_headers::write_ipv4;
use spin_values::{NoMemory, Octets};
use std::alloc::Global;
use std::marker::Model;

// The number of bytes of a packet's header without options.
const HEADER: usize = 20;

/// The greatest number of bytes of a frame with a whole datagram: the headers and the bytes of its parts.
pub const MAX_FRAME: usize = 65_549;

/// A datagram of which not all parts came yet. Contracts see its key, and its parts in order of start.
#[derive(Debug, Drop)]
pub struct Datagram {
    key: Key,
    parts: Vec<Part>,
    filled: u32,
    end: Option<u32>,
}

impl Model for Datagram {
    ghost use Rattle.std.specs.Prelude.{◌≡◌, true};
    ghost use Rattle.spin_reass.specs.Inner.Orderly.{are_orderly, size_of};
    ghost use Rattle.spin_reass.specs.Joining.{OpenDatagram, last_end};

    ghost Value = { OpenDatagram };

    ghost view = { λ d. record { key = d.key; parts = d.parts.items } };

    ghost invariant = { λ d.
        (are_orderly 0 d.parts.items ≡ true)
        × (d.filled ≡ size_of d.parts.items)
        × (d.end ≡ last_end d.parts.items) };
}

// The place of a part that starts there among parts in order of start. It takes a binary search.
fn place_of(parts: &[Part], start: u32) -> usize
    requires { are_orderly 0 parts.now ≡ true }
    ensures place { result ≡ place_from start parts.now }
    ensures bound { result ≤ length parts.now }
{
    parts.partition_point(|part| part.start < start)
}

// Whether the part before that place, if there is one, ends where the other starts, or before.
fn ends_before(parts: &[Part], at: usize, start: u32) -> bool
    requires orderly { are_orderly 0 parts.now ≡ true }
    requires place { at ≤ length parts.now }
    ensures { result ≡ ends_by start (part_before at parts.now) }
{
    if at == 0 {
        return true;
    }
    parts[at - 1].end() <= start
}

// Whether a part may stand before the one at that place, or behind all if there is none.
fn begins_behind(parts: &[Part], end: Option<u32>, at: usize, part: &Part) -> bool
    requires small { end_of part.now ≤ MAX_PAYLOAD }
    ensures { result ≡ may_stand_before part.now (slice_get parts.now at) end }
{
    match parts.get(at) {
        Some(next) => !part.last && part.end() <= next.start,
        None => end.is_none(),
    }
}

// Whether the part fits beside its neighbours at its place, and so beside all.
fn fits_at(parts: &[Part], end: Option<u32>, at: usize, part: &Part) -> bool
    requires orderly { are_orderly 0 parts.now ≡ true }
    requires end { end ≡ last_end parts.now }
    requires place { at ≡ place_from part.now.start parts.now }
    requires bound { at ≤ length parts.now }
    requires sound { is_sound part.now ≡ true }
    ensures { result ≡ specs.fits part.now parts.now }
{
    ends_before(parts, at, part.start) && begins_behind(parts, end, at, part)
}

// Appends the bytes of the parts.
fn put_bytes(bytes: &mut Octets, parts: &[Part]) -> Result<(), NoMemory>
    ensures { OnOk result (bytes.new ≡ bytes.old ++ specs.payload parts.now) }
{
    for part in parts {
        bytes.extend_from_slice(&part.bytes)?;
    }
    Ok(())
}

// How many hops are left to the first part, if it begins the datagram.
fn front_ttl(parts: &[Part]) -> u8
    ensures { result ≡ front_ttl (slice_get parts.now 0) }
{
    match parts.first() {
        Some(part) => { if part.start == 0 { part.ttl } else { 0 } }
        None => 0,
    }
}

// How many hops are left to the part that begins the datagram.
fn first_ttl(parts: &[Part]) -> u8
    requires { are_orderly 0 parts.now ≡ true }
    ensures { result ≡ specs.first_ttl parts.now }
{
    front_ttl(parts)
}

// Puts a header and the bytes of the parts in the place of what the frame carries.
fn replace_packet(frame: &mut Octets, header: &[u8], parts: &[Part]) -> Result<(), NoMemory>
    ensures { OnOk result
        (frame.new ≡ take ETHER frame.old ++ header.now ++ specs.payload parts.now) }
{
    frame.truncate(ETHER);
    frame.extend_from_slice(header)?;
    put_bytes(frame, parts)
}

impl Datagram {
    /// A datagram of which no part came.
    pub fn new(alloc: Global, key: Key) -> Datagram
        ensures { result ≡ record { key = key; parts = [] } }
    {
        Datagram {
            key,
            parts: Vec::new(alloc),
            filled: 0,
            end: None,
        }
    }

    /// Whether it has that key.
    pub fn has_key(&self, key: &Key) -> bool
        ensures { result ≡ specs.has_key key.now self.now }
    {
        self.key.is(key)
    }

    /// Adds a sound part at its place where it fits, and answers whether the parts are then whole. It takes a binary
    /// search, and moves the parts behind that place.
    pub fn add(&mut self, part: Part) -> Result<bool, NoMemory>
        requires { is_sound part ≡ true }
        ensures whole { IfOk result (λ whole. whole ≡ makes_whole part self.old.parts) }
        ensures added { OnOk result (self.new ≡ added_to self.old part) }
    {
        let at = place_of(&self.parts, part.start);
        if !fits_at(&self.parts, self.end, at, &part) {
            return Ok(false);
        }
        let end = part.end_or(self.end);
        let len = part.len();
        self.parts.insert(at, part)?;
        self.filled += len;
        self.end = end;
        Ok(self.is_whole())
    }

    // Whether its parts cover all from 0 to the end of the part that is last.
    fn is_whole(&self) -> bool
        ensures { result ≡ specs.are_whole self.now.parts }
    {
        match self.end {
            Some(end) => end == self.filled,
            None => false,
        }
    }

    /// Puts a frame with the whole datagram, behind the header of the frame that is there, in the place of that.
    /// It takes one pass over the datagram.
    pub fn write(&self, frame: &mut Octets) -> Result<(), NoMemory>
        ensures frame { OnOk result (frame.new ≡ specs.whole_frame self.now frame.old) }
        ensures bound { OnOk result (length frame.new ≤ MAX_FRAME) }
    {
        let mut header = [0u8; HEADER];
        let key = self.key;
        write_ipv4(
            key.ident,
            first_ttl(&self.parts),
            key.protocol,
            key.source,
            key.destination,
            self.filled as u16,
            &mut header,
        );
        replace_packet(frame, &header, &self.parts)?;
        Ok(())
    }
}
