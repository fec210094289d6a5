//! Endpoints that keep, that fail, and that are retired; and what is answered for several of them.
//!
//! - `keep PIECES SIZE CALL BYTES..`: the answers to pieces of an endpoint with room for so many of that size, whose
//!   call of that number fails, counted from 0;
//! - `sends CALL`: what `a` and `b` to an endpoint that is gone and `c` to one whose call of that number fails are
//!   answered in one call, twice: the number of the endpoint that failed, or how many sends to each are lost; and then
//!   which of three retirements, of the second, the first and the second, found it;
//! - `add COUNT NUMBER`: endpoints are added, that of this number is retired at once, and at last one is added under
//!   the name of the first: the answer to the retirement, the refusals, and how many were added;
//! - `named LENGTH`: an endpoint has a name of so many bytes, and a file in memory, too: the answer to a piece, whether the
//!   endpoint stands, the answer to its retirement, whether it still stands, and what a read of the file's three bytes is
//!   answered.

use crate::fault::Fault;
use crate::told::tell;
use crate::words::Words;
use spin_endpoint::{Endpoint, Ends, KeepEnd, Lost, Sent};
use spin_outside::{MemShelf, Shelf};
use spin_values::{NoMemory, Octets, Text};
use std::alloc::Global;

// What is done.
#[derive(Clone, Copy)]
enum Kind {
    Keep,
    Sends,
    Add,
    Named,
}

const KINDS: [(&str, Kind); 4] = [
    ("keep", Kind::Keep),
    ("sends", Kind::Sends),
    ("add", Kind::Add),
    ("named", Kind::Named),
];

pub(crate) fn answer(alloc: Global, words: &mut Words, out: &mut String) -> Result<(), Fault> {
    match words.one_of(&KINDS)? {
        Kind::Keep => keep(alloc, words, out),
        Kind::Sends => sends(alloc, words.u32()?, out),
        Kind::Add => add_each(alloc, words, out),
        Kind::Named => tell_named(alloc, &long_name(alloc, words.u16()?)?, out),
    }
}

// An endpoint with room for so many pieces of that size, whose call of that number fails.
fn keep_end(alloc: Global, pieces: u32, size: u32, failing: u32) -> Result<KeepEnd, NoMemory> {
    let mut keep = KeepEnd::new(alloc, pieces, size)?;
    keep.fail_at(failing)?;
    Ok(keep)
}

fn keep(alloc: Global, words: &mut Words, out: &mut String) -> Result<(), Fault> {
    let (pieces, size, failing) = (words.u32()?, words.u32()?, words.u32()?);
    let mut end = keep_end(alloc, pieces, size, failing)?;
    tell_takes(alloc, words, &mut end, out)?;
    end.finish();
    Ok(())
}

// Tells the answers of the endpoint to the pieces that are left in the row.
fn tell_takes(
    alloc: Global,
    words: &mut Words,
    end: &mut KeepEnd,
    out: &mut String,
) -> Result<(), Fault> {
    for _ in 0..100 {
        if words.are_all_read() {
            return Ok(());
        }
        tell(out, &end.take(words.bytes(alloc)?.as_slice()))?;
    }
    Err(Fault::BadRow)
}

fn two_names(alloc: Global) -> Result<[Text; 2], NoMemory> {
    let gone = Text::from_bytes(alloc, b"gone")?;
    Ok([gone, Text::from_bytes(alloc, b"kept")?])
}

fn tell_sends(sent: Result<Lost, u8>, out: &mut String) -> Result<(), Fault> {
    match sent {
        Ok(lost) => {
            tell(out, &lost.to(0))?;
            tell(out, &lost.to(1))
        }
        Err(number) => tell(out, &number),
    }
}

fn sends(alloc: Global, failing: u32, out: &mut String) -> Result<(), Fault> {
    let names = two_names(alloc)?;
    let mut ends = Ends::new(alloc);
    let end: Box<dyn Endpoint> = Box::new(alloc, keep_end(alloc, 1, 3, failing)?)?;
    if ends.add(Text::from_bytes(alloc, b"kept")?, end).is_err() {
        return Err(Fault::Wrong("an endpoint isn't added"));
    }
    tell_all(&names, &mut ends, out)
}

fn tell_all(names: &[Text; 2], ends: &mut Ends, out: &mut String) -> Result<(), Fault> {
    let sends = [Sent::new(0, b"a"), Sent::new(0, b"b"), Sent::new(1, b"c")];
    tell_sends(ends.deliver_all(names, &sends), out)?;
    tell_sends(ends.deliver_all(names, &sends), out)?;
    let mut stood = [false; 3];
    ends.retire_all(names, &[1, 0, 1], &mut stood);
    tell(out, &stood)
}

// The name of the endpoint of that number.
fn name_of(alloc: Global, number: u8) -> Result<Text, NoMemory> {
    Text::from_bytes(alloc, &[b'e', number])
}

fn add_each(alloc: Global, words: &mut Words, out: &mut String) -> Result<(), Fault> {
    let (count, retired) = (words.u8()?, words.u8()?);
    let mut ends = Ends::new(alloc);
    let mut added = 0u32;
    for turn in 0..=count {
        let number = if turn == count { 0 } else { turn };
        let end: Box<dyn Endpoint> = Box::new(alloc, keep_end(alloc, 1, 3, 0)?)?;
        match ends.add(name_of(alloc, number)?, end) {
            Ok(()) => added = added.saturating_add(1),
            Err(refused) => tell(out, &refused.0)?,
        }
        if turn == retired {
            let name = name_of(alloc, number)?;
            tell(out, &ends.retire(&name))?;
        }
    }
    tell(out, &added)
}

// A name of so many bytes.
fn long_name(alloc: Global, len: u16) -> Result<Text, Fault> {
    let mut name = Text::new(alloc);
    for _ in 0..len {
        name.push(b'n')?;
    }
    Ok(name)
}

fn tell_named(alloc: Global, name: &Text, out: &mut String) -> Result<(), Fault> {
    let mut ends = Ends::new(alloc);
    let end: Box<dyn Endpoint> = Box::new(alloc, KeepEnd::new(alloc, 1, 3)?)?;
    if ends.add(name.copy()?, end).is_err() {
        return Err(Fault::Wrong("an endpoint isn't added"));
    }
    tell(out, &ends.deliver(name, b"abc"))?;
    tell(out, &ends.stands(name))?;
    tell(out, &ends.retire(name))?;
    tell(out, &ends.stands(name))?;
    tell_file(alloc, name, out)
}

fn tell_file(alloc: Global, name: &Text, out: &mut String) -> Result<(), Fault> {
    let mut shelf = MemShelf::new(alloc);
    shelf.put(name.copy()?, Octets::from_bytes(alloc, b"abc")?)?;
    let mut buf = [0u8; 4];
    match shelf.find(name) {
        Ok(file) => tell(out, &shelf.read(file, &mut buf)),
        Err(fault) => tell(out, &fault),
    }
}
