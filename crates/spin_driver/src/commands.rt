//! Rows of commands, both ways.
//!
//! - `pack OP LANE EVENT REQUESTER HANDLER TARGET LIST`: the row of a command that goes before the bindings of the
//!   list, and whether the command comes back from it, or `invalid`;
//! - `unpack WORD WORD WORD WORD`: the command of a row.

use crate::fault::Fault;
use crate::told::{tell, tell_word};
use crate::words::Words;
use spin_word::{Command, NO_BINDINGS, Op, Row, is_valid, pack, unpack};
use std::alloc::Global;

// Which way.
#[derive(Clone, Copy)]
enum Kind {
    Pack,
    Unpack,
}

const KINDS: [(&str, Kind); 2] = [("pack", Kind::Pack), ("unpack", Kind::Unpack)];

const OPS: [(&str, Op); 5] = [
    ("install", Op::Install),
    ("remove", Op::Remove),
    ("replace", Op::Replace),
    ("default", Op::Default),
    ("nodefault", Op::NoDefault),
];

pub(crate) fn answer(alloc: Global, words: &mut Words, out: &mut String) -> Result<(), Fault> {
    match words.one_of(&KINDS)? {
        Kind::Pack => packed(&command(alloc, words)?, out),
        Kind::Unpack => unpacked(words, out),
    }
}

// The four entries of a list that names so many bindings.
fn four(numbers: &[u16]) -> Result<[u16; 4], Fault> {
    let mut four = NO_BINDINGS;
    if numbers.len() > 4 {
        return Err(Fault::BadRow);
    }
    for (entry, number) in four.iter_mut().zip(numbers) {
        *entry = *number;
    }
    Ok(four)
}

fn command(alloc: Global, words: &mut Words) -> Result<Command, Fault> {
    let op = words.one_of(&OPS)?;
    let bare = Command::bare(op, words.u8()?, words.u8()?, words.u8()?);
    Ok(Command {
        handler: words.u16()?,
        target: words.u16()?,
        before: four(words.numbers(alloc)?.as_slice())?,
        ..bare
    })
}

fn packed(command: &Command, out: &mut String) -> Result<(), Fault> {
    if !is_valid(command) {
        return tell_word(out, "invalid");
    }
    let row = pack(command);
    tell(out, &row)?;
    tell(out, &(unpack(&row) == Some(*command)))
}

fn unpacked(words: &mut Words, out: &mut String) -> Result<(), Fault> {
    let row = Row {
        a: words.u64()?,
        b: words.u64()?,
        c: words.u64()?,
        d: words.u64()?,
    };
    tell(out, &unpack(&row))
}
