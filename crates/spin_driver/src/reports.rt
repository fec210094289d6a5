//! Scripts written again, reports that are judged, and the line of an entry.
//!
//! - `again SCRIPT`: the canonical text of a script;
//! - `judge SCRIPT REPORT`: whether the text is a report of the script, over no capture and where no endpoint stands;
//! - `bytes SCRIPT REPORT`: how many texts still are a report of it, of those that differ from this one by the lowest
//!   bit of one byte, each byte in turn;
//! - `lines SCRIPT REPORT`: the same of those in which a line is left out, or exchanged with the line before it;
//! - `refused PLACE LANE LINE PART`: the line of a raise that is refused for want of steps.

ghost use Rattle.std.specs.Prelude.{◌<◌, length};

use crate::fault::Fault;
use crate::told::{tell, tell_text};
use crate::words::Words;
use spin_check::check_report;
use spin_objects::Natives;
use spin_proto::{Deed, Reply};
use spin_report::{Entry, What, entry_text};
use spin_script::{read_script, write_script};
use spin_values::{Args, Octets, Texts};
use std::alloc::Global;

// What is done.
#[derive(Clone, Copy)]
enum Kind {
    Again,
    Judge,
    Bytes,
    Lines,
    Refused,
}

const KINDS: [(&str, Kind); 5] = [
    ("again", Kind::Again),
    ("judge", Kind::Judge),
    ("bytes", Kind::Bytes),
    ("lines", Kind::Lines),
    ("refused", Kind::Refused),
];

pub(crate) fn answer(alloc: Global, words: &mut Words, out: &mut String) -> Result<(), Fault> {
    let kind = words.one_of(&KINDS)?;
    if let Kind::Refused = kind {
        return refused(alloc, words, out);
    }
    let script = words.bytes(alloc)?;
    match kind {
        Kind::Again => tell_again(alloc, script.as_slice(), out),
        _ => judge(
            alloc,
            kind,
            script.as_slice(),
            words.bytes(alloc)?.as_slice(),
            out,
        ),
    }
}

fn tell_again(alloc: Global, text: &[u8], out: &mut String) -> Result<(), Fault> {
    let script = read_script(alloc, text, Natives::new(alloc))?;
    tell_text(out, write_script(alloc, &script)?.as_slice())
}

fn judge(
    alloc: Global,
    kind: Kind,
    script: &[u8],
    report: &[u8],
    out: &mut String,
) -> Result<(), Fault> {
    match kind {
        Kind::Bytes => tell(out, &bytes_changed(alloc, script, report)?),
        Kind::Lines => tell(out, &lines_changed(alloc, script, report)?),
        _ => tell(out, &is_report(alloc, script, report)?),
    }
}

// Whether the text is a report of the script.
fn is_report(alloc: Global, script: &[u8], text: &[u8]) -> Result<bool, Fault> {
    let script = read_script(alloc, script, Natives::new(alloc))?;
    Ok(check_report(alloc, &script, &Texts::new(alloc), None, text)?)
}

// The text with another byte at that place.
fn with_byte_changed(alloc: Global, text: &[u8], at: usize) -> Result<Octets, Fault>
    requires { at < length text.now }
{
    let mut changed = Octets::from_bytes(alloc, text)?;
    changed.replace(at, text[at] ^ 1);
    Ok(changed)
}

fn bytes_changed(alloc: Global, script: &[u8], report: &[u8]) -> Result<u32, Fault> {
    let mut still = 0u32;
    for at in 0..report.len() {
        let changed = with_byte_changed(alloc, report, at)?;
        if is_report(alloc, script, changed.as_slice())? {
            still = still.saturating_add(1);
        }
    }
    Ok(still)
}

// The lines of a text, without their ends.
fn lines_of<'a>(alloc: Global, text: &'a [u8]) -> Result<Vec<&'a [u8]>, Fault> {
    let mut lines = Vec::new(alloc);
    for line in text.split(|byte: &u8| -> bool { *byte == b'\n' }) {
        if !line.is_empty() {
            lines.push(line)?;
        }
    }
    Ok(lines)
}

// Adds a line, where there is one.
fn put_line(text: &mut Octets, line: Option<&&[u8]>) -> Result<(), Fault> {
    if let Some(line) = line {
        text.extend_from_slice(line)?;
        text.push(b'\n')?;
    }
    Ok(())
}

// The lines with the last of two left out, or with these two exchanged.
fn with_lines_changed(
    alloc: Global,
    lines: &[&[u8]],
    first: usize,
    second: usize,
    exchanged: bool,
) -> Result<Octets, Fault> {
    let mut text = Octets::new(alloc);
    for at in 0..lines.len() {
        if at != first && at != second {
            put_line(&mut text, lines.get(at))?;
        } else if at == second {
            put_line(&mut text, lines.get(first))?;
        } else if exchanged {
            put_line(&mut text, lines.get(second))?;
        }
    }
    Ok(text)
}

fn lines_changed(alloc: Global, script: &[u8], report: &[u8]) -> Result<u32, Fault> {
    let lines = lines_of(alloc, report)?;
    let mut still = 0u32;
    for second in 1..lines.len() {
        for exchanged in [false, true] {
            let changed = with_lines_changed(alloc, &lines, second - 1, second, exchanged)?;
            if is_report(alloc, script, changed.as_slice())? {
                still = still.saturating_add(1);
            }
        }
    }
    Ok(still)
}

fn refused(alloc: Global, words: &mut Words, out: &mut String) -> Result<(), Fault> {
    let (place, lane, line, part) = (words.u16()?, words.u8()?, words.u32()?, words.u32()?);
    let (event, args) = (0, Args::new(alloc));
    let what = What::Deed(Deed::Raise { event, args }, Reply::Spent);
    let entry = Entry {
        place,
        lane,
        line,
        part,
        what,
    };
    let mut text = Octets::new(alloc);
    entry_text(&entry, &mut text)?;
    tell_text(out, text.as_slice())
}
