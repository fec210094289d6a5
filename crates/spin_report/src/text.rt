//! Whole lines.

ghost use Rattle.std.specs.Prelude.{◌≡◌, ◌++◌, ◌∷◌, [], take, length, OnOk, OnErr};
ghost use Rattle.spin_text.specs.Words.{spaced, line_of, ended};
ghost use Rattle.spin_report.specs.Lines.{line_word, what_words, entry_line, job_line, job_seen};
ghost use Rattle.spin_report.specs.Histories.{retire_line, segment_line, lost_line, capture_words, end_line};

use crate::entry::Entry;
use crate::reply::{put_reply, put_reply_view};
use crate::verdict::put_verdict;
use crate::view::{EntryView, LentWhat, WhatView};
use spin_proto::{Job, Reply};
use spin_script::op_word;
use spin_text::{put_decimal, put_line, put_number, put_word};
use spin_values::{NoMemory, Octets};
use spin_word::Deed;

/// What became of a capture.
#[derive(Clone, Copy, PartialEq, Eq, Debug)]
pub struct CaptureCounts {
    /// Its whole records.
    pub records: u32,
    /// Those of them that packet lines took.
    pub used: u32,
    /// The bytes behind them, which are no whole record.
    pub cut: u32,
}

// Appends the number of a line, and of its part where it is a line of packets.
#[tactic(auto, using(spin_text::proofs::Kept::kept_same, spin_text::proofs::Kept::kept_more, spin_text::proofs::Kept::kept_on))]
fn put_line_word(out: &mut Octets, line: u32, part: u32) -> Result<(), NoMemory>
    ensures ok { OnOk result (out.new ≡ out.old ++ spaced (line_word line part ∷ [])) }
    ensures err { OnErr result (take (length out.old) out.new ≡ out.old) }
{
    put_number(out, u64::from(line))?;
    if part != 0 {
        out.push(b'.')?;
        put_decimal(out, u64::from(part))?;
    }
    Ok(())
}

#[tactic(auto, using(spin_text::proofs::Kept::kept_same, spin_text::proofs::Kept::kept_more, spin_text::proofs::Kept::kept_on))]
fn put_what(out: &mut Octets, part: u32, what: &WhatView<'_>) -> Result<(), NoMemory>
    ensures ok { OnOk result (out.new ≡ out.old ++ spaced (what_words part what.now)) }
    ensures err { OnErr result (take (length out.old) out.new ≡ out.old) }
{
    match &what.lent {
        LentWhat::Command(command, verdict) => {
            put_word(out, op_word(command.op))?;
            put_verdict(out, verdict)
        }
        LentWhat::Deed(Deed::Later { .. }, reply) => {
            out.extend_from_slice(b" later")?;
            put_reply_view(out, reply)
        }
        LentWhat::Deed(Deed::Raise { .. }, reply) => {
            if part == 0 {
                out.extend_from_slice(b" raise")?;
            } else {
                out.extend_from_slice(b" packet")?;
            }
            put_reply_view(out, reply)
        }
    }
}

#[tactic(auto, using(spin_text::proofs::Kept::kept_same, spin_text::proofs::Kept::kept_more, spin_text::proofs::Kept::kept_on))]
fn put_entry(out: &mut Octets, entry: &EntryView<'_>) -> Result<(), NoMemory>
    ensures ok { OnOk result (out.new ≡ out.old ++ entry_line entry.now) }
    ensures err { OnErr result (take (length out.old) out.new ≡ out.old) }
{
    put_decimal(out, u64::from(entry.place))?;
    put_number(out, u64::from(entry.lane))?;
    put_line_word(out, entry.line, entry.part)?;
    put_what(out, entry.part, &entry.what)
}

// Appends the line of an entry, with its end.
#[tactic(auto, using(spin_text::proofs::Kept::kept_same, spin_text::proofs::Kept::kept_more, spin_text::proofs::Kept::kept_on))]
fn put_entry_line(out: &mut Octets, entry: &EntryView<'_>) -> Result<(), NoMemory>
    ensures ok { OnOk result (out.new ≡ out.old ++ ended (entry_line entry.now)) }
    ensures err { OnErr result (take (length out.old) out.new ≡ out.old) }
{
    put_entry(out, entry)?;
    out.push(b'\n')
}

#[tactic(auto, using(spin_text::proofs::Kept::kept_same, spin_text::proofs::Kept::kept_more, spin_text::proofs::Kept::kept_on))]
fn put_job(out: &mut Octets, job: &Job, reply: &Reply) -> Result<(), NoMemory>
    ensures ok { OnOk result (out.new ≡ out.old ++ job_line (job_seen job.now reply.now)) }
    ensures err { OnErr result (take (length out.old) out.new ≡ out.old) }
{
    out.extend_from_slice(b"job")?;
    put_number(out, u64::from(job.place))?;
    put_number(out, u64::from(job.lane))?;
    put_line_word(out, job.line, job.part)?;
    put_number(out, u64::from(job.index))?;
    put_reply(out, reply)
}

// Appends the line of a job, with its end.
#[tactic(auto, using(spin_text::proofs::Kept::kept_same, spin_text::proofs::Kept::kept_more, spin_text::proofs::Kept::kept_on))]
fn put_job_line(out: &mut Octets, job: &Job, reply: &Reply) -> Result<(), NoMemory>
    ensures ok { OnOk result (out.new ≡ out.old ++ ended (job_line (job_seen job.now reply.now))) }
    ensures err { OnErr result (take (length out.old) out.new ≡ out.old) }
{
    put_job(out, job, reply)?;
    out.push(b'\n')
}

fn put_retire(out: &mut Octets, number: u16, stood: bool) -> Result<(), NoMemory>
    ensures { OnOk result (out.new
        ≡ out.old ++ retire_line (record { endpoint = number; stood = stood })) }
{
    out.extend_from_slice(b"retire")?;
    put_number(out, u64::from(number))?;
    if stood {
        put_word(out, b"ok")
    } else {
        put_word(out, b"unknown")
    }
}

fn put_segment(out: &mut Octets, number: usize, start: u16) -> Result<(), NoMemory>
    ensures { OnOk result (out.new ≡ out.old ++ segment_line number start) }
{
    out.extend_from_slice(b"segment")?;
    put_number(out, number as u64)?;
    put_word(out, b"at")?;
    put_number(out, u64::from(start))
}

fn put_lost(out: &mut Octets, number: u8, count: u64) -> Result<(), NoMemory>
    ensures { OnOk result (out.new ≡ out.old ++ lost_line (number, count)) }
{
    out.extend_from_slice(b"lost")?;
    put_number(out, u64::from(number))?;
    put_number(out, count)
}

fn put_capture(out: &mut Octets, capture: Option<CaptureCounts>) -> Result<(), NoMemory>
    ensures { OnOk result (out.new ≡ out.old ++ spaced (capture_words capture)) }
{
    let Some(counts) = capture else {
        return Ok(());
    };
    put_word(out, b"records")?;
    put_number(out, u64::from(counts.records))?;
    put_word(out, b"used")?;
    put_number(out, u64::from(counts.used))?;
    put_word(out, b"cut")?;
    put_number(out, u64::from(counts.cut))
}

fn put_end(out: &mut Octets, length: u16, capture: Option<CaptureCounts>) -> Result<(), NoMemory>
    ensures { OnOk result (out.new ≡ out.old ++ end_line length capture) }
{
    out.extend_from_slice(b"end")?;
    put_number(out, u64::from(length))?;
    put_capture(out, capture)
}

/// Appends the line of an endpoint that is retired before a segment: its number, and whether one stood under its name
/// then. After want of memory `out` is unchanged.
pub fn retire_text(number: u16, stood: bool, out: &mut Octets) -> Result<(), NoMemory>
    ensures ok { OnOk result (out.new
        ≡ out.old ++ ended (retire_line (record { endpoint = number; stood = stood }))) }
    ensures err { OnErr result (out.new ≡ out.old) }
{
    let mut line = Octets::new(out.allocator());
    put_retire(&mut line, number, stood)?;
    put_line(out, line)
}

/// Appends the line that begins the entries of a segment: the segment's number, counted from 0, and how many commands
/// were accepted before it. After want of memory `out` is unchanged.
pub fn segment_text(number: usize, start: u16, out: &mut Octets) -> Result<(), NoMemory>
    ensures ok { OnOk result (out.new ≡ out.old ++ ended (segment_line number start)) }
    ensures err { OnErr result (out.new ≡ out.old) }
{
    let mut line = Octets::new(out.allocator());
    put_segment(&mut line, number, start)?;
    put_line(out, line)
}

/// Appends the line of an endpoint to which sends of a segment were lost: its number, and how many. After want of
/// memory `out` is unchanged.
pub fn lost_text(number: u8, count: u64, out: &mut Octets) -> Result<(), NoMemory>
    ensures ok { OnOk result (out.new ≡ out.old ++ ended (lost_line (number, count))) }
    ensures err { OnErr result (out.new ≡ out.old) }
{
    let mut line = Octets::new(out.allocator());
    put_lost(&mut line, number, count)?;
    put_line(out, line)
}

/// Appends the last line of a report: how many commands were accepted in all, and what became of the capture, where
/// there is one. After want of memory `out` is unchanged.
pub fn end_text(
    length: u16,
    capture: Option<CaptureCounts>,
    out: &mut Octets,
) -> Result<(), NoMemory>
    ensures ok { OnOk result (out.new ≡ out.old ++ ended (end_line length capture)) }
    ensures err { OnErr result (out.new ≡ out.old) }
{
    let mut line = Octets::new(out.allocator());
    put_end(&mut line, length, capture)?;
    put_line(out, line)
}

/// Appends the line of an entry: its place, its lane, its line, what was asked and what that came to. The line of a
/// part of a packet line is followed by a dot and the part. After want of memory `out` is unchanged.
/// It takes time linear in the line's length and in the steps of the entry's reply.
pub fn entry_text(entry: &Entry, out: &mut Octets) -> Result<(), NoMemory>
    ensures ok { OnOk result (out.new ≡ out.old ++ ended (entry_line entry.now)) }
    ensures err { OnErr result (out.new ≡ out.old) }
{
    view_text(&entry.view(), out)
}

/// Appends the line of an entry that is lent: the same as [`entry_text`] appends of the entry. After want of memory
/// `out` is unchanged. It takes time linear in the line's length and in the steps of the entry's reply.
pub fn view_text(entry: &EntryView<'_>, out: &mut Octets) -> Result<(), NoMemory>
    ensures ok { OnOk result (out.new ≡ out.old ++ ended (entry_line entry.now)) }
    ensures err { OnErr result (out.new ≡ out.old) }
{
    let before = out.len();
    let put = put_entry_line(out, entry);
    if put.is_err() {
        out.truncate(before);
    }
    put
}

/// Appends the line of a job with its reply: the place, the lane and the line of the entry that left it, which of the
/// entry's jobs it is, and what it came to. After want of memory `out` is unchanged.
/// It takes time linear in the line's length and in the steps of the reply.
pub fn job_text(job: &Job, reply: &Reply, out: &mut Octets) -> Result<(), NoMemory>
    ensures ok { OnOk result (out.new ≡ out.old ++ ended (job_line (job_seen job.now reply.now))) }
    ensures err { OnErr result (out.new ≡ out.old) }
{
    let before = out.len();
    let put = put_job_line(out, job, reply);
    if put.is_err() {
        out.truncate(before);
    }
    put
}
