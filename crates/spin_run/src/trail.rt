//! What is kept of a lane's entries, once their lines are made.

ghost use Rattle.std.specs.Prelude.{◌≡◌, ◌-◌, ◌∷◌, ◌++◌, [], length, count_by, IfOk, OnOk};
ghost use Rattle.std.specs.List.{filter_map};
ghost use Rattle.spin_report.specs.Runs.{sent_by};
ghost use Rattle.spin_run.specs.Summaries.{is_run};
ghost use Rattle.spin_run.specs.Trails.{IsNew, AddsTo, LiesIn, items_in, kind_of, mark_moment};

use spin_proto::Step;
use spin_report::{EntryKey, EntryView, LentWhat, WhatView, view_text};
use spin_table::Verdicted;
use spin_values::{NoMemory, Octets, Sequence};
use std::alloc::Global;
use std::marker::Model;

/// The items of a list from one place up to another, both counted from 0; the second is not one of them.
#[derive(Clone, Copy, PartialEq, Eq, Debug)]
pub struct Span {
    /// The place of the first.
    pub from: usize,
    /// The place behind the last.
    pub to: usize,
}

impl Span {
    /// How many items it has.
    pub fn len(&self) -> usize
        ensures { result ≡ self.now.to - self.now.from }
    {
        self.to.saturating_sub(self.from)
    }

    // Its items, in a list in which it lies.
    pub(crate) fn of<'a, T>(&self, items: &'a [T]) -> &'a [T]
        requires lies { LiesIn self.now (length items.now) }
        ensures { result.now ≡ items_in self.now items.now }
    {
        &items[self.from..self.to]
    }
}

/// Whether an entry tells a command, and what became of it.
#[derive(Clone, Copy, PartialEq, Eq, Debug)]
pub enum Kind {
    /// A command that was accepted.
    Accepted,
    /// A command that was refused.
    Refused,
    /// A deed.
    Deed,
}

/// What is kept of an entry: where it stands, and which part of its lane's trail is its own.
#[derive(Clone, Copy, PartialEq, Eq, Debug)]
pub struct EntryIndex {
    /// The place: how many commands were accepted up to here, this one included.
    pub place: u16,
    /// Whether it tells a command.
    pub kind: Kind,
    /// The lane that asked, counted from 0.
    pub lane: u8,
    /// The line of the script, counted from 1.
    pub line: u32,
    /// Which part of a line of packets it is, counted from 1; 0 for every other line.
    pub part: u32,
    /// How many of its steps run a handler.
    pub runs: u32,
    /// Its line, in the text of its lane.
    pub text: Span,
    /// What it sends, among the sends of its lane.
    pub sends: Span,
}

impl EntryIndex {
    /// Where its entry stands among the entries of the segment.
    pub(crate) fn moment(&self) -> EntryKey
        ensures { result ≡ mark_moment self.now }
    {
        let is_accepted = matches!(self.kind, Kind::Accepted);
        (self.place, !is_accepted, self.lane, self.line, self.part)
    }
}

/// Bytes that a step of an entry sends to the endpoint of a number. Contracts see them as an endpoint does.
#[derive(Debug, Drop)]
pub struct Sending {
    pub(crate) endpoint: u8,
    pub(crate) bytes: Octets,
}

impl Model for Sending {
    ghost use Rattle.spin_endpoint.specs.Sends.{SentSeen};

    ghost Value = { SentSeen };

    ghost view = { λ s. record { endpoint = s.endpoint; bytes = s.bytes } };
}

impl Sending {
    /// The number of the endpoint.
    pub fn endpoint(&self) -> u8
        ensures { result ≡ self.now.endpoint }
    {
        self.endpoint
    }

    /// The bytes.
    pub fn bytes(&self) -> &[u8]
        ensures { result.now ≡ self.now.bytes }
    {
        self.bytes.as_slice()
    }
}

/// Marks of entries, in order.
pub type Marks = Sequence<EntryIndex>;

/// What the entries of a lane leave in a segment: a mark of each, in their order, the lines that tell them, one behind
/// another, and what they send. An entry takes its line and 48 bytes.
#[derive(Drop)]
pub struct Trail {
    /// The lines, each with its end.
    pub text: Octets,
    /// What is sent, in order.
    pub sends: Sequence<Sending>,
    /// A mark of each entry.
    pub marks: Marks,
}

/// The trails of lanes, in the order of their numbers.
pub type Trails = Sequence<Trail>;

// What a step sends, if it sends something.
fn add_step(sends: &mut Sequence<Sending>, step: &Step) -> Result<(), NoMemory>
    ensures { OnOk result (sends.new ≡ sends.old ++ filter_map sent_by (step.now ∷ [])) }
{
    let Step::Send { endpoint, bytes } = step else {
        return Ok(());
    };
    sends.push(Sending {
        endpoint: *endpoint,
        bytes: bytes.copy()?,
    })
}

// Adds what steps send.
fn add_steps(sends: &mut Sequence<Sending>, steps: &[Step]) -> Result<(), NoMemory>
    ensures { OnOk result (sends.new ≡ sends.old ++ filter_map sent_by steps.now) }
{
    for step in steps {
        add_step(sends, step)?;
    }
    Ok(())
}

// How many of the steps run a handler. A count that doesn't fit is want of memory: no reply has so many steps.
fn runs_in(steps: &[Step]) -> Result<u32, NoMemory>
    ensures { IfOk result (λ runs. runs ≡ count_by is_run steps.now) }
{
    let runs = steps
        .iter()
        .filter(|step| matches!(step, Step::Run { .. }))
        .count();
    let Ok(runs) = u32::try_from(runs) else {
        return Err(NoMemory);
    };
    Ok(runs)
}

// Whether it is a command, and what became of it.
fn kind_in(what: &WhatView) -> Kind
    ensures { result ≡ kind_of what.now }
{
    match &what.lent {
        LentWhat::Command(_, Verdicted::Accepted) => Kind::Accepted,
        LentWhat::Command(_, Verdicted::Refused(_)) => Kind::Refused,
        LentWhat::Deed(..) => Kind::Deed,
    }
}

impl Trail {
    /// The trail of no entry, which takes no memory.
    pub fn new(alloc: Global) -> Trail
        ensures { IsNew result }
    {
        Trail {
            text: Octets::new(alloc),
            sends: Sequence::new(alloc),
            marks: Marks::new(alloc),
        }
    }

    // Makes the line of an entry, and keeps its mark and what it sends. After want of memory nothing is known of the
    // trail. It takes time linear in the line and in the bytes that are sent.
    pub(crate) fn add(&mut self, entry: &EntryView) -> Result<(), NoMemory>
        ensures { OnOk result (AddsTo self.old entry.now self.new) }
    {
        let (line, sent) = (self.text.len(), self.sends.len());
        view_text(entry, &mut self.text)?;
        let steps = entry.what.steps();
        add_steps(&mut self.sends, steps)?;
        self.marks.push(EntryIndex {
            place: entry.place,
            kind: kind_in(&entry.what),
            lane: entry.lane,
            line: entry.line,
            part: entry.part,
            runs: runs_in(steps)?,
            text: Span {
                from: line,
                to: self.text.len(),
            },
            sends: Span {
                from: sent,
                to: self.sends.len(),
            },
        })
    }
}
