//! How much was done in a run.

ghost use Rattle.std.specs.Prelude.{◌≡◌, ◌+◌, ◌++◌, ◌∷◌, [], OnOk, IfOk, decimal};
ghost use Rattle.spin_text.specs.Words.{line_of, ended, text_of};
ghost use Rattle.spin_run.specs.Summaries.{counts_in, summary_lines};
ghost use Rattle.spin_run.specs.Inner.Marks.{counts_by};
ghost use Rattle.spin_run.specs.Inner.Tallies.{plus};

use crate::trail::{EntryIndex, Kind};
use spin_text::{end_line, put_number};
use spin_values::{NoMemory, Octets};
use std::alloc::Global;
use std::marker::Model;

// How many entries there were, commands that were accepted and refused, and steps of entries that ran a handler or
// sent. Contracts see these counts.
#[derive(Drop)]
pub(crate) struct Tally {
    entries: u64,
    accepted: u64,
    refused: u64,
    runs: u64,
    sends: u64,
}

impl Model for Tally {
    ghost use Rattle.spin_run.specs.Summaries.{Counts};

    ghost Value = { Counts };

    ghost view = { λ t. record {
      entries = t.entries;
      accepted = t.accepted;
      refused = t.refused;
      runs = t.runs;
      sends = t.sends;
    } };
}

// Adds to a count. A count that doesn't fit is want of memory: no run comes so far.
fn add(count: &mut u64, more: u64) -> Result<(), NoMemory>
    ensures { OnOk result (count.new ≡ count.old + more) }
{
    *count = count.checked_add(more).ok_or(NoMemory)?;
    Ok(())
}

// Appends a line of a word and a number.
fn put_count(out: &mut Octets, word: &[u8], count: u64) -> Result<(), NoMemory>
    ensures { OnOk result (out.new ≡ out.old ++ ended (line_of (word.now ∷ decimal count ∷ []))) }
{
    out.extend_from_slice(word)?;
    put_number(out, count)?;
    end_line(out)
}

impl Tally {
    // Nothing is counted yet.
    pub(crate) fn new() -> Tally
        ensures { result ≡ counts_in [] }
    {
        Tally {
            entries: 0,
            accepted: 0,
            refused: 0,
            runs: 0,
            sends: 0,
        }
    }

    // Counts the entry of a mark. After want of memory some of it may be counted.
    fn add_mark(&mut self, mark: &EntryIndex) -> Result<(), NoMemory>
        ensures { OnOk result (self.new ≡ plus self.old (counts_by (mark.now ∷ []))) }
    {
        add(&mut self.entries, 1)?;
        match mark.kind {
            Kind::Accepted => add(&mut self.accepted, 1)?,
            Kind::Refused => add(&mut self.refused, 1)?,
            Kind::Deed => {}
        }
        add(&mut self.runs, u64::from(mark.runs))?;
        add(&mut self.sends, mark.sends.len() as u64)
    }

    // Counts the entries of marks, in time linear in them. After want of memory some of them may be counted.
    pub(crate) fn add_marks(&mut self, marks: &[EntryIndex]) -> Result<(), NoMemory>
        ensures { OnOk result (self.new ≡ plus self.old (counts_by marks.now)) }
    {
        for mark in marks {
            self.add_mark(mark)?;
        }
        Ok(())
    }

    // The six lines of a summary, for a run whose script was made from that number.
    pub(crate) fn summary(&self, alloc: Global, number: u64) -> Result<Octets, NoMemory>
        ensures { IfOk result (λ text. text ≡ text_of (summary_lines number self.now)) }
    {
        let mut text = Octets::new(alloc);
        put_count(&mut text, b"gen", number)?;
        put_count(&mut text, b"entries", self.entries)?;
        put_count(&mut text, b"accepted", self.accepted)?;
        put_count(&mut text, b"refused", self.refused)?;
        put_count(&mut text, b"runs", self.runs)?;
        put_count(&mut text, b"sends", self.sends)?;
        Ok(text)
    }
}
