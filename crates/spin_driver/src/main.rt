//! Rows of text, read from standard input, each of which is a call of a library and is answered by a line on standard
//! output. A line that is empty or begins with `#` is copied, so that a row and its answer have the same number.
//!
//! A row is `SUBJECT WORD..`. One module has the rows of a subject: its `answer` makes the calls and tells what they
//! gave, mostly as `Debug` writes it. What isn't a row is answered `bad row`.
//!
//! - what all rows use: [`fault`], [`words`] that are read, [`told`] answers;
//! - of plain data: [`values`], [`commands`], [`expressions`], [`headers`], and [`plans`] of bindings;
//! - of scripts and reports: [`setups`], [`reports`], [`generated`];
//! - of one raise of one event: [`raises`];
//! - of hubs: [`hubs`];
//! - of the outside: [`captures`], [`reassembly`], [`endpoints`].
#![tactic(auto)]

mod captures;
mod commands;
mod endpoints;
mod expressions;
mod fault;
mod generated;
mod headers;
mod hubs;
mod plans;
mod raises;
mod reassembly;
mod reports;
mod setups;
mod told;
mod values;
mod words;

use crate::fault::Fault;
use crate::words::Words;
use std::alloc::Global;
use std::io;

// What a row is about.
#[derive(Clone, Copy)]
enum Subject {
    Captures,
    Commands,
    Endpoints,
    Expressions,
    Generated,
    Headers,
    Hubs,
    Plans,
    Raises,
    Reassembly,
    Reports,
    Setups,
    Values,
}

// The first words of rows.
const SUBJECTS: [(&str, Subject); 13] = [
    ("captures", Subject::Captures),
    ("commands", Subject::Commands),
    ("endpoints", Subject::Endpoints),
    ("expressions", Subject::Expressions),
    ("generated", Subject::Generated),
    ("headers", Subject::Headers),
    ("hubs", Subject::Hubs),
    ("plans", Subject::Plans),
    ("raises", Subject::Raises),
    ("reassembly", Subject::Reassembly),
    ("reports", Subject::Reports),
    ("setups", Subject::Setups),
    ("values", Subject::Values),
];

// Makes the calls of a row, and tells what they gave.
fn answer(alloc: Global, words: &mut Words, out: &mut String) -> Result<(), Fault> {
    match words.one_of(&SUBJECTS)? {
        Subject::Captures => captures::answer(alloc, words, out),
        Subject::Commands => commands::answer(alloc, words, out),
        Subject::Endpoints => endpoints::answer(alloc, words, out),
        Subject::Expressions => expressions::answer(alloc, words, out),
        Subject::Generated => generated::answer(alloc, words, out),
        Subject::Headers => headers::answer(alloc, words, out),
        Subject::Hubs => hubs::answer(alloc, words, out),
        Subject::Plans => plans::answer(alloc, words, out),
        Subject::Raises => raises::answer(alloc, words, out),
        Subject::Reassembly => reassembly::answer(alloc, words, out),
        Subject::Reports => reports::answer(alloc, words, out),
        Subject::Setups => setups::answer(alloc, words, out),
        Subject::Values => values::answer(alloc, words, out),
    }
}

// The answer to a row, which is told in place of what a fault leaves.
fn answer_row(alloc: Global, row: &str) -> io::Result<String> {
    let mut out = String::new(alloc);
    let mut words = Words::new(row);
    if let Err(fault) = answer(alloc, &mut words, &mut out) {
        out.clear();
        out.push_str(fault.told())?;
    } else if !words.are_all_read() {
        out.clear();
        out.push_str(Fault::BadRow.told())?;
    }
    Ok(out)
}

fn main(rt: HostRuntime) -> io::Result<()> {
    for line in rt.lines(rt.alloc()) {
        let line = line?;
        if line.is_empty() || line.starts_with('#') {
            println!(rt; "{line}")?;
        } else {
            let answer = answer_row(rt.alloc(), line.as_str())?;
            println!(rt; "{answer}")?;
        }
    }
    Ok(())
}
