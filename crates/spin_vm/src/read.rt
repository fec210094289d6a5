//! Reading whole traces.

ghost use Rattle.std.specs.Prelude.{◌≡◌, ◌+◌, ◌≤◌, ◌<◌, ◌^◌, [], length, Ok, Err, IfOk, MatchResult};
ghost use Rattle.spin_grammar.specs.declared.limits.TheConstants.{MAX_TEXT};
ghost use Rattle.spin_vm.specs.Traces.{after_said, after_first, after_line, AreGood};
ghost use Rattle.spin_vm.specs.Reading.{GivesTrace};
ghost use Rattle.spin_vm.specs.Inner.States.{GivesState};

use crate::cause::TraceCause;
use crate::draft::Draft;
use crate::line::{Statement, Trace};
use crate::words::{is_first, says};
use spin_grammar::{Lines, MAX_TEXT, Words};
use spin_script::all_allowed;
use spin_values::NoMemory;
use std::alloc::Global;
use thiserror::Error;

/// Why there is no trace.
#[derive(Clone, Copy, PartialEq, Eq, Debug, Error)]
pub enum TraceFault {
    /// The text isn't in the language.
    #[error("line {line} is bad: {cause}")]
    Bad {
        /// The first bad line, counted from 1; 0 where the text is too large.
        line: u32,
        /// Why it is bad.
        cause: TraceCause,
    },
    /// There was no memory.
    #[error("out of memory")]
    NoMemory,
}

// Why a line isn't added.
enum LineFault {
    Bad(TraceCause),
    NoMemory,
}

impl From<NoMemory> for LineFault {
    ghost use Rattle.spin_vm.specs.declared.read.LineFault.TheVariants as fault;

    ghost from_gives = { λ _ e. e ≡ fault.NoMemory };

    fn from(_: NoMemory) -> LineFault {
        LineFault::NoMemory
    }
}

// Takes the first line that isn't skipped.
fn begin(draft: &mut Draft, is_first: bool) -> Result<(), LineFault>
    ensures { GivesState (after_first draft.old is_first) result draft.new }
{
    if !is_first {
        return Err(LineFault::Bad(TraceCause::Version));
    }
    draft.begun = true;
    Ok(())
}

// Adds what a line says, where it has one of the forms and can stand here.
fn add_said(
    alloc: Global,
    draft: &mut Draft,
    number: u32,
    said: Option<Statement>,
) -> Result<(), LineFault>
    ensures { GivesState (after_said draft.old number said) result draft.new }
{
    let Some(said) = said else {
        return Err(LineFault::Bad(TraceCause::Form));
    };
    if let Some(cause) = draft.cause(&said) {
        return Err(LineFault::Bad(cause));
    }
    Ok(draft.add(alloc, number, said)?)
}

// Reads a line, and adds it to the trace so far.
fn take_line(alloc: Global, draft: &mut Draft, number: u32, line: &[u8]) -> Result<(), LineFault>
    ensures { GivesState (after_line draft.old number line.now) result draft.new }
{
    if !all_allowed(line) {
        return Err(LineFault::Bad(TraceCause::NotAscii));
    }
    let mut words = Words::new(line);
    let mut again = Words::new(line);
    let Some(first) = words.next() else {
        return Ok(());
    };
    if !first.is_empty() && first[0] == b'#' {
        return Ok(());
    }
    if draft.begun {
        add_said(alloc, draft, number, says(&mut again))
    } else {
        begin(draft, is_first(&mut again))
    }
}

/// Reads a trace, or finds its first bad line and why it is bad.
///
/// [`TraceFault::Bad`] comes exactly where the text isn't in the language: its line is the first that can't stand
/// behind the lines before it, counted from 1, and its cause the first [`TraceCause`] that applies there; or 0 and
/// [`TraceCause::TooLarge`] where the text is over [`MAX_TEXT`]. Each line of a trace can stand behind those before
/// it. It takes memory linear in the text, and time linear in it times logarithmic in the regions of a space.
pub fn read_trace(alloc: Global, text: &[u8]) -> Result<Trace, TraceFault>
    ensures trace { GivesTrace text.now result }
    ensures good { IfOk result (AreGood []) }
{
    if text.len() > MAX_TEXT {
        return Err(TraceFault::Bad {
            line: 0,
            cause: TraceCause::TooLarge,
        });
    }
    let mut draft = Draft::new(alloc);
    let mut lines = Lines::new(text);
    let mut number: u32 = 0;
    while let Some(line) = lines.next() {
        number += 1;
        match take_line(alloc, &mut draft, number, line) {
            Ok(()) => {}
            Err(LineFault::Bad(cause)) => {
                return Err(TraceFault::Bad {
                    line: number,
                    cause,
                });
            }
            Err(LineFault::NoMemory) => return Err(TraceFault::NoMemory),
        }
    }
    if !draft.begun {
        return Err(TraceFault::Bad {
            line: 1,
            cause: TraceCause::Version,
        });
    }
    Ok(draft.into_lines())
}
