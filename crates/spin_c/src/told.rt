//! What is told in numbers.

ghost use Rattle.std.specs.Prelude.{◌≡◌};
ghost use Rattle.spin_c.specs.StepLists.{count_of};
ghost use Rattle.spin_c.specs.Tellings.{answer_of, code_of, row_of, step_of};
ghost use Rattle.spin_c.specs.Cases.{unread_fault, unread_number};
ghost use Rattle.spin_c.specs.Verdicts.{fault_of, number_of};

use crate::ask::Outcome;
use crate::reading::Unread;
use crate::row::{SpinRow, row_to};
use crate::step::SpinStep;
use crate::trail::blank;
use crate::verdict::Verdict;

/// Where a text is no script, or a capture is refused, and why; zeros where nothing is told.
#[repr(C)]
#[derive(Clone, Copy, PartialEq, Eq, Debug)]
pub struct SpinFault {
    /// The first bad line, counted from 1; 0 where the text is too large. Of a capture that is refused its record,
    /// counted from 1; 0 where it is the header.
    pub line: u32,
    /// The number of the cause, or of the capture's fault, from 1.
    pub cause: u32,
}

// Where the script is bad, or the capture, and why.
pub(crate) fn unread_fault(why: &Unread) -> SpinFault
    ensures { result ≡ unread_fault why.now }
{
    match why {
        Unread::Bad { line, cause } => SpinFault {
            line: *line,
            cause: u32::from(*cause),
        },
        Unread::BadCapture { number, fault } => SpinFault {
            line: *number,
            cause: u32::from(*fault),
        },
        Unread::NoMemory => SpinFault { line: 0, cause: 0 },
    }
}

// The number by which it is told why something isn't read.
pub(crate) fn unread_number(why: &Unread) -> u32
    ensures { result ≡ unread_number why.now }
{
    match why {
        Unread::NoMemory => 1,
        Unread::Bad { .. } => 2,
        Unread::BadCapture { .. } => 16,
    }
}

// The same of a verdict.
pub(crate) fn fault_of(verdict: &Verdict) -> SpinFault
    ensures { result ≡ fault_of verdict.now }
{
    match verdict {
        Verdict::Unread(why) => unread_fault(why),
        _ => SpinFault { line: 0, cause: 0 },
    }
}

// The number that a verdict is told by.
pub(crate) fn number_of(verdict: &Verdict) -> u32
    ensures { result ≡ number_of verdict.now }
{
    match verdict {
        Verdict::History => 0,
        Verdict::NoHistory => 3,
        Verdict::Unread(why) => unread_number(why),
    }
}

/// What a call of a handle tells besides its number.
#[repr(C)]
#[derive(Clone, Copy, PartialEq, Eq, Debug)]
pub struct SpinAnswer {
    /// The place of the answer; of a text that is no script its first bad line.
    pub place: u32,
    /// The number of the answer's kind, of the refusal, or of the cause.
    pub kind: u32,
    /// The value, where there is one; of a refusal the number of the rule by which it is, where there is one.
    pub value: u64,
    /// The number of steps; of a refusal that of the bindings in the cycle that the command would make.
    pub steps: u64,
}

// The number that a call answers.
pub(crate) fn code_of(outcome: &Outcome) -> u32
    ensures { result ≡ code_of outcome.now }
{
    match outcome {
        Outcome::Done | Outcome::Raised { .. } | Outcome::Accepted(_) => 0,
        Outcome::Step(_) | Outcome::Steps(_) | Outcome::Bytes(_) | Outcome::Row(_) => 0,
        Outcome::Before(_) | Outcome::InCycle(_) | Outcome::Out(_) | Outcome::Rows(_) => 0,
        Outcome::NoMemory => 1,
        Outcome::Bad { .. } => 2,
        Outcome::Closed => 4,
        Outcome::Open => 5,
        Outcome::NoCommand => 6,
        Outcome::Full => 7,
        Outcome::Refused { .. } => 8,
        Outcome::NoReply => 9,
        Outcome::NoStep => 10,
        Outcome::NoArgument => 12,
        Outcome::NoLane => 13,
        Outcome::Taken => 14,
        Outcome::NoBinding => 15,
        Outcome::Shared => 17,
        Outcome::NoJob => 18,
        Outcome::Ended => 19,
        Outcome::NoRow => 20,
    }
}

// What a call tells besides.
pub(crate) fn answer_of(outcome: &Outcome) -> SpinAnswer
    ensures { result ≡ answer_of outcome.now }
{
    let (place, kind, value, steps) = match outcome {
        Outcome::Bad { line, cause } => (*line, u32::from(*cause), 0, 0),
        Outcome::Accepted(place) => (u32::from(*place), 0, 0, 0),
        Outcome::Refused { place, why } => (u32::from(*place), why.kind, why.rule, why.bindings),
        Outcome::Raised { place, told } => {
            (u32::from(*place), told.kind, told.value, told.steps)
        }
        Outcome::Before(number) | Outcome::InCycle(number) => (0, 0, u64::from(*number), 0),
        Outcome::Out(count) => (0, 0, *count, 0),
        Outcome::Rows(count) => (u32::from(*count), 0, u64::from(*count), 0),
        _ => (0, 0, 0, 0),
    };
    SpinAnswer {
        place,
        kind,
        value,
        steps,
    }
}

// The step that a call tells; zeros where there is none.
pub(crate) fn step_of(outcome: &Outcome) -> SpinStep
    ensures { result ≡ step_of outcome.now }
{
    match outcome {
        Outcome::Step(step) => *step,
        _ => blank(0),
    }
}

// How many steps a call tells; 0 where it tells none.
pub(crate) fn count_of(outcome: &Outcome) -> u64
    ensures { result ≡ count_of outcome.now }
{
    match outcome {
        Outcome::Steps(count) => *count,
        _ => 0,
    }
}

// The row that a call tells; zeros where there is none.
pub(crate) fn row_of(outcome: &Outcome) -> SpinRow
    ensures { result ≡ row_of outcome.now }
{
    match outcome {
        Outcome::Row(row) => row_to(row),
        _ => SpinRow {
            a: 0,
            b: 0,
            c: 0,
            d: 0,
        },
    }
}
