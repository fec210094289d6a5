//! What a reply is told as, and its steps one by one.

ghost use Rattle.std.specs.Prelude.{◌≡◌, IfOk, MatchResult, Ok, Err, length};
ghost use Rattle.spin_c.specs.Trails.{answer_told, no_answer, told_of, fault_number, blank, back_told, step_told};
ghost use Rattle.std.specs.Option.{option_copied};
ghost use Rattle.spin_c.specs.Trails.{bytes_of, step_of, IsTold, IsHanded};
ghost use Rattle.spin_c.specs.StepLists.{AreTold, told_in};
ghost use Rattle.spin_c.specs.Tellings.{laid_over};

use crate::ask::{Outcome, Told};
use crate::step::SpinStep;
use spin_headers::HeaderFault;
use spin_proto::{Reply, Step};
use spin_raise::Answer;
use spin_values::{NoMemory, Octets};
use std::alloc::Global;

// What an answer is told as: the number of its kind, and its value.
pub(crate) fn answer_told(answer: Answer, steps: u64) -> Told
    ensures { result ≡ answer_told answer steps }
{
    let (kind, value) = match answer {
        Answer::NoHandler => (0, 0),
        Answer::Done => (1, 0),
        Answer::Value(value) => (2, value),
        Answer::Default(Some(value)) => (3, value),
        Answer::Default(None) => (4, 0),
    };
    Told { kind, value, steps }
}

// What a raise that has no answer is told as.
fn no_answer(kind: u32) -> Told
    ensures { result ≡ no_answer kind }
{
    let (value, steps) = (0, 0);
    Told { kind, value, steps }
}

// What a reply is told as.
pub(crate) fn reply_told(reply: &Reply) -> Told
    ensures { result ≡ told_of reply.now }
{
    match reply {
        Reply::Ran { answer, trace, .. } => answer_told(*answer, trace.len() as u64),
        Reply::UnknownEvent => no_answer(5),
        Reply::WrongArgs => no_answer(6),
        Reply::Spent => no_answer(7),
        Reply::Queued(_) => no_answer(8),
    }
}

// The number of a fault of headers.
pub(crate) fn fault_number(fault: HeaderFault) -> u32
    ensures { result ≡ fault_number fault }
{
    match fault {
        HeaderFault::Short => 1,
        HeaderFault::Version => 2,
        HeaderFault::HeaderLength => 3,
        HeaderFault::TotalLength => 4,
        HeaderFault::Checksum => 5,
        HeaderFault::Fragment => 6,
        HeaderFault::UdpLength => 7,
    }
}

// A step of this kind, with zeros.
pub(crate) fn blank(kind: u32) -> SpinStep
    ensures { result ≡ blank kind }
{
    SpinStep {
        kind,
        event: 0,
        number: 0,
        answer: 0,
        value: 0,
        length: 0,
    }
}

// A step of this kind at a binding of an event.
pub(crate) fn at_binding(kind: u32, event: u8, number: u16) -> SpinStep
    ensures { result ≡ record (blank kind) { event = event; number = number } }
{
    SpinStep {
        event: u32::from(event),
        number: u32::from(number),
        ..blank(kind)
    }
}

// What the end of a raise upwards is told as.
fn back_told(answer: Answer) -> SpinStep
    ensures { result ≡ back_told answer }
{
    let Told { kind, value, .. } = answer_told(answer, 0);
    SpinStep {
        answer: kind,
        value,
        ..blank(5)
    }
}

// What a step is told as.
fn step_told(step: &Step) -> SpinStep
    ensures { result ≡ step_told step.now }
{
    match step {
        Step::Run { event, number } => at_binding(1, *event, *number),
        Step::Result(value) => SpinStep {
            value: *value,
            ..blank(2)
        },
        Step::Send { endpoint, bytes } => SpinStep {
            number: u32::from(*endpoint),
            length: bytes.len() as u64,
            ..blank(3)
        },
        Step::Up(event) => SpinStep {
            event: u32::from(*event),
            ..blank(4)
        },
        Step::Back(answer) => back_told(*answer),
        Step::Dropped(fault) => SpinStep {
            number: fault_number(*fault),
            ..blank(6)
        },
        Step::Job { event, number } => at_binding(7, *event, *number),
    }
}

// The bytes that a step sends.
fn bytes_of(alloc: Global, step: &Step) -> Result<Octets, NoMemory>
    ensures { IfOk result (λ bytes. bytes ≡ bytes_of step.now) }
{
    match step {
        Step::Send { bytes, .. } => bytes.copy(),
        _ => Ok(Octets::new(alloc)),
    }
}

// The step at an index of those of a reply, if there is one, or why there is none.
fn step_of(steps: Option<&[Step]>, index: u64) -> Result<&Step, Outcome>
    ensures { MatchResult result (λ step. step_of (option_copied steps.entry) index ≡ Ok step.now)
        (λ why. step_of (option_copied steps.entry) index ≡ Err why) }
{
    match steps {
        None => Err(Outcome::NoReply),
        Some(steps) => steps.get(index as usize).ok_or(Outcome::NoStep),
    }
}

// Tells the step at an index of those of a reply, if there is one.
pub(crate) fn tell_step(steps: Option<&[Step]>, index: u64) -> Outcome
    ensures { IsTold (step_of (option_copied steps.entry) index) result }
{
    match step_of(steps, index) {
        Ok(step) => Outcome::Step(step_told(step)),
        Err(why) => why,
    }
}

// Tells steps at the front of a list, as many as both have, and how many.
fn fill(found: &[Step], steps: &mut [SpinStep]) -> usize
    ensures told { steps.new ≡ laid_over (told_in (length steps.old) found.now) steps.old }
    ensures count { result ≡ length (told_in (length steps.old) found.now) }
{
    let count = found.len().min(steps.len());
    for at in 0..count {
        steps[at] = step_told(&found[at]);
    }
    count
}

// Tells the steps of a reply, if there is one, from an index on, as many as a list has room for, at its front.
pub(crate) fn tell_steps(found: Option<&[Step]>, from: u64, steps: &mut [SpinStep]) -> Outcome
    ensures { AreTold (option_copied found.entry) from steps.old steps.new result }
{
    let Some(found) = found else {
        return Outcome::NoReply;
    };
    if from >= found.len() as u64 {
        return Outcome::NoStep;
    }
    Outcome::Steps(fill(&found[from as usize..], steps) as u64)
}

// Hands out the bytes of such a step.
pub(crate) fn hand_bytes(alloc: Global, steps: Option<&[Step]>, index: u64) -> Outcome
    ensures { IsHanded (step_of (option_copied steps.entry) index) result }
{
    let step = match step_of(steps, index) {
        Ok(step) => step,
        Err(why) => return why,
    };
    match bytes_of(alloc, step) {
        Ok(bytes) => Outcome::Bytes(bytes),
        Err(NoMemory) => Outcome::NoMemory,
    }
}
