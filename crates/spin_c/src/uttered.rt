//! What an open raise is told as, in numbers.

ghost use Rattle.std.specs.Prelude.{◌≡◌};
ghost use Rattle.spin_c.specs.Uttered.{end_told, fault_told, firing_told, item_bytes, item_told, mode_number};
ghost use Rattle.spin_c.specs.Uttered.{refusal_told, turn_told};

use crate::ask::Told;
use crate::moves::Upshot;
use crate::step::SpinStep;
use crate::trail::{answer_told, at_binding, blank, fault_number};
use spin_host::{AnswerFault, Firing, RaiseFault, Turn};
use spin_objects::Item;
use spin_raise::Answer;
use spin_word::Mode;

// The number of a mode.
fn mode_number(mode: Mode) -> u32
    ensures { result ≡ mode_number mode }
{
    match mode {
        Mode::Plain => 0,
        Mode::Filter => 1,
        Mode::Async => 2,
    }
}

// What a firing is told as.
fn firing_told(firing: Firing) -> SpinStep
    ensures { result ≡ firing_told firing }
{
    SpinStep {
        answer: mode_number(firing.mode),
        value: u64::from(firing.handler),
        ..at_binding(1, firing.event, firing.number)
    }
}

// What the end of a raise is told as.
fn end_told(kind: u32, answer: Answer, number: u32) -> SpinStep
    ensures { result ≡ end_told kind answer number }
{
    let Told {
        kind: answer,
        value,
        ..
    } = answer_told(answer, 0);
    SpinStep {
        number,
        answer,
        value,
        ..blank(kind)
    }
}

// What comes next is told as, where so many raises are around the innermost one.
pub(crate) fn turn_told(turn: Turn, around: u32) -> SpinStep
    ensures { result ≡ turn_told around turn }
{
    match turn {
        Turn::Due(firing) => firing_told(firing),
        Turn::Up(event) => SpinStep {
            event: u32::from(event),
            ..blank(4)
        },
        Turn::Back(answer) => end_told(5, answer, 0),
        Turn::Ended(answer) => end_told(8, answer, around),
        Turn::Spent => blank(9),
    }
}

// What is told of a thing that an answer gave in a raise of an event.
pub(crate) fn item_told(event: u8, item: &Item) -> SpinStep
    ensures { result ≡ item_told event item.now }
{
    match item {
        Item::Ran(number) => at_binding(1, event, *number),
        Item::Result(value) => SpinStep {
            value: *value,
            ..blank(2)
        },
        Item::Send { endpoint, bytes } => SpinStep {
            number: u32::from(*endpoint),
            length: bytes.len() as u64,
            ..blank(3)
        },
        Item::Up { event, .. } => SpinStep {
            event: u32::from(*event),
            ..blank(4)
        },
        Item::Dropped(fault) => SpinStep {
            number: fault_number(*fault),
            ..blank(6)
        },
        Item::Job { number, .. } => at_binding(7, event, *number),
    }
}

// The bytes that such a thing sends.
pub(crate) fn item_bytes(item: &Item) -> &[u8]
    ensures { result.now ≡ item_bytes item.now }
{
    match item {
        Item::Send { bytes, .. } => bytes.as_slice(),
        _ => &[],
    }
}

// Why a raise isn't opened on the version of this place.
pub(crate) fn refusal_told(place: u16, fault: RaiseFault) -> Upshot
    ensures { result ≡ refusal_told place fault }
{
    match fault {
        RaiseFault::NotDue => Upshot::NotDue,
        RaiseFault::UnknownEvent => Upshot::NotRaised { place, kind: 5 },
        RaiseFault::WrongArgs => Upshot::NotRaised { place, kind: 6 },
        RaiseFault::Downward => Upshot::Downward,
        RaiseFault::NoMemory => Upshot::NoMemory,
    }
}

// Why an answer isn't taken.
pub(crate) fn fault_told(fault: AnswerFault) -> Upshot
    ensures { result ≡ fault_told fault }
{
    match fault {
        AnswerFault::NotDue => Upshot::NotDue,
        AnswerFault::Refused(why) => Upshot::Refused(why.number()),
        AnswerFault::NoMemory => Upshot::NoMemory,
    }
}
