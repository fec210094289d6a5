//! Asking something of a handle.

ghost use Rattle.std.specs.Prelude.{◌≡◌, ◌<◌, ◌≤◌, ◌⊎◌, map};
ghost use Rattle.spin_word.specs.declared.command.TheConstants.{MAX_LANES};
ghost use Rattle.spin_values.specs.declared.values.Value.TheVariants as value;
ghost use Rattle.spin_c.specs.declared.ask.Ask.TheVariants as asked;
ghost use Rattle.spin_c.specs.StepLists.{FillsSteps, ReadsSteps};
ghost use Rattle.spin_c.specs.Turns.{Turns};
ghost use Rattle.spin_c.specs.Verdicts.{no_natives};
ghost use Rattle.spin_c.specs.Tellings.{HandsBytes, TellsOf, TellsRow, TellsShare, TellsStep, answer_of, code_of};

use crate::ask::{Ask, Call, Outcome, Pick};
use crate::copying::hand_to;
use crate::handle::SpinLane;
use crate::row::SpinRow;
use crate::step::SpinStep;
use crate::told::{SpinAnswer, answer_of, code_of, count_of, row_of, step_of};
use spin_values::{NoMemory, Octets};
use spin_word::MAX_LANES;
use std::alloc::Global;
use std::mem;

// Does what is asked on what the handle holds.
pub(crate) fn call_on(alloc: Global, lane: &mut SpinLane, ask: Ask) -> Outcome
    ensures { Turns no_natives lane.old.kept ask lane.new.kept result }
{
    let call = Call { alloc, ask };
    let (after, outcome) = mem::replace(lane, SpinLane::closed(alloc)).turn(call);
    *lane = after;
    outcome
}

// Tells what a call comes to.
pub(crate) fn tell(outcome: &Outcome, answer: &mut SpinAnswer) -> u32
    ensures number { result ≡ code_of outcome.now }
    ensures answer { answer.new ≡ answer_of outcome.now }
{
    *answer = answer_of(outcome);
    code_of(outcome)
}

// Does what is asked, and tells what it comes to.
pub(crate) fn ask_of(alloc: Global, lane: &mut SpinLane, ask: Ask, answer: &mut SpinAnswer) -> u32
    ensures { TellsOf lane.old.kept ask lane.new.kept result answer.new }
{
    let outcome = call_on(alloc, lane, ask);
    tell(&outcome, answer)
}

// Raises an event with words on what the handle holds.
fn words_on(alloc: Global, lane: &mut SpinLane, event: u8, words: &[u64]) -> Outcome
    ensures { Turns no_natives lane.old.kept (asked.Raise event (map value.Word words.now)) lane.new.kept result }
{
    let (after, outcome) = mem::replace(lane, SpinLane::closed(alloc)).raise_words(
        alloc, event, words,
    );
    *lane = after;
    outcome
}

// Raises an event with words, and tells what it comes to.
pub(crate) fn ask_words(
    alloc: Global,
    lane: &mut SpinLane,
    event: u8,
    words: &[u64],
    answer: &mut SpinAnswer,
) -> u32
    ensures { TellsOf lane.old.kept (asked.Raise event (map value.Word words.now)) lane.new.kept result answer.new }
{
    let outcome = words_on(alloc, lane, event, words);
    tell(&outcome, answer)
}

// Asks for a hub that there can't be, whatever the text is, which so isn't copied.
fn open_none(
    alloc: Global,
    lane: &mut SpinLane,
    _text: &[u8],
    lanes: u8,
    answer: &mut SpinAnswer,
) -> u32
    requires { (lanes ≡ 0) ⊎ (MAX_LANES < lanes) }
    ensures { TellsOf lane.old.kept (asked.Open _text.now lanes) lane.new.kept result answer.new }
{
    let text = Octets::new(alloc);
    ask_of(alloc, lane, Ask::Open { text, lanes }, answer)
}

// Asks for a hub over a copy of the text.
fn open_copied(
    alloc: Global,
    lane: &mut SpinLane,
    text: &[u8],
    lanes: u8,
    answer: &mut SpinAnswer,
) -> u32
    requires some { 0 < lanes }
    requires few { lanes ≤ MAX_LANES }
    ensures { TellsOf lane.old.kept (asked.Open text.now lanes) lane.new.kept result answer.new }
{
    match Octets::from_bytes(alloc, text) {
        Ok(text) => ask_of(alloc, lane, Ask::Open { text, lanes }, answer),
        Err(NoMemory) => tell(&Outcome::NoMemory, answer),
    }
}

// Opens a closed handle over a hub of so many lanes, and tells what it comes to.
pub(crate) fn open_of(
    alloc: Global,
    lane: &mut SpinLane,
    text: &[u8],
    lanes: u8,
    answer: &mut SpinAnswer,
) -> u32
    ensures { TellsOf lane.old.kept (asked.Open text.now lanes) lane.new.kept result answer.new }
{
    if lanes == 0 || lanes > MAX_LANES {
        return open_none(alloc, lane, text, lanes, answer);
    }
    open_copied(alloc, lane, text, lanes, answer)
}

// Hands the seat of another lane out to another handle, and tells what it comes to.
pub(crate) fn share_of(alloc: Global, lane: &mut SpinLane, number: u8, seat: &mut SpinLane) -> u32
    ensures { TellsShare lane.old.kept seat.old.kept number lane.new.kept seat.new.kept result }
{
    let first = mem::replace(lane, SpinLane::closed(alloc));
    let second = mem::replace(seat, SpinLane::closed(alloc));
    let (after, share, outcome) = first.hand_out(second, Pick { alloc, number });
    *lane = after;
    *seat = share;
    code_of(&outcome)
}

// Asks for a step, and tells it.
pub(crate) fn ask_step(alloc: Global, lane: &mut SpinLane, ask: Ask, step: &mut SpinStep) -> u32
    ensures { TellsStep lane.old.kept ask lane.new.kept result step.new }
{
    let outcome = call_on(alloc, lane, ask);
    *step = step_of(&outcome);
    code_of(&outcome)
}

// Tells steps of what the handle holds, in a list.
fn steps_on(alloc: Global, lane: &mut SpinLane, from: u64, steps: &mut [SpinStep]) -> Outcome
    ensures { ReadsSteps lane.old.kept from steps.old lane.new.kept steps.new result }
{
    let (after, outcome) = mem::replace(lane, SpinLane::closed(alloc)).steps(alloc, from, steps);
    *lane = after;
    outcome
}

// Tells steps in a list, and how many.
pub(crate) fn ask_steps(
    alloc: Global,
    lane: &mut SpinLane,
    from: u64,
    steps: &mut [SpinStep],
    told: &mut u64,
) -> u32
    ensures { FillsSteps lane.old.kept from steps.old lane.new.kept result steps.new told.new }
{
    let outcome = steps_on(alloc, lane, from, steps);
    *told = count_of(&outcome);
    code_of(&outcome)
}

// Asks for the bytes of a step, and copies them into a buffer.
pub(crate) fn ask_bytes(
    alloc: Global,
    lane: &mut SpinLane,
    ask: Ask,
    buffer: &mut [u8],
    wanted: &mut u64,
) -> u32
    ensures { HandsBytes lane.old.kept ask buffer.old lane.new.kept result buffer.new wanted.new }
{
    let outcome = call_on(alloc, lane, ask);
    hand_to(&outcome, buffer, wanted)
}

// Tells the row at an index of the hub that was ended.
pub(crate) fn ask_row(alloc: Global, lane: &mut SpinLane, index: u64, row: &mut SpinRow) -> u32
    ensures { TellsRow lane.old.kept index lane.new.kept result row.new }
{
    let outcome = call_on(alloc, lane, Ask::RowAt(index));
    *row = row_of(&outcome);
    code_of(&outcome)
}
