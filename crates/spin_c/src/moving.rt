//! Asking something of the handle of an open raise.

ghost use Rattle.std.specs.Prelude.{◌≡◌, ◌≢◌, [], MatchResult, map};
ghost use Rattle.std.specs.List.{All};
ghost use Rattle.spin_c.specs.declared.moves.Move.TheVariants as wish;
ghost use Rattle.spin_c.specs.Beginnings.{Begins};
ghost use Rattle.spin_c.specs.Gifts.{IsGift, gift_of};
ghost use Rattle.spin_c.specs.Given.{IsGiven, value_of};
ghost use Rattle.spin_c.specs.Inner.Refusals.{IsToldFor, IsUnfit, missed_of, told_first};
ghost use Rattle.spin_c.specs.Moves.{Moves};
ghost use Rattle.spin_c.specs.OpenTellings.{AreHandedBy, BeginsWith, HandsMove, MovesWith};
ghost use Rattle.spin_c.specs.OpenTellings.{TellsMove};
ghost use Rattle.spin_c.specs.OpenTellings.{TellsMoveAnswer, TellsMoveStep, answer_of, arg_of, number_of, step_of};

use crate::ask::{Ask, Outcome};
use crate::asking::call_on;
use crate::copying::copy_to;
use crate::gifts::{SpinGift, are_gifts, gifts_of};
use crate::given::{SpinArg, are_given, values_in};
use crate::handle::SpinLane;
use crate::moves::{Begin, Move, MoveCall, Upshot};
use crate::raiser::SpinRaising;
use crate::step::SpinStep;
use crate::told::SpinAnswer;
use crate::trail::blank;
use spin_host::{Gift, Spare};
use spin_values::{Args, NoMemory, Octets};
use std::alloc::Global;
use std::mem;

// Does what is asked on what the handle holds.
#[inline(always)]
pub(crate) fn move_on(alloc: Global, raising: &mut SpinRaising, asked: Move) -> Upshot
    ensures { Moves raising.old.kept asked raising.new.kept result }
{
    let call = MoveCall { alloc, asked };
    let (after, told) = mem::replace(raising, SpinRaising::closed(alloc)).turn(call);
    *raising = after;
    told
}

// The number that a call answers.
pub(crate) fn number_of(told: &Upshot) -> u32
    ensures { result ≡ number_of told.now }
{
    match told {
        Upshot::Done | Upshot::Begun(_) | Upshot::Told(_) | Upshot::Word(_) => 0,
        Upshot::Bytes(_) | Upshot::Gave(_) | Upshot::Lent(_) => 0,
        Upshot::NoMemory => 1,
        Upshot::Closed => 4,
        Upshot::Open => 5,
        Upshot::NoStep => 10,
        Upshot::NoArgument => 12,
        Upshot::Ended => 19,
        Upshot::NotRaised { .. } => 22,
        Upshot::NotDue => 23,
        Upshot::Downward => 24,
        Upshot::Refused(_) => 25,
    }
}

// What it tells besides.
pub(crate) fn answer_of(told: &Upshot) -> SpinAnswer
    ensures { result ≡ answer_of told.now }
{
    let (place, kind, steps) = match told {
        Upshot::Begun(place) => (*place, 0, 0),
        Upshot::NotRaised { place, kind } => (*place, *kind, 0),
        Upshot::Refused(kind) => (0, *kind, 0),
        Upshot::Gave(steps) => (0, 0, *steps),
        _ => (0, 0, 0),
    };
    SpinAnswer {
        place: u32::from(place),
        kind,
        value: 0,
        steps,
    }
}

// Tells what a call comes to.
pub(crate) fn tell(told: &Upshot, answer: &mut SpinAnswer) -> u32
    ensures number { result ≡ number_of told.now }
    ensures answer { answer.new ≡ answer_of told.now }
{
    *answer = answer_of(told);
    number_of(told)
}

// Does what is asked, and tells what it comes to.
pub(crate) fn move_of(
    alloc: Global,
    raising: &mut SpinRaising,
    asked: Move,
    answer: &mut SpinAnswer,
) -> u32
    ensures { TellsMoveAnswer raising.old.kept asked raising.new.kept result answer.new }
{
    let told = move_on(alloc, raising, asked);
    tell(&told, answer)
}

// Does what is asked, and tells the number alone.
pub(crate) fn move_plain(alloc: Global, raising: &mut SpinRaising, asked: Move) -> u32
    ensures { TellsMove raising.old.kept asked raising.new.kept result }
{
    let told = move_on(alloc, raising, asked);
    number_of(&told)
}

// The step that a call tells; zeros where there is none.
fn step_of(told: &Upshot) -> SpinStep
    ensures { result ≡ step_of told.now }
{
    match told {
        Upshot::Told(step) => *step,
        _ => blank(0),
    }
}

// Tells what comes next in what the handle holds.
fn next_on(alloc: Global, raising: &mut SpinRaising) -> Upshot
    ensures { Moves raising.old.kept wish.Next raising.new.kept result }
{
    let (after, told) = mem::replace(raising, SpinRaising::closed(alloc)).next(alloc);
    *raising = after;
    told
}

// Tells what comes next, as a step.
pub(crate) fn next_step(alloc: Global, raising: &mut SpinRaising, step: &mut SpinStep) -> u32
    ensures { TellsMoveStep raising.old.kept wish.Next raising.new.kept result step.new }
{
    let told = next_on(alloc, raising);
    *step = step_of(&told);
    number_of(&told)
}

// Does what is asked, and tells a step.
pub(crate) fn move_step(
    alloc: Global,
    raising: &mut SpinRaising,
    asked: Move,
    step: &mut SpinStep,
) -> u32
    ensures { TellsMoveStep raising.old.kept asked raising.new.kept result step.new }
{
    let told = move_on(alloc, raising, asked);
    *step = step_of(&told);
    number_of(&told)
}

// Takes spare lists back.
fn keep(alloc: Global, raising: &mut SpinRaising, spare: Spare)
    ensures { raising.new.kept ≡ raising.old.kept }
{
    move_on(alloc, raising, Move::Keep(spare));
}

// Takes bytes back, for the room that they have.
fn keep_bytes(alloc: Global, raising: &mut SpinRaising, bytes: Octets)
    ensures { raising.new.kept ≡ raising.old.kept }
{
    if let Upshot::Lent(spare) = move_on(alloc, raising, Move::Lend) {
        let mut spare = spare;
        spare.keep_bytes(bytes);
        keep(alloc, raising, spare);
    }
}

// The argument that a call hands out: a word, or how many bytes there are; zeros where there is none.
fn arg_of(told: &Upshot) -> SpinArg
    ensures { result ≡ arg_of told.now }
{
    let (kind, at, length) = match told {
        Upshot::Word(word) => (0, *word, 0),
        Upshot::Bytes(bytes) => (1, 0, bytes.len() as u64),
        _ => (0, 0, 0),
    };
    SpinArg { kind, at, length }
}

// Copies the bytes that are handed out into a buffer, and takes them back.
fn hand_to(alloc: Global, raising: &mut SpinRaising, told: Upshot, buffer: &mut [u8]) -> u32
    ensures kept { raising.new.kept ≡ raising.old.kept }
    ensures handed { AreHandedBy told buffer.old result buffer.new }
{
    match told {
        Upshot::Bytes(bytes) => {
            let number = copy_to(bytes.as_slice(), buffer);
            keep_bytes(alloc, raising, bytes);
            number
        }
        other => number_of(&other),
    }
}

// Hands out what a call comes to: a word, or bytes, which are copied into a buffer, and how many they are.
pub(crate) fn hand_out(
    alloc: Global,
    raising: &mut SpinRaising,
    asked: Move,
    buffer: &mut [u8],
    arg: &mut SpinArg,
) -> u32
    ensures { HandsMove raising.old.kept asked buffer.old raising.new.kept result buffer.new arg.new }
{
    let told = move_on(alloc, raising, asked);
    *arg = arg_of(&told);
    hand_to(alloc, raising, told, buffer)
}

// The arguments that are given, in room that was lent; or why there are none.
fn args_in(
    alloc: Global,
    spare: &mut Spare,
    bytes: &[u8],
    given: &[SpinArg],
) -> Result<Args, Upshot>
    ensures { let fits = All (IsGiven bytes.now) given.now in
        MatchResult result (λ args. fits × (args ≡ map (value_of bytes.now) given.now))
        (IsUnfit fits (given.now ≢ [])) }
{
    if !are_given(bytes, given) {
        return Err(Upshot::NoArgument);
    }
    if given.is_empty() {
        return Ok(spare.take_args(alloc));
    }
    match values_in(alloc, spare, bytes, given) {
        Ok(args) => Ok(args),
        Err(NoMemory) => Err(Upshot::NoMemory),
    }
}

// What is given by gifts, in room that was lent; or why it isn't.
fn gift_in(
    alloc: Global,
    spare: &mut Spare,
    bytes: &[u8],
    gifts: &[SpinGift],
) -> Result<Gift, Upshot>
    ensures { let fits = All (IsGift bytes.now) gifts.now in
        MatchResult result (λ gift. fits × (gift ≡ map (gift_of bytes.now) gifts.now))
        (IsUnfit fits (gifts.now ≢ [])) }
{
    if !are_gifts(bytes, gifts) {
        return Err(Upshot::NoArgument);
    }
    if gifts.is_empty() {
        return Ok(spare.take_gift(alloc));
    }
    match gifts_of(alloc, spare, bytes, gifts) {
        Ok(gift) => Ok(gift),
        Err(NoMemory) => Err(Upshot::NoMemory),
    }
}

// Opens a raise on a lane.
fn begin_on(alloc: Global, lane: &mut SpinLane, raising: &mut SpinRaising, begin: Begin) -> Upshot
    ensures { Begins lane.old.kept raising.old.kept begin.event begin.args lane.new.kept raising.new.kept result }
{
    let first = mem::replace(lane, SpinLane::closed(alloc));
    let second = mem::replace(raising, SpinRaising::closed(alloc));
    let (after, open, told) = first.begin(second, begin);
    *lane = after;
    *raising = open;
    told
}

// What is told where there is no memory, by what a lane's handle tells of an old number, for which it asks for none.
fn missed_of(told: &Outcome) -> Upshot
    ensures { result ≡ missed_of told.now }
{
    match told {
        Outcome::Closed => Upshot::Closed,
        Outcome::Ended => Upshot::Ended,
        _ => Upshot::NoMemory,
    }
}

// Why a raise isn't opened for whose arguments there are no values: before want of memory comes what needs none.
fn unbegun(alloc: Global, lane: &mut SpinLane, why: Upshot) -> Upshot
    ensures same { lane.new.kept ≡ lane.old.kept }
    ensures told { result ≡ told_first lane.old.kept why }
{
    match why {
        Upshot::NoMemory => missed_of(&call_on(alloc, lane, Ask::Before(0))),
        other => other,
    }
}

// Opens a raise on a lane with these arguments.
pub(crate) fn begin_with(
    alloc: Global,
    lane: &mut SpinLane,
    raising: &mut SpinRaising,
    event: u8,
    bytes: &[u8],
    given: &[SpinArg],
) -> Upshot
    ensures { BeginsWith lane.old.kept raising.old.kept event bytes.now given.now
        lane.new.kept raising.new.kept result }
{
    let mut spare = match move_on(alloc, raising, Move::LendIdle) {
        Upshot::Lent(spare) => spare,
        other => return other,
    };
    match args_in(alloc, &mut spare, bytes, given) {
        Ok(args) => {
            let begin = Begin {
                alloc,
                event,
                args,
                spare,
            };
            begin_on(alloc, lane, raising, begin)
        }
        Err(why) => {
            keep(alloc, raising, spare);
            unbegun(alloc, lane, why)
        }
    }
}

// Gives spare lists back, and tells why nothing is asked: that no firing is due comes before want of memory.
fn unasked(alloc: Global, raising: &mut SpinRaising, spare: Spare, why: Upshot) -> Upshot
    ensures { IsToldFor raising.old.kept why raising.new.kept result }
{
    match why {
        Upshot::NoMemory => move_on(alloc, raising, Move::Miss(spare)),
        other => {
            keep(alloc, raising, spare);
            other
        }
    }
}

// Opens a raise from within with these arguments.
pub(crate) fn within_with(
    alloc: Global,
    raising: &mut SpinRaising,
    event: u8,
    bytes: &[u8],
    given: &[SpinArg],
) -> Upshot
    ensures { MovesWith (All (IsGiven bytes.now) given.now) (given.now ≢ []) raising.old.kept
        (wish.Within event (map (value_of bytes.now) given.now) tt) raising.new.kept result }
{
    let mut spare = match move_on(alloc, raising, Move::Lend) {
        Upshot::Lent(spare) => spare,
        other => return other,
    };
    match args_in(alloc, &mut spare, bytes, given) {
        Ok(args) => move_on(alloc, raising, Move::Within { event, args, spare }),
        Err(why) => unasked(alloc, raising, spare, why),
    }
}

// Takes what these gifts give in the place of what is due.
pub(crate) fn gave_with(
    alloc: Global,
    raising: &mut SpinRaising,
    bytes: &[u8],
    gifts: &[SpinGift],
) -> Upshot
    ensures { MovesWith (All (IsGift bytes.now) gifts.now) (gifts.now ≢ []) raising.old.kept
        (wish.Gave (map (gift_of bytes.now) gifts.now) tt) raising.new.kept result }
{
    let mut spare = match move_on(alloc, raising, Move::Lend) {
        Upshot::Lent(spare) => spare,
        other => return other,
    };
    match gift_in(alloc, &mut spare, bytes, gifts) {
        Ok(gift) => move_on(alloc, raising, Move::Gave { gift, spare }),
        Err(why) => unasked(alloc, raising, spare, why),
    }
}
