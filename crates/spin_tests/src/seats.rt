//! Seats that share a hub, in one thread and in two.

ghost use Rattle.std.specs.Prelude.{◌≡◌, ◌<◌, ◌≤◌, IfOk, IsTrue, Ok};
ghost use Rattle.std.specs.Thread.{IsSync};
ghost use Rattle.spin_word.specs.Commands.{is_command};
ghost use Rattle.spin_log.specs.Pens.{IsSamePen};
ghost use Rattle.spin_objects.specs.Units.{IsSincereBy};
ghost use Rattle.spin_table.specs.SetupOf.{data_of};
ghost use Rattle.spin_seat.specs.Seats.{IsSeatOf};

use spin_code::{Act, ActStep, Expr, Merge, Sincere, Steplist};
use spin_log::Rows;
use spin_objects::{Body, Catalogue, Natives};
use spin_policy::Policy;
use spin_proto::{Deed, Reply, ReplyBuffer, Step};
use spin_raise::Answer;
use spin_seat::{Hub, Judged, Seat, SeatFault, Seats, Verdicted};
use spin_table::{Authority, EventDef, EventList, Refusal, Setup};
use spin_values::{Args, EventType, Kind, NoMemory, Param, Params, Value};
use spin_word::{Command, Op, Row, pack};
use std::alloc::Global;
use std::process::Abort;
use std::test::Fail;
use std::thread::{Threads, join};

// How often each lane installs and raises in the test with threads.
const TURNS: u16 = 12;

pub(crate) fn install_of(lane: u8) -> Command
    requires { lane < 16 }
    ensures { IsTrue (is_command result) × (result.lane ≡ lane) }
{
    Command {
        handler: 1,
        ..Command::bare(Op::Install, lane, 0, 0)
    }
}

fn remove_of(lane: u8, target: u16) -> Command
    requires { (lane < 16) × (target ≤ 4096) }
    ensures { IsTrue (is_command result) × (result.lane ≡ lane) }
{
    Command {
        target,
        ..Command::bare(Op::Remove, lane, 0, 0)
    }
}

fn raise_of(alloc: Global, event: u8, word: u64) -> Result<Deed, NoMemory> {
    let mut args = Args::new(alloc);
    args.push(Value::Word(word))?;
    Ok(Deed::Raise { event, args })
}

// The type of an event or a handler of a word that gives a word.
pub(crate) fn word_to_word(alloc: Global) -> Result<EventType, NoMemory> {
    let mut params = Params::new(alloc);
    params.push(Param {
        kind: Kind::Word,
        var: false,
    })?;
    Ok(EventType {
        params,
        gives: true,
    })
}

// One handler, which gives 5.
pub(crate) fn five(alloc: Global) -> Result<Catalogue, Fail>
    ensures { IfOk result (λ catalogue. ⟦<Catalogue as Sincere>⟧.sincere catalogue) }
{
    let mut steps = Steplist::new(alloc);
    steps.push(ActStep::Result(Expr::Const(5)))?;
    let mut catalogue = Catalogue::new(alloc, Natives::new(alloc));
    catalogue.add_handler(Body::Coded(word_to_word(alloc)?, Act { steps }))?;
    Ok(catalogue)
}

// One event, whose last result counts and whose owner allows everything.
pub(crate) fn setup(alloc: Global) -> Result<Setup, Fail>
    ensures { IfOk result (λ setup. ⟦<Catalogue as Sincere>⟧.sincere setup.catalogue) }
{
    let event = EventDef {
        sig: word_to_word(alloc)?,
        owner: 0,
        merge: Merge::Last,
        first_default: 0,
        authority: Authority::Rules(Policy::new(alloc)),
    };
    let events = EventList::from_vec(vec![in alloc; event]?);
    Ok(Setup::build(1, 32, events, five(alloc)?)?)
}

// A hub of two lanes, and their seats.
fn two_seats(alloc: Global) -> Result<(Hub, Seat, Seat), Fail>
    ensures sincere { IfOk result (λ made. ⟦<Catalogue as Sincere>⟧.sincere made.0.setup.catalogue) }
    ensures lanes { IfOk result (λ made. made.0.log.lanes ≡ 2) }
    ensures log_a { IfOk result (λ made. made.1.pen.log ≡ made.0.log.id) }
    ensures log_b { IfOk result (λ made. made.2.pen.log ≡ made.0.log.id) }
    ensures seat_a { IfOk result (λ made. IsSeatOf (data_of made.0.setup) made.1) }
    ensures seat_b { IfOk result (λ made. IsSeatOf (data_of made.0.setup) made.2) }
    ensures lane_a { IfOk result (λ made. made.1.pen.lane ≡ 0) }
    ensures lane_b { IfOk result (λ made. made.2.pen.lane ≡ 1) }
{
    let setup = setup(alloc)?;
    let (hub, mut seats) = Hub::new(alloc, setup, 2)?;
    let Some(a) = seats.take_first() else {
        unreachable!()
    };
    let Some(b) = seats.take_first() else {
        unreachable!()
    };
    Ok((hub, a, b))
}

// The whole log of both.
fn close_both(alloc: Global, hub: Hub, a: Seat, b: Seat) -> Result<Rows, NoMemory>
    requires lanes { hub.log.lanes ≡ 2 }
    requires logs { (a.pen.log ≡ hub.log.id) × (b.pen.log ≡ hub.log.id) }
    requires seat_a { IsSeatOf (data_of hub.setup) a }
    requires seat_b { IsSeatOf (data_of hub.setup) b }
    requires order { (a.pen.lane ≡ 0) × (b.pen.lane ≡ 1) }
{
    let seats = Seats::from_vec(vec![in alloc; a, b]?);
    hub.close(alloc, seats)
}

// The value that the reply gives.
fn value_of(reply: &Reply) -> Option<u64> {
    match reply {
        Reply::Ran {
            answer: Answer::Value(word),
            ..
        } => Some(*word),
        _ => None,
    }
}

fn accepted(place: u16) -> Judged {
    Judged {
        place,
        verdict: Verdicted::Accepted,
    }
}

fn unknown_binding(place: u16) -> Judged {
    Judged {
        place,
        verdict: Verdicted::Refused(Refusal::UnknownBinding),
    }
}

// The place of a raise with this word, and the value that it gives.
fn raise_with(
    alloc: Global,
    hub: &Hub,
    seat: &mut Seat,
    word: u64,
) -> Result<(u16, Option<u64>), NoMemory>
    requires sincere { ⟦<Catalogue as Sincere>⟧.sincere hub.now.setup.catalogue }
    requires log { seat.old.pen.log ≡ hub.now.log.id }
    requires seat { IsSeatOf (data_of hub.now.setup) seat.old }
    ensures same { IsSamePen seat.old.pen seat.new.pen }
    ensures seat { IsSeatOf (data_of hub.now.setup) seat.new }
{
    let deed = raise_of(alloc, 0, word)?;
    let raised = seat.raise(alloc, hub, &deed)?;
    Ok((raised.place, value_of(&raised.reply)))
}

// Whether the command is judged so.
fn is_judged(
    alloc: Global,
    hub: &Hub,
    seat: &mut Seat,
    c: &Command,
    wanted: &Judged,
) -> Result<bool, SeatFault>
    requires sincere { ⟦<Catalogue as Sincere>⟧.sincere hub.now.setup.catalogue }
    requires log { seat.old.pen.log ≡ hub.now.log.id }
    requires seat { IsSeatOf (data_of hub.now.setup) seat.old }
    requires valid { IsTrue (is_command c.now) }
    requires lane { c.now.lane ≡ seat.old.pen.lane }
    ensures same { IsSamePen seat.old.pen seat.new.pen }
    ensures seat { IsSeatOf (data_of hub.now.setup) seat.new }
{
    Ok(seat.command(alloc, hub, c)? == *wanted)
}

// A binding comes by one seat and goes by the other, and both learn of it.
fn install_and_remove<R: Abort>(
    rt: &R,
    alloc: Global,
    hub: &Hub,
    a: &mut Seat,
    b: &mut Seat,
) -> Result<(), Fail>
    requires sincere { ⟦<Catalogue as Sincere>⟧.sincere hub.now.setup.catalogue }
    requires logs { (a.old.pen.log ≡ hub.now.log.id) × (b.old.pen.log ≡ hub.now.log.id) }
    requires seat_a { IsSeatOf (data_of hub.now.setup) a.old }
    requires seat_b { IsSeatOf (data_of hub.now.setup) b.old }
    requires order { (a.old.pen.lane ≡ 0) × (b.old.pen.lane ≡ 1) }
    ensures same { IsSamePen a.old.pen a.new.pen × IsSamePen b.old.pen b.new.pen }
    ensures seat_a { IsSeatOf (data_of hub.now.setup) a.new }
    ensures seat_b { IsSeatOf (data_of hub.now.setup) b.new }
{
    assert!(rt; is_judged(alloc, hub, a, &install_of(0), &accepted(1))?);
    let raised = raise_with(alloc, hub, b, 9)?;
    assert_eq!(rt; raised, (1, Some(5)));
    assert!(rt; is_judged(alloc, hub, b, &remove_of(1, 1), &accepted(2))?);
    assert_eq!(rt; a.front(), 1);
    assert!(rt; is_judged(alloc, hub, a, &remove_of(0, 1), &unknown_binding(2))?);
    hub.meet(alloc, a, b)?;
    assert_eq!(rt; (a.front(), b.front()), (2, 2));
    Ok(())
}

#[test]
fn two_seats_take_turns(rt: HostRuntime) -> Result<(), Fail> {
    let alloc = rt.alloc();
    let (hub, mut a, mut b) = two_seats(alloc)?;
    install_and_remove(&rt, alloc, &hub, &mut a, &mut b)?;
    let rows = close_both(alloc, hub, a, b)?;
    let wanted = [pack(&install_of(0)), pack(&remove_of(1, 1))];
    assert_eq!(rt; rows.as_slice(), wanted.as_slice());
    Ok(())
}

// The place of a raise of this event with this word, whose reply is put into the buffer.
fn raise_lent(
    alloc: Global,
    hub: &Hub,
    seat: &mut Seat,
    event: u8,
    word: u64,
    buffer: &mut ReplyBuffer,
) -> Result<u16, NoMemory>
    requires sincere { ⟦<Catalogue as Sincere>⟧.sincere hub.now.setup.catalogue }
    requires log { seat.old.pen.log ≡ hub.now.log.id }
    requires seat { IsSeatOf (data_of hub.now.setup) seat.old }
    ensures same { IsSamePen seat.old.pen seat.new.pen }
    ensures seat { IsSeatOf (data_of hub.now.setup) seat.new }
{
    let deed = raise_of(alloc, event, word)?;
    seat.raise_into(alloc, hub, &deed, buffer)
}

// A raise into the buffer comes to this answer at this place, with so many steps, and so does the version's place.
fn is_lent<R: Abort>(
    rt: &R,
    alloc: Global,
    hub: &Hub,
    seat: &mut Seat,
    buffer: &mut ReplyBuffer,
    wanted: (u16, Answer, usize),
) -> Result<(), Fail>
    requires sincere { ⟦<Catalogue as Sincere>⟧.sincere hub.now.setup.catalogue }
    requires log { seat.old.pen.log ≡ hub.now.log.id }
    requires seat { IsSeatOf (data_of hub.now.setup) seat.old }
    ensures same { IsSamePen seat.old.pen seat.new.pen }
    ensures seat { IsSeatOf (data_of hub.now.setup) seat.new }
{
    let (place, answer, steps) = wanted;
    assert_eq!(rt; raise_lent(alloc, hub, seat, 0, 9, buffer)?, place);
    assert_eq!(rt; buffer.answer(), Some(answer));
    assert_eq!(rt; buffer.trace().len(), steps);
    assert_eq!(rt; seat.version()?.place(), place);
    Ok(())
}

// Raises into one buffer, while a binding comes and goes.
fn raise_into_one_buffer<R: Abort>(
    rt: &R,
    alloc: Global,
    hub: &Hub,
    seat: &mut Seat,
    buffer: &mut ReplyBuffer,
) -> Result<(), Fail>
    requires sincere { ⟦<Catalogue as Sincere>⟧.sincere hub.now.setup.catalogue }
    requires log { seat.old.pen.log ≡ hub.now.log.id }
    requires seat { IsSeatOf (data_of hub.now.setup) seat.old }
    requires lane { seat.old.pen.lane ≡ 0 }
    ensures same { IsSamePen seat.old.pen seat.new.pen }
    ensures seat { IsSeatOf (data_of hub.now.setup) seat.new }
{
    is_lent(rt, alloc, hub, seat, buffer, (0, Answer::NoHandler, 0))?;
    assert!(rt; is_judged(alloc, hub, seat, &install_of(0), &accepted(1))?);
    is_lent(rt, alloc, hub, seat, buffer, (1, Answer::Value(5), 2))?;
    assert_eq!(rt;
        buffer.trace(),
        [
            Step::Run {
                event: 0,
                number: 1
            },
            Step::Result(5)
        ]
        .as_slice()
    );
    assert!(rt; is_judged(alloc, hub, seat, &remove_of(0, 1), &accepted(2))?);
    is_lent(rt, alloc, hub, seat, buffer, (2, Answer::NoHandler, 0))
}

#[test]
fn raises_share_a_buffer(rt: HostRuntime) -> Result<(), Fail> {
    let alloc = rt.alloc();
    let (hub, mut a, _b) = two_seats(alloc)?;
    let mut buffer = ReplyBuffer::new(alloc);
    raise_into_one_buffer(&rt, alloc, &hub, &mut a, &mut buffer)?;
    let place = raise_lent(alloc, &hub, &mut a, 1, 9, &mut buffer)?;
    assert_eq!(rt; (place, buffer.into_reply()), (2, Reply::UnknownEvent));
    Ok(())
}

// The answer to the command, which is given once more after want of memory.
fn command_again(
    alloc: Global,
    hub: &Hub,
    seat: &mut Seat,
    c: &Command,
) -> Result<Judged, SeatFault>
    requires sincere { ⟦<Catalogue as Sincere>⟧.sincere hub.now.setup.catalogue }
    requires log { seat.old.pen.log ≡ hub.now.log.id }
    requires seat { IsSeatOf (data_of hub.now.setup) seat.old }
    requires valid { IsTrue (is_command c.now) }
    requires lane { c.now.lane ≡ seat.old.pen.lane }
    ensures same { IsSamePen seat.old.pen seat.new.pen }
    ensures seat { IsSeatOf (data_of hub.now.setup) seat.new }
{
    match seat.command(alloc, hub, c) {
        Err(SeatFault::NoMemory) => seat.command(alloc, hub, c),
        answer => answer,
    }
}

// An install is given, once more after want of memory, and then a raise.
fn install_and_raise<R: Abort>(rt: &R, alloc: Global, hub: &Hub, a: &mut Seat) -> Result<(), Fail>
    requires sincere { ⟦<Catalogue as Sincere>⟧.sincere hub.now.setup.catalogue }
    requires log { a.old.pen.log ≡ hub.now.log.id }
    requires seat { IsSeatOf (data_of hub.now.setup) a.old }
    requires lane { a.old.pen.lane ≡ 0 }
{
    let judged = command_again(alloc, hub, a, &install_of(0))?;
    assert_eq!(rt; judged, accepted(1));
    let raised = raise_with(alloc, hub, a, 9)?;
    assert_eq!(rt; raised, (1, Some(5)));
    Ok(())
}

// Where the one request for memory that is refused is the command's, its second call answers as if none were.
#[test]
fn a_command_is_given_again_after_want_of_memory(rt: HostRuntime) -> Result<(), Fail> {
    let (hub, mut a, _b) = two_seats(rt.alloc())?;
    install_and_raise(&rt, rt.alloc(), &hub, &mut a)
}

// Installs and raises in turn.
fn play(alloc: Global, hub: &Hub, seat: &mut Seat) -> Result<(), SeatFault>
    requires sincere { ⟦<Catalogue as Sincere>⟧.sincere hub.now.setup.catalogue }
    requires log { seat.old.pen.log ≡ hub.now.log.id }
    requires seat { IsSeatOf (data_of hub.now.setup) seat.old }
    ensures same { IsSamePen seat.old.pen seat.new.pen }
    ensures seat { IsSeatOf (data_of hub.now.setup) seat.new }
{
    let lane = seat.lane();
    let install = install_of(lane);
    let raise = raise_of(alloc, 0, 9)?;
    for _ in 0..TURNS {
        seat.command(alloc, hub, &install)?;
        seat.raise(alloc, hub, &raise)?;
    }
    Ok(())
}

// Plays, and gives the seat back.
fn take_turns(alloc: Global, hub: &Hub, mut seat: Seat) -> Result<Seat, SeatFault>
    requires sincere { ⟦<Catalogue as Sincere>⟧.sincere hub.now.setup.catalogue }
    requires log { seat.pen.log ≡ hub.now.log.id }
    requires seat { IsSeatOf (data_of hub.now.setup) seat }
    ensures log { IfOk result (λ after. after.pen.log ≡ seat.pen.log) }
    ensures lane { IfOk result (λ after. after.pen.lane ≡ seat.pen.lane) }
    ensures seat { IfOk result (λ after. IsSeatOf (data_of hub.now.setup) after) }
{
    play(alloc, hub, &mut seat)?;
    Ok(seat)
}

// Both seats take their turns at once.
fn take_turns_at_once<R: Threads + Sync>(
    rt: &R,
    alloc: Global,
    hub: &Hub,
    a: Seat,
    b: Seat,
) -> (Result<Seat, SeatFault>, Result<Seat, SeatFault>)
    requires sincere { ⟦<Catalogue as Sincere>⟧.sincere hub.now.setup.catalogue }
    requires logs { (a.pen.log ≡ hub.now.log.id) × (b.pen.log ≡ hub.now.log.id) }
    requires seat_a { IsSeatOf (data_of hub.now.setup) a }
    requires seat_b { IsSeatOf (data_of hub.now.setup) b }
    ensures a { IfOk result.0 (λ after.
        (after.pen.log ≡ a.pen.log)
        × (after.pen.lane ≡ a.pen.lane)
        × IsSeatOf (data_of hub.now.setup) after) }
    ensures b { IfOk result.1 (λ after.
        (after.pen.log ≡ b.pen.log)
        × (after.pen.lane ≡ b.pen.lane)
        × IsSeatOf (data_of hub.now.setup) after) }
{
    join(
        rt,
        || -> Result<Seat, SeatFault>
            requires sincere { IsSincereBy does asks follows hub.now.setup.catalogue.natives }
            requires log { a.pen.log ≡ hub.now.log.id }
            requires seat { IsSeatOf (data_of hub.now.setup) a }
            ensures { IfOk result (λ after.
                (after.pen.log ≡ a.pen.log)
                × (after.pen.lane ≡ a.pen.lane)
                × IsSeatOf (data_of hub.entry.now.setup) after) }
        { take_turns(alloc, hub, a) },
        || -> Result<Seat, SeatFault>
            requires sincere { IsSincereBy does asks follows hub.now.setup.catalogue.natives }
            requires log { b.pen.log ≡ hub.now.log.id }
            requires seat { IsSeatOf (data_of hub.now.setup) b }
            ensures { IfOk result (λ after.
                (after.pen.log ≡ b.pen.log)
                × (after.pen.lane ≡ b.pen.lane)
                × IsSeatOf (data_of hub.entry.now.setup) after) }
        { take_turns(alloc, hub, b) },
    )
}

// How many rows are this one.
pub(crate) fn count_of(rows: &[Row], row: &Row) -> u16 {
    let mut count = 0u16;
    for other in rows {
        if other == row {
            count = count.wrapping_add(1);
        }
    }
    count
}

// Both seats, where both lanes came to their end.
fn both(
    ended: (Result<Seat, SeatFault>, Result<Seat, SeatFault>),
) -> Result<(Seat, Seat), SeatFault>
    ensures a { IfOk result (λ both. ended.0 ≡ Ok both.0) }
    ensures b { IfOk result (λ both. ended.1 ≡ Ok both.1) }
{
    let (a, b) = ended;
    Ok((a?, b?))
}

// The whole log of two lanes that took their turns at once.
fn play_at_once<R: Threads + Sync>(rt: &R, alloc: Global) -> Result<Rows, Fail> {
    let (hub, a, b) = two_seats(alloc)?;
    let (a, b) = both(take_turns_at_once(rt, alloc, &hub, a, b))?;
    Ok(close_both(alloc, hub, a, b)?)
}

#[test]
fn two_seats_install_and_raise_at_once(rt: HostRuntime) -> Result<(), Fail> {
    let alloc = rt.alloc();
    let rows = play_at_once(&rt, rt.alloc())?;
    assert_eq!(rt; rows.len(), 24);
    assert_eq!(rt; count_of(rows.as_slice(), &pack(&install_of(0))), TURNS);
    assert_eq!(rt; count_of(rows.as_slice(), &pack(&install_of(1))), TURNS);
    Ok(())
}
