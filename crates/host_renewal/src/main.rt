//! A host that runs for as long as it likes, on two threads: one puts a new binding in the place of the one before it,
//! again and again, while the other raises the event. When both have handed their seats back the hub is renewed, and
//! both go on. Its status is 0 where each raise was answered by the version in force at its place, 1 where one wasn't,
//! and 7 where there was no memory.
#![tactic(auto)]

ghost use Rattle.std.specs.Prelude.{◌≡◌, ◌∷◌, [], IfOk, IfSome, IsTrue, Ok};
ghost use Rattle.spin.specs.Commands.{is_command};
ghost use Rattle.spin.specs.Pens.{IsSamePen};
ghost use Rattle.spin.specs.Units.{IsSincereBy};
ghost use Rattle.spin.specs.SetupOf.{data_of};
ghost use Rattle.spin.specs.Seats.{IsSeat};
ghost use Rattle.spin.specs.RenewedHubs.{AreAllSeats};

use spin::{
    Answer, Args, Catalogue, Command, Deed, Hub, MAX_PLACE, Natives, NoMemory, Op, Renewal, Reply,
    Rows, Script, Seat, SeatFault, Seats, Sincere, read_script,
};
use std::alloc::Global;
use std::process::ExitCode;
use std::thread::{Threads, join};

// One event, which sums the results, and a handler, which gives 1: so the event tells how many bindings there are.
const SCRIPT: &[u8] = b"spin 1
event 0 0 -:w fold + a0 a1
handler 1 -:w result 1
";

// How often the hub is renewed.
const ROUNDS: u32 = 25;

// How many bindings are put in the place of another between two renewals, each by two commands.
const TURNS: u32 = 2_000;

// How often the event is raised between two renewals.
const RAISES: u32 = 400;

// The status where there is no memory.
const OUT_OF_MEMORY: u8 = 7;

// The command that binds the handler.
fn install() -> Command
    ensures { IsTrue (is_command result) × (result.lane ≡ 0) }
{
    Command {
        handler: 1,
        ..Command::bare(Op::Install, 0, 0, 0)
    }
}

// The command that removes the binding of this number.
fn remove(number: u16) -> Command
    ensures { IsTrue (is_command result) × (result.lane ≡ 0) }
{
    Command {
        target: number.min(MAX_PLACE),
        ..Command::bare(Op::Remove, 0, 0, 0)
    }
}

// Binds the handler and removes the binding before, again and again. At the start one binding is there, whose number
// is 1.
fn bind(alloc: Global, hub: &Hub, mut seat: Seat) -> Result<Seat, SeatFault>
    requires sincere { ⟦<Catalogue as Sincere>⟧.sincere hub.now.setup.catalogue }
    requires log { seat.pen.log ≡ hub.now.log.id }
    requires seat { IsSeat (data_of hub.now.setup) seat }
    requires lane { seat.pen.lane ≡ 0 }
    ensures { IfOk result (λ after.
        IsSamePen seat.pen after.pen
        × (after.base ≡ seat.base)
        × IsSeat (data_of hub.now.setup) after) }
{
    let mut held = 1;
    for _ in 0..TURNS {
        let bound = seat.command(alloc, hub, &install())?;
        seat.command(alloc, hub, &remove(held))?;
        held = bound.place;
    }
    Ok(seat)
}

// Raises the event again and again, and counts the raises that are answered by the version in force at their place:
// one binding is there at each odd place, and two at each even one.
fn raise(alloc: Global, hub: &Hub, mut seat: Seat) -> Result<(Seat, u32), SeatFault>
    requires sincere { ⟦<Catalogue as Sincere>⟧.sincere hub.now.setup.catalogue }
    requires log { seat.pen.log ≡ hub.now.log.id }
    requires seat { IsSeat (data_of hub.now.setup) seat }
    ensures { IfOk result (λ after.
        IsSamePen seat.pen after.0.pen
        × (after.0.base ≡ seat.base)
        × IsSeat (data_of hub.now.setup) after.0) }
{
    let (event, args) = (0, Args::new(alloc));
    let deed = Deed::Raise { event, args };
    let mut right = 0u32;
    for _ in 0..RAISES {
        let raised = seat.raise(alloc, hub, &deed)?;
        let owed = Answer::Value(if raised.place % 2 == 0 { 2 } else { 1 });
        if matches!(raised.reply, Reply::Ran { answer, .. } if answer == owed) {
            right = right.saturating_add(1);
        }
    }
    Ok((seat, right))
}

// Both threads at once: the one binds on its seat, the other raises on its own.
fn take_turns<R: Threads + Sync>(
    rt: &R,
    alloc: Global,
    hub: &Hub,
    a: Seat,
    b: Seat,
) -> (Result<Seat, SeatFault>, Result<(Seat, u32), SeatFault>)
    requires sincere { ⟦<Catalogue as Sincere>⟧.sincere hub.now.setup.catalogue }
    requires logs { (a.pen.log ≡ hub.now.log.id) × (b.pen.log ≡ hub.now.log.id) }
    requires seat_a { IsSeat (data_of hub.now.setup) a }
    requires seat_b { IsSeat (data_of hub.now.setup) b }
    requires lane { a.pen.lane ≡ 0 }
    ensures a { IfOk result.0 (λ after.
        IsSamePen a.pen after.pen
        × (after.base ≡ a.base)
        × IsSeat (data_of hub.now.setup) after) }
    ensures b { IfOk result.1 (λ after.
        IsSamePen b.pen after.0.pen
        × (after.0.base ≡ b.base)
        × IsSeat (data_of hub.now.setup) after.0) }
{
    join(
        rt,
        || -> Result<Seat, SeatFault>
            requires sincere { IsSincereBy does asks follows hub.now.setup.catalogue.natives }
            requires log { a.pen.log ≡ hub.now.log.id }
            requires seat { IsSeat (data_of hub.now.setup) a }
            requires lane { a.pen.lane ≡ 0 }
            ensures { IfOk result (λ after.
                IsSamePen a.pen after.pen
                × (after.base ≡ a.base)
                × IsSeat (data_of hub.entry.now.setup) after) }
        { bind(alloc, hub, a) },
        || -> Result<(Seat, u32), SeatFault>
            requires sincere { IsSincereBy does asks follows hub.now.setup.catalogue.natives }
            requires log { b.pen.log ≡ hub.now.log.id }
            requires seat { IsSeat (data_of hub.now.setup) b }
            ensures { IfOk result (λ after.
                IsSamePen b.pen after.0.pen
                × (after.0.base ≡ b.base)
                × IsSeat (data_of hub.entry.now.setup) after.0) }
        { raise(alloc, hub, b) },
    )
}

// The hub of the script over these natives, whose first seat has bound the handler, and its two seats; none where memory
// is lacking.
fn open(alloc: Global, natives: Natives) -> Option<(Hub, Seat, Seat)>
    requires sincere { ⟦<Natives as Sincere>⟧.sincere natives }
    ensures sincere { IfSome result (λ made. ⟦<Catalogue as Sincere>⟧.sincere made.0.setup.catalogue) }
    ensures all { IfSome result (λ made.
        AreAllSeats (data_of made.0.setup) made.0.log (made.1 ∷ made.2 ∷ [])) }
{
    let Ok(script) = read_script(alloc, SCRIPT, natives) else {
        return None;
    };
    let Script { setup, .. } = script;
    let Ok((hub, mut seats)) = Hub::new(alloc, setup, 2) else {
        return None;
    };
    let Some(mut a) = seats.take_first() else {
        unreachable!()
    };
    let Some(b) = seats.take_first() else {
        unreachable!()
    };
    if a.command(alloc, &hub, &install()).is_err() {
        return None;
    }
    Some((hub, a, b))
}

// Both seats, and how many raises were answered as owed, where both threads came to their end.
fn both(
    bound: Result<Seat, SeatFault>,
    raised: Result<(Seat, u32), SeatFault>,
) -> Option<(Seat, Seat, u32)>
    ensures a { IfSome result (λ both. bound ≡ Ok both.0) }
    ensures b { IfSome result (λ both. raised ≡ Ok (both.1, both.2)) }
{
    match (bound, raised) {
        (Ok(a), Ok((b, right))) => Some((a, b, right)),
        _ => None,
    }
}

// Renews the hub, whose seats were handed back: the hub and its seats, and the rows of the log that was closed. None
// where memory is lacking.
fn renew(alloc: Global, hub: Hub, a: Seat, b: Seat) -> Option<(Hub, Seat, Seat, Rows)>
    requires sincere { ⟦<Catalogue as Sincere>⟧.sincere hub.setup.catalogue }
    requires all { AreAllSeats (data_of hub.setup) hub.log (a ∷ b ∷ []) }
    ensures setup { IfSome result (λ made. made.0.setup ≡ hub.setup) }
    ensures all { IfSome result (λ made.
        AreAllSeats (data_of hub.setup) made.0.log (made.1 ∷ made.2 ∷ [])) }
{
    let seats = Seats::from_vec(vec![in alloc; a, b].ok()?);
    let Ok(renewal) = hub.renew(alloc, seats) else {
        return None;
    };
    let Renewal {
        hub,
        mut seats,
        rows,
        ..
    } = renewal;
    let Some(a) = seats.take_first() else {
        unreachable!()
    };
    let Some(b) = seats.take_first() else {
        unreachable!()
    };
    Some((hub, a, b, rows))
}

// A hub with its two seats, and what was done so far: how many commands were accepted, and how many raises were
// answered as owed.
#[derive(Drop)]
struct Course {
    hub: Hub,
    a: Seat,
    b: Seat,
    accepted: usize,
    right: u32,
}

// Both threads take their turns, and then the hub is renewed; none where memory is lacking.
fn round<R: Threads + Sync>(rt: &R, alloc: Global, course: Course) -> Option<Course>
    requires sincere { ⟦<Catalogue as Sincere>⟧.sincere course.hub.setup.catalogue }
    requires all { AreAllSeats (data_of course.hub.setup) course.hub.log (course.a ∷ course.b ∷ []) }
    ensures setup { IfSome result (λ next. next.hub.setup ≡ course.hub.setup) }
    ensures all { IfSome result (λ next.
        AreAllSeats (data_of course.hub.setup) next.hub.log (next.a ∷ next.b ∷ [])) }
{
    let Course {
        hub,
        a,
        b,
        accepted,
        right,
    } = course;
    let (bound, raised) = take_turns(rt, alloc, &hub, a, b);
    let (a, b, more) = both(bound, raised)?;
    let (hub, a, b, rows) = renew(alloc, hub, a, b)?;
    Some(Course {
        hub,
        a,
        b,
        accepted: accepted.saturating_add(rows.len()),
        right: right.saturating_add(more),
    })
}

// How many commands are accepted in all rounds, and how many raises are answered as owed; none where memory is lacking.
fn play<R: Threads + Sync>(rt: &R, alloc: Global, natives: Natives) -> Option<(usize, u32)>
    requires sincere { ⟦<Natives as Sincere>⟧.sincere natives }
{
    let (hub, a, b) = open(alloc, natives)?;
    let mut course = Course {
        hub,
        a,
        b,
        accepted: 0,
        right: 0,
    };
    for _ in 0..ROUNDS {
        course = round(rt, alloc, course)?;
    }
    Some((course.accepted, course.right))
}

fn main(rt: HostRuntime) -> Result<ExitCode, NoMemory> {
    let alloc = rt.alloc();
    let Some((accepted, right)) = play(&rt, alloc, Natives::new(alloc)) else {
        return Ok(ExitCode::from(OUT_OF_MEMORY));
    };
    let raises = ROUNDS * RAISES;
    let _ = println!(rt; "{accepted} commands accepted, {ROUNDS} renewals");
    let _ = println!(rt;
        "{right} of {raises} raises answered by the version in force at their place"
    );
    Ok(ExitCode::from(if right == raises { 0 } else { 1 }))
}
