//! A plug-in host: two versions of a plug-in as objects of the host's own, and two threads. One binds the first version
//! and replaces it by the second, while the other raises the event; no thread takes a lock or waits for the other.
//! Its status is 0 where each raise was answered by the version in force at its place, 1 where one wasn't, and 7 where
//! there was no memory.
#![tactic(auto)]

ghost use Rattle.std.specs.Prelude.{◌≡◌, ◌∷◌, [], IfOk, IfSome, Ok};
ghost use Rattle.spin.specs.ActStep.TheVariants.{Result};
ghost use Rattle.spin.specs.Expr.TheVariants.{Const};
ghost use Rattle.spin.specs.Pens.{IsSamePen};
ghost use Rattle.spin.specs.Units.{IsSincereBy};
ghost use Rattle.spin.specs.SetupOf.{data_of};
ghost use Rattle.spin.specs.Seats.{IsSeatOf};

use spin::{
    Act, ActStep, Answer, Args, Catalogue, Command, Deed, EventType, Expr, Handler, Hub, Item,
    Natives, NoMemory, Op, Outcome, Params, Reply, Row, Rows, Script, Seat, SeatFault, Seats,
    Sincere, Steplist, Text, read_script, unpack,
};
use std::alloc::Global;
use std::io::Print;
use std::process::ExitCode;
use std::thread::{Threads, join};

// One event, which gives a word, and the two versions of the plug-in as its handlers 1 and 2.
const SCRIPT: &[u8] = b"spin 1
event 0 0 -:w last
handler 1 native first
handler 2 native second
";

// How often the event is raised.
const RAISES: u32 = 2_000;

// The status where there is no memory.
const OUT_OF_MEMORY: u8 = 7;

// A version of the plug-in: it gives its number.
#[derive(Drop)]
struct Plugin {
    version: u64,
}

impl Handler for Plugin {
    ghost does = { λ p. record { steps = Result (Const p.version) ∷ [] } };

    fn run(&self, _alloc: Global, _args: &mut Args, out: &mut Outcome) -> Result<(), NoMemory> {
        Ok(out.push(Item::Result(self.version))?)
    }
}

// Adds a version of the plug-in under that name; none where it is refused.
fn add(
    alloc: Global,
    natives: &mut Natives,
    name: &[u8],
    version: u64,
    object: Box<dyn Handler + Send + Sync>,
) -> Option<()>
    requires object { does object ≡ record { steps = Result (Const version) ∷ [] } }
    requires sincere { ⟦<Natives as Sincere>⟧.sincere natives.old }
    ensures { ⟦<Natives as Sincere>⟧.sincere natives.new }
{
    let mut steps = Steplist::new(alloc);
    steps.push(ActStep::Result(Expr::Const(version))).ok()?;
    let (params, gives) = (Params::new(alloc), true);
    let name = Text::from_bytes(alloc, name).ok()?;
    let sig = EventType { params, gives };
    natives.add_handler(name, sig, Act { steps }, object).ok()
}

// Binds the first version, and replaces it by the second.
fn bind(alloc: Global, hub: &Hub, mut seat: Seat) -> Result<Seat, SeatFault>
    requires sincere { ⟦<Catalogue as Sincere>⟧.sincere hub.now.setup.catalogue }
    requires log { seat.pen.log ≡ hub.now.log.id }
    requires seat { IsSeatOf (data_of hub.now.setup) seat }
    requires lane { seat.pen.lane ≡ 0 }
    ensures { IfOk result (λ after.
        IsSamePen seat.pen after.pen × IsSeatOf (data_of hub.now.setup) after) }
{
    let install = Command {
        handler: 1,
        ..Command::bare(Op::Install, 0, 0, 0)
    };
    seat.command(alloc, hub, &install)?;
    let replace = Command {
        handler: 2,
        target: 1,
        ..Command::bare(Op::Replace, 0, 0, 0)
    };
    seat.command(alloc, hub, &replace)?;
    Ok(seat)
}

// Raises the event again and again, and counts the raises that are answered by the version in force at their place:
// none at place 0, the first at place 1, the second at place 2.
fn raise(alloc: Global, hub: &Hub, mut seat: Seat) -> Result<(Seat, u32), SeatFault>
    requires sincere { ⟦<Catalogue as Sincere>⟧.sincere hub.now.setup.catalogue }
    requires log { seat.pen.log ≡ hub.now.log.id }
    requires seat { IsSeatOf (data_of hub.now.setup) seat }
    ensures { IfOk result (λ after.
        IsSamePen seat.pen after.0.pen × IsSeatOf (data_of hub.now.setup) after.0) }
{
    let (event, args) = (0, Args::new(alloc));
    let deed = Deed::Raise { event, args };
    let mut right = 0u32;
    for _ in 0..RAISES {
        let raised = seat.raise(alloc, hub, &deed)?;
        let owed = match raised.place {
            0 => Answer::NoHandler,
            place => Answer::Value(u64::from(place)),
        };
        if matches!(raised.reply, Reply::Ran { answer, .. } if answer == owed) {
            right = right.saturating_add(1);
        }
    }
    Ok((seat, right))
}

// Both threads at once: the one binds on its seat, the other raises on its own.
fn take_turns<R: Threads + Sync>(
    rt: &R,
    alloc: Global,
    hub: &Hub,
    a: Seat,
    b: Seat,
) -> (Result<Seat, SeatFault>, Result<(Seat, u32), SeatFault>)
    requires sincere { ⟦<Catalogue as Sincere>⟧.sincere hub.now.setup.catalogue }
    requires logs { (a.pen.log ≡ hub.now.log.id) × (b.pen.log ≡ hub.now.log.id) }
    requires seat_a { IsSeatOf (data_of hub.now.setup) a }
    requires seat_b { IsSeatOf (data_of hub.now.setup) b }
    requires lane { a.pen.lane ≡ 0 }
    ensures a { IfOk result.0 (λ after.
        IsSamePen a.pen after.pen × IsSeatOf (data_of hub.now.setup) after) }
    ensures b { IfOk result.1 (λ after.
        IsSamePen b.pen after.0.pen × IsSeatOf (data_of hub.now.setup) after.0) }
{
    join(
        rt,
        || -> Result<Seat, SeatFault>
            requires sincere { IsSincereBy does asks follows hub.now.setup.catalogue.natives }
            requires log { a.pen.log ≡ hub.now.log.id }
            requires seat { IsSeatOf (data_of hub.now.setup) a }
            requires lane { a.pen.lane ≡ 0 }
            ensures { IfOk result (λ after.
                IsSamePen a.pen after.pen × IsSeatOf (data_of hub.entry.now.setup) after) }
        { bind(alloc, hub, a) },
        || -> Result<(Seat, u32), SeatFault>
            requires sincere { IsSincereBy does asks follows hub.now.setup.catalogue.natives }
            requires log { b.pen.log ≡ hub.now.log.id }
            requires seat { IsSeatOf (data_of hub.now.setup) b }
            ensures { IfOk result (λ after.
                IsSamePen b.pen after.0.pen × IsSeatOf (data_of hub.entry.now.setup) after.0) }
        { raise(alloc, hub, b) },
    )
}

// The hub of the script, and its two seats; none where memory is lacking.
fn open(alloc: Global, natives: Natives) -> Option<(Hub, Seat, Seat)>
    requires sincere { ⟦<Natives as Sincere>⟧.sincere natives }
    ensures sincere { IfSome result (λ made. ⟦<Catalogue as Sincere>⟧.sincere made.0.setup.catalogue) }
    ensures lanes { IfSome result (λ made. made.0.log.lanes ≡ 2) }
    ensures logs { IfSome result (λ made.
        (made.1.pen.log ≡ made.0.log.id) × (made.2.pen.log ≡ made.0.log.id)) }
    ensures seat_a { IfSome result (λ made. IsSeatOf (data_of made.0.setup) made.1) }
    ensures seat_b { IfSome result (λ made. IsSeatOf (data_of made.0.setup) made.2) }
    ensures order { IfSome result (λ made. (made.1.pen.lane ≡ 0) × (made.2.pen.lane ≡ 1)) }
{
    let Ok(script) = read_script(alloc, SCRIPT, natives) else {
        return None;
    };
    let Script { setup, .. } = script;
    let Ok((hub, mut seats)) = Hub::new(alloc, setup, 2) else {
        return None;
    };
    let Some(a) = seats.take_first() else {
        unreachable!()
    };
    let Some(b) = seats.take_first() else {
        unreachable!()
    };
    Some((hub, a, b))
}

// The rows of both seats' history; none where memory is lacking.
fn close(alloc: Global, hub: Hub, a: Seat, b: Seat) -> Option<Rows>
    requires lanes { hub.log.lanes ≡ 2 }
    requires logs { (a.pen.log ≡ hub.log.id) × (b.pen.log ≡ hub.log.id) }
    requires seat_a { IsSeatOf (data_of hub.setup) a }
    requires seat_b { IsSeatOf (data_of hub.setup) b }
    requires order { (a.pen.lane ≡ 0) × (b.pen.lane ≡ 1) }
{
    let seats = Seats::from_vec(vec![in alloc; a, b].ok()?);
    hub.close(alloc, seats).ok()
}

// Both seats, and how many raises were answered as owed, where both threads came to their end.
fn both(
    bound: Result<Seat, SeatFault>,
    raised: Result<(Seat, u32), SeatFault>,
) -> Option<(Seat, Seat, u32)>
    ensures a { IfSome result (λ both. bound ≡ Ok both.0) }
    ensures b { IfSome result (λ both. raised ≡ Ok (both.1, both.2)) }
{
    match (bound, raised) {
        (Ok(a), Ok((b, right))) => Some((a, b, right)),
        _ => None,
    }
}

// The commands of the history that both threads made, and how many raises were answered as owed; none where memory
// is lacking.
fn play<R: Threads + Sync>(rt: &R, alloc: Global, natives: Natives) -> Option<(Rows, u32)>
    requires sincere { ⟦<Natives as Sincere>⟧.sincere natives }
{
    let (hub, a, b) = open(alloc, natives)?;
    let (bound, raised) = take_turns(rt, alloc, &hub, a, b);
    let (a, b, right) = both(bound, raised)?;
    Some((close(alloc, hub, a, b)?, right))
}

// Tells each command of the history with its place.
fn tell<R: Print>(rt: &R, rows: &[Row]) {
    for (place, row) in rows.iter().enumerate() {
        if let Some(command) = unpack(row) {
            let _ = println!(rt;
                "{} {:?} handler {}",
                place + 1,
                command.op,
                command.handler
            );
        }
    }
}

fn main(rt: HostRuntime) -> Result<ExitCode, NoMemory> {
    let alloc = rt.alloc();
    let mut natives = Natives::new(alloc);
    let first: Box<dyn Handler + Send + Sync> = Box::new(alloc, Plugin { version: 1 })?;
    let second: Box<dyn Handler + Send + Sync> = Box::new(alloc, Plugin { version: 2 })?;
    let is_added = add(alloc, &mut natives, b"first", 1, first).is_some()
        && add(alloc, &mut natives, b"second", 2, second).is_some();
    if !is_added {
        return Ok(ExitCode::from(OUT_OF_MEMORY));
    }
    let Some((rows, right)) = play(&rt, alloc, natives) else {
        return Ok(ExitCode::from(OUT_OF_MEMORY));
    };
    tell(&rt, rows.as_slice());
    let _ = println!(rt;
        "{right} of {RAISES} raises answered by the version in force at their place"
    );
    Ok(ExitCode::from(if right == RAISES { 0 } else { 1 }))
}
