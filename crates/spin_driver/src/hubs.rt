//! Hubs of each number of lanes, which answer commands, meet, are renewed and closed.
//!
//! - `LANES OP COUNT`: what comes of so many commands, all with the op `install` or `default`, of which the first 64 are
//!   about event 0, the next 64 about event 1, and so on; the lanes ask in turn. Told are, each behind its word:
//!   `accepted`, how many are; `met`, how many rows each lane knows once all have met; `raise`, the place of a raise of
//!   event 0 by the last lane, and its answer, which counts bindings; `more`, the answer to one more install of that
//!   event by that lane, which is none where the log is full. Then `renewed`, how many rows the log had and how many
//!   bindings are live, or `stays` and why; the same four of defaults of event 0, for one of which each lane asks; and
//!   `closed`, how many rows the log has in the end.

ghost use Rattle.std.specs.Prelude.{◌≡◌, ◌<◌, ◌≤◌, All, IfOk, IfSome, IsTrue};
ghost use Rattle.spin_word.specs.Commands.{is_command};
ghost use Rattle.spin_word.specs.declared.command.TheConstants.{MAX_LANES};
ghost use Rattle.spin_log.specs.Pens.{IsSamePen};
ghost use Rattle.spin_table.specs.SetupOf.{data_of};
ghost use Rattle.spin_seat.specs.Seats.{IsSeat, IsSeatFrom};
ghost use Rattle.spin_seat.specs.RenewedHubs.{AreAllSeats, KnowsMore, KnowMore};

use crate::fault::Fault;
use crate::told::{tell, tell_word};
use crate::words::Words;
use spin_code::Sincere;
use spin_objects::{Catalogue, Natives};
use spin_proto::{Deed, Reply};
use spin_raise::Answer;
use spin_script::{Script, read_script};
use spin_seat::{Hub, Judged, Renewal, Seat, SeatFault, Seats, Unrenewed, Verdicted};
use spin_values::{Args, NoMemory, Numbers, Octets};
use spin_word::{Command, MAX_EVENTS, MAX_LANES, MAX_PLACE, Op, is_valid};
use std::alloc::Global;

// How many commands in a row are about one event.
const IN_A_ROW: u16 = 64;

const OPS: [(&str, Op); 2] = [("install", Op::Install), ("default", Op::Default)];

pub(crate) fn answer(alloc: Global, words: &mut Words, out: &mut String) -> Result<(), Fault> {
    let (lanes, op, count) = (words.u8()?, words.one_of(&OPS)?, words.u16()?);
    if lanes == 0 || lanes > MAX_LANES || count > MAX_PLACE {
        return Err(Fault::BadRow);
    }
    let (hub, seats) = open(alloc, lanes, Natives::new(alloc))?;
    let seats = play_round(alloc, &hub, seats, Asked { lanes, op, count }, out)?;
    let (hub, seats) = renew(alloc, hub, seats, out)?;
    let (op, count) = (Op::Default, u16::from(lanes));
    let seats = play_round(alloc, &hub, seats, Asked { lanes, op, count }, out)?;
    close(alloc, hub, seats, out)
}

// What is asked in a round: so many commands with this op, by so many lanes in turn.
#[derive(Clone, Copy)]
struct Asked {
    lanes: u8,
    op: Op,
    count: u16,
}

// What comes of a round of commands: how many were accepted, what all lanes know, the raise and one more install.
#[derive(Drop)]
struct Round {
    accepted: u16,
    met: Numbers,
    raised: (u16, Option<Answer>),
    more: Option<Judged>,
}

fn tell_round(round: &Round, out: &mut String) -> Result<(), Fault> {
    tell_word(out, "accepted")?;
    tell(out, &round.accepted)?;
    tell_word(out, "met")?;
    tell(out, &round.met.as_slice())?;
    tell_word(out, "raise")?;
    tell(out, &round.raised.0)?;
    tell(out, &round.raised.1)?;
    tell_word(out, "more")?;
    tell(out, &round.more)
}

// A script of as many events as there may be, each with as many bindings as there may be, and a handler that gives 1. The
// results are added up.
fn script(alloc: Global) -> Result<Octets, Fault> {
    let mut text = String::new(alloc);
    text.push_str("spin 3\n")?;
    for event in 0..MAX_EVENTS {
        write!(text, "event {event} 0 -:w fold + a0 a1\n")?;
    }
    text.push_str("handler 1 -:w result 1\n")?;
    Ok(Octets::from_bytes(alloc, text.as_bytes())?)
}

// A hub of so many lanes, and their seats.
fn open(alloc: Global, lanes: u8, natives: Natives) -> Result<(Hub, Vec<Seat>), Fault>
    requires some { 0 < lanes }
    requires few { lanes ≤ MAX_LANES }
    requires sincere { ⟦<Natives as Sincere>⟧.sincere natives }
    ensures sincere { IfOk result (λ made. ⟦<Catalogue as Sincere>⟧.sincere made.0.setup.catalogue) }
    ensures all { IfOk result (λ made. AreAllSeats (data_of made.0.setup) made.0.log made.1.items) }
{
    let Script { setup, .. } = read_script(alloc, script(alloc)?.as_slice(), natives)?;
    let (hub, seats) = Hub::new(alloc, setup, lanes)?;
    Ok((hub, seats.into_vec()))
}

// The lane's command with this op about the event; none where it isn't valid.
fn command_of(lane: u8, op: Op, event: u8) -> Option<Command>
    ensures { IfSome result (λ c. IsTrue (is_command c) × (c.lane ≡ lane)) }
{
    let command = Command {
        handler: 1,
        ..Command::bare(op, lane, event, 0)
    };
    if is_valid(&command) {
        Some(command)
    } else {
        None
    }
}

// The verdict on the seat's command with this op about the event; none where the log is full.
fn ask(
    alloc: Global,
    hub: &Hub,
    seat: &mut Seat,
    op: Op,
    event: u8,
) -> Result<Option<Judged>, Fault>
    requires sincere { ⟦<Catalogue as Sincere>⟧.sincere hub.now.setup.catalogue }
    requires log { seat.old.pen.log ≡ hub.now.log.id }
    requires seat { IsSeat (data_of hub.now.setup) seat.old }
    ensures same { IsSamePen seat.old.pen seat.new.pen }
    ensures first { seat.new.base ≡ seat.old.base }
    ensures seat { IsSeat (data_of hub.now.setup) seat.new }
{
    let command = command_of(seat.lane(), op, event).ok_or(Fault::BadRow)?;
    match seat.command(alloc, hub, &command) {
        Ok(judged) => Ok(Some(judged)),
        Err(SeatFault::Full) => Ok(None),
        Err(SeatFault::NoMemory) => Err(Fault::NoMemory),
    }
}

// The same of the seat of that lane.
fn ask_lane(
    alloc: Global,
    hub: &Hub,
    seats: &mut [Seat],
    lane: usize,
    op: Op,
    event: u8,
) -> Result<Option<Judged>, Fault>
    requires sincere { ⟦<Catalogue as Sincere>⟧.sincere hub.now.setup.catalogue }
    requires all { AreAllSeats (data_of hub.now.setup) hub.now.log seats.old }
    ensures { AreAllSeats (data_of hub.now.setup) hub.now.log seats.new }
{
    if lane >= seats.len() {
        return Err(Fault::BadRow);
    }
    ask(alloc, hub, &mut seats[lane], op, event)
}

// How many of the commands that are asked are accepted.
fn ask_in_turn(alloc: Global, hub: &Hub, seats: &mut [Seat], asked: Asked) -> Result<u16, Fault>
    requires sincere { ⟦<Catalogue as Sincere>⟧.sincere hub.now.setup.catalogue }
    requires all { AreAllSeats (data_of hub.now.setup) hub.now.log seats.old }
    requires some { 0 < asked.lanes }
    ensures { AreAllSeats (data_of hub.now.setup) hub.now.log seats.new }
{
    let mut accepted = 0u16;
    for turn in 0..asked.count {
        let lane = usize::from(turn % u16::from(asked.lanes));
        let event = u8::try_from(turn / IN_A_ROW).or(Err(Fault::BadRow))?;
        let answer = ask_lane(alloc, hub, seats, lane, asked.op, event)?;
        if let Some(
            Judged {
                verdict: Verdicted::Accepted,
                ..
            },
        ) = answer
        {
            accepted = accepted.saturating_add(1);
        }
    }
    Ok(accepted)
}

// Lets the first seat meet each of the others.
fn meet_others(
    alloc: Global,
    hub: &Hub,
    first: &mut Seat,
    others: &mut [Seat],
) -> Result<(), NoMemory>
    requires sincere { ⟦<Catalogue as Sincere>⟧.sincere hub.now.setup.catalogue }
    requires log { first.old.pen.log ≡ hub.now.log.id }
    requires logs { All (λ seat. seat.pen.log ≡ hub.now.log.id) others.old }
    requires seat { IsSeat (data_of hub.now.setup) first.old }
    requires seats { All (IsSeatFrom (data_of hub.now.setup) first.old.base) others.old }
    ensures first { KnowsMore (data_of hub.now.setup) first.old first.new }
    ensures others { KnowMore (data_of hub.now.setup) others.old others.new }
{
    for k in 0..others.len() {
        hub.meet(alloc, first, &mut others[k])?;
    }
    Ok(())
}

// Lets the first of all seats meet each of the others.
fn meet_each(alloc: Global, hub: &Hub, seats: &mut [Seat]) -> Result<(), NoMemory>
    requires sincere { ⟦<Catalogue as Sincere>⟧.sincere hub.now.setup.catalogue }
    requires all { AreAllSeats (data_of hub.now.setup) hub.now.log seats.old }
    ensures { AreAllSeats (data_of hub.now.setup) hub.now.log seats.new }
{
    if seats.is_empty() {
        return Ok(());
    }
    let (left, right) = seats.split_at_mut(1);
    meet_others(alloc, hub, &mut left[0], right)
}

// How many rows each lane knows.
fn fronts(alloc: Global, seats: &[Seat]) -> Result<Numbers, NoMemory> {
    let mut fronts = Numbers::new(alloc);
    for seat in seats {
        fronts.push(seat.front())?;
    }
    Ok(fronts)
}

// The place of the seat's raise of event 0, and the answer.
fn raise(alloc: Global, hub: &Hub, seat: &mut Seat) -> Result<(u16, Option<Answer>), Fault>
    requires sincere { ⟦<Catalogue as Sincere>⟧.sincere hub.now.setup.catalogue }
    requires log { seat.old.pen.log ≡ hub.now.log.id }
    requires seat { IsSeat (data_of hub.now.setup) seat.old }
    ensures same { IsSamePen seat.old.pen seat.new.pen }
    ensures first { seat.new.base ≡ seat.old.base }
    ensures seat { IsSeat (data_of hub.now.setup) seat.new }
{
    let (event, args) = (0, Args::new(alloc));
    let raised = seat.raise(alloc, hub, &Deed::Raise { event, args })?;
    let answer = match &raised.reply {
        Reply::Ran { answer, .. } => Some(*answer),
        _ => None,
    };
    Ok((raised.place, answer))
}

// The same of the seat of that lane.
fn raise_lane(
    alloc: Global,
    hub: &Hub,
    seats: &mut [Seat],
    lane: usize,
) -> Result<(u16, Option<Answer>), Fault>
    requires sincere { ⟦<Catalogue as Sincere>⟧.sincere hub.now.setup.catalogue }
    requires all { AreAllSeats (data_of hub.now.setup) hub.now.log seats.old }
    ensures { AreAllSeats (data_of hub.now.setup) hub.now.log seats.new }
{
    if lane >= seats.len() {
        return Err(Fault::BadRow);
    }
    raise(alloc, hub, &mut seats[lane])
}

// A round. All lanes meet: at first the first lane learns what each knows, and then it tells that to each.
fn play(alloc: Global, hub: &Hub, seats: &mut [Seat], asked: Asked) -> Result<Round, Fault>
    requires sincere { ⟦<Catalogue as Sincere>⟧.sincere hub.now.setup.catalogue }
    requires all { AreAllSeats (data_of hub.now.setup) hub.now.log seats.old }
    requires some { 0 < asked.lanes }
    ensures { AreAllSeats (data_of hub.now.setup) hub.now.log seats.new }
{
    let last = usize::from(asked.lanes) - 1;
    let accepted = ask_in_turn(alloc, hub, seats, asked)?;
    meet_each(alloc, hub, seats)?;
    meet_each(alloc, hub, seats)?;
    let met = fronts(alloc, seats)?;
    let raised = raise_lane(alloc, hub, seats, last)?;
    let more = ask_lane(alloc, hub, seats, last, Op::Install, 0)?;
    Ok(Round {
        accepted,
        met,
        raised,
        more,
    })
}

// Plays a round, tells it, and gives the seats back.
fn play_round(
    alloc: Global,
    hub: &Hub,
    seats: Vec<Seat>,
    asked: Asked,
    out: &mut String,
) -> Result<Vec<Seat>, Fault>
    requires sincere { ⟦<Catalogue as Sincere>⟧.sincere hub.now.setup.catalogue }
    requires all { AreAllSeats (data_of hub.now.setup) hub.now.log seats.items }
    requires some { 0 < asked.lanes }
    ensures { IfOk result (λ seats. AreAllSeats (data_of hub.now.setup) hub.now.log seats.items) }
{
    let mut seats = seats;
    let round = play(alloc, hub, seats.as_mut_slice(), asked)?;
    tell_round(&round, out)?;
    Ok(seats)
}

fn tell_renewal(rows: usize, live: usize, out: &mut String) -> Result<(), Fault> {
    tell_word(out, "renewed")?;
    tell(out, &rows)?;
    tell(out, &live)
}

// The hub renewed, or as it was, with all its seats.
fn renew(
    alloc: Global,
    hub: Hub,
    seats: Vec<Seat>,
    out: &mut String,
) -> Result<(Hub, Vec<Seat>), Fault>
    requires sincere { ⟦<Catalogue as Sincere>⟧.sincere hub.setup.catalogue }
    requires all { AreAllSeats (data_of hub.setup) hub.log seats.items }
    ensures sincere { IfOk result (λ made. ⟦<Catalogue as Sincere>⟧.sincere made.0.setup.catalogue) }
    ensures all { IfOk result (λ made. AreAllSeats (data_of made.0.setup) made.0.log made.1.items) }
{
    match hub.renew(alloc, Seats::from_vec(seats)) {
        Ok(
            Renewal {
                hub,
                seats,
                rows,
                live,
            },
        ) => {
            tell_renewal(rows.len(), live.len(), out)?;
            Ok((hub, seats.into_vec()))
        }
        Err(Unrenewed { fault, hub, seats }) => {
            tell_word(out, "stays")?;
            tell(out, &fault)?;
            Ok((hub, seats.into_vec()))
        }
    }
}

// Closes the hub, and tells how many rows its log has.
fn close(alloc: Global, hub: Hub, seats: Vec<Seat>, out: &mut String) -> Result<(), Fault>
    requires { AreAllSeats (data_of hub.setup) hub.log seats.items }
{
    let rows = hub.close(alloc, Seats::from_vec(seats))?;
    tell_word(out, "closed")?;
    tell(out, &rows.len())
}
