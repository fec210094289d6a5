//! The seats that are at home, which the handle takes in with which their hub was opened; and all seats in a list.

ghost use Rattle.std.specs.Prelude.{◌≡◌, ◌≢◌, ◌↔◌, ◌<◌, ◌≤◌, [], ◌∷◌, IsTrue, MatchOption, drop, length, map};
ghost use Rattle.std.specs.Prelude.{vec_capacity};
ghost use Rattle.spin_table.specs.States.{State};
ghost use Rattle.spin_seat.specs.Parties.{IsWellParty};
ghost use Rattle.spin_c.specs.Waiting.{AreHome, AreLaid, AreTakenIn, HasRoom, IsAwayAt, IsHome, IsWellLane};
ghost use Rattle.spin_c.specs.Waiting.{TakesIn, missing, present};
ghost use Rattle.spin_c.specs.Renewing.{Gathers, IsLeft};

use crate::ask::Outcome;
use crate::lane::{Lane, Room, Waiting};
use spin_seat::{Away, Party, SeatTickets, Seats};
use std::alloc::Global;
use std::mem;

// The seats of all lanes with their tickets, in order, and room for those that wait.
#[derive(Drop)]
pub(crate) struct Apart {
    pub(crate) seats: Seats,
    pub(crate) tickets: SeatTickets,
    pub(crate) slots: Vec<Option<Away>>,
}

// The first of these seats, the others, which wait, and room for all.
#[derive(Drop)]
pub(crate) struct Laid {
    pub(crate) away: Away,
    pub(crate) waiting: Waiting,
    pub(crate) room: Room,
}

// Takes the seat of this lane in, where it is at home.
fn take_in(party: &Party, slots: &mut [Option<Away>], at: usize)
    requires within { at < length slots.old }
    requires few { length slots.old ≤ party.now.hub.log.lanes }
    requires well { (first : State) × IsWellParty party.now first }
    ensures { (first : State) → IsWellParty party.now first
        → AreTakenIn (IsAwayAt party.now first) 0 slots.old slots.new }
{
    if slots[at].is_none() {
        slots[at] = party.take(at);
    }
}

// Takes in each seat of another lane that is at home.
fn take_all_in(party: &Party, slots: &mut [Option<Away>])
    requires few { length slots.old ≤ party.now.hub.log.lanes }
    requires well { (first : State) × IsWellParty party.now first }
    ensures { (first : State) → IsWellParty party.now first
        → AreTakenIn (IsAwayAt party.now first) 0 slots.old slots.new }
{
    for at in 1..slots.len() {
        take_in(party, slots, at);
    }
}

// Takes in each seat of another lane that is at home.
pub(crate) fn gather(alloc: Global, lane: &mut Lane)
    requires well { IsWellLane lane.old }
    ensures well { IsWellLane lane.new }
    ensures taken { TakesIn lane.old lane.new }
    ensures places { length lane.new.waiting ≡ length lane.old.waiting }
{
    let mut slots = mem::replace(&mut lane.waiting, Waiting::new(alloc)).into_vec();
    take_all_in(&lane.party, slots.as_mut_slice());
    lane.waiting = Waiting::from_vec(slots);
}

// Takes the seat of this lane in, where it is at home.
pub(crate) fn fetch(alloc: Global, lane: &mut Lane, at: usize)
    requires well { IsWellLane lane.old }
    ensures well { IsWellLane lane.new }
    ensures taken { TakesIn lane.old lane.new }
{
    if at >= lane.waiting.len() {
        return;
    }
    let mut slots = mem::replace(&mut lane.waiting, Waiting::new(alloc)).into_vec();
    take_in(&lane.party, slots.as_mut_slice(), at);
    lane.waiting = Waiting::from_vec(slots);
}

// How many seats of other lanes don't wait.
fn count_missing(waiting: &[Option<Away>]) -> u64
    ensures { result ≡ missing waiting.now }
{
    let _places = waiting.len();
    let mut count = 0u64;
    for slot in waiting {
        if slot.is_none() {
            count += 1;
        }
    }
    count
}

// Gathers, and tells how many seats are still out.
pub(crate) fn tell_missing(alloc: Global, lane: &mut Lane) -> Outcome
    requires well { IsWellLane lane.old }
    ensures well { IsWellLane lane.new }
    ensures gathers { Gathers lane.old lane.new result }
{
    if lane.waiting.is_empty() {
        return Outcome::NoLane;
    }
    gather(alloc, lane);
    Outcome::Out(count_missing(&lane.waiting.as_slice()[1..]))
}

// Whether a seat waits.
fn is_home(slot: &Option<Away>) -> bool
    ensures { IsTrue result ↔ IsHome slot.now }
{
    slot.is_some()
}

// Why a hub can't be renewed or ended at a lane where these wait, if it can't.
pub(crate) fn why_not(waiting: &[Option<Away>]) -> Option<Outcome>
    ensures { MatchOption result (AreHome waiting.now)
        (λ why. IsLeft waiting.now why) }
{
    if waiting.is_empty() {
        return Some(Outcome::NoLane);
    }
    if waiting[1..].iter().all(|slot| is_home(slot)) {
        None
    } else {
        Some(Outcome::Taken)
    }
}

// This seat and then those that wait, each with its ticket, in the room that there is.
pub(crate) fn take_apart(away: Away, waiting: Waiting, room: Room) -> Apart
    requires some { 0 < length waiting }
    requires room { HasRoom (length waiting) room }
    ensures seats { result.seats ≡ map (λ a. a.seat) (away ∷ present (drop 1 waiting)) }
    ensures tickets { result.tickets ≡ map (λ a. a.ticket) (away ∷ present (drop 1 waiting)) }
    ensures empty { result.slots.items ≡ [] }
    ensures places { length waiting ≤ vec_capacity result.slots }
{
    let Room {
        mut seats,
        mut tickets,
    } = room;
    let mut slots = waiting.into_vec();
    let Away { ticket, seat } = away;
    seats.push_reserved(seat);
    tickets.push_reserved(ticket);
    let _own = slots.remove(0);
    while !slots.is_empty() {
        if let Some(Away { ticket, seat }) = slots.remove(0) {
            seats.push_reserved(seat);
            tickets.push_reserved(ticket);
        }
    }
    Apart {
        seats: Seats::from_vec(seats),
        tickets: SeatTickets::from_vec(tickets),
        slots,
    }
}

// The first of these seats, at which the others wait.
pub(crate) fn lay(apart: Apart) -> Laid
    requires some { 0 < length apart.seats }
    requires tickets { length apart.tickets ≡ length apart.seats }
    requires empty { apart.slots.items ≡ [] }
    requires places { length apart.seats ≤ vec_capacity apart.slots }
    ensures laid { AreLaid apart.seats apart.tickets result.away result.waiting }
    ensures room { HasRoom (length apart.seats) result.room }
{
    let Apart {
        seats,
        tickets,
        mut slots,
    } = apart;
    let (mut seats, mut tickets) = (seats.into_vec(), tickets.into_vec());
    let (seat, ticket) = (seats.remove(0), tickets.remove(0));
    let away = Away { ticket, seat };
    slots.push_reserved(None);
    while !seats.is_empty() {
        let (seat, ticket) = (seats.remove(0), tickets.remove(0));
        slots.push_reserved(Some(Away { ticket, seat }));
    }
    Laid {
        away,
        waiting: Waiting::from_vec(slots),
        room: Room { seats, tickets },
    }
}
