//! Handing out the seats of other lanes, and letting go of a seat.

ghost use Rattle.std.specs.Prelude.{◌≡◌, ◌≢◌, [], slice_get, slice_set};
ghost use Rattle.std.specs.Prelude.{None, Some, IfOk, MatchOption, MatchResult};
ghost use Rattle.spin_c.specs.Waiting.{IfLane, IsLaneAnd, IsWell, IsWellLane};
ghost use Rattle.spin_c.specs.declared.ask.Outcome.TheVariants as outcome;
ghost use Rattle.spin_c.specs.Shares.{IsNoShare, IsShare, Shares, SharesTo};
ghost use Rattle.spin_c.specs.Turns.{IsKept};

use crate::ask::{Outcome, Pick};
use crate::gathering::fetch;
use crate::kept::Kept;
use crate::lane::{Held, Lane, Room, Waiting};
use crate::loose::Loose;
use crate::maybe::Maybe;
use spin_seat::Away;
use spin_values::Numbers;
use std::alloc::Global;
use std::mem;
use std::sync::Arc;

// Takes out the seat at an index, or tells why there is none.
fn take(slots: &mut [Option<Away>], at: usize) -> Result<Away, Outcome>
    ensures taken { MatchResult result
        (λ away. slice_get slots.old at ≡ Some (Some away))
        (λ why. IsNoShare slots.old at why) }
    ensures left { MatchResult result
        (λ _. slots.new ≡ slice_set slots.old at None)
        (λ _. slots.new ≡ slots.old) }
{
    if at >= slots.len() {
        return Err(Outcome::NoLane);
    }
    match slots[at].take() {
        Some(away) => Ok(away),
        None => Err(Outcome::Taken),
    }
}

// Takes out the seat of a lane that waits, or tells why there is none.
fn take_waiting(alloc: Global, waiting: &mut Waiting, at: usize) -> Result<Away, Outcome>
    ensures taken { MatchResult result
        (λ away. slice_get waiting.old at ≡ Some (Some away))
        (λ why. IsNoShare waiting.old at why) }
    ensures left { MatchResult result
        (λ _. waiting.new ≡ slice_set waiting.old at None)
        (λ _. waiting.new ≡ waiting.old) }
{
    let mut slots = mem::replace(waiting, Waiting::new(alloc)).into_vec();
    let taken = take(slots.as_mut_slice(), at);
    *waiting = Waiting::from_vec(slots);
    taken
}

// The lane of a seat that waits, or why there is none.
fn share(alloc: Global, lane: &mut Lane, number: u8) -> Result<Box<Held>, Outcome>
    requires well { IsWellLane lane.old }
    ensures well { IsWellLane lane.new }
    ensures share_well { IfOk result (λ share. IfLane share.value (λ s. IsWellLane s)) }
    ensures shares { MatchResult result
        (λ share. IsLaneAnd share.value (λ s. IsShare lane.old number lane.new s))
        (λ why. (lane.new ≡ lane.old) × IsNoShare lane.old.waiting number why) }
{
    let at = usize::from(number);
    let away = take_waiting(alloc, &mut lane.waiting, at)?;
    let Ok(party) = Arc::try_clone(&lane.party) else {
        lane.waiting.replace(at, Some(away));
        return Err(Outcome::NoMemory);
    };
    let share = Held::Lane(Lane {
        party,
        away,
        reply: Kept::new(alloc),
        waiting: Waiting::new(alloc),
        room: Room::none(alloc),
        before: Numbers::new(alloc),
        lanes: lane.lanes,
    });
    match Box::new(alloc, share) {
        Ok(share) => Ok(share),
        Err(failed) => {
            let Held::Lane(back) = failed.value else {
                unreachable!()
            };
            let Lane { away, .. } = back;
            lane.waiting.replace(at, Some(away));
            Err(Outcome::NoMemory)
        }
    }
}

// The lane of a seat that waits or is at home, or why there is none.
fn hand_out(alloc: Global, held: &mut Held, number: u8) -> Result<Box<Held>, Outcome>
    requires well { IfLane held.old (λ l. IsWellLane l) }
    ensures well { IfLane held.new (λ l. IsWellLane l) }
    ensures share_well { IfOk result (λ share. IfLane share.value (λ s. IsWellLane s)) }
    ensures shares { MatchResult result
        (λ share. SharesTo held.old number held.new (Some share.value) outcome.Done)
        (λ why. SharesTo held.old number held.new None why) }
{
    match held {
        Held::Lane(lane) => {
            fetch(alloc, lane, usize::from(number));
            share(alloc, lane, number)
        }
        Held::Ended(_) => Err(Outcome::Ended),
    }
}

// Hands out the seat of a lane that waits or is at home, from an open handle to a closed one.
pub(crate) fn hand_out_maybe(
    maybe: Maybe<Held>,
    other: Maybe<Held>,
    pick: Pick,
) -> (Maybe<Held>, Maybe<Held>, Outcome)
    requires well { IsWell maybe.value }
    requires other { IsWell other.value }
    ensures well { IsWell result.0.value }
    ensures other { IsWell result.1.value }
    ensures shares { Shares maybe.value other.value pick.number result.0.value result.1.value result.2 }
{
    let Pick { alloc, number } = pick;
    let Some(loose) = maybe.into_loose() else {
        return (Maybe::none(alloc), other, Outcome::Closed);
    };
    if let Some(open) = other.into_loose() {
        return (Maybe::of(loose), Maybe::of(open), Outcome::Open);
    }
    let mut held = loose.into_box();
    match hand_out(alloc, &mut held, number) {
        Ok(share) => (
            Maybe::of(Loose::of(held)),
            Maybe::of(Loose::of(share)),
            Outcome::Done,
        ),
        Err(why) => (Maybe::of(Loose::of(held)), Maybe::none(alloc), why),
    }
}

// Lets go of a lane. A seat that was handed out goes home.
fn let_go(lane: Lane)
    requires { IsWellLane lane }
{
    let Lane {
        party,
        away,
        waiting,
        ..
    } = lane;
    if waiting.is_empty() {
        party.give(away);
    }
}

// Lets go of what a handle holds.
pub(crate) fn let_go_held(held: Held)
    requires { IfLane held (λ l. IsWellLane l) }
{
    if let Held::Lane(lane) = held {
        let_go(lane);
    }
}

// Why what a handle holds isn't a seat that was handed out, if it isn't.
pub(crate) fn why_kept(held: &Held) -> Option<Outcome>
    ensures { MatchOption result (IsLaneAnd held.now (λ l. l.waiting ≡ [])) (λ why. IsKept held.now why) }
{
    match held {
        Held::Lane(lane) => {
            if lane.waiting.is_empty() {
                None
            } else {
                Some(Outcome::NoLane)
            }
        }
        Held::Ended(_) => Some(Outcome::Ended),
    }
}
