//! Renewing the hub of a lane at which all its other seats wait, and ending it.

ghost use Rattle.std.specs.Prelude.{◌≡◌, ◌≤◌, [], IfOk, IfErr, MatchOption, MatchResult, length, vec_capacity};
ghost use Rattle.std.specs.Arc.{arc_value};
ghost use Rattle.spin_word.specs.declared.command.TheConstants.{MAX_PLACE};
ghost use Rattle.spin_table.specs.SetupOf.{data_of};
ghost use Rattle.spin_homes.specs.Rule.{AreTicketsFrom};
ghost use Rattle.spin_table.specs.States.{State};
ghost use Rattle.spin_seat.specs.Parties.{IsWellParty};
ghost use Rattle.spin_seat.specs.RenewedHubs.{AreAllSeats};
ghost use Rattle.spin_seat.specs.Seats.{AreFrom};
ghost use Rattle.spin_c.specs.declared.ask.Ask.TheVariants as asked;
ghost use Rattle.spin_c.specs.Waiting.{AreHome, IfLane, IsWellAt, IsWellLane, seats_at};
ghost use Rattle.spin_c.specs.Renewing.{EndsTo, IsHistoryOf, IsLeft, IsMoved, IsStayed, RenewsTo, RenewsWhole};
ghost use Rattle.spin_c.specs.Renewing.{fault_told, number_before, row_at};
ghost use Rattle.spin_c.specs.Turns.{DoesHeld};

use crate::ask::Outcome;
use crate::gathering::{Apart, Laid, gather, lay, take_apart, why_not};
use crate::lane::{Held, Lane};
use spin_code::Sincere;
use spin_log::Rows;
use spin_objects::Catalogue;
use spin_seat::{CloseRoom, Party, RenewFault, Renewed, Stayed};
use spin_values::Numbers;
use std::alloc::Global;
use std::sync::Arc;

// What a renewal that fails is told as.
fn fault_told(fault: RenewFault) -> Outcome
    ensures { result ≡ fault_told fault }
{
    match fault {
        RenewFault::Full => Outcome::Full,
        RenewFault::NoMemory => Outcome::NoMemory,
    }
}

// Renews a hub, of which these are all seats, and lays those that it has then.
fn renew_apart(
    alloc: Global,
    party: &mut Party,
    apart: Apart,
) -> (Laid, Result<Numbers, RenewFault>)
    requires sincere { ⟦<Catalogue as Sincere>⟧.sincere party.old.hub.setup.catalogue }
    requires well { (first : State) × IsWellParty party.old first × AreFrom first apart.seats }
    requires all { AreAllSeats (data_of party.old.hub.setup) party.old.hub.log apart.seats }
    requires tickets { AreTicketsFrom party.old.homes.table.shared.table_id 0 apart.tickets }
    requires count { length apart.tickets ≡ length apart.seats }
    requires empty { apart.slots.items ≡ [] }
    requires places { length apart.seats ≤ vec_capacity apart.slots }
    ensures well { IsWellAt party.new result.0.away result.0.waiting result.0.room }
    ensures renews { MatchResult result.1
        (λ live. IsMoved party.old apart.seats party.new live result.0.away result.0.waiting)
        (λ why. IsStayed party.old apart.seats party.new why result.0.away result.0.waiting) }
{
    let Apart {
        seats,
        tickets,
        slots,
    } = apart;
    match party.renew(alloc, seats) {
        Ok(renewed) => {
            let Renewed {
                seats,
                tickets,
                live,
                ..
            } = renewed;
            let laid = lay(Apart {
                seats,
                tickets,
                slots,
            });
            (laid, Ok(live))
        }
        Err(stayed) => {
            let Stayed { fault, seats } = stayed;
            let laid = lay(Apart {
                seats,
                tickets,
                slots,
            });
            (laid, Err(fault))
        }
    }
}

// Renews the hub of a lane at which all its other seats wait.
fn renew_whole(alloc: Global, lane: Lane) -> (Lane, Outcome)
    requires sincere { ⟦<Catalogue as Sincere>⟧.sincere (arc_value lane.party).hub.setup.catalogue }
    requires well { IsWellLane lane }
    requires home { AreHome lane.waiting }
    ensures well { IsWellLane result.0 }
    ensures renews { RenewsWhole lane result.0 result.1 }
{
    let Lane {
        mut party,
        away,
        mut reply,
        waiting,
        room,
        before,
        lanes,
    } = lane;
    // All seats are there, so no other handle has the hub, or one is about to let go of it. Of when this call succeeds
    // the library says nothing, so that no proof can tell that; it is told by a number of its own.
    let Some(alone) = Arc::get_mut(&mut party) else {
        let lane = Lane {
            party,
            away,
            reply,
            waiting,
            room,
            before,
            lanes,
        };
        return (lane, Outcome::Shared);
    };
    let (laid, renewed) = renew_apart(alloc, alone, take_apart(away, waiting, room));
    let Laid {
        away,
        waiting,
        room,
    } = laid;
    match renewed {
        Ok(live) => {
            reply.forget();
            let lane = Lane {
                party,
                away,
                reply,
                waiting,
                room,
                before: live,
                lanes,
            };
            (lane, Outcome::Done)
        }
        Err(fault) => {
            let lane = Lane {
                party,
                away,
                reply,
                waiting,
                room,
                before,
                lanes,
            };
            (lane, fault_told(fault))
        }
    }
}

// Renews the hub of a lane, where all its other seats wait or are at home.
fn renew(alloc: Global, lane: Lane) -> (Lane, Outcome)
    requires sincere { ⟦<Catalogue as Sincere>⟧.sincere (arc_value lane.party).hub.setup.catalogue }
    requires well { IsWellLane lane }
    ensures well { IsWellLane result.0 }
    ensures renews { RenewsTo lane result.0 result.1 }
{
    let mut lane = lane;
    gather(alloc, &mut lane);
    match why_not(lane.waiting.as_slice()) {
        Some(why) => (lane, why),
        None => renew_whole(alloc, lane),
    }
}

// Renews the hub of what a handle holds.
pub(crate) fn renew_held(alloc: Global, held: Held) -> (Held, Outcome)
    requires sincere { IfLane held
        (λ l. ⟦<Catalogue as Sincere>⟧.sincere (arc_value l.party).hub.setup.catalogue) }
    requires well { IfLane held (λ l. IsWellLane l) }
    ensures well { IfLane result.0 (λ l. IsWellLane l) }
    ensures does { DoesHeld held asked.Renew result.0 result.1 }
{
    match held {
        Held::Lane(lane) => {
            let (lane, outcome) = renew(alloc, lane);
            (Held::Lane(lane), outcome)
        }
        Held::Ended(rows) => (Held::Ended(rows), Outcome::Ended),
    }
}

// Why the hub of a lane can't be ended, if it can't.
fn why_shared(lane: &Lane) -> Option<Outcome>
    ensures { MatchOption result (AreHome lane.now.waiting) (λ why. IsLeft lane.now.waiting why) }
{
    if let Some(why) = why_not(lane.waiting.as_slice()) {
        return Some(why);
    }
    if Arc::strong_count(&lane.party) == 1 {
        None
    } else {
        Some(Outcome::Shared)
    }
}

// Ends the hub of a lane at which all its other seats wait, for which there is room; or the lane is as it was.
fn close_whole(lane: Lane, close: CloseRoom) -> Result<Rows, Lane>
    requires well { IsWellLane lane }
    requires home { AreHome lane.waiting }
    requires room { length lane.waiting ≤ vec_capacity close.pens }
    ensures ok { IfOk result (λ rows.
        IsHistoryOf (data_of (arc_value lane.party).hub.setup) (seats_at lane) rows × (length rows ≤ MAX_PLACE)) }
    ensures err { IfErr result (λ l. l ≡ lane) }
{
    let Lane {
        party,
        away,
        reply,
        waiting,
        room,
        before,
        lanes,
    } = lane;
    match Arc::try_unwrap(party) {
        Ok(party) => {
            let Party { hub, .. } = party;
            let Apart { seats, .. } = take_apart(away, waiting, room);
            Ok(hub.close_into(close, seats))
        }
        Err(party) => Err(Lane {
            party,
            away,
            reply,
            waiting,
            room,
            before,
            lanes,
        }),
    }
}

// Ends the hub of a lane, where all its other seats wait or are at home.
fn end(alloc: Global, lane: Lane) -> (Held, Outcome)
    requires well { IsWellLane lane }
    ensures well { IfLane result.0 (λ l. IsWellLane l) }
    ensures ends { EndsTo lane result.0 result.1 }
{
    let mut lane = lane;
    gather(alloc, &mut lane);
    if let Some(why) = why_shared(&lane) {
        return (Held::Lane(lane), why);
    }
    let Ok(close) = CloseRoom::new(alloc, lane.waiting.len()) else {
        return (Held::Lane(lane), Outcome::NoMemory);
    };
    match close_whole(lane, close) {
        Ok(rows) => {
            let count = rows.len() as u16;
            (Held::Ended(rows), Outcome::Rows(count))
        }
        Err(lane) => (Held::Lane(lane), Outcome::Shared),
    }
}

// Ends the hub of what a handle holds.
pub(crate) fn end_held(alloc: Global, held: Held) -> (Held, Outcome)
    requires well { IfLane held (λ l. IsWellLane l) }
    ensures well { IfLane result.0 (λ l. IsWellLane l) }
    ensures does { DoesHeld held asked.End result.0 result.1 }
{
    match held {
        Held::Lane(lane) => end(alloc, lane),
        Held::Ended(rows) => (Held::Ended(rows), Outcome::Ended),
    }
}

// The number that the binding had which is now this index and 1.
pub(crate) fn before(numbers: &Numbers, index: u64) -> Outcome
    ensures { result ≡ number_before numbers.now index }
{
    match numbers.as_slice().get(index as usize) {
        Some(number) => Outcome::Before(*number),
        None => Outcome::NoBinding,
    }
}

// The row at an index of a log.
pub(crate) fn row_at(rows: &Rows, index: u64) -> Outcome
    ensures { result ≡ row_at rows.now index }
{
    match rows.as_slice().get(index as usize) {
        Some(row) => Outcome::Row(*row),
        None => Outcome::NoRow,
    }
}
