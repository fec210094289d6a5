//! Opening a raise on a lane's version.

ghost use Rattle.std.specs.Prelude.{◌≡◌, IfOk, IfSome, MatchOption, MatchResult, None, OnErr, OnOk, Some};
ghost use Rattle.std.specs.Arc.{arc_value};
ghost use Rattle.spin_table.specs.SetupOf.{data_of};
ghost use Rattle.spin_seat.specs.Calls.{AddsAtMostAPin};
ghost use Rattle.spin_seat.specs.Seats.{version_of};
ghost use Rattle.spin_c.specs.Beginnings.{Begins, BeginsHeld, BeginsIn, BeginsOn, IsPinned, missed_on};
ghost use Rattle.spin_c.specs.Raisings.{IfOpen, IsWellHeld, IsWellOpened, IsIdle};
ghost use Rattle.spin_c.specs.Waiting.{IfLane, IsWell, IsWellLane, KeepsHub};

use crate::lane::{Held, Lane};
use crate::loose::Loose;
use crate::maybe::Maybe;
use crate::moves::{Begin, Upshot};
use crate::raising::{Opened, Raising};
use crate::uttered::refusal_told;
use spin_code::Sincere;
use spin_host::{OpenRaise, Room, begin_fault};
use spin_objects::Catalogue;
use spin_seat::Party;
use spin_table::Version;
use spin_values::NoMemory;
use std::alloc::Global;
use std::mem;
use std::sync::Arc;

// Reads the log on to its end, as a raise does, and has a pin there; and tells the place. It takes no memory where nothing
// is to be read.
#[inline(always)]
fn pin(alloc: Global, lane: &mut Lane) -> Result<u16, NoMemory>
    requires sincere { ⟦<Catalogue as Sincere>⟧.sincere (arc_value lane.old.party).hub.setup.catalogue }
    requires well { IsWellLane lane.old }
    ensures well { IsWellLane lane.new }
    ensures keeps { KeepsHub lane.old lane.new × (lane.new.reply ≡ lane.old.reply) }
    ensures pinned { MatchResult result
        (IsPinned (data_of (arc_value lane.old.party).hub.setup) lane.old.away.seat lane.new.away.seat)
        (λ _. AddsAtMostAPin lane.old.away.seat.pen lane.new.away.seat.pen) }
{
    lane.away.seat.pin_version(alloc, &lane.party.hub)
}

// A share of the lane's hub, and of its version.
fn shares(lane: &Lane) -> Result<(Arc<Party>, Arc<Version>), NoMemory>
    ensures { IfOk result (λ shares. (arc_value shares.0 ≡ arc_value lane.now.party)
        × (arc_value shares.1 ≡ version_of lane.now.away.seat)) }
{
    let party = Arc::try_clone(&lane.party)?;
    let version = lane.away.seat.version()?;
    Ok((party, version))
}

// Opens a raise on the version of a lane's hub at the end of its log, in the room of the last one; or says why not.
#[inline(always)]
fn begin_on(lane: &mut Lane, room: Room, begin: Begin) -> (Raising, Upshot)
    requires sincere { ⟦<Catalogue as Sincere>⟧.sincere (arc_value lane.old.party).hub.setup.catalogue }
    requires well { IsWellLane lane.old }
    ensures well { IsWellLane lane.new }
    ensures raising_well { IfOpen result.0 (λ o. IsWellOpened o) }
    ensures begins { BeginsOn lane.old begin.event begin.args lane.new result.0 result.1 }
{
    let Begin {
        alloc,
        event,
        args,
        spare,
    } = begin;
    let mut room = room;
    room.spare = spare;
    let Ok(place) = pin(alloc, lane) else {
        return (Raising::Idle(room), Upshot::NoMemory);
    };
    if let Some(fault) = begin_fault(lane.party.hub.setup(), event, &args) {
        room.spare.keep_args(args);
        return (Raising::Idle(room), refusal_told(place, fault));
    }
    let Ok((party, version)) = shares(lane) else {
        return (Raising::Idle(room), Upshot::NoMemory);
    };
    let raise = OpenRaise::begin_in(room, version, party.hub.setup(), event, args);
    (Raising::Open(Opened { party, raise }), Upshot::Begun(place))
}

// Opens a raise on what a lane's handle holds, in the room of the last one.
#[inline(always)]
fn begin_held(held: &mut Held, room: Room, begin: Begin) -> (Raising, Upshot)
    requires sincere { IfLane held.old
        (λ l. ⟦<Catalogue as Sincere>⟧.sincere (arc_value l.party).hub.setup.catalogue) }
    requires well { IfLane held.old (λ l. IsWellLane l) }
    ensures well { IfLane held.new (λ l. IsWellLane l) }
    ensures raising_well { IfOpen result.0 (λ o. IsWellOpened o) }
    ensures begins { BeginsHeld held.old begin.event begin.args held.new result.0 result.1 }
{
    match held {
        Held::Lane(lane) => begin_on(lane, room, begin),
        Held::Ended(_) => {
            let mut room = room;
            room.spare = begin.spare;
            (Raising::Idle(room), Upshot::Ended)
        }
    }
}

// Opens a raise on what a lane's handle holds, where none is open.
#[inline(always)]
fn begin_in(held: &mut Held, raising: &mut Raising, begin: Begin) -> Upshot
    requires sincere { IfLane held.old
        (λ l. ⟦<Catalogue as Sincere>⟧.sincere (arc_value l.party).hub.setup.catalogue) }
    requires well { IfLane held.old (λ l. IsWellLane l) }
    requires raising_well { IfOpen raising.old (λ o. IsWellOpened o) }
    ensures well { IfLane held.new (λ l. IsWellLane l) }
    ensures raising_well { IfOpen raising.new (λ o. IsWellOpened o) }
    ensures begins { BeginsIn held.old raising.old begin.event begin.args held.new raising.new result }
{
    let alloc = begin.alloc;
    match mem::replace(raising, Raising::Idle(Room::new(alloc))) {
        Raising::Open(opened) => {
            *raising = Raising::Open(opened);
            Upshot::Open
        }
        Raising::Idle(room) => {
            let (after, told) = begin_held(held, room, begin);
            *raising = after;
            told
        }
    }
}

// What is told where there is no memory for the handle of a raise, which is as it was, and so is the lane's.
fn missed(alloc: Global, loose: Loose<Held, Global>) -> (Maybe<Held>, Maybe<Raising>, Upshot)
    ensures held { result.0.value ≡ Some loose.value }
    ensures raising { result.1.value ≡ None }
    ensures told { result.2 ≡ missed_on loose.value }
{
    let held = loose.into_box();
    let told = match &*held {
        Held::Lane(_) => Upshot::NoMemory,
        Held::Ended(_) => Upshot::Ended,
    };
    (Maybe::of(Loose::of(held)), Maybe::none(alloc), told)
}

// Opens a raise on a lane's handle.
#[inline(always)]
pub(crate) fn begin_maybe(
    maybe: Maybe<Held>,
    other: Maybe<Raising>,
    begin: Begin,
) -> (Maybe<Held>, Maybe<Raising>, Upshot)
    requires sincere { IfSome maybe.value (λ h. IfLane h
        (λ l. ⟦<Catalogue as Sincere>⟧.sincere (arc_value l.party).hub.setup.catalogue)) }
    requires well { IsWell maybe.value }
    requires raising_well { IsWellHeld other.value }
    ensures well { IsWell result.0.value }
    ensures raising_well { IsWellHeld result.1.value }
    ensures begins { Begins maybe.value other.value begin.event begin.args result.0.value result.1.value result.2 }
{
    let alloc = begin.alloc;
    let Some(loose) = maybe.into_loose() else {
        return (Maybe::none(alloc), other, Upshot::Closed);
    };
    let mut raising = match other.into_loose() {
        Some(open) => open.into_box(),
        None => match Box::new(alloc, Raising::Idle(Room::new(alloc))) {
            Ok(raising) => raising,
            Err(_) => return missed(alloc, loose),
        },
    };
    let mut held = loose.into_box();
    let told = begin_in(&mut held, &mut raising, begin);
    (
        Maybe::of(Loose::of(held)),
        Maybe::of(Loose::of(raising)),
        told,
    )
}
