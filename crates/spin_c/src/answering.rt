//! The calls of the handle of an open raise.

ghost use Rattle.std.specs.Prelude.{◌≡◌, ◌≢◌, IfSome};
ghost use Rattle.std.specs.Arc.{arc_value};
ghost use Rattle.spin_c.specs.declared.moves.Move.TheVariants as wish;
ghost use Rattle.spin_c.specs.Moves.{IsLeftBy, Moves, MovesIn, idle_told, is_last};
ghost use Rattle.spin_c.specs.Raisings.{IfOpen, IsIdle, IsWellHeld, IsWellOpened};
ghost use Rattle.spin_c.specs.Uttered.{fault_told};

use crate::loose::Loose;
use crate::maybe::Maybe;
use crate::moves::{Move, MoveCall, Upshot};
use crate::raising::{Opened, Raising};
use crate::uttered::{fault_told, turn_told};
use spin_code::Sincere;
use spin_host::{AnswerFault, Gift, Room, Spare, Turn, nesting_ends};
use spin_objects::Catalogue;
use spin_values::NoMemory;
use std::alloc::Global;
use std::mem;

// Ends the raise, where one is open, and keeps its room.
fn leave(alloc: Global, raising: &mut Raising)
    ensures { IsIdle raising.new }
{
    let room = match mem::replace(raising, Raising::Idle(Room::new(alloc))) {
        Raising::Idle(room) => room,
        Raising::Open(opened) => {
            let Opened { raise, .. } = opened;
            raise.abandon()
        }
    };
    *raising = Raising::Idle(room);
}

// Tells why an answer isn't taken. For want of memory the raise is ended, since its answer may have been taken in part.
fn refuse(alloc: Global, raising: &mut Raising, fault: AnswerFault) -> Upshot
    ensures told { result ≡ fault_told fault }
    ensures left { IsLeftBy fault raising.old raising.new }
{
    if let AnswerFault::NoMemory = fault {
        leave(alloc, raising);
    }
    fault_told(fault)
}

// Whether the outermost raise ends.
fn is_last(turn: &Turn, around: usize) -> bool
    ensures { result ≡ is_last turn.now around }
{
    matches!(turn, Turn::Ended(_)) && around == 0
}

// Tells what comes next. Where there is no memory, or the outermost raise has ended, none is open any more.
fn next(alloc: Global, raising: &mut Raising) -> Upshot
    requires sincere { IfOpen raising.old
        (λ o. ⟦<Catalogue as Sincere>⟧.sincere (arc_value o.party).hub.setup.catalogue) }
    requires well { IfOpen raising.old (λ o. IsWellOpened o) }
    ensures well { IfOpen raising.new (λ o. IsWellOpened o) }
    ensures moves { MovesIn raising.old wish.Next raising.new result }
{
    let Raising::Open(opened) = raising else {
        return Upshot::Closed;
    };
    // so many that their number has room
    nesting_ends();
    let setup = opened.party.hub.setup();
    let _events = setup.events();
    let around = opened.raise.around();
    match opened.raise.next(setup) {
        Ok(turn) => {
            if is_last(&turn, around) {
                leave(alloc, raising);
            }
            Upshot::Told(turn_told(turn, around as u32))
        }
        Err(NoMemory) => {
            leave(alloc, raising);
            Upshot::NoMemory
        }
    }
}

// Does the declared act of what is due.
fn do_act(alloc: Global, raising: &mut Raising) -> Upshot
    requires sincere { IfOpen raising.old
        (λ o. ⟦<Catalogue as Sincere>⟧.sincere (arc_value o.party).hub.setup.catalogue) }
    requires well { IfOpen raising.old (λ o. IsWellOpened o) }
    ensures well { IfOpen raising.new (λ o. IsWellOpened o) }
    ensures moves { MovesIn raising.old wish.Do raising.new result }
{
    let Raising::Open(opened) = raising else {
        return Upshot::Closed;
    };
    match opened.raise.do_act(alloc, opened.party.hub.setup()) {
        Ok(()) => Upshot::Gave(opened.raise.given().len() as u64),
        Err(fault) => refuse(alloc, raising, fault),
    }
}

// Takes what the host's own handler gave, and the spare lists that were lent for it.
fn gave(alloc: Global, raising: &mut Raising, gift: Gift, spare: Spare) -> Upshot
    requires well { IfOpen raising.old (λ o. IsWellOpened o) }
    ensures well { IfOpen raising.new (λ o. IsWellOpened o) }
    ensures moves { MovesIn raising.old (wish.Gave gift spare) raising.new result }
{
    let Raising::Open(opened) = raising else {
        return Upshot::Closed;
    };
    let mut gift = gift;
    opened.raise.take_back(spare);
    let answered = opened.raise.gave(opened.party.hub.setup(), &mut gift);
    opened.raise.keep_gift(gift);
    match answered {
        Ok(()) => Upshot::Gave(opened.raise.given().len() as u64),
        Err(fault) => refuse(alloc, raising, fault),
    }
}

// Ends the raise, if one is open.
fn abandon(alloc: Global, raising: &mut Raising) -> Upshot
    ensures { MovesIn raising.old wish.Abandon raising.new result }
{
    if let Raising::Idle(_) = raising {
        return Upshot::Closed;
    }
    leave(alloc, raising);
    Upshot::Done
}

// Lends the room of the last raise, and takes it back.
#[inline(always)]
fn turn_idle(alloc: Global, room: &mut Room, asked: Move) -> Upshot
    ensures same { room.new ≡ room.old }
    ensures told { result ≡ idle_told asked }
{
    match asked {
        Move::LendIdle => Upshot::Lent(mem::replace(&mut room.spare, Spare::new(alloc))),
        Move::Keep(spare) => {
            room.spare = spare;
            Upshot::Done
        }
        _ => Upshot::Closed,
    }
}

// Does what is asked of what the handle holds, but to close it.
#[inline(always)]
fn turn_raising(alloc: Global, raising: &mut Raising, asked: Move) -> Upshot
    requires sincere { IfOpen raising.old
        (λ o. ⟦<Catalogue as Sincere>⟧.sincere (arc_value o.party).hub.setup.catalogue) }
    requires well { IfOpen raising.old (λ o. IsWellOpened o) }
    requires not_forget { asked ≢ wish.Forget }
    ensures well { IfOpen raising.new (λ o. IsWellOpened o) }
    ensures moves { MovesIn raising.old asked raising.new result }
{
    match asked {
        Move::Next => next(alloc, raising),
        Move::Do => do_act(alloc, raising),
        Move::Gave { gift, spare } => gave(alloc, raising, gift, spare),
        Move::Abandon => abandon(alloc, raising),
        _ => match raising {
            Raising::Idle(room) => turn_idle(alloc, room, asked),
            Raising::Open(opened) => opened.turn(alloc, asked),
        },
    }
}

// Does the call on what the handle holds.
#[inline(always)]
pub(crate) fn move_maybe(maybe: Maybe<Raising>, call: MoveCall) -> (Maybe<Raising>, Upshot)
    requires sincere { IfSome maybe.value (λ r. IfOpen r
        (λ o. ⟦<Catalogue as Sincere>⟧.sincere (arc_value o.party).hub.setup.catalogue)) }
    requires well { IsWellHeld maybe.value }
    ensures well { IsWellHeld result.0.value }
    ensures moves { Moves maybe.value call.asked result.0.value result.1 }
{
    let MoveCall { alloc, asked } = call;
    let Some(loose) = maybe.into_loose() else {
        return match asked {
            Move::LendIdle => (Maybe::none(alloc), Upshot::Lent(Spare::new(alloc))),
            _ => (Maybe::none(alloc), Upshot::Closed),
        };
    };
    let mut raising = loose.into_box();
    if let Move::Forget = asked {
        return (Maybe::none(alloc), Upshot::Done);
    }
    let told = turn_raising(alloc, &mut raising, asked);
    (Maybe::of(Loose::of(raising)), told)
}

// Tells what comes next in what the handle holds.
pub(crate) fn next_maybe(maybe: Maybe<Raising>, alloc: Global) -> (Maybe<Raising>, Upshot)
    requires sincere { IfSome maybe.value (λ r. IfOpen r
        (λ o. ⟦<Catalogue as Sincere>⟧.sincere (arc_value o.party).hub.setup.catalogue)) }
    requires well { IsWellHeld maybe.value }
    ensures well { IsWellHeld result.0.value }
    ensures moves { Moves maybe.value wish.Next result.0.value result.1 }
{
    let Some(loose) = maybe.into_loose() else {
        return (Maybe::none(alloc), Upshot::Closed);
    };
    let mut raising = loose.into_box();
    let told = next(alloc, &mut raising);
    (Maybe::of(Loose::of(raising)), told)
}
