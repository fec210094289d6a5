//! Hubs that are renewed: what is bound stays bound under its new number, and all else goes on.

ghost use Rattle.std.specs.Prelude.{◌≡◌, ◌∷◌, [], IfOk, IfSome, IsTrue};
ghost use Rattle.spin_word.specs.Commands.{is_command};
ghost use Rattle.spin_log.specs.Pens.{IsSamePen};
ghost use Rattle.spin_table.specs.SetupOf.{data_of};
ghost use Rattle.spin_seat.specs.Seats.{IsSeat};
ghost use Rattle.spin_seat.specs.RenewedHubs.{AreAllSeats};

use spin_code::Sincere;
use spin_objects::{Catalogue, Natives};
use spin_proto::{Deed, Reply};
use spin_raise::Answer;
use spin_script::{Script, read_script};
use spin_seat::{Hub, Judged, RenewFault, Renewal, Seat, SeatFault, Seats, Unrenewed, Verdicted};
use spin_table::Refusal;
use spin_values::{Args, NoMemory};
use spin_word::{Command, MAX_PLACE, NO_BINDING, Op, is_valid};
use std::alloc::Global;
use std::test::Fail;

// Two events whose answers tell the order of their handlers, which give 1, 2 and 3; and such an event with an owner that
// lets nobody install a third handler.
const FREE: &[u8] =
    b"spin 1\nevent 0 0 -:w fold + + a0 a0 a1\nevent 1 0 -:w fold + + a0 a0 a1\nhandler 1 -:w result 1\nhandler 2 -:w result 2\nhandler 3 -:w result 3\n";

const DENIED: &[u8] =
    b"spin 1\nmodules 2\nevent 0 1 -:w fold + + a0 a0 a1\nhandler 1 -:w result 1\nhandler 2 -:w result 2\nhandler 3 -:w result 3\nrule 0 0 255 install any all quota 2\nrule 0 0 255 any any all allow\n";

// What is asked of a seat about an event: to bind a handler, also before or after a binding, to remove a binding, to set
// the default, once or until the log is full, or to raise the event.
#[derive(Clone, Copy)]
enum Asked {
    Install(u16),
    Before(u16, u16),
    After(u16, u16),
    Remove(u16),
    Default(u16),
    Fill(u16),
    Raise,
}

// What it says.
#[derive(Clone, Copy, PartialEq)]
enum Answered {
    Accepted,
    UnknownBinding,
    Denied,
    OtherRefusal,
    Full,
    Value(u64),
    ByDefault(u64),
    NoValue,
}

// An event, what is asked about it, and the place and the words of the answer.
type Line = (u8, Asked, u16, Answered);

// What is asked up to a renewal, and the numbers that the live bindings have then.
#[derive(Clone, Copy)]
struct Round {
    said: &'static [Line],
    live: &'static [u16],
}

// A script, and the rounds of its hub.
#[derive(Clone, Copy)]
struct Case {
    script: &'static [u8],
    rounds: &'static [Round],
}

const CASES: [Case; 7] = [
    // Nothing is bound.
    Case {
        script: FREE,
        rounds: &[
            Round {
                said: &[(0, Asked::Raise, 0, Answered::NoValue)],
                live: &[],
            },
            Round {
                said: &[
                    (0, Asked::Raise, 0, Answered::NoValue),
                    (0, Asked::Install(1), 1, Answered::Accepted),
                    (0, Asked::Raise, 1, Answered::Value(1)),
                ],
                live: &[1],
            },
        ],
    },
    // All is removed again.
    Case {
        script: FREE,
        rounds: &[
            Round {
                said: &[
                    (0, Asked::Install(1), 1, Answered::Accepted),
                    (0, Asked::Install(2), 2, Answered::Accepted),
                    (0, Asked::Remove(2), 3, Answered::Accepted),
                    (0, Asked::Remove(1), 4, Answered::Accepted),
                ],
                live: &[],
            },
            Round {
                said: &[
                    (0, Asked::Remove(1), 0, Answered::UnknownBinding),
                    (0, Asked::Raise, 0, Answered::NoValue),
                ],
                live: &[],
            },
        ],
    },
    // A constraint on a live binding stays: what went before the second still does.
    Case {
        script: FREE,
        rounds: &[
            Round {
                said: &[
                    (0, Asked::Install(1), 1, Answered::Accepted),
                    (0, Asked::Install(2), 2, Answered::Accepted),
                    (0, Asked::Before(3, 2), 3, Answered::Accepted),
                    (0, Asked::Remove(1), 4, Answered::Accepted),
                ],
                live: &[2, 3],
            },
            Round {
                said: &[
                    (0, Asked::Raise, 2, Answered::Value(8)),
                    (0, Asked::After(1, 1), 3, Answered::Accepted),
                    (0, Asked::Raise, 3, Answered::Value(17)),
                    (0, Asked::Remove(2), 4, Answered::Accepted),
                    (0, Asked::Raise, 4, Answered::Value(5)),
                ],
                live: &[1, 3],
            },
        ],
    },
    // A constraint on a dead binding lapses: a new binding that gets its number isn't bound by it.
    Case {
        script: FREE,
        rounds: &[
            Round {
                said: &[
                    (0, Asked::Install(1), 1, Answered::Accepted),
                    (0, Asked::Install(2), 2, Answered::Accepted),
                    (0, Asked::Before(3, 2), 3, Answered::Accepted),
                    (0, Asked::Remove(2), 4, Answered::Accepted),
                ],
                live: &[1, 3],
            },
            Round {
                said: &[
                    (0, Asked::Raise, 2, Answered::Value(5)),
                    (0, Asked::Before(2, 1), 3, Answered::Accepted),
                    (0, Asked::Raise, 3, Answered::Value(17)),
                ],
                live: &[1, 2, 3],
            },
        ],
    },
    // The default stays.
    Case {
        script: FREE,
        rounds: &[
            Round {
                said: &[
                    (0, Asked::Default(3), 1, Answered::Accepted),
                    (0, Asked::Install(1), 2, Answered::Accepted),
                    (0, Asked::Remove(2), 3, Answered::Accepted),
                ],
                live: &[],
            },
            Round {
                said: &[
                    (0, Asked::Raise, 0, Answered::ByDefault(3)),
                    (0, Asked::Install(2), 1, Answered::Accepted),
                    (0, Asked::Raise, 1, Answered::Value(2)),
                ],
                live: &[1],
            },
        ],
    },
    // Bindings of two events are numbered in one order, and each event keeps its own and its default.
    Case {
        script: FREE,
        rounds: &[
            Round {
                said: &[
                    (0, Asked::Default(3), 1, Answered::Accepted),
                    (0, Asked::Install(1), 2, Answered::Accepted),
                    (1, Asked::Install(1), 3, Answered::Accepted),
                    (0, Asked::Install(2), 4, Answered::Accepted),
                    (0, Asked::Before(3, 4), 5, Answered::Accepted),
                    (0, Asked::Remove(2), 6, Answered::Accepted),
                    (1, Asked::After(2, 3), 7, Answered::Accepted),
                    (1, Asked::Default(2), 8, Answered::Accepted),
                ],
                live: &[3, 4, 5, 7],
            },
            Round {
                said: &[
                    (0, Asked::Raise, 4, Answered::Value(8)),
                    (1, Asked::Raise, 4, Answered::Value(4)),
                    (0, Asked::Remove(1), 4, Answered::UnknownBinding),
                    (1, Asked::Remove(1), 5, Answered::Accepted),
                    (1, Asked::Remove(4), 6, Answered::Accepted),
                    (1, Asked::Raise, 6, Answered::ByDefault(2)),
                ],
                live: &[2, 3],
            },
            Round {
                said: &[
                    (0, Asked::Raise, 2, Answered::Value(8)),
                    (0, Asked::Remove(1), 3, Answered::Accepted),
                    (0, Asked::Remove(2), 4, Answered::Accepted),
                    (0, Asked::Raise, 4, Answered::ByDefault(3)),
                ],
                live: &[],
            },
        ],
    },
    // The owner isn't asked again: what it would deny now stays bound, and is denied to whoever asks.
    Case {
        script: DENIED,
        rounds: &[
            Round {
                said: &[
                    (0, Asked::Install(1), 1, Answered::Accepted),
                    (0, Asked::Install(2), 2, Answered::Accepted),
                ],
                live: &[1, 2],
            },
            Round {
                said: &[
                    (0, Asked::Raise, 2, Answered::Value(4)),
                    (0, Asked::Install(3), 2, Answered::Denied),
                    (0, Asked::Remove(1), 3, Answered::Accepted),
                    (0, Asked::Install(3), 4, Answered::Accepted),
                ],
                live: &[2, 4],
            },
        ],
    },
];

// At a full log, and twice in a row: the binding stays, and the hub takes commands again.
const FULL: Case = Case {
    script: FREE,
    rounds: &[
        Round {
            said: &[
                (0, Asked::Default(1), 1, Answered::Accepted),
                (0, Asked::Install(3), 2, Answered::Accepted),
                (0, Asked::Fill(2), MAX_PLACE, Answered::Full),
            ],
            live: &[2],
        },
        Round {
            said: &[],
            live: &[1],
        },
        Round {
            said: &[
                (0, Asked::Raise, 1, Answered::Value(3)),
                (0, Asked::Remove(1), 2, Answered::Accepted),
                (0, Asked::Raise, 2, Answered::ByDefault(2)),
            ],
            live: &[],
        },
    ],
};

// The op of what is asked, its handler, its target and the binding that it goes before and after; none for a raise.
fn parts_of(asked: Asked) -> Option<(Op, u16, u16, u16, u16)> {
    match asked {
        Asked::Install(handler) => Some((Op::Install, handler, 0, NO_BINDING, NO_BINDING)),
        Asked::Before(handler, other) => Some((Op::Install, handler, 0, other, NO_BINDING)),
        Asked::After(handler, other) => Some((Op::Install, handler, 0, NO_BINDING, other)),
        Asked::Remove(target) => Some((Op::Remove, 0, target, NO_BINDING, NO_BINDING)),
        Asked::Default(handler) | Asked::Fill(handler) => {
            Some((Op::Default, handler, 0, NO_BINDING, NO_BINDING))
        }
        Asked::Raise => None,
    }
}

// The command of lane 0 for what is asked; none for a raise, and where it isn't valid.
fn command_of(event: u8, asked: Asked) -> Option<Command>
    ensures { IfSome result (λ c. IsTrue (is_command c) × (c.lane ≡ 0)) }
{
    let (op, handler, target, before, after) = parts_of(asked)?;
    let command = Command {
        handler,
        target,
        before: [before, NO_BINDING, NO_BINDING, NO_BINDING],
        after: [after, NO_BINDING, NO_BINDING, NO_BINDING],
        ..Command::bare(op, 0, event, 0)
    };
    if is_valid(&command) {
        Some(command)
    } else {
        None
    }
}

fn verdict_said(judged: &Judged) -> Answered {
    match &judged.verdict {
        Verdicted::Accepted => Answered::Accepted,
        Verdicted::Refused(Refusal::UnknownBinding) => Answered::UnknownBinding,
        Verdicted::Refused(Refusal::Denied(_)) => Answered::Denied,
        Verdicted::Refused(_) => Answered::OtherRefusal,
    }
}

fn reply_said(reply: &Reply) -> Answered {
    match reply {
        Reply::Ran {
            answer: Answer::Value(word),
            ..
        } => Answered::Value(*word),
        Reply::Ran {
            answer: Answer::Default(Some(word)),
            ..
        } => Answered::ByDefault(*word),
        _ => Answered::NoValue,
    }
}

// Gives the command again and again: the place and what is said once the log is full.
fn fill(
    alloc: Global,
    hub: &Hub,
    seat: &mut Seat,
    command: &Command,
) -> Result<(u16, Answered), SeatFault>
    requires valid { IsTrue (is_command command.now) × (command.now.lane ≡ 0) }
    requires sincere { ⟦<Catalogue as Sincere>⟧.sincere hub.now.setup.catalogue }
    requires log { seat.old.pen.log ≡ hub.now.log.id }
    requires seat { IsSeat (data_of hub.now.setup) seat.old }
    requires lane { seat.old.pen.lane ≡ 0 }
    ensures same { IsSamePen seat.old.pen seat.new.pen }
    ensures first { seat.new.base ≡ seat.old.base }
    ensures seat { IsSeat (data_of hub.now.setup) seat.new }
{
    for _ in 0..MAX_PLACE {
        match seat.command(alloc, hub, command) {
            Ok(_) => {}
            Err(SeatFault::Full) => return Ok((seat.front(), Answered::Full)),
            Err(fault) => return Err(fault),
        }
    }
    Ok((seat.front(), Answered::Accepted))
}

// The place of a raise of the event, and what it says.
fn raise(alloc: Global, hub: &Hub, seat: &mut Seat, event: u8) -> Result<(u16, Answered), SeatFault>
    requires sincere { ⟦<Catalogue as Sincere>⟧.sincere hub.now.setup.catalogue }
    requires log { seat.old.pen.log ≡ hub.now.log.id }
    requires seat { IsSeat (data_of hub.now.setup) seat.old }
    ensures same { IsSamePen seat.old.pen seat.new.pen }
    ensures first { seat.new.base ≡ seat.old.base }
    ensures seat { IsSeat (data_of hub.now.setup) seat.new }
{
    let args = Args::new(alloc);
    let raised = seat.raise(alloc, hub, &Deed::Raise { event, args })?;
    Ok((raised.place, reply_said(&raised.reply)))
}

// The place of the answer to what is asked, and what it says.
fn ask(
    alloc: Global,
    hub: &Hub,
    seat: &mut Seat,
    event: u8,
    asked: Asked,
) -> Result<(u16, Answered), SeatFault>
    requires sincere { ⟦<Catalogue as Sincere>⟧.sincere hub.now.setup.catalogue }
    requires log { seat.old.pen.log ≡ hub.now.log.id }
    requires seat { IsSeat (data_of hub.now.setup) seat.old }
    requires lane { seat.old.pen.lane ≡ 0 }
    ensures same { IsSamePen seat.old.pen seat.new.pen }
    ensures first { seat.new.base ≡ seat.old.base }
    ensures seat { IsSeat (data_of hub.now.setup) seat.new }
{
    let Some(command) = command_of(event, asked) else {
        return raise(alloc, hub, seat, event);
    };
    if matches!(asked, Asked::Fill(_)) {
        return fill(alloc, hub, seat, &command);
    }
    let judged = seat.command(alloc, hub, &command)?;
    Ok((judged.place, verdict_said(&judged)))
}

// Whether all this is said at those places.
fn say_all(alloc: Global, hub: &Hub, seat: &mut Seat, wanted: &[Line]) -> Result<bool, SeatFault>
    requires sincere { ⟦<Catalogue as Sincere>⟧.sincere hub.now.setup.catalogue }
    requires log { seat.old.pen.log ≡ hub.now.log.id }
    requires seat { IsSeat (data_of hub.now.setup) seat.old }
    requires lane { seat.old.pen.lane ≡ 0 }
    ensures same { IsSamePen seat.old.pen seat.new.pen }
    ensures first { seat.new.base ≡ seat.old.base }
    ensures seat { IsSeat (data_of hub.now.setup) seat.new }
{
    for line in wanted {
        let (event, asked, place, said) = *line;
        let (at, answer) = ask(alloc, hub, seat, event, asked)?;
        if !(at == place && answer == said) {
            return Ok(false);
        }
    }
    Ok(true)
}

// A hub with its two seats.
#[derive(Drop)]
struct Course {
    hub: Hub,
    a: Seat,
    b: Seat,
}

// A hub of two lanes over this script, and its seats.
fn open(alloc: Global, script: &[u8]) -> Result<Course, Fail>
    ensures sincere { IfOk result (λ made. ⟦<Catalogue as Sincere>⟧.sincere made.hub.setup.catalogue) }
    ensures all { IfOk result (λ made.
        AreAllSeats (data_of made.hub.setup) made.hub.log (made.a ∷ made.b ∷ [])) }
{
    let Script { setup, .. } = read_script(alloc, script, Natives::new(alloc))?;
    let (hub, mut seats) = Hub::new(alloc, setup, 2)?;
    let Some(a) = seats.take_first() else {
        unreachable!()
    };
    let Some(b) = seats.take_first() else {
        unreachable!()
    };
    Ok(Course { hub, a, b })
}

// Renews the hub, once more after want of memory.
fn renewed(alloc: Global, hub: Hub, seats: Seats) -> Result<Renewal, Unrenewed>
    requires sincere { ⟦<Catalogue as Sincere>⟧.sincere hub.setup.catalogue }
    requires all { AreAllSeats (data_of hub.setup) hub.log seats }
    ensures setup { IfOk result (λ made. made.hub.setup ≡ hub.setup) }
    ensures lanes { IfOk result (λ made. made.hub.log.lanes ≡ hub.log.lanes) }
    ensures all { IfOk result (λ made. AreAllSeats (data_of hub.setup) made.hub.log made.seats) }
{
    match hub.renew(alloc, seats) {
        Err(
            Unrenewed {
                fault: RenewFault::NoMemory,
                hub,
                seats,
            },
        ) => hub.renew(alloc, seats),
        answer => answer,
    }
}

// The hub renewed, with its seats, and whether its log had so many rows and its live bindings these numbers.
fn renew(
    alloc: Global,
    course: Course,
    count: u16,
    numbers: &[u16],
) -> Result<(Course, bool), NoMemory>
    requires sincere { ⟦<Catalogue as Sincere>⟧.sincere course.hub.setup.catalogue }
    requires all { AreAllSeats (data_of course.hub.setup) course.hub.log (course.a ∷ course.b ∷ []) }
    ensures setup { IfOk result (λ made. made.0.hub.setup ≡ course.hub.setup) }
    ensures all { IfOk result (λ made.
        AreAllSeats (data_of course.hub.setup) made.0.hub.log (made.0.a ∷ made.0.b ∷ [])) }
{
    let Course { hub, a, b } = course;
    let seats = Seats::from_vec(vec![in alloc; a, b]?);
    let Ok(renewal) = renewed(alloc, hub, seats) else {
        return Err(NoMemory);
    };
    let Renewal {
        hub,
        mut seats,
        rows,
        live,
    } = renewal;
    let is_so = rows.len() == usize::from(count) && live.as_slice() == numbers;
    let Some(a) = seats.take_first() else {
        unreachable!()
    };
    let Some(b) = seats.take_first() else {
        unreachable!()
    };
    Ok((Course { hub, a, b }, is_so))
}

// The hub renewed after that round, and whether all went as the round says.
fn play_round(alloc: Global, mut course: Course, round: &Round) -> Result<(Course, bool), Fail>
    requires sincere { ⟦<Catalogue as Sincere>⟧.sincere course.hub.setup.catalogue }
    requires all { AreAllSeats (data_of course.hub.setup) course.hub.log (course.a ∷ course.b ∷ []) }
    ensures setup { IfOk result (λ next. next.0.hub.setup ≡ course.hub.setup) }
    ensures all { IfOk result (λ next.
        AreAllSeats (data_of course.hub.setup) next.0.hub.log (next.0.a ∷ next.0.b ∷ [])) }
{
    let is_said = say_all(alloc, &course.hub, &mut course.a, round.said)?;
    let front = course.a.front();
    let (next, is_renewed) = renew(alloc, course, front, round.live)?;
    Ok((next, is_said && is_renewed))
}

// Whether the case goes as it says.
fn goes(alloc: Global, case: &Case) -> Result<bool, Fail> {
    let mut course = open(alloc, case.script)?;
    let mut goes = true;
    for round in case.rounds {
        let (next, is_so) = play_round(alloc, course, round)?;
        course = next;
        goes = goes && is_so;
    }
    Ok(goes)
}

// Where the one request for memory that is refused is a renewal's, its second call goes as if none were.
#[test]
fn what_is_bound_stays_bound(rt: HostRuntime) -> Result<(), Fail> {
    for case in CASES {
        assert!(rt; goes(rt.alloc(), &case)?);
    }
    Ok(())
}

#[test]
fn a_full_hub_is_renewed_twice(rt: HostRuntime) -> Result<(), Fail> {
    assert!(rt; goes(rt.alloc(), &FULL)?);
    Ok(())
}
