//! Why a command is refused.

ghost use Rattle.std.specs.Prelude.{◌≡◌};

use spin_values::{NoMemory, Numbers};
use std::alloc::AllocFailed;

/// Why a command changes nothing. The number of each is what reports print.
#[derive(PartialEq, Drop, Debug)]
pub enum Refusal {
    /// 1: there is no event of that number.
    UnknownEvent,
    /// 2: there is no module of the requester's number.
    UnknownModule,
    /// 3: there is no handler of that number.
    UnknownHandler,
    /// 4: there is no guard of that number.
    UnknownGuard,
    /// 5: the target, or a binding that it is to go before or after, is no live binding of the event.
    UnknownBinding,
    /// 6: the handler's signature isn't the event's, or the guard has other kinds of parameters.
    WrongType,
    /// 7: the handler raises an event that isn't greater than this one.
    Downward,
    /// 8: the handler changes an argument, and wouldn't run as a filter.
    WrongMode,
    /// 9: the event's owner denies it, by this rule, or by none where the number is 0.
    Denied(u8),
    /// 10: the event has as many live bindings as it may have.
    TooMany,
    /// 11: no order of the bindings would be lawful. Of these bindings each must precede the next, and the last the
    /// first; the least number is the first.
    Conflict(Numbers),
    /// 12: this rule of the owner would have the handler run asynchronously, and the handler changes an argument.
    ForcedMode(u8),
}

/// Why there is no next version.
#[derive(PartialEq, Drop, Debug)]
pub enum StepFault {
    /// The command is refused.
    Refused(Refusal),
    /// There was no memory for the next version.
    NoMemory,
}

impl From<NoMemory> for StepFault {
    ghost use Rattle.spin_table.specs.declared.refusal.StepFault.TheVariants as fault;

    ghost from_gives = { λ _ e. e ≡ fault.NoMemory };

    fn from(_: NoMemory) -> StepFault {
        StepFault::NoMemory
    }
}

impl<T: Drop> From<AllocFailed<T>> for StepFault {
    ghost use Rattle.spin_table.specs.declared.refusal.StepFault.TheVariants as fault;

    ghost from_gives = { λ _ e. e ≡ fault.NoMemory };

    fn from(_: AllocFailed<T>) -> StepFault {
        StepFault::NoMemory
    }
}

/// What became of a command.
#[derive(PartialEq, Drop, Debug)]
pub enum Verdicted {
    /// It made the next version.
    Accepted,
    /// It changed nothing.
    Refused(Refusal),
}
