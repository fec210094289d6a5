//! Why a raise isn't opened.

ghost use Rattle.std.specs.Prelude.{◌≡◌};
ghost use Rattle.spin_table.specs.SetupOf.{data_of};
ghost use Rattle.spin_host.specs.Opening as specs;

use spin_table::Setup;
use spin_values::{Args, NoMemory, fits};
use thiserror::Error;

/// Why a raise isn't opened. Of several the first of these in this order is told.
#[derive(Clone, Copy, PartialEq, Eq, Debug, Error)]
pub enum RaiseFault {
    /// It is to be opened from within, and no firing is due.
    #[error("no firing is due")]
    NotDue,
    /// The event isn't there.
    #[error("there is no event of that number")]
    UnknownEvent,
    /// The arguments haven't the number and kinds of the event's parameters.
    #[error("the arguments aren't those of the event")]
    WrongArgs,
    /// It is to be opened from within, and its event isn't greater than the one that is raised.
    #[error("only a greater event is raised from within")]
    Downward,
    /// There was no memory.
    #[error("out of memory")]
    NoMemory,
}

impl From<NoMemory> for RaiseFault {
    ghost use Rattle.std.specs.Prelude.{◌≡◌};
    ghost use Rattle.spin_host.specs.declared.fault.RaiseFault.TheVariants as fault;

    ghost from_gives = { λ _ e. e ≡ fault.NoMemory };

    fn from(_: NoMemory) -> RaiseFault {
        RaiseFault::NoMemory
    }
}

/// Why a raise of this event on these arguments isn't opened: [`RaiseFault::UnknownEvent`] or
/// [`RaiseFault::WrongArgs`]. It takes no memory.
pub fn begin_fault(setup: &Setup, event: u8, args: &Args) -> Option<RaiseFault>
    ensures { result ≡ specs.begin_fault (data_of setup.now) event args.now }
{
    if event >= setup.events() {
        return Some(RaiseFault::UnknownEvent);
    }
    if !fits(args, &setup.event(event).sig) {
        return Some(RaiseFault::WrongArgs);
    }
    None
}
