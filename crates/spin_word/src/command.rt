//! Commands: what a module asks to be changed in the bindings of an event.

ghost use Rattle.std.specs.Prelude.{◌≡◌, ◌<◌, ◌||◌, ◌==◌, nat_lt};
ghost use Rattle.spin_word.specs.Commands.{no_number, binding_or_none, bindings_or_none, all_none};
ghost use Rattle.spin_word.specs.Commands.{has_widths, is_placeless, leaves_unused, is_command};
ghost use Rattle.spin_word.specs.Commands.{target_is_used, guard_is_used, handler_is_used, place_is_used};
ghost use Rattle.spin_word.specs.Commands.{number_of_op, number_of_place, number_of_mode, bare_command};

/// What a command does. Every op uses the command's event, lane and requester, and each has its own number.
#[derive(Clone, Copy, PartialEq, Eq, Debug)]
pub enum Op {
    /// Adds a binding; uses handler, guard, place, before, after and mode.
    Install = 1,
    /// Takes the target out; uses target.
    Remove = 2,
    /// Gives the target another handler and guard, and leaves it where it is; uses target, handler and guard.
    Replace = 3,
    /// Makes the handler the event's default; uses handler.
    Default = 4,
    /// Leaves the event without a default; uses nothing more.
    NoDefault = 5,
}

impl Op {
    /// Whether it uses the target.
    pub fn uses_target(self) -> bool
        ensures { result ≡ target_is_used self }
    {
        matches!(self, Op::Remove | Op::Replace)
    }

    /// Whether it uses the guard.
    pub fn uses_guard(self) -> bool
        ensures { result ≡ guard_is_used self }
    {
        matches!(self, Op::Install | Op::Replace)
    }

    /// Whether it uses the handler.
    pub fn uses_handler(self) -> bool
        ensures { result ≡ handler_is_used self }
    {
        matches!(self, Op::Install | Op::Replace | Op::Default)
    }

    /// Whether it uses place, before, after and mode.
    pub fn uses_place(self) -> bool
        ensures { result ≡ place_is_used self }
    {
        matches!(self, Op::Install)
    }

    pub(crate) fn number(self) -> u64
        ensures value { result ≡ number_of_op self }
        ensures small { result < 8 }
    {
        self as u64
    }
}

/// Where a binding goes among the others of its event, apart from those that it names.
#[derive(Clone, Copy, PartialEq, Eq, Debug)]
pub enum Place {
    /// Wherever the bindings that it names leave room.
    Free = 0,
    /// Before each binding that isn't `First` too.
    First = 1,
    /// After each binding that isn't `Last` too.
    Last = 2,
}

impl Place {
    pub(crate) fn number(self) -> u64
        ensures value { result ≡ number_of_place self }
        ensures small { result < 8 }
    {
        self as u64
    }
}

/// How a binding's handler runs.
#[derive(Clone, Copy, PartialEq, Eq, Debug)]
pub enum Mode {
    /// During the raise; its result counts among the results.
    Plain = 0,
    /// During the raise; it may change the arguments for the handlers after it.
    Filter = 1,
    /// Later, as a job of its own; it gives the raise no result.
    Async = 2,
}

impl Mode {
    pub(crate) fn number(self) -> u64
        ensures value { result ≡ number_of_mode self }
        ensures small { result < 4 }
    {
        self as u64
    }
}

/// The most events: each event's number is below it.
pub const MAX_EVENTS: u8 = 64;

/// The most lanes that share a log.
pub const MAX_LANES: u8 = 8;

/// Each lane's number in a command is below it: a row has room for so many.
pub const LANE_LIMIT: u8 = 16;

/// Each handler's number is below it.
pub const HANDLER_LIMIT: u16 = 1024;

/// Each guard's number is below it.
pub const GUARD_LIMIT: u16 = 1024;

/// The greatest place of a log, which is the most commands that it holds. The command at a place gives its binding
/// the place's number, so it is also the greatest number of a binding.
pub const MAX_PLACE: u16 = 4096;

/// What stands in `before` and `after` where no binding is named.
pub const NO_BINDING: u16 = 65535;

/// The list `before` or `after` of a command that names no binding there.
pub const NO_BINDINGS: [u16; 4] = [NO_BINDING; 4];

/// A request to change the bindings of an event. [`is_valid`] tells which commands there are: each number lies
/// in its range, and each field that the op doesn't use is empty, so that no two valid commands ask the same.
#[derive(Clone, Copy, PartialEq, Eq, Debug)]
pub struct Command {
    /// What is done.
    pub op: Op,
    /// The event whose bindings are changed, below [`MAX_EVENTS`].
    pub event: u8,
    /// The lane that gives the command, below [`LANE_LIMIT`].
    pub lane: u8,
    /// The module that asks for the change, any number.
    pub requester: u8,
    /// The handler's number, below [`HANDLER_LIMIT`]; 0 where the op doesn't use it.
    pub handler: u16,
    /// The number of the binding's own guard, below [`GUARD_LIMIT`]; 0 where the op doesn't use it.
    pub guard: u16,
    /// The binding's place; `Free` where the op doesn't use it.
    pub place: Place,
    /// Up to four bindings that the new one goes before, rising, and then [`NO_BINDING`]; just this where the op
    /// doesn't use it. Each is at most [`MAX_PLACE`].
    pub before: [u16; 4],
    /// Up to four bindings that the new one goes after, in the same form.
    pub after: [u16; 4],
    /// The binding that is removed or replaced, at most [`MAX_PLACE`]; 0 where the op doesn't use it.
    pub target: u16,
    /// The handler's mode; `Plain` where the op doesn't use it.
    pub mode: Mode,
}

impl Command {
    /// The command that does this to an event, with each other field empty. It takes no memory.
    pub fn bare(op: Op, lane: u8, event: u8, requester: u8) -> Command
        ensures { result ≡ bare_command op lane event requester }
    {
        Command {
            op,
            event,
            lane,
            requester,
            handler: 0,
            guard: 0,
            place: Place::Free,
            before: NO_BINDINGS,
            after: NO_BINDINGS,
            target: 0,
            mode: Mode::Plain,
        }
    }
}

fn is_binding_or_none(number: u16) -> bool
    ensures { result ≡ binding_or_none number }
{
    number <= MAX_PLACE || number == NO_BINDING
}

// Whether the number may stand before the next one in a list.
fn may_precede(number: u16, next: u16) -> bool
    ensures { result ≡ (nat_lt number next || (next == no_number)) }
{
    number < next || next == NO_BINDING
}

fn are_bindings_or_none(numbers: [u16; 4]) -> bool
    ensures { result ≡ bindings_or_none numbers }
{
    is_binding_or_none(numbers[0])
        && is_binding_or_none(numbers[1])
        && is_binding_or_none(numbers[2])
        && is_binding_or_none(numbers[3])
        && may_precede(numbers[0], numbers[1])
        && may_precede(numbers[1], numbers[2])
        && may_precede(numbers[2], numbers[3])
}

fn are_none(numbers: [u16; 4]) -> bool
    ensures { result ≡ all_none numbers }
{
    numbers[0] == NO_BINDING
        && numbers[1] == NO_BINDING
        && numbers[2] == NO_BINDING
        && numbers[3] == NO_BINDING
}

// Whether each number lies in its range. The requester's is that of its type.
fn fits_widths(command: Command) -> bool
    ensures { result ≡ has_widths command }
{
    command.event < MAX_EVENTS
        && command.lane < LANE_LIMIT
        && command.handler < HANDLER_LIMIT
        && command.guard < GUARD_LIMIT
        && command.target <= MAX_PLACE
}

fn has_no_place(command: &Command) -> bool
    ensures { result ≡ is_placeless command.now }
{
    command.place.number() == 0
        && command.mode.number() == 0
        && are_none(command.before)
        && are_none(command.after)
}

fn unused_is_empty(command: &Command) -> bool
    ensures { result ≡ leaves_unused command.now }
{
    (command.op.uses_handler() || command.handler == 0)
        && (command.op.uses_guard() || command.guard == 0)
        && (command.op.uses_target() || command.target == 0)
        && (command.op.uses_place() || has_no_place(command))
}

/// Whether each number lies in its range, each list rises, and each field that the op doesn't use is empty: 0,
/// `Free`, `Plain`, or no binding at all.
pub fn is_valid(command: &Command) -> bool
    ensures { result ≡ is_command command.now }
{
    fits_widths(*command)
        && are_bindings_or_none(command.before)
        && are_bindings_or_none(command.after)
        && unused_is_empty(command)
}
