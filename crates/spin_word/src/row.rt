//! The row of four words that a command is packed into, and the way back.

ghost use Rattle.std.specs.Prelude.{◌≡◌, ◌≢◌, ◌<◌, ◌^◌, IsTrue, IfSome, MatchOption, List, ℕ, All, length};
ghost use Rattle.spin_word.specs.declared.command.Op.{Op as OpValue};
ghost use Rattle.spin_word.specs.declared.command.Place.{Place as PlaceValue};
ghost use Rattle.spin_word.specs.declared.command.Mode.{Mode as ModeValue};
ghost use Rattle.spin_word.specs.declared.command.Command.{Command as CommandValue};
ghost use Rattle.spin_word.specs.Commands.{is_command, number_of_op, number_of_place, number_of_mode};
ghost use Rattle.spin_word.specs.Rows.{IsCommand, StandsFor, StandsForNone, lane_of, row_of, quarters};

use crate::command::{Command, Mode, Op, Place, is_valid};

/// Four words, which may stand for a command. [`pack`] makes the row of a command and [`unpack`] the command of a
/// row; most rows stand for none.
///
/// | field of the command | word | bits, from 0 | width |
/// |---|---|---|---|
/// | mode | `a` | 0 | 2 |
/// | place | `a` | 2 | 3 |
/// | guard | `a` | 15 | 10 |
/// | handler | `a` | 25 | 10 |
/// | requester | `a` | 35 | 8 |
/// | event | `a` | 43 | 6 |
/// | lane | `a` | 49 | 4 |
/// | op | `a` | 53 | 3 |
/// | target | `b` | 0 | 13 |
/// | before, entry k | `c` | 16 k | 16 |
/// | after, entry k | `d` | 16 k | 16 |
///
/// All other bits are 0 in the row of a command.
#[derive(Clone, Copy, PartialEq, Eq, Debug)]
pub struct Row {
    /// What is done: mode, place, guard, handler, requester, event, lane and op.
    pub a: u64,
    /// The target.
    pub b: u64,
    /// The four entries of `before`.
    pub c: u64,
    /// The four entries of `after`.
    pub d: u64,
}

// Four numbers in one word, the first in the lowest bits.
fn join_quarters(numbers: [u16; 4]) -> u64
    ensures { result ≡ quarters numbers }
{
    u64::from(numbers[0])
        + (u64::from(numbers[1]) << 16)
        + (u64::from(numbers[2]) << 32)
        + (u64::from(numbers[3]) << 48)
}

// The four words of a command.
fn lay_out(command: &Command) -> Row
    requires { IsTrue (is_command command.now) }
    ensures { result ≡ row_of command.now }
{
    Row {
        a: command.mode.number()
            + (command.place.number() << 2)
            + (u64::from(command.guard) << 15)
            + (u64::from(command.handler) << 25)
            + (u64::from(command.requester) << 35)
            + (u64::from(command.event) << 43)
            + (u64::from(command.lane) << 49)
            + (command.op.number() << 53),
        b: u64::from(command.target),
        c: join_quarters(command.before),
        d: join_quarters(command.after),
    }
}

/// The row of a valid command. It takes no memory.
pub fn pack(command: &Command) -> Row
    requires { IsTrue (is_command command.now) }
    ensures row { result ≡ row_of command.now }
    ensures stands { IsCommand result × (lane_of result ≡ command.now.lane) }
{
    lay_out(command)
}

fn op_of(number: u64) -> Option<Op>
    ensures { MatchOption result
        ((op : OpValue) → number_of_op op ≢ number)
        (λ op. number_of_op op ≡ number) }
{
    match number {
        1 => Some(Op::Install),
        2 => Some(Op::Remove),
        3 => Some(Op::Replace),
        4 => Some(Op::Default),
        5 => Some(Op::NoDefault),
        _ => None,
    }
}

fn place_of(number: u64) -> Option<Place>
    ensures { MatchOption result
        ((place : PlaceValue) → number_of_place place ≢ number)
        (λ place. number_of_place place ≡ number) }
{
    match number {
        0 => Some(Place::Free),
        1 => Some(Place::First),
        2 => Some(Place::Last),
        _ => None,
    }
}

fn mode_of(number: u64) -> Option<Mode>
    ensures { MatchOption result
        ((mode : ModeValue) → number_of_mode mode ≢ number)
        (λ mode. number_of_mode mode ≡ number) }
{
    match number {
        0 => Some(Mode::Plain),
        1 => Some(Mode::Filter),
        2 => Some(Mode::Async),
        _ => None,
    }
}

// The four numbers of a word, the lowest bits first.
fn split_quarters(word: u64) -> [u16; 4]
    ensures { (ns : List ℕ) → length ns ≡ 4 → All (λ n. n < 2 ^ 16) ns
        → quarters ns ≡ word → result ≡ ns }
{
    [
        (word % 65536) as u16,
        ((word >> 16) % 65536) as u16,
        ((word >> 32) % 65536) as u16,
        ((word >> 48) % 65536) as u16,
    ]
}

// The command of the row, if there is one with these three.
fn command_of(row: &Row, op: Op, place: Place, mode: Mode) -> Command
    ensures { (c : CommandValue) → IsTrue (is_command c) → row_of c ≡ row.now
        → c.op ≡ op → c.place ≡ place → c.mode ≡ mode → result ≡ c }
{
    Command {
        op,
        event: ((row.a >> 43) % 64) as u8,
        lane: ((row.a >> 49) % 16) as u8,
        requester: ((row.a >> 35) % 256) as u8,
        handler: ((row.a >> 25) % 1024) as u16,
        guard: ((row.a >> 15) % 1024) as u16,
        place,
        before: split_quarters(row.c),
        after: split_quarters(row.d),
        target: (row.b % 65536) as u16,
        mode,
    }
}

/// The command that the row stands for; `None` exactly where it stands for none, as where a bit outside the
/// fields is set, or a field that the op doesn't use isn't empty. It takes no memory.
pub fn unpack(row: &Row) -> Option<Command>
    ensures command { MatchOption result (StandsForNone row.now) (λ c. StandsFor row.now c) }
    ensures stands { IfSome result (λ c. IsCommand row.now × (lane_of row.now ≡ c.lane)) }
{
    let op = op_of(row.a >> 53)?;
    let place = place_of((row.a >> 2) % 8)?;
    let mode = mode_of(row.a % 4)?;
    let command = command_of(row, op, place, mode);
    // The fields may come from a row with bits outside them: then the command's row is another.
    if is_valid(&command) && pack(&command) == *row {
        Some(command)
    } else {
        None
    }
}
