//! The calls of an open raise that `bindings/c/spin.h` declares.

ghost use Rattle.spin_c.specs.declared.moves.Move.TheVariants as wish;
ghost use Rattle.spin_c.specs.OpenTellings.{HandsMove, TellsBegin, TellsGave, TellsMove, TellsMoveAnswer};
ghost use Rattle.spin_c.specs.OpenTellings.{HandsMoveBytes, TellsMoveStep, TellsWithin};

use crate::gifts::SpinGift;
use crate::given::SpinArg;
use crate::handle::SpinLane;
use crate::moves::Move;
use crate::moving::{
    begin_with, gave_with, hand_out, move_of, move_plain, move_step, next_step, tell, within_with,
};
use crate::raiser::SpinRaising;
use crate::step::SpinStep;
use crate::told::SpinAnswer;
use std::alloc::Global;

/// Opens a raise of an event with these arguments, each a word or a range of the bytes, whose firings the host answers: on
/// the version of the lane at the end of its log, with a share of the hub. It answers 0 where it is open, and tells the
/// place of the version; and else the first of these that applies: 5 a raise is open in the second handle; 12 an argument
/// is of no kind or reaches past the bytes; 4 the lane's handle is closed; 19 its hub was ended; 22 there is no such event,
/// which is told as kind 5, or the arguments aren't its own, as kind 6, with the place. It answers 1 where there was no
/// memory, but in the place of no number beside 22. The reply to the lane's last raise is kept, whatever it answers. No
/// memory is asked for where the handle's last raise left enough, and the lane has read all rows.
#[unsafe(no_mangle)]
pub extern "C" fn spin_begin(
    alloc: Global,
    lane: &mut SpinLane,
    raising: &mut SpinRaising,
    bytes: &[u8],
    args: &[SpinArg],
    event: u8,
    answer: &mut SpinAnswer,
) -> u32
    ensures { TellsBegin lane.old.kept raising.old.kept event bytes.now args.now
        lane.new.kept raising.new.kept result answer.new }
{
    let told = begin_with(alloc, lane, raising, event, bytes, args);
    tell(&told, answer)
}

/// Opens a raise from within, between a firing and its answer, on the same version. It answers 0 where it is open; and else
/// the first of these that applies, and nothing is changed: 4 no raise is open; 12 an argument is of no kind or reaches
/// past the bytes; 23 no firing is due; 22 as [`spin_begin`]; 24 the event isn't greater than the one that is raised. It
/// answers 1 where there was no memory, and nothing is changed.
#[unsafe(no_mangle)]
pub extern "C" fn spin_within(
    alloc: Global,
    raising: &mut SpinRaising,
    event: u8,
    bytes: &[u8],
    args: &[SpinArg],
    answer: &mut SpinAnswer,
) -> u32
    ensures { TellsWithin raising.old.kept event bytes.now args.now raising.new.kept result answer.new }
{
    let told = within_with(alloc, raising, event, bytes, args);
    tell(&told, answer)
}

/// Tells what comes next, as a step: of kind 1 a firing of the innermost raise, with its handler as the value and its mode
/// as the answer, which is due until it is answered, and told again till then; 4 a raise upwards that an act asked for,
/// which begins; 5 one that ended; 8 the innermost raise that the host opened ended, and as the number how many are open
/// around it: where that is 0 none is any more; 9 one firing more is next than may start. What was given is gone. It
/// answers 0 where it is told; 4 where no raise is open; and 1 where there was no memory, and no raise is open any more.
#[unsafe(no_mangle)]
pub extern "C" fn spin_next(alloc: Global, raising: &mut SpinRaising, step: &mut SpinStep) -> u32
    ensures { TellsMoveStep raising.old.kept wish.Next raising.new.kept result step.new }
{
    next_step(alloc, raising, step)
}

/// Tells an argument of the innermost raise, as it stands: of kind 0 a word, or of kind 1 how many bytes, which are copied
/// to the front of the buffer. It answers 0 where it is told; 4 where no raise is open; 11 where the buffer is too small,
/// which is as it was then; 12 where there is no argument at the index; and 1 where there was no memory.
#[unsafe(no_mangle)]
pub extern "C" fn spin_argument(
    alloc: Global,
    raising: &mut SpinRaising,
    index: u64,
    buffer: &mut [u8],
    arg: &mut SpinArg,
) -> u32
    ensures { HandsMove raising.old.kept (wish.Argument index) buffer.old raising.new.kept result buffer.new arg.new }
{
    hand_out(alloc, raising, Move::Argument(index), buffer, arg)
}

/// Has the declared act of what is due done, or leaves it to a job where it runs apart, and tells how many things are
/// given. It answers 0 where it is done; 4 where no raise is open; 23 where no firing is due; and 1 where there was no
/// memory, and no raise is open any more.
#[unsafe(no_mangle)]
pub extern "C" fn spin_do(alloc: Global, raising: &mut SpinRaising, answer: &mut SpinAnswer) -> u32
    ensures { TellsMoveAnswer raising.old.kept wish.Do raising.new.kept result answer.new }
{
    move_of(alloc, raising, Move::Do, answer)
}

/// Tells the thing at an index that was given since [`spin_next`] was asked, as a step of a reply. It answers 0 where it is
/// told, 4 where no raise is open, and 10 where there is none. It asks for no memory.
#[unsafe(no_mangle)]
pub extern "C" fn spin_given(
    alloc: Global,
    raising: &mut SpinRaising,
    index: u64,
    step: &mut SpinStep,
) -> u32
    ensures { TellsMoveStep raising.old.kept (wish.Given index) raising.new.kept result step.new }
{
    move_step(alloc, raising, Move::Given(index), step)
}

/// Copies the bytes that such a thing sends to the front of a buffer, and tells how many they are. It answers 0 where they
/// are copied; 4 where no raise is open; 10 where nothing was given at the index; 11 where the buffer is too small, which
/// is as it was then; and 1 where there was no memory.
#[unsafe(no_mangle)]
pub extern "C" fn spin_given_bytes(
    alloc: Global,
    raising: &mut SpinRaising,
    index: u64,
    buffer: &mut [u8],
    wanted: &mut u64,
) -> u32
    ensures { HandsMoveBytes raising.old.kept (wish.GivenBytes index) buffer.old
        raising.new.kept result buffer.new wanted.new }
{
    let mut arg = SpinArg {
        kind: 0,
        at: 0,
        length: 0,
    };
    let number = hand_out(alloc, raising, Move::GivenBytes(index), buffer, &mut arg);
    *wanted = arg.length;
    number
}

/// Takes what the host's own handler gave in the place of what is due: results, changes of arguments, and ranges of the
/// bytes that are sent; and tells how many things are given. It answers 0 where it is taken; and else the first of these
/// that applies, and nothing is changed: 4 no raise is open; 12 a gift is of no kind, its number has no room, or it reaches
/// past the bytes; 23 no firing is due; 25 the gifts are refused by the fault of this number. It answers 1 where there was
/// no memory; where that was missed in the middle no raise is open any more.
#[unsafe(no_mangle)]
pub extern "C" fn spin_gave(
    alloc: Global,
    raising: &mut SpinRaising,
    bytes: &[u8],
    gifts: &[SpinGift],
    answer: &mut SpinAnswer,
) -> u32
    ensures { TellsGave raising.old.kept bytes.now gifts.now raising.new.kept result answer.new }
{
    let told = gave_with(alloc, raising, bytes, gifts);
    tell(&told, answer)
}

/// Passes over what is due, since the host's own guard didn't hold. It answers 0 where it is passed over, 4 where no raise
/// is open, and 23 where no firing is due. It asks for no memory.
#[unsafe(no_mangle)]
pub extern "C" fn spin_declined(alloc: Global, raising: &mut SpinRaising) -> u32
    ensures { TellsMove raising.old.kept wish.Decline raising.new.kept result }
{
    move_plain(alloc, raising, Move::Decline)
}

/// Ends the raise where it stands, and keeps its room. It answers 0 where it is ended, and 4 where none is open. It asks for
/// no memory.
#[unsafe(no_mangle)]
pub extern "C" fn spin_abandon(alloc: Global, raising: &mut SpinRaising) -> u32
    ensures { TellsMove raising.old.kept wish.Abandon raising.new.kept result }
{
    move_plain(alloc, raising, Move::Abandon)
}

/// Closes a handle, whatever it holds. It answers 0 where it is closed now, and 4 where it was closed. It asks for no
/// memory.
#[unsafe(no_mangle)]
pub extern "C" fn spin_forget(alloc: Global, raising: &mut SpinRaising) -> u32
    ensures { TellsMove raising.old.kept wish.Forget raising.new.kept result }
{
    move_plain(alloc, raising, Move::Forget)
}
