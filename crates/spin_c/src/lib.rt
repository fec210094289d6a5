//! The dispatcher for hosts that aren't Rattle: the calls that `bindings/c/spin.h` declares.
//!
//! - [`reading`] reads a script, a capture beside it, by [`packets`], and names; [`verdict`] has what a report is judged
//!   to be by them, and [`judge`] judges it; [`whole_run`] has what a run with them comes to, [`running`] runs it, and
//!   [`filling`] puts what it hands out into buffers;
//! - [`lane`] is what a handle holds, a seat with its hub, [`handing`] hands the seats of other lanes out and gives them
//!   home, and [`handle`] is the handle, over [`maybe`] and [`loose`]: pointers that own a box, or may be null;
//! - [`ask`] is what is asked of a handle and what it comes to, [`turn`] does it, and [`asking`] asks;
//! - [`gathering`] takes in the seats that are at home, and [`renewing`] renews the hub of a lane, or ends it;
//! - [`row`] is a command as it is handed in, or a row of the log, and [`given`] the arguments of a raise;
//! - [`raising`] is what the handle of an open raise holds, and [`raiser`] the handle; [`moves`] is what is asked of it and
//!   what that comes to, [`raised`] and [`answering`] do it, [`beginning`] opens a raise on a lane, and [`moving`] asks;
//!   [`gifts`] is what a host's handler gives, [`uttered`] tells all that in numbers, and [`opened`] has the calls;
//! - [`trail`] tells a reply in numbers, and its steps one by one as a [`step`]; [`told`] tells whatever else a call
//!   comes to, and [`copying`] copies bytes into a buffer.
#![tactic(auto)]

ghost use Rattle.std.specs.Prelude.{◌≡◌, None, Some, map};
ghost use Rattle.spin_values.specs.declared.values.Value.TheVariants as value;
ghost use Rattle.spin_grammar.specs.Words.{words};
ghost use Rattle.spin_c.specs.declared.verdict.Verdict.{Verdict as VerdictValue};
ghost use Rattle.spin_c.specs.declared.ask.Ask.TheVariants as asked;
ghost use Rattle.spin_c.specs.StepLists.{FillsSteps};
ghost use Rattle.spin_c.specs.Tellings.{HandsBytes, TellsOf, TellsOfArgs, TellsRow, TellsShare, TellsStep, row_from};
ghost use Rattle.spin_values.specs.First.{numbered};
ghost use Rattle.spin_c.specs.Texts.{TellsText};
ghost use Rattle.spin_c.specs.declared.texts.TheConstants.{CAUSES, FAULTS};
ghost use Rattle.spin_c.specs.Verdicts.{IsVerdict, no_natives, fault_of, number_of};
ghost use Rattle.spin_c.specs.Packets.{given_if};
ghost use Rattle.spin_c.specs.Wholes.{RunsTo, TellsWhole};
ghost use Rattle.spin_c.specs.declared.whole_run.Whole.{Whole as WholeValue};

mod answering;
mod ask;
mod asking;
mod beginning;
mod copying;
mod crowded;
mod cycles;
mod filling;
mod gathering;
mod gifts;
mod given;
mod handing;
mod handle;
mod jobs;
mod judge;
mod kept;
mod lane;
mod law;
mod loose;
mod maybe;
mod moves;
mod moving;
mod opened;
mod packets;
mod raised;
mod raiser;
mod raising;
mod reading;
mod renewing;
mod row;
mod running;
mod step;
mod texts;
mod told;
mod trail;
mod turn;
mod uttered;
mod verdict;
mod whole_run;

use ask::Ask;
use asking::{ask_bytes, ask_of, ask_row, ask_step, ask_steps, ask_words, open_of, share_of, tell};
use filling::tell_whole;
pub use gifts::SpinGift;
pub use given::SpinArg;
use given::given_of;
pub use handle::SpinLane;
use judge::judge;
pub use law::commands_leave_room;
use packets::given_if;
pub use raiser::SpinRaising;
pub use reading::Unread;
pub use row::SpinRow;
use row::row_from;
use running::run_whole;
use spin_objects::Natives;
use std::alloc::Global;
pub use step::SpinStep;
use texts::{cause_text, fault_text, tell_text};
pub use told::{SpinAnswer, SpinFault};
use told::{fault_of, number_of};
pub use verdict::Verdict;
pub use whole_run::{Output, SpinRan, SpinSending, Whole};

/// The version of these calls. It grows by 1 where one of them is changed, and not where one is added.
#[unsafe(no_mangle)]
pub extern "C" fn spin_version() -> u32
    ensures { result ≡ 2 }
{
    2
}

/// Judges whether a text is the report of one legal history of a script without a capture, where of the script's
/// endpoints just those stand whose names are among the words of `standing`. It answers a number: 0 where it is, 3
/// where it isn't, 2 where the first text is no script, whose first bad line and cause it tells then, and 1 where there
/// was no memory.
#[unsafe(no_mangle)]
pub extern "C" fn spin_check(
    alloc: Global,
    text: &[u8],
    report: &[u8],
    standing: &[u8],
    fault: &mut SpinFault,
) -> u32
    ensures { (verdict : VerdictValue)
        × IsVerdict no_natives text.now None (words standing.now) report.now verdict
        × (result ≡ number_of verdict) × (fault.new ≡ fault_of verdict) }
{
    let verdict = judge(alloc, Natives::new(alloc), text, None, report, standing);
    *fault = fault_of(&verdict);
    number_of(&verdict)
}

/// Judges as [`spin_check`] does whether a text is the report of one legal history of a script, with the capture that
/// these bytes are. It answers as `spin_check`, and 16 where the first text is a script and the bytes are refused as a
/// capture: it tells then at which record, counted from 1, or 0 for the header, and by which fault. Bytes behind the
/// records that are no whole record are no reason to refuse them.
#[unsafe(no_mangle)]
pub extern "C" fn spin_check_packets(
    alloc: Global,
    text: &[u8],
    packets: &[u8],
    report: &[u8],
    standing: &[u8],
    fault: &mut SpinFault,
) -> u32
    ensures { (verdict : VerdictValue)
        × IsVerdict no_natives text.now (Some packets.now) (words standing.now) report.now verdict
        × (result ≡ number_of verdict) × (fault.new ≡ fault_of verdict) }
{
    let verdict = judge(
        alloc,
        Natives::new(alloc),
        text,
        Some(packets),
        report,
        standing,
    );
    *fault = fault_of(&verdict);
    number_of(&verdict)
}

/// Runs a script whole, without threads, with the capture that these bytes are, where `has_packets` isn't 0, and else
/// without one; of the script's endpoints just those stand whose names are among the words of `standing`. To the fronts
/// of the buffers go the report of one legal history of the script with the capture, all that its endpoints receive in
/// it, in order, each as a range of the bytes, and those bytes, one behind another; and it tells how long each is. It
/// answers 0 where they are there; 11 where one of the buffers is too small, where it tells the same, and all are as
/// they were; and else it tells 0 thrice, and the buffers are as they were: 1 where there was no memory, 2 where the
/// text is no script, and 16 where it is one and the bytes are refused as a capture, both with the fault that
/// [`spin_check_packets`] tells.
///
/// Beside the work of the raises its time is linear in what it hands out, the capture, and the script's lines times the
/// number of its lanes. After 11 the run has to be made again.
#[unsafe(no_mangle)]
pub extern "C" fn spin_run_text(
    alloc: Global,
    text: &[u8],
    packets: &[u8],
    standing: &[u8],
    has_packets: u32,
    report: &mut [u8],
    sends: &mut [SpinSending],
    bytes: &mut [u8],
    ran: &mut SpinRan,
) -> u32
    ensures { (whole : WholeValue)
        × RunsTo no_natives text.now (given_if has_packets packets.now) (words standing.now) whole
        × TellsWhole whole (record { report = report.old; sends = sends.old; bytes = bytes.old })
        result (record { report = report.new; sends = sends.new; bytes = bytes.new }) ran.new }
{
    let given = given_if(has_packets, packets);
    let whole = run_whole(alloc, Natives::new(alloc), text, given, standing);
    tell_whole(&whole, report, sends, bytes, ran)
}

/// Copies the sentence of why a script is refused by a cause of this number to the front of a buffer, and tells how many
/// bytes it has. It answers 0 where it is copied; 11 where the buffer is too small, which is as it was then; and 21 where
/// there is no such cause, and tells 0. It asks for no memory.
#[unsafe(no_mangle)]
pub extern "C" fn spin_cause_text(cause: u32, buffer: &mut [u8], wanted: &mut u64) -> u32
    ensures { TellsText (numbered (map (λ t. t.now) CAUSES) cause) buffer.old result buffer.new wanted.new }
{
    tell_text(cause_text(cause), buffer, wanted)
}

/// The same of why a capture is refused by a fault of this number.
#[unsafe(no_mangle)]
pub extern "C" fn spin_fault_text(fault: u32, buffer: &mut [u8], wanted: &mut u64) -> u32
    ensures { TellsText (numbered (map (λ t. t.now) FAULTS) fault) buffer.old result buffer.new wanted.new }
{
    tell_text(fault_text(fault), buffer, wanted)
}

/// Opens a closed handle over a script: a hub with one lane over what the script declares, at its start, where nothing
/// is bound. Its lane lines aren't done. It answers a number: 0 where it is open now, 1 where there was no memory, 2
/// where the text is no script, whose first bad line and cause it tells as place and kind, and 5 where it was open.
#[unsafe(no_mangle)]
pub extern "C" fn spin_open(
    alloc: Global,
    text: &[u8],
    lane: &mut SpinLane,
    answer: &mut SpinAnswer,
) -> u32
    ensures { TellsOf lane.old.kept (asked.Open text.now 1) lane.new.kept result answer.new }
{
    open_of(alloc, lane, text, 1, answer)
}

/// Opens a closed handle over a script as [`spin_open`] does, over a hub with so many lanes: the handle is that of lane
/// 0, and the seats of the others wait at it for [`spin_seat`]. It answers as `spin_open`, and 13 where it was closed
/// and no hub has so many lanes: a hub has 1 to 8. Where the text is no script besides, or there is no memory, it is 13
/// that it answers.
#[unsafe(no_mangle)]
pub extern "C" fn spin_open_lanes(
    alloc: Global,
    text: &[u8],
    lanes: u8,
    lane: &mut SpinLane,
    answer: &mut SpinAnswer,
) -> u32
    ensures { TellsOf lane.old.kept (asked.Open text.now lanes) lane.new.kept result answer.new }
{
    open_of(alloc, lane, text, lanes, answer)
}

/// Hands the seat of another lane out to a closed handle: the seat waits at the handle with which its hub was opened,
/// or is at home, since it was handed out before and came back. The two share the hub, and nothing else. It answers 0
/// where the second handle is open now; 1 where there was no memory, 4 where the first handle is closed, 5 where the
/// second is open, 13 where the first has no such lane, as one that was handed out has none, 14 where that lane's seat
/// is out, and 19 where the hub was ended. All else of both handles is as it was then. Want of memory is told only
/// where the seat isn't out.
#[unsafe(no_mangle)]
pub extern "C" fn spin_seat(
    alloc: Global,
    lane: &mut SpinLane,
    number: u8,
    seat: &mut SpinLane,
) -> u32
    ensures { TellsShare lane.old.kept seat.old.kept number lane.new.kept seat.new.kept result }
{
    share_of(alloc, lane, number, seat)
}

/// Closes a handle whose seat was handed out: the seat goes home, and [`spin_seat`] hands it out again. It answers 0
/// where the handle is closed now, 4 where it was closed, 13 where it is the one with which its hub was opened, which
/// stays open, and 19 where its hub was ended. It asks for no memory.
#[unsafe(no_mangle)]
pub extern "C" fn spin_return(alloc: Global, lane: &mut SpinLane, answer: &mut SpinAnswer) -> u32
    ensures { TellsOf lane.old.kept asked.Return lane.new.kept result answer.new }
{
    ask_of(alloc, lane, Ask::Return, answer)
}

/// Takes in the seats that are at home, and tells as the value how many of the hub's seats are still out. It answers 0
/// where it is told, 4 where the handle is closed, 13 where the handle's seat was handed out by another, and 19 where
/// the hub was ended. It asks for no memory.
#[unsafe(no_mangle)]
pub extern "C" fn spin_gather(alloc: Global, lane: &mut SpinLane, answer: &mut SpinAnswer) -> u32
    ensures { TellsOf lane.old.kept asked.Gather lane.new.kept result answer.new }
{
    ask_of(alloc, lane, Ask::Gather, answer)
}

/// Raises an event with these words as its arguments, and tells the answer: its place, the number of its kind, its
/// value and the number of its steps. It answers 0 where the raise has a reply, 1 where there was no memory, and 4
/// where the handle is closed. The words lie in room that the handle's last such raise left, where that is enough.
#[unsafe(no_mangle)]
pub extern "C" fn spin_raise_words(
    alloc: Global,
    lane: &mut SpinLane,
    event: u8,
    words: &[u64],
    answer: &mut SpinAnswer,
) -> u32
    ensures { TellsOf lane.old.kept (asked.Raise event (map value.Word words.now)) lane.new.kept result answer.new }
{
    ask_words(alloc, lane, event, words, answer)
}

/// Raises an event with these arguments, each a word or a range of the bytes, and tells the answer as
/// [`spin_raise_words`] does. It answers 12 where an argument is of no kind or reaches past the bytes, and changes
/// nothing then; and else as [`spin_raise_words`].
#[unsafe(no_mangle)]
pub extern "C" fn spin_raise(
    alloc: Global,
    lane: &mut SpinLane,
    event: u8,
    bytes: &[u8],
    args: &[SpinArg],
    answer: &mut SpinAnswer,
) -> u32
    ensures { TellsOfArgs lane.old.kept (asked.Raise event) bytes.now args.now lane.new.kept result answer.new }
{
    match given_of(alloc, bytes, args) {
        Ok(args) => ask_of(alloc, lane, Ask::Raise { event, args }, answer),
        Err(why) => tell(&why, answer),
    }
}

/// Queues a raise of an event with these arguments, each a word or a range of the bytes, as a script's `later` does: it is
/// job 0 of its reply. It tells the answer as [`spin_raise_words`] does, and answers as [`spin_raise`].
#[unsafe(no_mangle)]
pub extern "C" fn spin_later(
    alloc: Global,
    lane: &mut SpinLane,
    event: u8,
    bytes: &[u8],
    args: &[SpinArg],
    answer: &mut SpinAnswer,
) -> u32
    ensures { TellsOfArgs lane.old.kept (asked.Later event) bytes.now args.now lane.new.kept result answer.new }
{
    match given_of(alloc, bytes, args) {
        Ok(args) => ask_of(alloc, lane, Ask::Later { event, args }, answer),
        Err(why) => tell(&why, answer),
    }
}

/// Tells the step at an index, counted from 0, of the reply to the last raise. It answers 0 where it is told, and zeros
/// beside another number: 4 where the handle is closed, 9 where no reply is kept, since nothing was raised or a command
/// or a renewal was done since, and 10 where the reply has no step of that index. It asks for no memory.
#[unsafe(no_mangle)]
pub extern "C" fn spin_step(
    alloc: Global,
    lane: &mut SpinLane,
    index: u64,
    step: &mut SpinStep,
) -> u32
    ensures { TellsStep lane.old.kept (asked.Step index) lane.new.kept result step.new }
{
    ask_step(alloc, lane, Ask::Step(index), step)
}

/// Tells the steps from an index on, counted from 0, of the reply to the last raise, each as [`spin_step`] does: as many as
/// the list has room for go to its front, and it is told how many. It answers 0 where the reply has a step of that index;
/// and else as `spin_step` there, with 0 steps, where the list is as it was. Behind the last step that is told it is as it
/// was, too. It asks for no memory.
#[unsafe(no_mangle)]
pub extern "C" fn spin_steps(
    alloc: Global,
    lane: &mut SpinLane,
    from: u64,
    steps: &mut [SpinStep],
    told: &mut u64,
) -> u32
    ensures { FillsSteps lane.old.kept from steps.old lane.new.kept result steps.new told.new }
{
    ask_steps(alloc, lane, from, steps, told)
}

/// Copies the bytes that the step at an index sends to the front of a buffer, and tells how many they are: none where
/// it sends nothing. It answers 0 where they are copied; 11 where the buffer is too small, which is as it was then; and
/// else a number as [`spin_step`], or 1 where there was no memory, where the buffer is as it was and 0 is told.
#[unsafe(no_mangle)]
pub extern "C" fn spin_step_bytes(
    alloc: Global,
    lane: &mut SpinLane,
    index: u64,
    buffer: &mut [u8],
    wanted: &mut u64,
) -> u32
    ensures { HandsBytes lane.old.kept (asked.Bytes index) buffer.old lane.new.kept result buffer.new wanted.new }
{
    ask_bytes(alloc, lane, Ask::Bytes(index), buffer, wanted)
}

/// Does the job at an index, counted from 0, of those that the reply to the last raise leaves, on the version of that
/// raise, and tells the answer as a raise does, with the place of that version. Its own reply is kept beside the raise's
/// until another job of it is done. It answers 0 where it is done, 1 where there was no memory, 4 where the handle is
/// closed, 9 where no reply is kept, and 18 where the reply leaves no job of that index.
#[unsafe(no_mangle)]
pub extern "C" fn spin_job(
    alloc: Global,
    lane: &mut SpinLane,
    index: u64,
    answer: &mut SpinAnswer,
) -> u32
    ensures { TellsOf lane.old.kept (asked.Job index) lane.new.kept result answer.new }
{
    ask_of(alloc, lane, Ask::Job(index), answer)
}

/// Tells the step at an index of the reply to the last job that was done of the reply that is kept, as [`spin_step`]
/// tells that of the raise. It answers 9 where none was done.
#[unsafe(no_mangle)]
pub extern "C" fn spin_job_step(
    alloc: Global,
    lane: &mut SpinLane,
    index: u64,
    step: &mut SpinStep,
) -> u32
    ensures { TellsStep lane.old.kept (asked.JobStep index) lane.new.kept result step.new }
{
    ask_step(alloc, lane, Ask::JobStep(index), step)
}

/// Copies the bytes that such a step sends to the front of a buffer, as [`spin_step_bytes`] does.
#[unsafe(no_mangle)]
pub extern "C" fn spin_job_bytes(
    alloc: Global,
    lane: &mut SpinLane,
    index: u64,
    buffer: &mut [u8],
    wanted: &mut u64,
) -> u32
    ensures { HandsBytes lane.old.kept (asked.JobBytes index) buffer.old lane.new.kept result buffer.new wanted.new }
{
    ask_bytes(alloc, lane, Ask::JobBytes(index), buffer, wanted)
}

/// Does the command of a row, whose lane is the handle's, whatever the row's four bits of a lane are, and tells the place
/// of its verdict, and of a refusal the number; the number of the rule as
/// the value, where it is by one; and the number of bindings in the cycle that it would make as that of the steps, which
/// [`spin_cycle`] tells. It answers 0 where it is accepted, 1 where there was no memory, 4 where the handle is closed, 6
/// where the row stands for no command, and where it stands for one 7 where the log is full, and 8
/// where the command is refused. 7 is also what an install is answered where with one more for each lane 4,096 bindings
/// would be live, so far as the handle has read: else none of the hub's places might be left by a renewal. 17 is what it
/// is answered where the library doesn't share a version, which no handle in use meets; nothing is done then. Beside 6
/// the reply to the last raise is still kept.
#[unsafe(no_mangle)]
pub extern "C" fn spin_command(
    alloc: Global,
    lane: &mut SpinLane,
    row: &SpinRow,
    answer: &mut SpinAnswer,
) -> u32
    ensures { TellsOf lane.old.kept (asked.Command (row_from row.now)) lane.new.kept result answer.new }
{
    ask_of(alloc, lane, Ask::Command(row_from(row)), answer)
}

/// Tells as the value the binding at an index, counted from 0, of the cycle for which the last command was refused. It
/// answers 0 where there is one, 4 where the handle is closed, and 15 where the cycle has no such binding, or none is kept:
/// the last command of a row made none, or something was raised or the hub renewed since. It asks for no memory.
#[unsafe(no_mangle)]
pub extern "C" fn spin_cycle(
    alloc: Global,
    lane: &mut SpinLane,
    index: u64,
    answer: &mut SpinAnswer,
) -> u32
    ensures { TellsOf lane.old.kept (asked.Cycle index) lane.new.kept result answer.new }
{
    ask_of(alloc, lane, Ask::Cycle(index), answer)
}

/// Renews the hub of a handle with which it was opened, where no seat of it is out; those at home are taken in. The
/// hub goes on over a new log, with room for 4,096 commands less one for each live binding, and nothing is lost that
/// is bound. The live bindings are numbered anew, from 1 on in the order of their numbers; [`spin_before`] tells what
/// they were. No reply is kept then. It answers 0 where it is renewed; 1 where there was no memory, 4 where the handle
/// is closed, 7 where 4,096 bindings are live, 13 where the handle's seat was handed out by another, 14 where a seat
/// is out, 17 where other handles still share the hub, though no seat is out, and 19 where the hub was ended. Beside
/// another number than 0 the handle is as it was, but for the seats that it took in, which after 1 and 7 may have read
/// on.
#[unsafe(no_mangle)]
pub extern "C" fn spin_renew(alloc: Global, lane: &mut SpinLane, answer: &mut SpinAnswer) -> u32
    ensures { TellsOf lane.old.kept asked.Renew lane.new.kept result answer.new }
{
    ask_of(alloc, lane, Ask::Renew, answer)
}

/// Ends the hub of a handle with which it was opened, where no seat of it is out; those at home are taken in. It tells
/// as the value, and as the place, how many rows the log has: they are clean, and with all that the hub's seats
/// answered one legal history. The handle stays open, to tell the rows. It answers 0 where the hub is ended now, 1
/// where there was no memory, 4 where the handle is closed, 13 where its seat was handed out by another, 14 where a
/// seat is out, 17 where other handles still share the hub, though no seat is out, and 19 where it was ended before.
/// Beside another number than 0 the handle is as it was, but for the seats that it took in.
#[unsafe(no_mangle)]
pub extern "C" fn spin_end(alloc: Global, lane: &mut SpinLane, answer: &mut SpinAnswer) -> u32
    ensures { TellsOf lane.old.kept asked.End lane.new.kept result answer.new }
{
    ask_of(alloc, lane, Ask::End, answer)
}

/// Tells the row at an index, counted from 0, of a hub that was ended. It answers 0 where it is told, and zeros beside
/// another number: 4 where the handle is closed, and 20 where the hub wasn't ended, or its log has no such row. It asks
/// for no memory.
#[unsafe(no_mangle)]
pub extern "C" fn spin_row_at(
    alloc: Global,
    lane: &mut SpinLane,
    index: u64,
    row: &mut SpinRow,
) -> u32
    ensures { TellsRow lane.old.kept index lane.new.kept result row.new }
{
    ask_row(alloc, lane, index, row)
}

/// Tells as the value which number the binding had before the last renewal that is now this index and 1. It answers 0
/// where there is one, 4 where the handle is closed, and 15 where the last renewal numbered no such binding, or there
/// was none. It asks for no memory.
#[unsafe(no_mangle)]
pub extern "C" fn spin_before(
    alloc: Global,
    lane: &mut SpinLane,
    index: u64,
    answer: &mut SpinAnswer,
) -> u32
    ensures { TellsOf lane.old.kept (asked.Before index) lane.new.kept result answer.new }
{
    ask_of(alloc, lane, Ask::Before(index), answer)
}

/// Closes a handle. A seat that was handed out goes home. It answers 0 where the handle was open and is closed now,
/// and 4 where it was closed. It asks for no memory.
#[unsafe(no_mangle)]
pub extern "C" fn spin_close(alloc: Global, lane: &mut SpinLane, answer: &mut SpinAnswer) -> u32
    ensures { TellsOf lane.old.kept asked.Close lane.new.kept result answer.new }
{
    ask_of(alloc, lane, Ask::Close, answer)
}
