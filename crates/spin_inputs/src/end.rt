//! The ends of a call: their statuses, and the lines that are written at them.

ghost use Rattle.std.specs.Prelude.{◌≡◌, ◌<◌, ◌≤◌, ◌+◌, ◌++◌, length, decimal};
ghost use Rattle.arrayvec.specs.ArrayVec.{array_vec_len};
ghost use Rattle.spin_text.specs.Words.{ended};
ghost use Rattle.spin_inputs.specs.Ends.{end_at, exit_status, stop_line, input_word, Tells};

use arrayvec::ArrayVec;
use itoa::Buffer;
use spin_outside::{Sink, write_all};
use spin_pcap::BadRecord;

/// A file that the words of a command name.
#[derive(Clone, Copy, Debug, PartialEq, Eq)]
pub enum Input {
    /// The script.
    Script,
    /// The capture.
    Packets,
    /// The report.
    Report,
    /// The trace.
    Trace,
}

/// How the top call ends. Each end has a status, a line that is written at it, and a cause.
#[derive(Clone, Copy, Debug, PartialEq, Eq)]
pub enum End {
    /// All was done and written.
    Whole,
    /// The words have none of the forms.
    Usage,
    /// The script is refused.
    Refused {
        /// The first bad line, counted from 1; 0 where it is the script as a whole.
        line: u32,
        /// The number of the cause.
        cause: u8,
    },
    /// The capture is refused.
    Capture {
        /// The number of the record, counted from 1; 0 where it is the header.
        number: u32,
        /// The number of the fault.
        fault: u8,
    },
    /// The shelf failed at this file.
    Unread(Input),
    /// The sink failed at the report.
    WriteFault,
    /// The shelf has no file of this one's name.
    Absent(Input),
    /// There was no memory.
    NoMemory,
    /// The endpoint of that number failed.
    Endpoint(u8),
    /// The report is that of no history of the script, which was answered.
    NoHistory,
    /// The report has more bytes than one may have.
    LongReport,
    /// The trace is refused.
    Trace {
        /// The first bad line, counted from 1; 0 where it is the trace as a whole.
        line: u32,
        /// The number of the cause.
        cause: u8,
    },
    /// The script isn't one for traces.
    Unsuited,
}

// The most bytes of a stop line. The longest is the usage.
const LINE_ROOM: usize = 192;

// The most bytes of a number in a stop line.
const NUMBER_ROOM: usize = 40;

// The most bytes of the word for a file.
const WORD_ROOM: usize = 8;

// A stop line. It takes no memory.
type StopLine = ArrayVec<u8, LINE_ROOM>;

/// The exit status of an end.
pub fn status_of(end: End) -> u8
    ensures { result ≡ exit_status end }
{
    match end {
        End::Whole => 0,
        End::Usage => 1,
        End::Refused { .. } => 2,
        End::Capture { .. } => 3,
        End::Unread(_) => 4,
        End::WriteFault => 5,
        End::Absent(_) => 6,
        End::NoMemory => 7,
        End::Endpoint(_) => 8,
        End::NoHistory => 9,
        End::LongReport => 10,
        End::Trace { .. } => 11,
        End::Unsuited => 12,
    }
}

/// The end of a call whose capture wasn't read on.
pub fn end_at(bad: BadRecord) -> End
    ensures { result ≡ end_at bad }
{
    match bad {
        BadRecord::Capture { number, fault } => End::Capture { number, fault },
        BadRecord::ReadFault => End::Unread(Input::Packets),
        BadRecord::NoMemory => End::NoMemory,
    }
}

fn put(line: &mut StopLine, bytes: &[u8])
    requires { array_vec_len line.old + length bytes.now ≤ LINE_ROOM }
    ensures bytes { line.new.items ≡ line.old.items ++ bytes.now }
    ensures len { array_vec_len line.new ≡ array_vec_len line.old + length bytes.now }
{
    if let Err(_) = line.try_extend_from_slice(bytes) {
        unreachable!()
    }
}

fn put_number(line: &mut StopLine, number: u64)
    requires { array_vec_len line.old + NUMBER_ROOM ≤ LINE_ROOM }
    ensures bytes { line.new.items ≡ line.old.items ++ decimal number }
    ensures len { array_vec_len line.new ≤ array_vec_len line.old + NUMBER_ROOM }
{
    let mut buffer = Buffer::new();
    put(line, buffer.format(number).as_bytes());
}

// The word for a file in a stop line.
fn word_of(input: Input) -> &'static [u8]
    ensures word { result.now ≡ input_word input }
    ensures few { length result.now ≤ WORD_ROOM }
{
    match input {
        Input::Script => b"script",
        Input::Packets => b"packets",
        Input::Report => b"report",
        Input::Trace => b"trace",
    }
}

// A line of this text.
fn fixed(text: &[u8]) -> StopLine
    requires { length text.now < LINE_ROOM }
    ensures { result.items ≡ ended text.now }
{
    let mut line = StopLine::new();
    put(&mut line, text);
    put(&mut line, b"\n");
    line
}

// A line of this text and the word for a file.
fn with_file(front: &[u8], input: Input) -> StopLine
    requires { length front.now + WORD_ROOM < LINE_ROOM }
    ensures { result.items ≡ ended (front.now ++ input_word input) }
{
    let mut line = StopLine::new();
    put(&mut line, front);
    put(&mut line, word_of(input));
    put(&mut line, b"\n");
    line
}

// A line of this text and a number.
fn with_number(front: &[u8], number: u8) -> StopLine
    requires { length front.now + NUMBER_ROOM < LINE_ROOM }
    ensures { result.items ≡ ended (front.now ++ decimal number) }
{
    let mut line = StopLine::new();
    put(&mut line, front);
    put_number(&mut line, u64::from(number));
    put(&mut line, b"\n");
    line
}

// A line of these texts, with a number behind each.
fn with_two(front: &[u8], first: u32, middle: &[u8], second: u8) -> StopLine
    requires { length front.now + NUMBER_ROOM + length middle.now + NUMBER_ROOM < LINE_ROOM }
    ensures { result.items
        ≡ ended (front.now ++ decimal first ++ middle.now ++ decimal second) }
{
    let mut line = StopLine::new();
    put(&mut line, front);
    put_number(&mut line, u64::from(first));
    put(&mut line, middle);
    put_number(&mut line, u64::from(second));
    put(&mut line, b"\n");
    line
}

// The words of every command.
const USAGE: &[u8] = b"usage: spin run SCRIPT [PACKETS] | spin gen NUMBER \
    | spin check SCRIPT REPORT [PACKETS] | spin join SCRIPT PACKETS | spin vm SCRIPT TRACE";

// The line of an end, with its line feed; some have none.
fn line_of(end: End) -> StopLine
    ensures { result.items ≡ stop_line end }
{
    match end {
        End::Whole | End::WriteFault | End::NoHistory => StopLine::new(),
        End::Usage => fixed(USAGE),
        End::Refused { line, cause } => with_two(b"stop 2 line ", line, b" cause ", cause),
        End::Capture { number, fault } => with_two(b"stop 3 record ", number, b" fault ", fault),
        End::Unread(input) => with_file(b"stop 4 read ", input),
        End::Absent(input) => with_file(b"stop 6 ", input),
        End::NoMemory => fixed(b"stop 7 memory"),
        End::Endpoint(number) => with_number(b"stop 8 endpoint ", number),
        End::LongReport => fixed(b"stop 10 report"),
        End::Trace { line, cause } => with_two(b"stop 11 line ", line, b" cause ", cause),
        End::Unsuited => fixed(b"stop 12 script"),
    }
}

/// Writes the end's line, and answers its status. A line that can't be written leaves the status.
pub fn stop<K: Sink>(out: &mut K, end: End) -> u8
    ensures status { result ≡ exit_status end }
    ensures line { Tells (K.seen out.old) (K.seen out.new) (stop_line end) }
{
    let line = line_of(end);
    let _ = write_all(out, line.as_slice());
    status_of(end)
}
