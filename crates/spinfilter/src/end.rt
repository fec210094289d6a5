//! How a call ends: its status, and the line that is written.

ghost use Rattle.std.specs.Prelude.{◌≡◌, ◌<◌, ◌≤◌, ◌+◌, ◌++◌, length, decimal};
ghost use Rattle.arrayvec.specs.ArrayVec.{array_vec_len};
ghost use Rattle.spin_text.specs.Words.{ended};
ghost use Rattle.spin_inputs.specs.Ends.{Tells};
ghost use Rattle.spinfilter.specs.Ends.{stop_status, stop_line, stop_refused, usage};

use arrayvec::ArrayVec;
use itoa::Buffer;
use spin_filter::Stop;
use spin_outside::{Sink, write_all};

// The most bytes of a line.
const LINE_ROOM: usize = 128;

// The most bytes of a number in a line.
const NUMBER_ROOM: usize = 40;

// A line. It takes no memory.
type Line = ArrayVec<u8, LINE_ROOM>;

/// The exit status of a stop.
pub fn status_of(stop: Stop) -> u8
    ensures { result ≡ stop_status stop }
{
    match stop {
        Stop::Capture { .. } => 3,
        Stop::Unread => 4,
        Stop::WriteFault => 5,
        Stop::Absent => 6,
        Stop::NoMemory => 7,
        Stop::Endpoint(_) => 8,
        Stop::Retires | Stop::Segments | Stop::Lane(_) | Stop::InTheWay(_) | Stop::NoRecords => 12,
        Stop::NoFrame(_) => 13,
    }
}

fn put(line: &mut Line, bytes: &[u8])
    requires { array_vec_len line.old + length bytes.now ≤ LINE_ROOM }
    ensures bytes { line.new.items ≡ line.old.items ++ bytes.now }
    ensures len { array_vec_len line.new ≡ array_vec_len line.old + length bytes.now }
{
    if let Err(_) = line.try_extend_from_slice(bytes) {
        unreachable!()
    }
}

fn put_number(line: &mut Line, number: u64)
    requires { array_vec_len line.old + NUMBER_ROOM ≤ LINE_ROOM }
    ensures bytes { line.new.items ≡ line.old.items ++ decimal number }
    ensures len { array_vec_len line.new ≤ array_vec_len line.old + NUMBER_ROOM }
{
    let mut buffer = Buffer::new();
    put(line, buffer.format(number).as_bytes());
}

// A line of this text.
fn fixed(text: &[u8]) -> Line
    requires { length text.now < LINE_ROOM }
    ensures { result.items ≡ ended text.now }
{
    let mut line = Line::new();
    put(&mut line, text);
    put(&mut line, b"\n");
    line
}

// A line of these texts around a number.
fn around(front: &[u8], number: u64, back: &[u8]) -> Line
    requires { length front.now + NUMBER_ROOM + length back.now < LINE_ROOM }
    ensures { result.items ≡ ended (front.now ++ decimal number ++ back.now) }
{
    let mut line = Line::new();
    put(&mut line, front);
    put_number(&mut line, number);
    put(&mut line, back);
    put(&mut line, b"\n");
    line
}

// The line of a capture that is refused.
fn refused(number: u64, fault: u8) -> Line
    ensures { result.items ≡ stop_refused number fault }
{
    let mut line = Line::new();
    put(&mut line, b"stop 3 record ");
    put_number(&mut line, number);
    put(&mut line, b" fault ");
    put_number(&mut line, u64::from(fault));
    put(&mut line, b"\n");
    line
}

// The line of a stop, with its line feed; one has none.
fn line_of(stop: Stop) -> Line
    ensures { result.items ≡ stop_line stop }
{
    match stop {
        Stop::Capture { number, fault } => refused(number, fault.number()),
        Stop::Unread => fixed(b"stop 4 read packets"),
        Stop::WriteFault => Line::new(),
        Stop::Absent => fixed(b"stop 6 packets"),
        Stop::NoMemory => fixed(b"stop 7 memory"),
        Stop::Endpoint(number) => around(b"stop 8 endpoint ", u64::from(number), b""),
        Stop::Retires => fixed(b"stop 12 retire"),
        Stop::Segments => fixed(b"stop 12 segments"),
        Stop::Lane(number) => around(b"stop 12 line ", u64::from(number), b" lane"),
        Stop::InTheWay(number) => around(b"stop 12 line ", u64::from(number), b" deed"),
        Stop::NoRecords => fixed(b"stop 12 packets"),
        Stop::NoFrame(number) => around(b"stop 13 endpoint ", u64::from(number), b""),
    }
}

// Writes the line. A sink that fails at it is left so.
fn put_line<K: Sink>(out: &mut K, line: &Line)
    ensures { Tells (K.seen out.old) (K.seen out.new) line.now.items }
{
    let _ = write_all(out, line.as_slice());
}

/// Writes the stop's line, and answers its status. A line that can't be written leaves the status.
pub fn tell<K: Sink>(out: &mut K, stop: Stop) -> u8
    ensures status { result ≡ stop_status stop }
    ensures line { Tells (K.seen out.old) (K.seen out.new) (stop_line stop) }
{
    put_line(out, &line_of(stop));
    status_of(stop)
}

/// Writes how the words are, and answers the status of words that have another form.
pub fn tell_usage<K: Sink>(out: &mut K) -> u8
    ensures status { result ≡ 1 }
    ensures line { Tells (K.seen out.old) (K.seen out.new) (ended usage) }
{
    let line = fixed(b"usage: spinfilter SCRIPT CAPTURE.. [-w FILE] [--counts]");
    put_line(out, &line);
    1
}
