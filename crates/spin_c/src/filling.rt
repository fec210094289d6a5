//! What a whole run comes to, in the buffers of C.

ghost use Rattle.std.specs.Prelude.{◌≡◌, ◌↔◌, IsTrue};
ghost use Rattle.spin_c.specs.Wholes.{Fills, Fits, TellsWhole, refused_by, sizes_of};

use crate::copying::put_front;
use crate::reading::Unread;
use crate::told::{unread_fault, unread_number};
use crate::whole_run::{Output, SpinRan, SpinSending, Whole};

// Whether each part has room in its buffer.
fn fits(output: &Output, report: &[u8], sends: &[SpinSending], bytes: &[u8]) -> bool
    ensures { IsTrue result
        ↔ Fits output.now (record { report = report.now; sends = sends.now; bytes = bytes.now }) }
{
    output.report.len() <= report.len()
        && output.sends.len() <= sends.len()
        && output.bytes.len() <= bytes.len()
}

// Copies each part to the front of its buffer, where all have room.
fn fill(output: &Output, report: &mut [u8], sends: &mut [SpinSending], bytes: &mut [u8]) -> u32
    ensures { Fills output.now (record { report = report.old; sends = sends.old; bytes = bytes.old })
        result (record { report = report.new; sends = sends.new; bytes = bytes.new }) }
{
    if !fits(output, report, sends, bytes) {
        return 11;
    }
    put_front(output.report.as_slice(), report);
    put_front(output.sends.as_slice(), sends);
    put_front(output.bytes.as_slice(), bytes);
    0
}

// How long the parts are.
fn sizes_of(output: &Output) -> SpinRan
    ensures { result ≡ sizes_of output.now }
{
    SpinRan {
        report: output.report.len() as u64,
        sends: output.sends.len() as u64,
        bytes: output.bytes.len() as u64,
        line: 0,
        cause: 0,
    }
}

// Where what is handed in is refused, and why.
fn refused_by(why: &Unread) -> SpinRan
    ensures { result ≡ refused_by why.now }
{
    let fault = unread_fault(why);
    SpinRan {
        report: 0,
        sends: 0,
        bytes: 0,
        line: fault.line,
        cause: fault.cause,
    }
}

// Tells what a run comes to.
pub(crate) fn tell_whole(
    whole: &Whole,
    report: &mut [u8],
    sends: &mut [SpinSending],
    bytes: &mut [u8],
    ran: &mut SpinRan,
) -> u32
    ensures { TellsWhole whole.now (record { report = report.old; sends = sends.old; bytes = bytes.old })
        result (record { report = report.new; sends = sends.new; bytes = bytes.new }) ran.new }
{
    match whole {
        Whole::Ran(output) => {
            *ran = sizes_of(output);
            fill(output, report, sends, bytes)
        }
        Whole::Unread(why) => {
            *ran = refused_by(why);
            unread_number(why)
        }
    }
}
