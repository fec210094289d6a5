//! The last line of a report.

ghost use Rattle.std.specs.Prelude.{◌≡◌, ◌≤◌, ◌++◌, OnOk, Option, length};
ghost use Rattle.std.specs.Option.{option_map, option_copied};
ghost use Rattle.spin_text.specs.Words.{ended, spaced};
ghost use Rattle.spin_report.specs.Histories.{capture_words, end_line};
ghost use Rattle.spin_report.specs.Runs.{frames_of, counts_of};
ghost use Rattle.spin_check.specs.RunTexts.{capture_of};

use spin_pcap::Captured;
use spin_text::{end_line as put_end, put_number, put_word};
use spin_values::{NoMemory, Octets};

// Appends what the last line tells of a capture of which so many records are left.
fn put_counts(
    line: &mut Octets,
    capture: Option<&Captured>,
    left: &[Octets],
) -> Result<(), NoMemory>
    requires left { length left.now ≤ length (frames_of (option_map capture_of (option_copied capture))) }
    ensures { let counts = option_map (counts_of left.now) (option_map capture_of (option_copied capture.entry)) in
        OnOk result (line.new ≡ line.old ++ spaced (capture_words counts)) }
{
    let Some(capture) = capture else {
        return Ok(());
    };
    let records = capture.frames.len();
    put_word(line, b"records")?;
    put_number(line, records as u64)?;
    put_word(line, b"used")?;
    put_number(line, (records - left.len()) as u64)?;
    put_word(line, b"cut")?;
    put_number(line, u64::from(capture.cut))
}

/// Appends the last line of a report: the place, and of a capture its records and how many of them were used, `left` being
/// those that weren't, and were cut.
pub fn put_last(
    report: &mut Octets,
    place: u16,
    capture: Option<&Captured>,
    left: &[Octets],
) -> Result<(), NoMemory>
    requires left { length left.now ≤ length (frames_of (option_map capture_of (option_copied capture))) }
    ensures { let counts = option_map (counts_of left.now) (option_map capture_of (option_copied capture.entry)) in
        OnOk result (report.new ≡ report.old ++ ended (end_line place counts)) }
{
    report.extend_from_slice(b"end")?;
    put_number(report, u64::from(place))?;
    put_counts(report, capture, left)?;
    put_end(report)
}
