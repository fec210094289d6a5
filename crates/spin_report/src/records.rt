//! The records of a capture that the lines of a segment take.

ghost use Rattle.std.specs.Prelude.{◌≡◌, ◌<◌, ◌^◌, length, take, drop};
ghost use Rattle.spin_report.specs.Segments.{records_wanted};

use spin_values::Octets;
use spin_word::Work;

/// How many records a line takes at most.
pub fn records_wanted(work: &Work) -> u32
    ensures { result ≡ records_wanted work.now }
{
    match work {
        Work::Packet { count, .. } => *count,
        Work::Command(_) | Work::Deed(_) => 0,
    }
}

/// The records that a line takes of those that are left, and the others. It copies nothing.
pub fn split_records<'a>(work: &Work, left: &'a [Octets]) -> (&'a [Octets], &'a [Octets])
    ensures records { result.0.now ≡ take (records_wanted work.now) left.now }
    ensures others { result.1.now ≡ drop (records_wanted work.now) left.now }
    ensures few { length result.0.now < 2 ^ 32 }
{
    let wanted = records_wanted(work) as usize;
    left.split_at(wanted.min(left.len()))
}
