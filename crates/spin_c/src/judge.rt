//! Judging a report.

ghost use Rattle.std.specs.Prelude.{◌≡◌};
ghost use Rattle.std.specs.Option.{option_copied};
ghost use Rattle.spin_grammar.specs.Words.{words};
ghost use Rattle.spin_script.specs.States.{natives_seen};
ghost use Rattle.spin_c.specs.Verdicts.{IsVerdict};

use crate::reading::{Unread, read_case};
use crate::verdict::Verdict;
use spin_check::check_report;
use spin_code::Sincere;
use spin_objects::Natives;
use spin_values::NoMemory;
use std::alloc::Global;

// Judges the report, where of the script's endpoints those stand that the last line names.
pub(crate) fn judge(
    alloc: Global,
    natives: Natives,
    text: &[u8],
    packets: Option<&[u8]>,
    report: &[u8],
    standing: &[u8],
) -> Verdict
    requires sincere { ⟦<Natives as Sincere>⟧.sincere natives }
    ensures { IsVerdict (natives_seen natives) text.now (option_copied packets.entry) (words standing.now)
        report.now result }
{
    let case = match read_case(alloc, natives, text, packets, standing) {
        Ok(case) => case,
        Err(why) => return Verdict::Unread(why),
    };
    match check_report(
        alloc,
        &case.script,
        &case.names,
        case.capture.as_ref(),
        report,
    ) {
        Ok(true) => Verdict::History,
        Ok(false) => Verdict::NoHistory,
        Err(NoMemory) => Verdict::Unread(Unread::NoMemory),
    }
}
