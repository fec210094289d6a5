//! Running a script whole.

ghost use Rattle.std.specs.Prelude.{◌≡◌, IfOk};
ghost use Rattle.std.specs.Option.{option_copied, option_map};
ghost use Rattle.spin_grammar.specs.Words.{words};
ghost use Rattle.spin_script.specs.States.{natives_seen};
ghost use Rattle.spin_c.specs.Wholes.{IsLaidOut, RunsTo};

use crate::reading::{Unread, read_case};
use crate::whole_run::{Output, SpinSending, Whole};
use spin_code::Sincere;
use spin_objects::Natives;
use spin_values::{NoMemory, Octets, Sequence};
use spin_whole::{Ran, run_text};
use std::alloc::Global;

// Lays the bytes of all sends one behind another.
fn lay_out(alloc: Global, ran: Ran) -> Result<Output, NoMemory>
    ensures { IfOk result (IsLaidOut ran) }
{
    let Ran { report, sends } = ran;
    let (mut sendings, mut bytes) = (Sequence::new(alloc), Octets::new(alloc));
    for sent in sends.as_slice() {
        sendings.push(SpinSending {
            endpoint: u64::from(sent.endpoint()),
            at: bytes.len() as u64,
            length: sent.bytes().len() as u64,
        })?;
        bytes.extend_from_slice(sent.bytes())?;
    }
    Ok(Output {
        report,
        sends: sendings,
        bytes,
    })
}

// Runs the script without threads, where of its endpoints those stand that the last line names.
pub(crate) fn run_whole(
    alloc: Global,
    natives: Natives,
    text: &[u8],
    packets: Option<&[u8]>,
    standing: &[u8],
) -> Whole
    requires sincere { ⟦<Natives as Sincere>⟧.sincere natives }
    ensures { RunsTo (natives_seen natives) text.now (option_copied packets.entry) (words standing.now) result }
{
    let case = match read_case(alloc, natives, text, packets, standing) {
        Ok(case) => case,
        Err(why) => return Whole::Unread(why),
    };
    let ran = match run_text(alloc, &case.script, &case.names, case.capture.as_ref()) {
        Ok(ran) => ran,
        Err(NoMemory) => return Whole::Unread(Unread::NoMemory),
    };
    match lay_out(alloc, ran) {
        Ok(output) => Whole::Ran(output),
        Err(NoMemory) => Whole::Unread(Unread::NoMemory),
    }
}
