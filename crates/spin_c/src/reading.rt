//! What a report is judged by, and a run begins with.

ghost use Rattle.std.specs.Prelude.{◌≡◌, ◌≤◌, IfErr, IfOk, Ok, option_map};
ghost use Rattle.std.specs.Option.{option_copied};
ghost use Rattle.spin_word.specs.declared.command.TheConstants.{MAX_PLACE};
ghost use Rattle.spin_grammar.specs.Words.{words};
ghost use Rattle.spin_check.specs.RunTexts.{capture_of};
ghost use Rattle.spin_script.specs.Language.{IsScript};
ghost use Rattle.spin_script.specs.Scripts.{script_seen};
ghost use Rattle.spin_script.specs.Segments.{IsOrderly};
ghost use Rattle.spin_script.specs.Soundness.{AreValid, command_lines};
ghost use Rattle.spin_script.specs.States.{natives_seen};
ghost use Rattle.spin_c.specs.Cases.{IsUnread};
ghost use Rattle.spin_c.specs.Packets.{AreCaptured};

use crate::packets::captured_of;
use spin_code::Sincere;
use spin_grammar::Words;
use spin_objects::{Catalogue, Natives};
use spin_pcap::{BadRecord, Captured};
use spin_script::{Script, ScriptFault, read_script};
use spin_values::{NoMemory, Text, Texts};
use std::alloc::Global;

/// A script, the capture that is handed in beside it, and the names of the endpoints that stand.
#[derive(Drop)]
pub struct Case {
    /// The script.
    pub script: Script,
    /// The capture, where one is handed in.
    pub capture: Option<Captured>,
    /// The names.
    pub names: Texts,
}

/// Why what is handed in isn't read.
#[derive(Clone, Copy, PartialEq, Eq, Debug)]
pub enum Unread {
    /// The text is no script.
    Bad {
        /// Its first bad line, counted from 1; 0 where it is too large.
        line: u32,
        /// The number of the cause.
        cause: u8,
    },
    /// The capture is refused.
    BadCapture {
        /// The number of the record, counted from 1; 0 where it is the header.
        number: u32,
        /// The number of the fault.
        fault: u8,
    },
    /// There was no memory.
    NoMemory,
}

// The words of a line, as texts.
fn words_of(alloc: Global, line: &[u8]) -> Result<Texts, NoMemory>
    ensures { IfOk result (λ texts. texts ≡ words line.now) }
{
    let mut texts = Texts::new(alloc);
    let mut left = Words::new(line);
    while let Some(word) = left.next() {
        texts.push(Text::from_bytes(alloc, word)?)?;
    }
    Ok(texts)
}

// Reads the script, then the capture, if one is handed in, and the names.
pub(crate) fn read_case(
    alloc: Global,
    natives: Natives,
    text: &[u8],
    packets: Option<&[u8]>,
    standing: &[u8],
) -> Result<Case, Unread>
    requires sincere { ⟦<Natives as Sincere>⟧.sincere natives }
    ensures script { IfOk result (λ case. IsScript (natives_seen natives) text.now (Ok (script_seen case.script))) }
    ensures captured { IfOk result
        (λ case. AreCaptured (option_copied packets.entry) (option_map capture_of case.capture)) }
    ensures names { IfOk result (λ case. case.names ≡ words standing.now) }
    ensures sincere { IfOk result (λ case. ⟦<Catalogue as Sincere>⟧.sincere case.script.setup.catalogue) }
    ensures valid { IfOk result (λ case. AreValid case.script.segments) }
    ensures few { IfOk result (λ case. command_lines case.script.segments ≤ MAX_PLACE) }
    ensures orderly { IfOk result (λ case. IsOrderly (script_seen case.script)) }
    ensures why { IfErr result (IsUnread (natives_seen natives) text.now (option_copied packets.entry)) }
{
    let script = match read_script(alloc, text, natives) {
        Ok(script) => script,
        Err(ScriptFault::Bad { line, cause }) => return Err(Unread::Bad { line, cause }),
        Err(ScriptFault::NoMemory) => return Err(Unread::NoMemory),
    };
    let capture = match captured_of(alloc, packets) {
        Ok(capture) => capture,
        Err(BadRecord::Capture { number, fault }) => return Err(Unread::BadCapture {
            number,
            fault,
        }),
        Err(BadRecord::ReadFault) => unreachable!(),
        Err(BadRecord::NoMemory) => return Err(Unread::NoMemory),
    };
    match words_of(alloc, standing) {
        Ok(names) => Ok(Case {
            script,
            capture,
            names,
        }),
        Err(NoMemory) => Err(Unread::NoMemory),
    }
}
