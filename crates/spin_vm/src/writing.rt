//! The lines of the output.

ghost use Rattle.std.specs.Prelude.{◌≡◌, ◌+◌, ◌++◌, ◌∷◌, ◌≤◌, [], None, decimal, length, IfOk, OnOk};
ghost use Rattle.spin_values.specs.First.{first_of};
ghost use Rattle.spin_text.specs.Words.{spaced, line_of, ended};
ghost use Rattle.spin_word.specs.declared.work.Deed.{Deed};
ghost use Rattle.spin_table.specs.SetupOf.{data_of};
ghost use Rattle.spin_table.specs.Soundness.{IsSoundVersion};
ghost use Rattle.spin_proto.specs.declared.reply.Reply.{Reply};
ghost use Rattle.spin_vm.specs.Traces.{trace_checks, regions_after, AreGood};
ghost use Rattle.spin_vm.specs.Scripts.{AreReplies};
ghost use Rattle.spin_vm.specs.Spaces.{said_came, spaces_after, mapped_pages};
ghost use Rattle.spin_vm.specs.Output.{frame_words, came_words, end_line, output};
ghost use Rattle.spin_vm.specs.Inner.Lines.{regions_of, text_if, text_behind, Wrote, WroteWithin};

use crate::answering::{answer, mapped_pages};
use crate::came::Came;
use crate::line::TraceLine;
use crate::space::Space;
use spin_code::Sincere;
use spin_objects::Catalogue;
use spin_outside::{Failed, Sink, write_all};
use spin_report::reply_text;
use spin_table::{Setup, Version};
use spin_text::{end_line, put_decimal, put_number, put_word};
use spin_values::{NoMemory, Octets};
use std::alloc::Global;

// Why the output isn't whole.
#[derive(Clone, Copy)]
pub(crate) enum Stop {
    // The sink failed.
    WriteFault,
    // There was no memory.
    NoMemory,
}

impl From<NoMemory> for Stop {
    ghost use Rattle.std.specs.Prelude.{◌≡◌};
    ghost use Rattle.spin_vm.specs.declared.writing.Stop.TheVariants as stop;

    ghost from_gives = { λ _ e. e ≡ stop.NoMemory };

    fn from(_: NoMemory) -> Stop {
        Stop::NoMemory
    }
}

fn put_frame(out: &mut Octets, frame: Option<u16>) -> Result<(), NoMemory>
    ensures { OnOk result (out.new ≡ out.old ++ spaced (frame_words frame)) }
{
    match frame {
        None => put_word(out, b"none"),
        Some(frame) => {
            put_word(out, b"frame")?;
            put_number(out, u64::from(frame))
        }
    }
}

fn put_came(out: &mut Octets, came: &Came) -> Result<(), NoMemory>
    ensures { OnOk result (out.new ≡ out.old ++ spaced (came_words came.now)) }
{
    match came {
        Came::Found(frame) => put_frame(out, Some(*frame)),
        Came::Faulted(fault, reply, frame) => {
            put_word(out, fault.word())?;
            reply_text(reply, out)?;
            put_frame(out, *frame)
        }
        Came::Unmapped(was) => {
            put_word(out, b"unmap")?;
            put_word(
                out,
                if *was {
                    b"ok".as_slice()
                } else {
                    b"none".as_slice()
                },
            )
        }
    }
}

// The line of what a line of the trace came to.
fn came_text(alloc: Global, number: u32, came: &Came) -> Result<Octets, NoMemory>
    ensures { IfOk result
        (λ text. text ≡ ended (line_of (decimal number ∷ came_words came.now))) }
{
    let mut text = Octets::new(alloc);
    put_decimal(&mut text, u64::from(number))?;
    put_came(&mut text, came)?;
    end_line(&mut text)?;
    Ok(text)
}

// The last line: how many pages are mapped.
fn end_text(alloc: Global, pages: usize) -> Result<Octets, NoMemory>
    ensures { IfOk result (λ text. text ≡ ended (end_line pages)) }
{
    let mut text = Octets::new(alloc);
    text.extend_from_slice(b"end")?;
    put_number(&mut text, pages as u64)?;
    end_line(&mut text)?;
    Ok(text)
}

// Writes the text.
fn write_text<K: Sink>(out: &mut K, text: &[u8]) -> Result<(), Stop>
    ensures written { Wrote (K.seen out.old) (K.seen out.new) text.now result }
    ensures counts { IfOk result (λ _. (K.seen out.new).faults ≡ (K.seen out.old).faults) }
{
    match write_all(out, text) {
        Ok(()) => Ok(()),
        Err(Failed) => Err(Stop::WriteFault),
    }
}

// Writes what a line came to, if it came to something.
fn write_came<K: Sink>(
    alloc: Global,
    line: &TraceLine,
    came: Option<Came>,
    out: &mut K,
) -> Result<(), Stop>
    ensures written { Wrote (K.seen out.old) (K.seen out.new) (text_if line.now came) result }
    ensures counts { IfOk result (λ _. (K.seen out.new).faults ≡ (K.seen out.old).faults) }
{
    let Some(came) = came else {
        return Ok(());
    };
    let text = came_text(alloc, line.number, &came)?;
    write_text(out, text.as_slice())
}

// Answers a line of the trace, and writes what it came to.
fn write_line<K: Sink>(
    alloc: Global,
    setup: &Setup,
    version: &Version,
    spaces: &mut Vec<Space>,
    line: &TraceLine,
    out: &mut K,
) -> Result<(), Stop>
    requires sincere { ⟦<Catalogue as Sincere>⟧.sincere setup.now.catalogue }
    requires sound { IsSoundVersion (data_of setup.now) version.now }
    requires good { first_of (trace_checks (regions_of spaces.old.items) line.now.said) ≡ None }
    ensures written { (reply : Deed → Reply) → AreReplies (data_of setup.now) version.now.state reply
        → Wrote (K.seen out.old) (K.seen out.new)
        (text_if line.now (said_came reply spaces.old.items line.now.said)) result }
    ensures spaces { (reply : Deed → Reply) → AreReplies (data_of setup.now) version.now.state reply
        → IfOk result (λ _. spaces.new.items
        ≡ spaces_after reply spaces.old.items line.now.said) }
    ensures regions { IfOk result (λ _. regions_of spaces.new.items
        ≡ regions_after (regions_of spaces.old.items) line.now.said) }
    ensures pages { IfOk result (λ _. mapped_pages spaces.new.items
        ≤ mapped_pages spaces.old.items + 1) }
    ensures counts { IfOk result (λ _. (K.seen out.new).faults ≡ (K.seen out.old).faults) }
{
    let came = answer(alloc, setup, version, spaces, &line.said)?;
    write_came(alloc, line, came, out)
}

// Writes the output behind its first line.
fn write_lines<K: Sink>(
    alloc: Global,
    setup: &Setup,
    version: &Version,
    trace: &[TraceLine],
    out: &mut K,
) -> Result<(), Stop>
    requires sincere { ⟦<Catalogue as Sincere>⟧.sincere setup.now.catalogue }
    requires sound { IsSoundVersion (data_of setup.now) version.now }
    requires good { AreGood [] trace.now }
    ensures written { (reply : Deed → Reply) → AreReplies (data_of setup.now) version.now.state reply
        → WroteWithin (K.seen out.old) (K.seen out.new) (text_behind reply [] trace.now) result }
    ensures counts { IfOk result (λ _. (K.seen out.new).faults ≡ (K.seen out.old).faults) }
{
    let mut spaces = Vec::new(alloc);
    for line in trace {
        write_line(alloc, setup, version, &mut spaces, line, out)?;
    }
    let text = end_text(alloc, mapped_pages(&spaces))?;
    write_text(out, text.as_slice())
}

// Writes the whole output.
pub(crate) fn write_output<K: Sink>(
    alloc: Global,
    setup: &Setup,
    version: &Version,
    trace: &[TraceLine],
    out: &mut K,
) -> Result<(), Stop>
    requires sincere { ⟦<Catalogue as Sincere>⟧.sincere setup.now.catalogue }
    requires sound { IsSoundVersion (data_of setup.now) version.now }
    requires good { AreGood [] trace.now }
    ensures written { (reply : Deed → Reply) → AreReplies (data_of setup.now) version.now.state reply
        → WroteWithin (K.seen out.old) (K.seen out.new) (output reply trace.now) result }
    ensures counts { IfOk result (λ _. (K.seen out.new).faults ≡ (K.seen out.old).faults) }
{
    write_text(out, b"vm 1\n")?;
    write_lines(alloc, setup, version, trace, out)
}
