//! Writing scripts in their canonical text.

mod code;
mod declared;
mod deeds;
pub mod law;
mod rules;
mod words;

ghost use Rattle.std.specs.Prelude.{◌≡◌, ◌++◌, ◌∷◌, IfOk, OnOk, map};
ghost use Rattle.std.specs.List.{flat_map};
ghost use Rattle.spin_grammar.specs.Lines as said;
ghost use Rattle.spin_script.specs.Canonical.{line_text, text_of_lines, version_text};
ghost use Rattle.spin_script.specs.Canonical.{segment_lines, segments_lines, canonical};
ghost use Rattle.spin_script.specs.Canonical as specs;

use crate::script::{Line, Script, Segment};
use declared::{put_defaults, put_endpoints, put_events, put_guards, put_handlers};
use deeds::put_work;
pub use rules::op_word;
use rules::put_authorities;
use spin_text::{end_line, put_number};
use spin_values::{NoMemory, Octets};
use std::alloc::Global;

// Appends the first line, and the line that says how many modules there are.
fn put_head(out: &mut Octets, version: u8, modules: u16) -> Result<(), NoMemory>
    ensures { OnOk result
        (out.new ≡ out.old ++ version_text version ++ line_text (said.Modules modules)) }
{
    out.extend_from_slice(b"spin")?;
    put_number(out, u64::from(version))?;
    end_line(out)?;
    out.extend_from_slice(b"modules")?;
    put_number(out, u64::from(modules))?;
    end_line(out)
}

fn put_retire(out: &mut Octets, endpoint: u16) -> Result<(), NoMemory>
    ensures { OnOk result (out.new ≡ out.old ++ line_text (said.Retire endpoint)) }
{
    out.extend_from_slice(b"retire")?;
    put_number(out, u64::from(endpoint))?;
    end_line(out)
}

fn put_line(out: &mut Octets, version: u8, line: &Line) -> Result<(), NoMemory>
    ensures { OnOk result (out.new ≡ out.old ++ line_text (specs.lane_line version line.now)) }
{
    out.extend_from_slice(b"lane")?;
    put_number(out, u64::from(line.lane))?;
    put_work(out, version, &line.work)?;
    end_line(out)
}

fn put_retires(out: &mut Octets, endpoints: &[u16]) -> Result<(), NoMemory>
    ensures { OnOk result (out.new ≡ out.old ++ text_of_lines (map said.Retire endpoints.now)) }
{
    for endpoint in endpoints {
        put_retire(out, *endpoint)?;
    }
    Ok(())
}

fn put_lines(out: &mut Octets, version: u8, lines: &[Line]) -> Result<(), NoMemory>
    ensures { OnOk result (out.new ≡ out.old ++ text_of_lines (map (specs.lane_line version) lines.now)) }
{
    for line in lines {
        put_line(out, version, line)?;
    }
    Ok(())
}

fn put_segment(out: &mut Octets, version: u8, segment: &Segment) -> Result<(), NoMemory>
    ensures { OnOk result (out.new ≡ out.old ++ text_of_lines (segment_lines version segment.now)) }
{
    put_retires(out, segment.retires.as_slice())?;
    put_lines(out, version, segment.lines.as_slice())
}

// Appends segments, each behind a barrier.
fn put_later_segments(out: &mut Octets, version: u8, segments: &[Segment]) -> Result<(), NoMemory>
    ensures { OnOk result (out.new ≡ out.old
        ++ text_of_lines (flat_map (λ s. said.Barrier ∷ segment_lines version s) segments.now)) }
{
    for segment in segments {
        out.extend_from_slice(b"barrier")?;
        end_line(out)?;
        put_segment(out, version, segment)?;
    }
    Ok(())
}

fn put_segments(out: &mut Octets, version: u8, segments: &[Segment]) -> Result<(), NoMemory>
    ensures { OnOk result (out.new ≡ out.old ++ text_of_lines (segments_lines version segments.now)) }
{
    if segments.is_empty() {
        return Ok(());
    }
    put_segment(out, version, &segments[0])?;
    put_later_segments(out, version, &segments[1..])
}

/// The canonical text of a script: the words of its lines stand behind one space each, numbers are decimal without
/// leading zeros, bytes have digits in lower case, natives stand by their names, no line is skipped, and the lines of
/// each section stand by rising event, an event's rules in their order. It takes time and memory linear in the text,
/// and stack as deep as expressions and tests are.
pub fn write_script(alloc: Global, script: &Script) -> Result<Octets, NoMemory>
    ensures { IfOk result (λ text. text ≡ canonical script.now) }
{
    let mut out = Octets::new(alloc);
    let catalogue = script.setup.catalogue();
    put_head(&mut out, script.version, script.setup.modules())?;
    put_events(&mut out, &script.setup)?;
    put_endpoints(&mut out, script.endpoints.as_slice())?;
    put_handlers(&mut out, catalogue)?;
    put_guards(&mut out, catalogue)?;
    put_authorities(&mut out, &script.setup)?;
    put_defaults(&mut out, &script.setup)?;
    put_segments(&mut out, script.version, script.segments.as_slice())?;
    Ok(out)
}
