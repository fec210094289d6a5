//! The script.

ghost use Rattle.std.specs.Prelude.{◌≡◌, ◌++◌, ◌∷◌, [], IfOk, OnOk};
ghost use Rattle.spin_grammar.specs.Lines.{Barrier};
ghost use Rattle.spin_script.specs.Canonical.{line_text};
ghost use Rattle.spin_gen.specs.Drafts.{Stated, lane_drafts, segment_drafts, segments_drafts, drafts, state_behind};
ghost use Rattle.spin_gen.specs.Texts.{script_of};
ghost use Rattle.spin_gen.specs.Inner.Writing.{Writes, packets_text};

use crate::draws::Draws;
use crate::head::head;
use crate::lines::{put_line, put_packets};
use spin_text::end_line;
use spin_values::{NoMemory, Octets};
use std::alloc::Global;

// The number of lanes.
const LANES: u8 = 8;

// How many lines a lane has in a segment.
const LINES: u16 = 500;

// The number of segments whose lines are drawn.
const SEGMENTS: u8 = 4;

// As many bytes as the script has at most: those of the longest lines that can be drawn, and some more.
const ROOM: usize = 350_000;

// Appends the lines of a lane in a segment.
fn put_lane(out: &mut Octets, draws: &mut Draws, lane: u8) -> Result<(), NoMemory>
    ensures { OnOk result (Writes out.old draws.old (lane_drafts 500 lane) out.new draws.new) }
{
    for number in 0..LINES {
        put_line(out, draws, lane, number)?;
    }
    Ok(())
}

// Appends a line that ends a segment.
fn put_barrier(out: &mut Octets) -> Result<(), NoMemory>
    ensures { OnOk result (out.new ≡ out.old ++ line_text Barrier) }
{
    out.extend_from_slice(b"barrier")?;
    end_line(out)
}

// Appends a barrier, and behind it the lines of a segment, lane by lane.
fn put_segment(out: &mut Octets, draws: &mut Draws) -> Result<(), NoMemory>
    ensures { OnOk result
        (Writes out.old draws.old (Stated Barrier ∷ segment_drafts 8) out.new draws.new) }
{
    put_barrier(out)?;
    for lane in 0..LANES {
        put_lane(out, draws, lane)?;
    }
    Ok(())
}

// Appends the segments whose lines are drawn.
fn put_segments(out: &mut Octets, draws: &mut Draws) -> Result<(), NoMemory>
    ensures { OnOk result (Writes out.old draws.old (segments_drafts 4) out.new draws.new) }
{
    for _ in 0..SEGMENTS {
        put_segment(out, draws)?;
    }
    Ok(())
}

// Appends a barrier, and behind it the segment in which all lanes take records.
fn put_last(out: &mut Octets) -> Result<(), NoMemory>
    ensures { OnOk result (out.new ≡ out.old ++ line_text Barrier ++ packets_text 8) }
{
    put_barrier(out)?;
    for lane in 0..LANES {
        put_packets(out, lane)?;
    }
    Ok(())
}

// The script, for which is drawn in the order of its lines. Its memory is taken at once.
pub(crate) fn script(alloc: Global, draws: &mut Draws) -> Result<Octets, NoMemory>
    ensures text { IfOk result (λ script. script ≡ script_of draws.old) }
    ensures state { OnOk result (draws.new ≡ state_behind draws.old drafts) }
{
    let mut out = Octets::with_capacity(alloc, ROOM)?;
    out.extend_from_slice(head())?;
    put_segments(&mut out, draws)?;
    put_last(&mut out)?;
    Ok(out)
}
