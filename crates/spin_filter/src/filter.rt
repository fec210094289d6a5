//! A whole pass of a filter: the commands of a script, and then the records of captures.

ghost use Rattle.std.specs.Prelude.{◌≡◌, ◌≤◌, MatchResult};
ghost use Rattle.spin_word.specs.declared.command.TheConstants.{MAX_PLACE};
ghost use Rattle.spin_script.specs.Scripts.{script_seen};
ghost use Rattle.spin_script.specs.Segments.{IsOrderly};
ghost use Rattle.spin_script.specs.Soundness.{AreValid, command_lines};
ghost use Rattle.spin_frames.specs.Written.{with_waiting};
ghost use Rattle.spin_filter.specs.Filters.{IsFiltered, StopsFilter};
ghost use Rattle.spin_filter.specs.Sending.{outlets_at};

use crate::captures::pass_captures;
use crate::commands::{Commanded, give_all};
use crate::counts::Counts;
use crate::outlets::Outlets;
use crate::passing::Passing;
use crate::rounds::{lines_of, make_round};
use crate::stop::Stop;
use spin_code::Sincere;
use spin_endpoint::{Ends, EndsSeen};
use spin_objects::Catalogue;
use spin_outside::{Shelf, Sink};
use spin_script::Script;
use spin_values::Text;
use std::alloc::Global;

/// What a filter came to, beside its counts.
#[derive(Clone, Copy, Debug)]
pub struct Filtered {
    /// How many commands were accepted.
    pub accepted: u16,
    /// How many commands were refused, up to the greatest number of 64 bits.
    pub refused: u64,
    /// How many bytes stand behind the records of captures that are no whole record, up to the greatest number of 64 bits.
    pub cut: u64,
}

/// Gives the commands of the script in the order of its text, and then passes the records of the captures of these
/// names, one capture after another. Within a capture the lines that take packets are gone through round after round.
/// Where `capture` is the number of an endpoint, what is sent to it is written to the file as records of a capture. The
/// counts of the outlets are then those of this pass: of each binding that is live behind the commands, and of each
/// event's default, they tell how often it ran.
///
/// The script has one segment, whose lines are of one lane: commands first, then lines that take packets. It is refused
/// before anything is done by [`Stop::Retires`], [`Stop::Segments`], [`Stop::Lane`], [`Stop::InTheWay`] or
/// [`Stop::NoRecords`], the first of these that applies, and of lines the first. [`Stop::Unread`] comes only where the
/// shelf's count of faults rose, [`Stop::Absent`] where its count of absences rose, [`Stop::Endpoint`] where that
/// endpoint's, [`Stop::WriteFault`] where the sink's. Whatever the captures' length it holds one window, what waits for
/// the file, and what one record needs. After a stop in the pass some sends may have been made.
///
/// The script is one that [`read_script`](spin_script::read_script) gives, and the catalogue's objects do what they
/// were handed in with.
pub fn filter_captures<F: Shelf, W: Sink + Drop>(
    alloc: Global,
    script: &Script,
    captures: &[Text],
    capture: Option<u8>,
    shelf: &mut F,
    outlets: &mut Outlets<W>,
) -> Result<Filtered, Stop>
    requires sincere { ⟦<Catalogue as Sincere>⟧.sincere script.now.setup.catalogue }
    requires valid { AreValid script.now.segments }
    requires commands { command_lines script.now.segments ≤ MAX_PLACE }
    requires orderly { IsOrderly (script_seen script.now) }
    ensures filtered { let before = outlets_at (⟦<Ends as EndsSeen>⟧.all outlets.old.ends)
        (with_waiting (W.seen outlets.old.file.sink) outlets.old.file.waiting) outlets.old.counts in
        let after = outlets_at (⟦<Ends as EndsSeen>⟧.all outlets.new.ends)
        (with_waiting (W.seen outlets.new.file.sink) outlets.new.file.waiting) outlets.new.counts in
        MatchResult result
        (IsFiltered (script_seen script.now) capture (F.seen shelf.old).files captures.now
        before after)
        (StopsFilter (script_seen script.now) capture captures.now
        (F.seen shelf.old) (F.seen shelf.new)
        before after) }
    ensures files { (F.seen shelf.new).files ≡ (F.seen shelf.old).files }
{
    let lines = lines_of(script)?;
    let round = make_round(alloc, lines)?;
    let Commanded { version, refused } = give_all(alloc, &script.setup, lines)?;
    outlets.counts = Counts::of(alloc, &script.setup, &version)?;
    let passing = Passing {
        alloc,
        setup: &script.setup,
        version: &version,
        names: script.endpoints.as_slice(),
        capture,
        round: round.as_slice(),
    };
    let cut = pass_captures(&passing, captures, shelf, outlets)?;
    Ok(Filtered {
        accepted: version.place(),
        refused,
        cut,
    })
}
