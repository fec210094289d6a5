//! The script so far.

use crate::script::{Segment, Segments};
use spin_table::EventDef;
use spin_values::{Numbers, Sequence, Texts};
use std::alloc::Global;

/// The script so far, but for its handlers and guards.
#[derive(Drop)]
pub struct Draft {
    /// The version of the language; 0 before the first line that isn't skipped.
    pub(crate) version: u8,
    /// The section of the last line.
    pub(crate) section: u8,
    /// Whether the last line began a segment, or retired an endpoint.
    pub(crate) begins: bool,
    /// The number of modules.
    pub(crate) modules: u16,
    /// The events.
    pub(crate) events: Vec<EventDef>,
    /// The names of the endpoints.
    pub(crate) endpoints: Texts,
    /// The segments that ended.
    pub(crate) ended: Segments,
    /// The segment that goes on.
    pub(crate) segment: Segment,
    /// How many command lines there are.
    pub(crate) commands: u32,
    /// How many deeds there are, commands among them.
    pub(crate) deeds: u32,
    /// 1 more than the greatest lane that is named.
    pub(crate) lanes: u8,
}

impl Segment {
    ghost use Rattle.std.specs.Prelude.{◌≡◌};
    ghost use Rattle.spin_script.specs.States.{empty_segment};

    // A segment without lines.
    pub(crate) fn empty(alloc: Global) -> Segment
        ensures { result ≡ empty_segment }
    {
        Segment {
            retires: Numbers::new(alloc),
            lines: Sequence::new(alloc),
        }
    }
}

impl Draft {
    ghost use Rattle.std.specs.Prelude.{◌≡◌, []};
    ghost use Rattle.spin_script.specs.States.{start};
    ghost use Rattle.spin_script.specs.Inner.Drafts.{state};

    // No line.
    pub(crate) fn new(alloc: Global) -> Draft
        ensures { state result [] [] ≡ start }
    {
        Draft {
            version: 0,
            section: 0,
            begins: false,
            modules: 1,
            events: Vec::new(alloc),
            endpoints: Texts::new(alloc),
            ended: Segments::new(alloc),
            segment: Segment::empty(alloc),
            commands: 0,
            deeds: 0,
            lanes: 1,
        }
    }
}
