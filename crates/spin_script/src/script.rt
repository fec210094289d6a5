//! What a script says.

ghost use Rattle.std.specs.Prelude.{◌≡◌};

use spin_table::Setup;
use spin_values::{NoMemory, Numbers, Sequence, Texts};
use spin_word::Work;
use thiserror::Error;

/// A lane line.
#[derive(PartialEq, Drop, Debug)]
pub struct Line {
    /// The line's number in the text, counted from 1.
    pub number: u32,
    /// The lane that does it, from 0 to 7.
    pub lane: u8,
    /// What it asks for.
    pub work: Work,
}

/// Lane lines in the order of the text.
pub type Lines = Sequence<Line>;

/// What stands between two barriers.
#[derive(PartialEq, Drop, Debug)]
pub struct Segment {
    /// The numbers of the endpoints that are retired before it, in the order of the text.
    pub retires: Numbers,
    /// Its lane lines.
    pub lines: Lines,
}

/// Segments in the order of the text. There is at least one.
pub type Segments = Sequence<Segment>;

/// A script.
#[derive(Drop)]
pub struct Script {
    /// What is declared.
    pub setup: Setup,
    /// The version of the language that it is written in: 1, 2 or 3.
    pub version: u8,
    /// The names of the endpoints, by number.
    pub endpoints: Texts,
    /// 1 more than the greatest lane that is named, and 1 where none is.
    pub lanes: u8,
    /// The segments.
    pub segments: Segments,
}

/// Why there is no script.
#[derive(Clone, Copy, PartialEq, Eq, Debug, Error)]
pub enum ScriptFault {
    /// The text isn't in the language.
    #[error("line {line} is bad: cause {cause}")]
    Bad {
        /// The first bad line, counted from 1; 0 where the text is too large.
        line: u32,
        /// The number of the cause, by [`Cause`](spin_grammar::Cause).
        cause: u8,
    },
    /// There was no memory.
    #[error("out of memory")]
    NoMemory,
}

impl From<NoMemory> for ScriptFault {
    ghost use Rattle.spin_script.specs.declared.script.ScriptFault.TheVariants as fault;

    ghost from_gives = { λ _ e. e ≡ fault.NoMemory };

    fn from(_: NoMemory) -> ScriptFault {
        ScriptFault::NoMemory
    }
}
