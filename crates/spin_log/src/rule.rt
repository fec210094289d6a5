//! The rule of the log's table, and its kinds of step.
//!
//! Each step is made by one seat and changes its view alone. What the rule says stands in `specs/Rule.antt`, and
//! what each kind of step tells in `specs/Steps.antt`.

ghost use Rattle.spin_log.specs.Rule.{Holds, first_view};
ghost use Rattle.spin_log.specs.Steps.{looked, drafted, published, reread, learned, without_first};
ghost use Rattle.spin_log.specs.Steps.{first_alone, note_of, both_of, spent, sat};

use crate::view::View;
use atomic_table::{Join, Play, Split, TableRule};

/// There is one log, which stands in the table; each view has a part of it, and each lane at most one pen.
pub struct LogRule;

impl TableRule<(), View, u64> for LogRule {
    ghost holds = { Holds };

    ghost first = { first_view };
}

// A load of the log word after the front. Where it is 0 the pen has a pin more, and else its front has the next
// row.
pub(crate) struct Looks;

impl Play<(), View> for Looks {
    ghost then = { looked };
}

// A store of the next word of the pen's draft, in its lane's first row that isn't published.
pub(crate) struct Drafts;

impl Play<(), View> for Drafts {
    ghost then = { drafted };
}

// An exchange of 0 for the number of the draft's row, in the log word after the front. Where the word was 0 the
// row is published, and else the front has the next row. The draft is empty afterwards.
pub(crate) struct Publishes;

impl Play<(), View> for Publishes {
    ghost then = { published };
}

// A load of any word. A word of a row in the front is that row's.
pub(crate) struct Rereads;

impl Play<(), View> for Rereads {
    ghost then = { reread };
}

// A load of word 0, by which the pen's front and the older fronts of its view are known to be of one log. The
// pen takes the longest.
pub(crate) struct Learns;

impl Play<(), View> for Learns {
    ghost then = { learned };
}

// The first pen of a view goes to a seat of its own.
pub(crate) struct OnePen;

impl Split<View> for OnePen {
    ghost left = { without_first };

    ghost right = { first_alone };
}

// A new seat has the pen's front as an older one.
pub(crate) struct Notes;

impl Split<View> for Notes {
    ghost left = { λ v. v };

    ghost right = { note_of };
}

// A seat takes over all that another knows.
pub(crate) struct TakesIn;

impl Join<View> for TakesIn {
    ghost both = { both_of };

    ghost spent = { spent };
}

// A new seat that stands for no pen.
pub(crate) struct Sits;

impl Play<(), View> for Sits {
    ghost then = { sat };
}
