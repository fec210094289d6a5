//! What comes next in an open raise.

use crate::firing::Firing;
use spin_raise::Answer;

/// What comes next in an open raise, with the raises within it.
#[derive(Clone, Copy, PartialEq, Eq, Debug)]
pub enum Turn {
    /// This firing is due, in the innermost raise: the host answers it.
    Due(Firing),
    /// A raise upwards of this event was opened, that an act asked for.
    Up(u8),
    /// The innermost raise, which an act asked for, ended with this answer, and the one around it goes on.
    Back(Answer),
    /// The innermost raise, which the host opened, ended with this answer. Where it was opened from within, the firing
    /// around it is due again.
    Ended(Answer),
    /// A firing is next, and no handler may start any more: the raise can only be abandoned.
    Spent,
}
