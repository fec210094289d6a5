//! What holds of whole open raises.

ghost use Rattle.spin_host.specs.Levels.{NestingEnds};
ghost use Rattle.spin_host.specs.Laws.{DoneIsPlain, DoneIsDeedReply, DeclinedIsNothing, FiringsAreReached, EndIsOne};

/// The law of one dispatcher: where the host has each act done that it is told of, the answer, what was given and the
/// arguments are those of the plain dispatcher's raise; and where nothing is raised upwards besides, the answer and the
/// steps are those of the reply to the deed. It does nothing.
pub fn acts_make_a_plain_raise()
    ensures plain { DoneIsPlain }
    ensures reply { DoneIsDeedReply }
{}

/// The laws of firings: what the host's own guard declines changes nothing; the bindings that are told are in order just
/// those whose guards held where they were reached; and the answer hangs on nothing but what was told. It does nothing.
pub fn firings_are_those_reached()
    ensures declined { DeclinedIsNothing }
    ensures reached { FiringsAreReached }
    ensures end { EndIsOne }
{}

/// The law of nesting: around the innermost raise there are fewer raises than events, of which a setup has at most 64,
/// and no more than [`MAX_RUNS`](spin_proto::MAX_RUNS) handlers have started, however the host goes on. It does nothing.
pub fn nesting_ends()
    ensures { NestingEnds }
{}
