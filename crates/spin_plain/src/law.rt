//! With one lane there is one report.

ghost use Rattle.spin_plain.specs.Examples.{AreWorked};
ghost use Rattle.spin_plain.specs.Laws.{OneLaneIsPlain, OneLaneOneText, PlainIsRun};

/// The law of one lane. Each run of a script with one lane has the history that the plain dispatcher gives for the
/// script's deeds in the order of the text, over the same capture and endpoints, and leaves the endpoints as that
/// history does; only which cycle a conflict tells is free. So where no command meets a conflict, the text of the
/// report is the one text of that history. And where the plain dispatcher meets none, its history is one of the
/// script's. It does nothing.
pub fn one_lane_is_plain()
    ensures history { OneLaneIsPlain }
    ensures text { OneLaneOneText }
    ensures runs { PlainIsRun }
{}

/// Four scripts of examples/, whose reports were worked by hand: the plain dispatcher gives just these, but for the
/// numbers of a cycle. It does nothing.
pub fn examples_are_worked()
    ensures { AreWorked }
{}
