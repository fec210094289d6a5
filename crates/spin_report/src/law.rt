//! What a report tells of a history.

ghost use Rattle.spin_report.specs.Laws.{DigitsTellEntries, JobsFollow, LanesAnswer, OneHistory, OneRun, ReportTells};

/// The law of the report: the lines that begin with a digit are just those of the entries, in order. Of two legal
/// histories, each of which answers the same commands and deeds once, numbered by line and part, the entries are equal
/// where the texts of the reports are, segment by segment. And which jobs they have, and what these come to, follows
/// from the entries. To answer each once it is enough that each lane answers what it asks, in its order.
/// It does nothing.
pub fn report_tells()
    ensures digits { DigitsTellEntries }
    ensures histories { ReportTells }
    ensures jobs { JobsFollow }
    ensures lanes { LanesAnswer }
{}

/// The law of whole runs: a script's text, its capture and the text of the report have one history. Two calls may read
/// one text as two scripts, whose boxes lie elsewhere. Of a run of the one and a run of the other, over one capture,
/// each segment has the same entries and the same jobs where the texts of their reports are the same, whatever
/// endpoints each had. And over the same endpoints the two histories are one in all, and leave records and endpoints
/// alike. It does nothing.
pub fn one_history()
    ensures entries { OneHistory }
    ensures whole { OneRun }
{}
