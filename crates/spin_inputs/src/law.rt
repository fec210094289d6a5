//! What the text of a script says.

ghost use Rattle.spin_inputs.specs.Laws.{OneHistorySaid, OneRunSaid, OneScript};

/// The law of what a text says: it says one script, but for where the boxes of that lie. So two runs of what the text
/// says have one history, where no line of the text is refused, by the law of whole runs
/// ([`one_history`](spin_report::one_history)): over one capture each segment has the same entries and the same jobs
/// where the texts of their reports are the same, and over the same endpoints the two are one in all. It does nothing.
pub fn one_script_is_said()
    ensures script { OneScript }
    ensures entries { OneHistorySaid }
    ensures whole { OneRunSaid }
{}
