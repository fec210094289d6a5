//! What a filter of captures does is a run.

ghost use Rattle.spin_filter_law.specs.Laws.{EachIsUnrolled, FilterIsRun};

/// The law of the filter. What a filter of captures comes to is one history of a run of a longer script, over the one
/// capture that has the records of all captures in order: the script's own commands, and then for each record a barrier
/// and a line that takes it, as the event whose turn it is in its capture. The history has the filter's verdicts,
/// replies and jobs, uses up the capture, and leaves the state and the endpoints as the filter does. Where the filter
/// writes a capture, this holds as long as no endpoint stands under its name. And each script has such a longer one. It
/// does nothing.
pub fn filter_is_run()
    ensures run { FilterIsRun }
    ensures unrolled { EachIsUnrolled }
{}
