//! Laws of the script language, which are functions without work so that their contracts can be cited.

ghost use Rattle.spin_script.specs.Laws.{OneOutcome, SomeOutcome};

/// A text comes to one thing, whatever natives may be named: it is never both a script and bad, it is bad at one line
/// for one cause, and two scripts of it are the same but for where the boxes of their expressions lie.
pub fn outcomes_are_one()
    ensures { OneOutcome }
{}

/// Each text comes to something, whatever natives may be named: it is a script, or is bad at a line for a cause. So no
/// answer may be want of memory for lack of another.
pub fn outcomes_are_there()
    ensures { SomeOutcome }
{}
