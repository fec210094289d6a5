//! Laws of the words of lines, which are functions without work so that their contracts can be
//! cited.

ghost use Rattle.spin_grammar.specs.Laws.{OneLine, ChecksAreBare, LinesAreRespelled};

/// The words of a line of some kind are those of one line, but for where its boxes lie.
pub fn lines_are_one()
    ensures { OneLine }
{}

/// What is wrong with an act, a test or a merge doesn't depend on where its boxes lie.
pub fn checks_are_bare()
    ensures { ChecksAreBare }
{}

/// What a line's words say, its canonical words say too.
pub fn lines_are_respelled()
    ensures { LinesAreRespelled }
{}
