//! What reading says of texts that were written.

ghost use Rattle.spin_script.specs.RoundTrip.{WrittenLinesAreRead, DeedsAreBack, DeclarationsAreBack};
ghost use Rattle.spin_script.specs.RoundTrip.{ScriptsCanBeWritten, ScriptsComeBack};

/// What is written of lines that can stand behind one another is read as just these lines.
pub fn written_lines_are_read()
    ensures { WrittenLinesAreRead }
{}

/// To each script that is read lead lines that can stand behind one another, and what is written of them is read as it.
/// Both are so but for the numbers of its lines, and what is written isn't read where it is too large.
pub fn scripts_can_be_written()
    ensures { ScriptsCanBeWritten }
{}

/// What is written of the deed of a lane line is just that deed.
pub fn deeds_are_back()
    ensures { DeedsAreBack }
{}

/// What is written of a guard is what its line said, and each native is written by the name that it was found by.
pub fn declarations_are_back()
    ensures { DeclarationsAreBack }
{}

/// The canonical text of each script that is read is read as that script, but for the numbers of its lines.
pub fn scripts_come_back()
    ensures { ScriptsComeBack }
{}
