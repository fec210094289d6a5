//! Laws of what is made.

ghost use Rattle.spin_gen.specs.Laws.{ScriptsAreRead, CapturesAreRead};

/// Each script is read by [`read_script`](spin_script::read_script), whatever natives are handed in: no line of it is
/// bad. It declares the one endpoint `out0`, and has fewer than 700,000 bytes.
pub fn scripts_are_read()
    ensures { ScriptsAreRead }
{}

/// Each capture is one of 1,000 whole records, and has 66,024 bytes.
pub fn captures_are_read()
    ensures { CapturesAreRead }
{}
