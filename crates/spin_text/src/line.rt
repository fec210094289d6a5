//! Lines, each ended by a line feed.

ghost use Rattle.std.specs.Prelude.{◌≡◌, ◌++◌, ◌∷◌, [], OnOk, OnErr};
ghost use Rattle.spin_text.specs.Words.{ended};

use spin_values::{NoMemory, Octets};

/// Ends the line that `out` ends with. After want of memory `out` is unchanged.
pub fn end_line(out: &mut Octets) -> Result<(), NoMemory>
    ensures ok { OnOk result (out.new ≡ out.old ++ 10 ∷ []) }
    ensures err { OnErr result (out.new ≡ out.old) }
{
    out.push(b'\n')
}

/// Appends a whole line and its end; an empty `out` becomes the line, which is moved. After want of memory `out` is
/// unchanged.
pub fn put_line(out: &mut Octets, mut line: Octets) -> Result<(), NoMemory>
    ensures ok { OnOk result (out.new ≡ out.old ++ ended line) }
    ensures err { OnErr result (out.new ≡ out.old) }
{
    end_line(&mut line)?;
    if out.is_empty() {
        *out = line;
        return Ok(());
    }
    out.append(&mut line)
}
