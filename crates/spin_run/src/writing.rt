//! Pieces of a report, made whole before they are written.

ghost use Rattle.std.specs.Prelude.{◌≡◌, ◌<◌, ℕ, length, take, MatchResult};
ghost use Rattle.std.specs.Io.KnownBytes.{Appends};
ghost use Rattle.spin_outside.specs.Counts.{FailsByCount};
ghost use Rattle.spin_run.specs.Inner.Writing.{joined};

use spin_outside::{Failed, Sink, write_all};
use spin_values::{Octets, Sequence};

// Texts, such as lines of a report that are ended by a line feed each.
pub(crate) type TextLines = Sequence<Octets>;

// Writes the pieces, one after another.
pub(crate) fn write_pieces<K: Sink>(out: &mut K, pieces: &[Octets]) -> Result<(), Failed>
    ensures taken { MatchResult result
        (λ _. Appends (K.seen out.old).told (K.seen out.new).told (joined pieces.now))
        (λ _. (n : ℕ) × (n < length (joined pieces.now))
        × Appends (K.seen out.old).told (K.seen out.new).told (take n (joined pieces.now))) }
    ensures cause { FailsByCount (K.seen out.old).faults (K.seen out.new).faults result }
{
    for piece in pieces {
        write_all(out, piece.as_slice())?;
    }
    Ok(())
}
