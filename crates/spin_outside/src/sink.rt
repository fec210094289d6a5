//! Sinks: what takes the bytes that the program writes.

ghost use Rattle.std.specs.Prelude.{◌≡◌, ◌<◌, ◌≤◌, ℕ, List, Option, length, IfOk, IfErr};
ghost use Rattle.std.specs.Prelude.{MatchResult, take};
ghost use Rattle.std.specs.Io.KnownBytes.{WriteAppends, Appends};
ghost use Rattle.spin_outside.specs.Counts.{FailsByCount};
ghost use Rattle.spin_outside.specs.Seen.{SinkSeen};

use crate::faults::Failed;

/// What takes bytes in order.
pub trait Sink {
    /// What contracts see of the sink at a moment.
    ghost seen: { Self → SinkSeen };

    /// Takes a front of the piece, which isn't empty, and answers its length, which is at least 1. It fails only
    /// where the count of faults rose, and has then taken nothing.
    fn write(&mut self, bytes: &[u8]) -> Result<usize, Failed>
        requires { 0 < length bytes.now }
        ensures some { IfOk result (λ n. (0 < n) × (n ≤ length bytes.now)) }
        ensures taken { WriteAppends (seen self.old).told (seen self.new).told result bytes.now }
        ensures cause { FailsByCount (seen self.old).faults (seen self.new).faults result };
}

/// Writes all the bytes. It fails only where the sink's count of faults rose; the sink has then taken a front of
/// the bytes, and not all of them. It takes no memory, and calls `write` at most once for each byte.
pub fn write_all<K: Sink>(out: &mut K, bytes: &[u8]) -> Result<(), Failed>
    ensures taken { MatchResult result
        (λ _. Appends (K.seen out.old).told (K.seen out.new).told bytes.now)
        (λ _. (n : ℕ) × (n < length bytes.now)
        × Appends (K.seen out.old).told (K.seen out.new).told (take n bytes.now)) }
    ensures cause { FailsByCount (K.seen out.old).faults (K.seen out.new).faults result }
{
    let mut rest = bytes;
    while !rest.is_empty() {
        let count = out.write(rest)?;
        rest = &rest[count..];
    }
    Ok(())
}
