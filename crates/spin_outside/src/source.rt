//! Sources: what gives bytes in order.

ghost use Rattle.std.specs.Prelude.{◌≡◌, ◌<◌, ℕ, List, Option, length, take};
ghost use Rattle.std.specs.Io.{ReadsAtMost};
ghost use Rattle.std.specs.Io.KnownBytes.{ReadConsumes};
ghost use Rattle.spin_outside.specs.Counts.{FailsByCount};
ghost use Rattle.spin_outside.specs.Sources.{SourceSeen, TakesMore};

use crate::faults::Failed;

/// What gives bytes in order.
pub trait Source {
    /// What contracts see of the source at a moment.
    ghost seen: { Self → SourceSeen };

    /// Takes bytes from the front of what is left into a buffer that isn't empty, and answers how many. It takes
    /// none only where nothing is left. It fails only where the count of faults rose, and has then taken nothing.
    /// The number of bytes taken in all grows by those that it took; what the source keeps stays as it was.
    fn read(&mut self, buf: &mut [u8]) -> Result<usize, Failed>
        requires { 0 < length buf.old }
        ensures some { ReadsAtMost result buf.new }
        ensures taken { ReadConsumes (seen self.old).left (seen self.new).left result buf.new }
        ensures count { TakesMore (seen self.old).taken (seen self.new).taken result }
        ensures keep { (seen self.new).keep ≡ (seen self.old).keep }
        ensures cause { FailsByCount (seen self.old).faults (seen self.new).faults result };
}
