//! A writer of std as a sink, which tells what the writer does.

ghost use Rattle.std.specs.Prelude.{◌≡◌, ◌<◌, Ok, IfOk, IfErr};

use crate::count::Count;
use crate::faults::Failed;
use crate::sink::Sink;
use std::io;
use std::io::{ErrorKind, Write};

/// A writer, as standard output. A write that takes nothing is a failure. It tells what the writer holds, where the
/// writer says that: a list of bytes does, a stream doesn't.
#[derive(Debug, Drop)]
pub struct StdSink<W> {
    inner: W,
    faults: Count,
}

impl<W: Write> StdSink<W> {
    /// A sink over the writer.
    pub fn new(inner: W) -> StdSink<W>
        ensures inner { result.inner ≡ inner }
        ensures faults { result.faults.number ≡ 0 }
    {
        StdSink {
            inner,
            faults: Count::new(),
        }
    }
}

// What a write gave, where taking nothing is an error, as std's own `write_all` has it.
fn not_none(given: io::Result<usize>) -> io::Result<usize>
    ensures some { IfOk result (λ count. (0 < count) × (given ≡ Ok count)) }
    ensures none { IfErr result (λ _. IfOk given (λ count. count ≡ 0)) }
{
    match given {
        Ok(0) => Err(io::Error::from(ErrorKind::WriteZero)),
        given => given,
    }
}

impl<W: Write> Sink for StdSink<W> {
    ghost seen = { λ s. record { told = W.contents s.inner; faults = s.faults.number } };

    fn write(&mut self, bytes: &[u8]) -> Result<usize, Failed> {
        let given = not_none(self.inner.write(bytes));
        self.faults.tell(given)
    }
}
