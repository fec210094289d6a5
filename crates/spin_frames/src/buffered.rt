//! A sink with a buffer before it.

ghost use Rattle.std.specs.Prelude.{◌≡◌, [], IfOk, OnOk};
ghost use Rattle.std.specs.Io.KnownBytes.{Appends};
ghost use Rattle.spin_outside.specs.Counts.{FailsByCount};
ghost use Rattle.spin_frames.specs.Written.{with_waiting};

use crate::waiting::{MAX_WAITING, Waiting};
use spin_outside::{Failed, Sink, write_all};
use spin_values::NoMemory;
use std::alloc::Global;

/// A sink to which bytes go many at a time.
#[derive(Debug, Drop)]
pub struct Buffered<W: Sink + Drop> {
    pub(crate) sink: W,
    pub(crate) waiting: Waiting,
}

impl<W: Sink + Drop> Buffered<W> {
    /// Nothing waits. It takes all its memory now.
    pub fn new(alloc: Global, sink: W) -> Result<Buffered<W>, NoMemory>
        ensures sink { IfOk result (λ buffered. buffered.sink ≡ sink) }
        ensures waiting { IfOk result (λ buffered. buffered.waiting ≡ []) }
    {
        let waiting = Waiting::new(alloc)?;
        Ok(Buffered { sink, waiting })
    }

    /// The sink takes what waits, and then nothing waits. After a failure, at which the sink's count of faults rose, it
    /// has taken a front of that.
    pub fn flush(&mut self) -> Result<(), Failed>
        ensures taken { OnOk result
            (Appends (W.seen self.old.sink).told (W.seen self.new.sink).told self.old.waiting) }
        ensures empty { OnOk result (self.new.waiting ≡ []) }
        ensures cause { FailsByCount (W.seen self.old.sink).faults (W.seen self.new.sink).faults result }
    {
        write_all(&mut self.sink, self.waiting.as_slice())?;
        self.waiting.clear();
        Ok(())
    }

    /// Puts the bytes behind those that the sink took and those that wait. After a failure, at which the sink's count of
    /// faults rose, nothing more is known of the sink.
    pub fn put(&mut self, bytes: &[u8]) -> Result<(), Failed>
        ensures taken { OnOk result
            (Appends (with_waiting (W.seen self.old.sink) self.old.waiting).told
            (with_waiting (W.seen self.new.sink) self.new.waiting).told bytes.now) }
        ensures cause { FailsByCount (W.seen self.old.sink).faults (W.seen self.new.sink).faults result }
    {
        if bytes.len() > self.waiting.room() {
            self.flush()?;
        }
        if bytes.len() > self.waiting.room() {
            return write_all(&mut self.sink, bytes);
        }
        self.waiting.add(bytes);
        Ok(())
    }
}
