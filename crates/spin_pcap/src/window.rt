//! The bytes that were taken from a source and not given up yet.

ghost use Rattle.std.specs.Prelude.{◌≡◌, ◌<◌, ◌≤◌, ◌-◌, ℕ, List, [], length, take, drop, IfOk};
ghost use Rattle.std.specs.Io.KnownBytes.{IsAtEnd};
ghost use Rattle.spin_outside.specs.Counts.{FailsByCount};
ghost use Rattle.spin_pcap.specs.Passing.{Passes};
ghost use Rattle.spin_pcap.specs.Windows.{Fills, Grows};

use spin_outside::{Failed, NoMemory, Source};
use std::alloc::Global;
use std::marker::Model;

/// The bytes that were taken from a source and not given up yet, of which there are at most `ROOM`. Contracts see the
/// list of these bytes.
#[derive(Debug, Drop)]
pub struct Window<const ROOM: usize> {
    bytes: Vec<u8>,
    start: usize,
    end: usize,
}

impl<const ROOM: usize> Model for Window<ROOM> {
    ghost use Rattle.std.specs.Prelude.{◌≡◌, ◌≤◌, ◌-◌, ℕ, List, length, take, drop};

    ghost Value = { List ℕ };

    ghost view = { λ w. take (w.end - w.start) (drop w.start w.bytes.items) };

    ghost invariant = { λ w.
        (w.start ≤ w.end) × (w.end ≤ ROOM) × (length w.bytes.items ≡ ROOM) };
}

// Moves what stands between two places to the front, and answers its length.
fn move_to_front(bytes: &mut [u8], start: usize, end: usize) -> usize
    requires ordered { start ≤ end }
    requires within { end ≤ length bytes.old }
    ensures len { result ≡ end - start }
    ensures moved { take result bytes.new ≡ take (end - start) (drop start bytes.old) }
{
    if start > 0 {
        bytes.copy_within(start..end, 0);
    }
    end - start
}

impl<const ROOM: usize> Window<ROOM> {
    /// A window that holds nothing. It takes all its memory now.
    pub fn new(alloc: Global) -> Result<Self, NoMemory>
        ensures { IfOk result (λ window. window ≡ []) }
    {
        let mut bytes = Vec::new(alloc);
        bytes.resize(ROOM, 0u8)?;
        Ok(Window {
            bytes,
            start: 0,
            end: 0,
        })
    }

    /// Holds nothing any longer.
    pub fn clear(&mut self)
        ensures { self.new ≡ [] }
    {
        self.start = 0;
        self.end = 0;
    }

    /// The bytes that are held.
    pub fn held(&self) -> &[u8]
        ensures same { result.now ≡ self.now }
        ensures bound { length self.now ≤ ROOM }
    {
        &self.bytes[self.start..self.end]
    }

    /// Gives up that many bytes at the front.
    pub fn skip(&mut self, count: usize)
        requires { count ≤ length self.old }
        ensures skipped { self.new ≡ drop count self.old }
        ensures bound { length self.new ≤ ROOM }
    {
        self.start += count;
    }

    /// Does one read, of as many bytes as there is room for. The answer says whether there were any.
    pub fn fill<S: Source>(&mut self, source: &mut S) -> Result<bool, Failed>
        requires room { length self.old < ROOM }
        ensures passed { Passes [] self.old (S.seen source.old) self.new (S.seen source.new) }
        ensures filled { Fills result self.old self.new (S.seen source.new).left }
        ensures grown { Grows self.old self.new }
        ensures bound { length self.new ≤ ROOM }
        ensures cause { FailsByCount (S.seen source.old).faults (S.seen source.new).faults result }
    {
        let len = move_to_front(&mut self.bytes, self.start, self.end);
        self.start = 0;
        self.end = len;
        let count = source.read(&mut self.bytes[len..])?;
        if count == 0 {
            return Ok(false);
        }
        self.end += count;
        Ok(true)
    }

    /// Reads until that many bytes are held, or nothing is left.
    pub fn need<S: Source>(&mut self, source: &mut S, wanted: usize) -> Result<(), Failed>
        requires room { wanted ≤ ROOM }
        ensures passed { Passes [] self.old (S.seen source.old) self.new (S.seen source.new) }
        ensures end { IfOk result
            (λ _. length self.new < wanted → IsAtEnd (S.seen source.new).left) }
        ensures grown { Grows self.old self.new }
        ensures bound { length self.new ≤ ROOM }
        ensures cause { FailsByCount (S.seen source.old).faults (S.seen source.new).faults result }
    {
        while self.held().len() < wanted {
            if !self.fill(source)? {
                return Ok(());
            }
        }
        Ok(())
    }
}
