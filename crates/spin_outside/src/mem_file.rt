//! A file of a shelf in memory.

ghost use Rattle.std.specs.Prelude.{◌≡◌, ◌<◌, ◌≤◌, ◌++◌, ℕ, List, [], true, false, length, take};
ghost use Rattle.spin_outside.specs.Counts.{raised_by};
ghost use Rattle.spin_outside.specs.Shelves.{rest_of, fresh, refilled};

use spin_values::{Octets, Text};

/// A file, its name, and how far it is read.
#[derive(Debug, Drop)]
pub struct MemFile {
    /// The name.
    pub name: Text,
    /// The bytes.
    pub bytes: Octets,
    /// Whether the file was found.
    pub opened: bool,
    /// How many bytes are no longer left.
    pub position: usize,
    /// How many bytes were read in all.
    pub taken: u64,
}

impl MemFile {
    /// A file that wasn't found yet.
    pub fn new(name: Text, bytes: Octets) -> Self
        ensures { result ≡ fresh name bytes }
    {
        MemFile {
            name,
            bytes,
            opened: false,
            position: 0,
            taken: 0,
        }
    }

    /// Gives the file other bytes. It has to be found anew.
    pub fn refill(&mut self, bytes: Octets)
        ensures { self.new ≡ refilled self.old bytes }
    {
        self.bytes = bytes;
        self.opened = false;
        self.position = 0;
    }

    /// Opens the file from its front.
    pub fn open(&mut self)
        ensures { self.new ≡ record self.old { opened = true; position = 0 } }
    {
        self.opened = true;
        self.position = 0;
    }

    /// Takes bytes from the front of what is left, as many as there are and fit.
    pub fn take(&mut self, buf: &mut [u8]) -> usize
        requires { 0 < length buf.old }
        ensures bound { result ≤ length buf.new }
        ensures taken { rest_of self.old ≡ take result buf.new ++ rest_of self.new }
        ensures handed { take result buf.new ≡ take (length buf.old) (rest_of self.old) }
        ensures end { result ≡ 0 → rest_of self.new ≡ [] }
        ensures closed { self.old.opened ≡ false → result ≡ 0 }
        ensures counted { self.new.taken ≡ raised_by self.old.taken result }
        ensures same { self.new
            ≡ record self.old { position = self.new.position; taken = self.new.taken } }
    {
        if !self.opened {
            return 0;
        }
        let bytes = self.bytes.as_slice();
        let from = self.position.min(bytes.len());
        let left = &bytes[from..];
        let count = left.len().min(buf.len());
        buf[..count].copy_from_slice(&left[..count]);
        self.position = from + count;
        self.taken = self.taken.saturating_add(count as u64);
        count
    }
}
