//! Bytes that wait for a sink.

ghost use Rattle.std.specs.Prelude.{◌≡◌, ◌≤◌, ◌+◌, ◌-◌, ◌++◌, [], length, IfOk};

use spin_values::NoMemory;
use std::alloc::Global;
use std::marker::Model;

/// The most bytes that wait.
pub const MAX_WAITING: usize = 65_536;

/// Bytes that wait, at most [`MAX_WAITING`]. Contracts see the list of these bytes.
#[derive(Debug, Drop)]
pub struct Waiting {
    bytes: Vec<u8>,
    len: usize,
}

impl Model for Waiting {
    ghost use Rattle.std.specs.Prelude.{◌≡◌, ◌≤◌, ℕ, List, length, take};
    ghost use Rattle.spin_frames.specs.declared.waiting.TheConstants.{MAX_WAITING};

    ghost Value = { List ℕ };

    ghost view = { λ w. take w.len w.bytes.items };

    ghost invariant = { λ w. (w.len ≤ MAX_WAITING) × (length w.bytes.items ≡ MAX_WAITING) };
}

impl Waiting {
    /// Nothing waits. It takes all its memory now.
    pub fn new(alloc: Global) -> Result<Waiting, NoMemory>
        ensures { IfOk result (λ waiting. waiting ≡ []) }
    {
        let mut bytes = Vec::new(alloc);
        bytes.resize(MAX_WAITING, 0u8)?;
        Ok(Waiting { bytes, len: 0 })
    }

    /// For how many bytes more there is room.
    pub fn room(&self) -> usize
        ensures { result + length self.now ≡ MAX_WAITING }
    {
        MAX_WAITING - self.len
    }

    /// The bytes that wait.
    pub fn as_slice(&self) -> &[u8]
        ensures { result.now ≡ self.now }
    {
        &self.bytes[..self.len]
    }

    /// Puts the bytes behind the others.
    pub fn add(&mut self, bytes: &[u8])
        requires { length self.old + length bytes.now ≤ MAX_WAITING }
        ensures { self.new ≡ self.old ++ bytes.now }
    {
        let len = self.len + bytes.len();
        self.bytes[self.len..len].copy_from_slice(bytes);
        self.len = len;
    }

    /// Nothing waits any longer.
    pub fn clear(&mut self)
        ensures { self.new ≡ [] }
    {
        self.len = 0;
    }
}
