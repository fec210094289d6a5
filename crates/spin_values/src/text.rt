//! Text: bytes that are no argument of an event.

ghost use Rattle.std.specs.Prelude.{◌≡◌, ◌==◌, ◌<◌, ◌++◌, [], ◌∷◌, length};
ghost use Rattle.std.specs.Prelude.{slice_get, Some, OnOk, OnErr, IfOk, MatchOption};

use crate::list::Sequence;
use crate::no_memory::NoMemory;
use std::alloc::Global;
use std::marker::Model;

/// Texts in order.
pub type Texts = Sequence<Text>;

/// The bytes of a text: a name, or a word of a command line. Contracts see the list of the bytes.
#[derive(Drop, Debug)]
pub struct Text {
    bytes: Sequence<u8>,
}

impl Model for Text {
    ghost use Rattle.std.specs.Prelude.{List, ℕ};

    ghost Value = { List ℕ };

    ghost view = { λ t. t.bytes };

    ghost inverse = { λ bytes. record { bytes = bytes } };
}

impl Text {
    /// The empty text, which takes no memory until a byte is added.
    pub fn new(alloc: Global) -> Self
        ensures { result ≡ [] }
    {
        Text {
            bytes: Sequence::new(alloc),
        }
    }

    /// A copy of the bytes.
    pub fn from_bytes(alloc: Global, bytes: &[u8]) -> Result<Self, NoMemory>
        ensures { IfOk result (λ text. text ≡ bytes.now) }
    {
        Ok(Text {
            bytes: Sequence::from_bytes(alloc, bytes)?,
        })
    }

    /// An equal text.
    pub fn copy(&self) -> Result<Self, NoMemory>
        ensures { IfOk result (λ copy. copy ≡ self.now) }
    {
        Ok(Text {
            bytes: self.bytes.copy()?,
        })
    }

    /// Adds the byte at the end. After want of memory the text is unchanged.
    pub fn push(&mut self, item: u8) -> Result<(), NoMemory>
        ensures ok { OnOk result (self.new ≡ self.old ++ item ∷ []) }
        ensures err { OnErr result (self.new ≡ self.old) }
    {
        self.bytes.push(item)
    }

    /// The number of bytes.
    pub fn len(&self) -> usize
        ensures { result ≡ length self.now }
    {
        self.bytes.len()
    }

    /// Whether there is no byte.
    pub fn is_empty(&self) -> bool
        ensures { result ≡ (length self.now == 0) }
    {
        self.bytes.is_empty()
    }

    /// The byte at a place that is there, counted from 0.
    pub fn get(&self, at: usize) -> &u8
        requires { at < length self.now }
        ensures { slice_get self.now at ≡ Some result.now }
    {
        self.bytes.get(at)
    }

    /// All bytes in order.
    pub fn as_slice(&self) -> &[u8]
        ensures { result.now ≡ self.now }
    {
        self.bytes.as_slice()
    }

    /// Takes the first byte out; `None` exactly where the text is empty. It takes no memory.
    pub fn take_first(&mut self) -> Option<u8>
        ensures { MatchOption result
            ((self.old ≡ []) × (self.new ≡ []))
            (λ first. self.old ≡ first ∷ self.new) }
    {
        self.bytes.take_first()
    }
}
