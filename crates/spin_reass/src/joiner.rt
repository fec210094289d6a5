//! The datagrams of which not all parts came yet.

ghost use Rattle.std.specs.Prelude.{◌≡◌, ◌≤◌, true, false, [], length, max, IfOk, OnOk, position};
ghost use Rattle.std.specs.List.{list_any};
ghost use Rattle.spin_reass.specs.Fragments.{is_sound};
ghost use Rattle.spin_reass.specs.Inner.Places.{IsAt};
ghost use Rattle.spin_reass.specs.Joining as specs;

use crate::datagram::{Datagram, MAX_FRAME};
use crate::limits::MAX_OPEN;
use crate::piece::{Key, Piece, read_piece};
use spin_values::{NoMemory, Octets};
use std::alloc::Global;
use std::marker::Model;

/// The datagrams of which not all parts came yet, in the order in which they were opened. Contracts see the list.
#[derive(Debug, Drop)]
pub struct Joiner {
    alloc: Global,
    datagrams: Vec<Datagram>,
}

impl Model for Joiner {
    ghost use Rattle.std.specs.Prelude.{List};
    ghost use Rattle.spin_reass.specs.Joining.{OpenDatagram};

    ghost Value = { List OpenDatagram };

    ghost view = { λ j. j.datagrams.items };
}

// Forgets the datagram that was opened first, where there are as many as may be.
fn make_room(datagrams: &mut Vec<Datagram>)
    ensures { datagrams.new.items ≡ specs.with_room datagrams.old.items }
{
    if datagrams.len() >= MAX_OPEN {
        let _forgotten = datagrams.remove(0);
    }
}

impl Joiner {
    /// No datagram.
    pub fn new(alloc: Global) -> Joiner
        ensures { result ≡ [] }
    {
        Joiner {
            alloc,
            datagrams: Vec::new(alloc),
        }
    }

    // The place of the datagram of that key.
    fn find(&self, key: &Key) -> Option<usize>
        ensures { result ≡ position (specs.has_key key.now) self.now }
    {
        self.datagrams
            .iter()
            .position(|datagram| datagram.has_key(key))
    }

    // Opens a datagram of that key, and answers its place.
    fn open(&mut self, key: Key) -> Result<usize, NoMemory>
        requires { list_any (specs.has_key key) self.old ≡ false }
        ensures opened { OnOk result (self.new ≡ specs.opened key self.old) }
        ensures place { IfOk result (λ at. IsAt key at self.new) }
    {
        make_room(&mut self.datagrams);
        let at = self.datagrams.len();
        self.datagrams.push(Datagram::new(self.alloc, key))?;
        Ok(at)
    }

    // The place of the datagram of that key, which is opened where none is open.
    fn find_or_open(&mut self, key: &Key) -> Result<usize, NoMemory>
        ensures opened { OnOk result (self.new ≡ specs.opened key.now self.old) }
        ensures place { IfOk result (λ at. IsAt key.now at self.new) }
    {
        match self.find(key) {
            Some(at) => Ok(at),
            None => self.open(*key),
        }
    }

    // Adds a sound part to the datagram at its place, and puts that into the frame where it is then whole.
    fn gather(&mut self, at: usize, piece: Piece, frame: &mut Octets) -> Result<(), NoMemory>
        requires place { IsAt piece.key at self.old }
        requires sound { is_sound piece.part ≡ true }
        ensures datagrams { OnOk result
            (self.new ≡ (specs.gathered piece self.old frame.old).0) }
        ensures frame { OnOk result (frame.new ≡ (specs.gathered piece self.old frame.old).1) }
        ensures bound { OnOk result (length frame.new ≤ max (length frame.old) MAX_FRAME) }
    {
        if !self.datagrams[at].add(piece.part)? {
            return Ok(());
        }
        let whole = self.datagrams.remove(at);
        whole.write(frame)?;
        Ok(())
    }

    // Does with a part what the definition says.
    fn take(&mut self, piece: Piece, frame: &mut Octets) -> Result<(), NoMemory>
        ensures datagrams { OnOk result
            (self.new ≡ (specs.joined_by (Some piece) self.old frame.old).0) }
        ensures frame { OnOk result
            (frame.new ≡ (specs.joined_by (Some piece) self.old frame.old).1) }
        ensures bound { OnOk result (length frame.new ≤ max (length frame.old) MAX_FRAME) }
    {
        if !piece.part.is_sound() {
            return Ok(());
        }
        let at = self.find_or_open(&piece.key)?;
        self.gather(at, piece, frame)?;
        Ok(())
    }

    /// Puts the frame that takes its place into the place of this frame. It looks through the keys of at most 64 open
    /// datagrams, and does a binary search among the parts of one; a datagram that is whole is copied once.
    pub fn join(&mut self, frame: &mut Octets) -> Result<(), NoMemory>
        ensures datagrams { OnOk result (self.new ≡ (specs.joined self.old frame.old).0) }
        ensures frame { OnOk result (frame.new ≡ (specs.joined self.old frame.old).1) }
        ensures bound { OnOk result (length frame.new ≤ max (length frame.old) MAX_FRAME) }
    {
        match read_piece(self.alloc, frame)? {
            None => Ok(()),
            Some(piece) => {
                self.take(piece, frame)?;
                Ok(())
            }
        }
    }
}
