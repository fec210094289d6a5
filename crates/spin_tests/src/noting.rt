//! An endpoint that notes what it is asked, and of which a call may fail; and endpoints of which there is one.

ghost use Rattle.std.specs.Prelude.{None};

use spin_endpoint::{Count, Endpoint, Ends, Failed};
use spin_values::{NoMemory, Octets, Text};
use std::alloc::Global;
use std::cell::RefCell;
use std::rc::Rc;
use std::test::Fail;

// What an endpoint notes: each piece that it takes, a full stop for each finish, and that it is dropped, with a comma
// behind each.
pub(crate) type Notes = Rc<RefCell<Octets>>;

// The note of a drop.
pub(crate) const DROPPED: &[u8] = b"dropped,";

// A take's number that no test comes to.
pub(crate) const NEVER: u32 = u32::MAX;

// Notes what it is asked, and tells nothing. Its take of that number fails, counted from 0, and isn't noted.
pub(crate) struct Noting {
    notes: Notes,
    takes: u32,
    failing: u32,
    finishes: u64,
    faults: Count,
}

impl Drop for Noting {
    fn drop(self) {
        let Noting {
            notes,
            takes: _,
            failing: _,
            finishes: _,
            faults: _,
        } = self;
        note(&notes, b"dropped");
    }
}

// Adds a note.
fn note(notes: &Notes, bytes: &[u8]) {
    if let Ok(mut notes) = notes.try_borrow_mut() {
        let _ = notes.extend_from_slice(bytes);
        let _ = notes.push(b',');
    }
}

impl Endpoint for Noting {
    ghost seen = { λ n. record { pieces = None; finishes = n.finishes; faults = n.faults.number } };

    fn take(&mut self, bytes: &[u8]) -> Result<(), Failed> {
        let take = self.takes;
        self.takes = take.saturating_add(1);
        if take == self.failing {
            self.faults.raise();
            return Err(Failed);
        }
        note(&self.notes, bytes);
        Ok(())
    }

    fn finish(&mut self) {
        note(&self.notes, b".");
        self.finishes = self.finishes.saturating_add(1);
    }
}

// Notes with nothing in them.
pub(crate) fn fresh_notes(alloc: Global) -> Result<Notes, NoMemory> {
    Ok(Rc::new(alloc, RefCell::new(Octets::new(alloc)))?)
}

// An endpoint that notes here, and of which the take of that number fails.
pub(crate) fn noting_end(notes: &Notes, failing: u32) -> Result<Noting, NoMemory> {
    Ok(Noting {
        notes: notes.clone()?,
        takes: 0,
        failing,
        finishes: 0,
        faults: Count::new(),
    })
}

// The endpoint of that name alone.
pub(crate) fn ends_of(alloc: Global, name: &[u8], end: Box<dyn Endpoint>) -> Result<Ends, Fail> {
    let mut ends = Ends::new(alloc);
    match ends.add(Text::from_bytes(alloc, name)?, end) {
        Ok(()) => Ok(ends),
        Err(_) => Err(Fail::new("an endpoint isn't added")),
    }
}

// The endpoint out0 alone, which notes here, and of which the take of that number fails.
pub(crate) fn noting_ends(alloc: Global, notes: &Notes, failing: u32) -> Result<Ends, Fail> {
    let end = Box::new(alloc, noting_end(notes, failing)?)?;
    ends_of(alloc, b"out0", end)
}

// Whether the bytes are both in turn.
pub(crate) fn are_both(bytes: &[u8], first: &[u8], last: &[u8]) -> bool {
    bytes.starts_with(first)
        && bytes.ends_with(last)
        && bytes.len() == first.len().wrapping_add(last.len())
}

// Whether just these two parts were noted in turn.
pub(crate) fn noted(notes: &Notes, first: &[u8], last: &[u8]) -> bool {
    match notes.try_borrow() {
        Ok(notes) => are_both(notes.as_slice(), first, last),
        Err(_) => false,
    }
}
