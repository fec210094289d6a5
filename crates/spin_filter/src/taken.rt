//! A record where it stands.

ghost use Rattle.std.specs.Prelude.{◌≡◌, ◌≤◌, length};

use spin_frames::Head;
use std::marker::Model;

// A record where it stands: what its capture's header says, its own header of at least 16 bytes, and its frame.
#[derive(Drop, Debug)]
pub(crate) struct Taken<'a> {
    head: Head,
    header: &'a [u8],
    frame: &'a [u8],
}

impl<'a> Model for Taken<'a> {
    ghost use Rattle.std.specs.Prelude.{◌≤◌, length};
    ghost use Rattle.spin_filter.specs.Passing.{TakenSeen};

    ghost Value = { TakenSeen };

    ghost view = { λ t. record {
      head = t.head;
      packet = record { header = t.header.now; frame = t.frame.now };
    } };

    ghost invariant = { λ t. 16 ≤ length t.header.now };
}

impl<'a> Taken<'a> {
    // The record with that header and frame.
    pub(crate) fn new(head: Head, header: &'a [u8], frame: &'a [u8]) -> Taken<'a>
        requires { 16 ≤ length header.now }
        ensures { result ≡ record { head = head; packet = record { header = header.now; frame = frame.now } } }
    {
        Taken {
            head,
            header,
            frame,
        }
    }

    // What its capture's header says.
    pub(crate) fn head(&self) -> Head
        ensures { result ≡ self.now.head }
    {
        self.head
    }

    // Its own header.
    pub(crate) fn header(&self) -> &'a [u8]
        ensures same { result.now ≡ self.now.packet.header }
        ensures size { 16 ≤ length result.now }
    {
        self.header
    }

    // Its frame.
    pub(crate) fn frame(&self) -> &'a [u8]
        ensures { result.now ≡ self.now.packet.frame }
    {
        self.frame
    }
}
