//! Endpoints that note what they are asked: when one is finished and dropped, and what it is handed on.

use crate::noting::{DROPPED, NEVER, Notes, Noting, fresh_notes, noted, noting_end, noting_ends};
use spin_endpoint::{DeliverFault, Endpoint, Ends, Unknown};
use spin_reass::EchoEnd;
use spin_values::{NoMemory, Text};
use std::alloc::Global;
use std::process::Abort;
use std::test::Fail;

// The answers to a piece, two retirements and another piece.
fn answers(ends: &mut Ends, name: &Text) -> bool {
    ends.deliver(name, b"ab") == Ok(())
        && ends.retire(name) == Ok(())
        && ends.retire(name) == Err(Unknown)
        && ends.deliver(name, b"c") == Err(DeliverFault::Unknown)
}

#[test]
fn is_finished_once_and_dropped_with_the_others(rt: HostRuntime) -> Result<(), Fail> {
    let notes = fresh_notes(rt.alloc())?;
    let name = Text::from_bytes(rt.alloc(), b"out0")?;
    let mut ends = noting_ends(rt.alloc(), &notes, NEVER)?;
    assert!(rt; answers(&mut ends, &name));
    assert!(rt; noted(&notes, b"ab,.,", b""));
    drop(ends);
    assert!(rt; noted(&notes, b"ab,.,", DROPPED));
    Ok(())
}

// An echo request, and its reply.
const REQUEST: &[u8; 10] = b"\x08\0\x84\x68\x12\x34\0\x01ab";

const REPLY: &[u8; 10] = b"\0\0\x8c\x68\x12\x34\0\x01ab";

// An endpoint that answers, and notes the replies here.
fn echo_end(alloc: Global, notes: &Notes) -> Result<EchoEnd<Noting>, NoMemory> {
    EchoEnd::new(alloc, noting_end(notes, NEVER)?)
}

// The endpoint takes a request and three pieces that are none, and is finished.
fn takes_each<E: Endpoint>(rt: &impl Abort, end: &mut E) {
    for piece in [
        &REQUEST[..],
        &REPLY[..],
        b"",
        b"\x08\0\x84\x69\x12\x34\0\x01ab",
    ] {
        assert_eq!(rt; end.take(piece), Ok(()));
    }
    end.finish();
}

#[test]
fn replies_alone_are_handed_on(rt: HostRuntime) -> Result<(), NoMemory> {
    let notes = fresh_notes(rt.alloc())?;
    takes_each(&rt, &mut echo_end(rt.alloc(), &notes)?);
    assert!(rt; noted(&notes, REPLY, b",.,dropped,"));
    Ok(())
}
