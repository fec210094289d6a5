//! Laws of joined captures.

ghost use Rattle.spin_reass.specs.Laws.{JoinedIsCapture, WholeInAnyOrder};

/// Frames carry the parts of a datagram of which none is open before them, in any order, parts that share no byte and
/// are all of its bytes; between them stand parts of fewer than 64 other datagrams, and frames that carry no part. Then
/// the frame that comes last is replaced by one with the whole datagram, which doesn't depend on the order.
pub fn whole_in_any_order()
    ensures { WholeInAnyOrder }
{}

/// The joined capture of a good capture is a good capture, of as many records, and with a rest that is as long.
pub fn joined_is_a_capture()
    ensures { JoinedIsCapture }
{}
