//! A capture on the shelf that is read whole.

ghost use Rattle.std.specs.Prelude.{◌≤◌, IfOk, IfErr, IfSome, length, option_map};
ghost use Rattle.spin_pcap.specs.declared.limits.TheConstants.{MAX_RECORDS};
ghost use Rattle.spin_inputs.specs.Captures.{capture_of, IsCaptured, NoWholeBy};
ghost use Rattle.spin_inputs.specs.Shelves.{ShelfStood, ReadsNamed};

use crate::capture::find_packets;
use crate::end::{End, end_at};
use spin_outside::{Shelf, ShelfSource};
use spin_pcap::{Captured, read_capture};
use spin_values::Text;
use std::alloc::Global;

/// The capture of that name, read whole, if one is named. It takes time linear in its bytes, and holds those of its
/// records. However it ends, it reads no other file.
pub fn captured_of<F: Shelf>(
    alloc: Global,
    shelf: &mut F,
    packets: &Option<Text>,
) -> Result<Option<Captured>, End>
    ensures stood { IfOk result (λ _. ShelfStood (F.seen shelf.old) (F.seen shelf.new)) }
    ensures read { IfOk result (λ capture.
        IsCaptured (F.seen shelf.old).files packets.now (option_map capture_of capture)) }
    ensures few { IfOk result (λ capture.
        IfSome capture (λ c. length c.frames ≤ MAX_RECORDS)) }
    ensures reads { ReadsNamed (F.seen shelf.old) (F.seen shelf.new) packets.now }
    ensures refused { IfErr result (NoWholeBy (F.seen shelf.old) (F.seen shelf.new) packets.now) }
{
    let Some(name) = packets else {
        return Ok(None);
    };
    let file = find_packets(shelf, name)?;
    let mut source = ShelfSource { shelf, file };
    match read_capture(alloc, &mut source) {
        Ok(capture) => Ok(Some(capture)),
        Err(bad) => Err(end_at(bad)),
    }
}
