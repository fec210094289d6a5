//! A capture on the shelf, found and opened.

ghost use Rattle.std.specs.Prelude.{◌≡◌, IfOk, IfErr, IfSome, Some};
ghost use Rattle.spin_outside.specs.Files.{AllKeep, IsWholeFile, OthersKeep};
ghost use Rattle.spin_inputs.specs.Captures.{IsOpened, NoCaptureBy, NoWholeBy};
ghost use Rattle.spin_inputs.specs.Shelves.{ShelfStood, ReadsOnly};

use crate::end::{End, Input, end_at};
use spin_outside::{FindFault, Shelf, ShelfSource};
use spin_pcap::{BadRecord, Reader};
use spin_values::Text;
use std::alloc::Global;

/// A capture whose header was read.
#[derive(Drop)]
pub struct Capture {
    /// The number of its file.
    pub file: u32,
    /// What reads its records.
    pub reader: Reader,
}

/// Finds the capture of that name, and answers the number of its file.
pub fn find_packets<F: Shelf>(shelf: &mut F, name: &Text) -> Result<u32, End>
    ensures found { IfOk result (λ file.
        IsWholeFile (F.seen shelf.old).files name.now ((F.seen shelf.new).left file)) }
    ensures named { IfOk result (λ file. IfSome (F.seen shelf.old).files
        (λ _. ((F.seen shelf.new).found_as file ≡ Some name.now)
        × OthersKeep (F.seen shelf.old).found_as (F.seen shelf.new).found_as file)) }
    ensures under { IfSome (F.seen shelf.old).files
        (λ _. AllKeep (F.seen shelf.old).reads (F.seen shelf.new).reads) }
    ensures stood { IfOk result (λ _. ShelfStood (F.seen shelf.old) (F.seen shelf.new)) }
    ensures not_opened { IfErr result
        (NoCaptureBy (F.seen shelf.old) (F.seen shelf.new) (Some name.now)) }
    ensures not_whole { IfErr result
        (NoWholeBy (F.seen shelf.old) (F.seen shelf.new) (Some name.now)) }
{
    match shelf.find(name) {
        Ok(file) => Ok(file),
        Err(FindFault::Absent) => Err(End::Absent(Input::Packets)),
        Err(FindFault::Failed) => Err(End::Unread(Input::Packets)),
        Err(FindFault::NoMemory) => Err(End::NoMemory),
    }
}

/// Finds the capture of that name and reads its header. It takes at most 65,536 bytes past that. However it ends, it
/// reads no other file.
pub fn open<F: Shelf>(alloc: Global, shelf: &mut F, name: &Text) -> Result<Capture, End>
    ensures opened { IfOk result (λ capture.
        IsOpened (F.seen shelf.old) (F.seen shelf.new) name.now capture.file capture.reader) }
    ensures reads { ReadsOnly (F.seen shelf.old) (F.seen shelf.new) name.now }
    ensures refused { IfErr result
        (NoCaptureBy (F.seen shelf.old) (F.seen shelf.new) (Some name.now)) }
{
    let file = find_packets(shelf, name)?;
    let mut source = ShelfSource { shelf, file };
    match Reader::start(alloc, &mut source) {
        Ok(reader) => Ok(Capture { file, reader }),
        Err(fault) => Err(end_at(BadRecord::at(0, fault))),
    }
}
