//! An endpoint over a file, which tells nothing.

ghost use Rattle.std.specs.Prelude.{◌≡◌, IfOk, OnOk, OnErr, None};
ghost use Rattle.std.specs.Io.KnownBytes.{Appends};
ghost use Rattle.spin_endpoint.specs.Endpoints.{Takes, finished_once};
ghost use Rattle.spin_endpoint.specs.Framing.{framed, file_seen, IsAppended, IsKept};

use crate::endpoint::Endpoint;
use spin_outside::{Count, Failed};
use spin_values::{NoMemory, Text};
use std::alloc::Global;
use std::fs::OpenOptions;
use std::io;
use std::io::{ErrorKind, Write};
use std::rt::Files;

// How many bytes there is room for from the start: a piece of 65,536 bytes, and its length.
const ROOM: usize = 65_540;

/// Appends each piece to a file by one write: its length in four bytes, the highest first, and then its bytes. The file
/// is opened at the first `take`, and made where it isn't there. After a failed `take` a part of the piece may be in
/// the file. That the file then holds what was written is trusted to the system.
#[derive(Drop)]
pub struct FileEnd<R: Files + Drop> {
    runtime: R,
    name: Text,
    file: Option<R::File>,
    buffer: Vec<u8>,
    finishes: u64,
    faults: Count,
}

impl<R: Files + Drop> FileEnd<R> {
    /// An endpoint over the file of that name, which it doesn't open yet. It takes the memory for a piece of 65,536
    /// bytes now; a longer one is `Failed` where there is no memory for it.
    pub fn new(alloc: Global, runtime: R, name: Text) -> Result<FileEnd<R>, NoMemory>
        ensures fresh { IfOk result (λ end. (end.name ≡ name) × (end.file ≡ None)) }
        ensures finishes { IfOk result (λ end. end.finishes ≡ 0) }
        ensures faults { IfOk result (λ end. end.faults.number ≡ 0) }
    {
        let buffer = Vec::with_capacity(alloc, ROOM)?;
        Ok(FileEnd {
            runtime,
            name,
            file: None,
            buffer,
            finishes: 0,
            faults: Count::new(),
        })
    }

    // Appends the piece, and its length before it, to the file, which is opened where it isn't open.
    fn append(&mut self, bytes: &[u8]) -> io::Result<()>
        ensures finishes { self.new.finishes ≡ self.old.finishes }
        ensures faults { self.new.faults ≡ self.old.faults }
        ensures named { self.new.name ≡ self.old.name }
        ensures written { OnOk result (IsAppended R.File.contents self.old.file self.new.file bytes.now) }
        ensures kept { OnErr result (IsKept self.old.file self.new.file) }
    {
        let mut file = match self.file.take() {
            Some(file) => file,
            None => open_to_append(&self.runtime, self.name.as_slice())?,
        };
        let written = write_piece(&mut file, &mut self.buffer, bytes);
        self.file = Some(file);
        written
    }
}

// Opens a file at whose end is written, and makes it where it isn't there.
fn open_to_append<R: Files>(runtime: &R, name: &[u8]) -> io::Result<R::File> {
    let Ok(path) = std::str::from_utf8(name) else {
        return Err(io::Error::from(ErrorKind::InvalidInput));
    };
    OpenOptions::new()
        .create(true)
        .append(true)
        .open(runtime, path)
}

// Writes the length of the piece and the piece, which are laid out in the buffer first. So a file that takes what it is
// given whole gets them by one write.
fn write_piece<W: Write>(file: &mut W, buffer: &mut Vec<u8>, bytes: &[u8]) -> io::Result<()>
    ensures { OnOk result (Appends (W.contents file.old) (W.contents file.new) (framed bytes.now)) }
{
    let Ok(len) = u32::try_from(bytes.len()) else {
        return Err(io::Error::from(ErrorKind::InvalidInput));
    };
    buffer.clear();
    let Ok(()) = buffer.extend_from_slice(&len.to_be_bytes()) else {
        return Err(io::Error::from(ErrorKind::OutOfMemory));
    };
    let Ok(()) = buffer.extend_from_slice(bytes) else {
        return Err(io::Error::from(ErrorKind::OutOfMemory));
    };
    file.write_all(buffer)
}

impl<R: Files + Drop> Endpoint for FileEnd<R> {
    ghost seen = { λ e. file_seen e.finishes e.faults.number };

    /// Appends the piece, framed, to the file that is open, or to the one that it opens. After a failure a file that
    /// was open is open yet.
    fn take(&mut self, bytes: &[u8]) -> Result<(), Failed>
        ensures takes { Takes bytes.now result (file_seen self.old.finishes self.old.faults.number)
            (file_seen self.new.finishes self.new.faults.number) }
        ensures named { self.new.name ≡ self.old.name }
        ensures written { OnOk result (IsAppended R.File.contents self.old.file self.new.file bytes.now) }
        ensures kept { OnErr result (IsKept self.old.file self.new.file) }
    {
        match self.append(bytes) {
            Ok(()) => Ok(()),
            Err(_) => {
                self.faults.raise();
                Err(Failed)
            }
        }
    }

    /// Closes the file.
    fn finish(&mut self)
        ensures seen { file_seen self.new.finishes self.new.faults.number
            ≡ finished_once (file_seen self.old.finishes self.old.faults.number) }
        ensures named { self.new.name ≡ self.old.name }
        ensures closed { self.new.file ≡ None }
    {
        self.finishes = self.finishes.saturating_add(1);
        self.file = None;
    }
}
