//! The file of the capture that is written.

ghost use Rattle.std.specs.Prelude.{◌≡◌, ◌<◌, ◌≤◌, None, IfOk, length};

use spin_outside::{Count, Failed, Sink};
use spin_values::Text;
use std::fs::OpenOptions;
use std::io;
use std::io::{ErrorKind, Write};
use std::rt::Files;

/// The file of that name, which is made, or emptied, at the first write. It tells nothing.
#[derive(Drop)]
pub struct CaptureFile<R: Files + Drop> {
    runtime: R,
    name: Text,
    file: Option<R::File>,
    faults: Count,
}

impl<R: Files + Drop> CaptureFile<R> {
    /// The file of that name, which isn't opened yet.
    pub fn new(runtime: R, name: Text) -> CaptureFile<R>
        ensures { result.faults.number ≡ 0 }
    {
        CaptureFile {
            runtime,
            name,
            file: None,
            faults: Count::new(),
        }
    }

    // Writes a front of the bytes to the file, which is opened where it isn't open; none is a failure.
    fn put(&mut self, bytes: &[u8]) -> io::Result<usize>
        requires { 0 < length bytes.now }
        ensures some { IfOk result (λ count. (0 < count) × (count ≤ length bytes.now)) }
        ensures faults { self.new.faults ≡ self.old.faults }
    {
        let mut file = match self.file.take() {
            Some(file) => file,
            None => emptied(&self.runtime, self.name.as_slice())?,
        };
        let given = file.write(bytes);
        self.file = Some(file);
        match given {
            Ok(0) => Err(io::Error::from(ErrorKind::WriteZero)),
            given => given,
        }
    }
}

// Opens a file to write to it, which is made where it isn't there, and emptied.
fn emptied<R: Files>(runtime: &R, name: &[u8]) -> io::Result<R::File> {
    let Ok(path) = std::str::from_utf8(name) else {
        return Err(io::Error::from(ErrorKind::InvalidInput));
    };
    OpenOptions::new()
        .create(true)
        .write(true)
        .truncate(true)
        .open(runtime, path)
}

impl<R: Files + Drop> Sink for CaptureFile<R> {
    ghost seen = { λ s. record { told = None; faults = s.faults.number } };

    fn write(&mut self, bytes: &[u8]) -> Result<usize, Failed> {
        let given = self.put(bytes);
        self.faults.tell(given)
    }
}
