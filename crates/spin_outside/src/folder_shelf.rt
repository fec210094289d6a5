//! The files of the working folder as a shelf, which tells what a file has left where std does.

ghost use Rattle.std.specs.Prelude.{◌≡◌, ◌+◌, ◌++◌, ◌∷◌, [], ℕ, List, Option, None};
ghost use Rattle.std.specs.Prelude.{length, MatchResult};
ghost use Rattle.std.specs.Prelude.{◌↔◌, true, is_err, IfOk, IfErr, IsErrOf};
ghost use Rattle.std.specs.IoError.{error_kind};
ghost use Rattle.spin_outside.specs.Counts.{FindsByCount, RefusesByCount};
ghost use Rattle.spin_outside.specs.Folders.{left_in};

use crate::count::Count;
use crate::faults::{Failed, FindFault, fault_of};
use crate::shelf::Shelf;
use spin_values::Text;
use std::alloc::Global;
use std::io::{ErrorKind, Read};
use std::rt::Files;
use std::{fs, io};

/// The files below the working folder. Each file that was found stays open as long as the shelf. It doesn't tell the
/// files by name, but what a file has left, where std tells what is to be read of it.
#[derive(Drop)]
pub struct FolderShelf<'a, R: Files> {
    folder: &'a R,
    opened: Vec<R::File>,
    faults: Count,
    absences: Count,
}

impl<'a, R: Files> FolderShelf<'a, R> {
    /// A shelf over the files that the runtime reaches, of which none is open.
    pub fn new(alloc: Global, folder: &'a R) -> FolderShelf<'a, R>
        ensures none { result.opened.items ≡ [] }
        ensures faults { result.faults.number ≡ 0 }
        ensures absences { result.absences.number ≡ 0 }
    {
        FolderShelf {
            folder,
            opened: Vec::new(alloc),
            faults: Count::new(),
            absences: Count::new(),
        }
    }

    // Keeps a file that was opened, under the next number. Only for want of memory it is let go.
    fn keep(&mut self, file: R::File) -> Result<u32, FindFault>
        ensures found { MatchResult result
            (λ number. (number ≡ length self.old.opened.items)
            × (self.new.opened.items ≡ self.old.opened.items ++ file ∷ []))
            (λ fault. (fault ≡ FindFault.NoMemory)
            × (self.new.opened.items ≡ self.old.opened.items)) }
        ensures faults { self.new.faults.number ≡ self.old.faults.number }
        ensures absences { self.new.absences.number ≡ self.old.absences.number }
    {
        let Ok(number) = u32::try_from(self.opened.len()) else {
            return Err(FindFault::NoMemory);
        };
        if self.opened.push(file).is_err() {
            return Err(FindFault::NoMemory);
        }
        Ok(number)
    }

    // What is kept, told and counted where a call of std opened a file or didn't.
    fn settle(&mut self, opened: io::Result<R::File>) -> Result<u32, FindFault>
        ensures found { IfOk opened (λ file. MatchResult result
            (λ number. (number ≡ length self.old.opened.items)
            × (self.new.opened.items ≡ self.old.opened.items ++ file ∷ []))
            (λ fault. (fault ≡ FindFault.NoMemory)
            × (self.new.opened.items ≡ self.old.opened.items))) }
        ensures absent { IfErr opened (λ error.
            IsErrOf result FindFault.Absent ↔ (error_kind error ≡ ErrorKind.NotFound)) }
        ensures memory { IfErr opened (λ error.
            IsErrOf result FindFault.NoMemory ↔ (error_kind error ≡ ErrorKind.OutOfMemory)) }
        ensures refused { IfErr opened (λ _. (is_err result ≡ true)
            × (self.new.opened.items ≡ self.old.opened.items)) }
        ensures cause { FindsByCount self.old.faults.number self.new.faults.number
            self.old.absences.number self.new.absences.number result }
    {
        match opened {
            Ok(file) => self.keep(file),
            Err(error) => {
                let fault = fault_of(error.kind());
                self.count(fault);
                Err(fault)
            }
        }
    }

    // Counts a refusal, in the count that it is told by.
    fn count(&mut self, fault: FindFault)
        ensures opened { self.new.opened.items ≡ self.old.opened.items }
        ensures cause { RefusesByCount self.old.faults.number self.new.faults.number
            self.old.absences.number self.new.absences.number fault }
    {
        match fault {
            FindFault::Absent => self.absences.raise(),
            FindFault::Failed => self.faults.raise(),
            FindFault::NoMemory => {}
        }
    }
}

impl<R: Files> Shelf for FolderShelf<'_, R> {
    ghost seen = { λ s. record {
      files = None;
      left = left_in R.File.remaining s.opened.items;
      found_as = λ _. None;
      reads = λ _. 0;
      faults = s.faults.number;
      absences = s.absences.number;
    } };

    ghost none_left = { λ _ _ _. tt };

    /// Opens the file. No file has a name that isn't UTF-8.
    fn find(&mut self, name: &Text) -> Result<u32, FindFault> {
        match std::str::from_utf8(name.as_slice()) {
            Ok(path) => self.settle(fs::open(self.folder, path)),
            Err(_) => {
                self.absences.raise();
                Err(FindFault::Absent)
            }
        }
    }

    fn read(&mut self, file: u32, buf: &mut [u8]) -> Result<usize, Failed> {
        if file as usize >= self.opened.len() {
            return Ok(0);
        }
        let given = self.opened[file as usize].read(buf);
        self.faults.tell(given)
    }
}
