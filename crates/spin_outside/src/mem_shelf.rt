//! A shelf in memory, which tells its files.

ghost use Rattle.std.specs.Prelude.{◌≡◌, ◌≢◌, ◌<◌, ◌≤◌, ◌+◌, ◌++◌, ℕ, List, [], Option, Some};
ghost use Rattle.std.specs.Prelude.{None, length, IfOk, IfErr, IfSome, OnOk, OnErr, MatchResult};
ghost use Rattle.std.specs.Prelude.{take, is_err, IsErrOf, refl};
ghost use Rattle.std.specs.Io.{ReadsAtMost};
ghost use Rattle.std.specs.Io.KnownBytes.{ReadConsumes};
ghost use Rattle.spin_outside.specs.Calls.{FindsByList, with_failing, next_fails, counted};
ghost use Rattle.spin_outside.specs.Counts.{FailsByCount, FindsByCount};
ghost use Rattle.spin_outside.specs.Files.{IsWholeFile, IsLacking, OthersKeep, AllKeep};
ghost use Rattle.spin_outside.specs.Files.{ReadsUnder};
ghost use Rattle.spin_outside.specs.Shelves.{empty_shelf, handed_at, shelf_seen, with_file};

use crate::calls::FailingCalls;
use crate::count::Count;
use crate::faults::{Failed, FindFault};
use crate::mem_file::MemFile;
use crate::mem_files::{open_at, place_of, read_at, refill_at};
use crate::pieces::moved_at_most;
use crate::shelf::Shelf;
use spin_values::{NoMemory, Octets, Text};
use std::alloc::Global;
use std::marker::Model;

/// A shelf of files in memory, no two of which have the same name. Its finds and its reads are counted apart,
/// each from 0.
#[derive(Debug, Drop)]
pub struct MemShelf {
    files: Vec<MemFile>,
    piece: Option<u32>,
    finds: FailingCalls,
    reads: FailingCalls,
    faults: Count,
    absences: Count,
}

impl Model for MemShelf {
    ghost use Rattle.std.specs.Prelude.{◌<◌, IfSome};
    ghost use Rattle.spin_outside.specs.Shelves.{ShelfState, held};
    ghost use Rattle.spin_outside.specs.Inner.Apart.{AreNamedApart};

    ghost Value = { ShelfState };

    ghost view = { λ s. record {
      files = s.files.items;
      piece = s.piece;
      finds = s.finds;
      reads = s.reads;
      faults = s.faults.number;
      absences = s.absences.number;
    } };

    ghost invariant = { λ s.
        AreNamedApart (held s.files.items) × IfSome s.piece (λ piece. 0 < piece) };
}

impl MemShelf {
    /// A shelf without files.
    pub fn new(alloc: Global) -> MemShelf
        ensures { result ≡ empty_shelf }
    {
        MemShelf {
            files: Vec::new(alloc),
            piece: None,
            finds: FailingCalls::new(alloc),
            reads: FailingCalls::new(alloc),
            faults: Count::new(),
            absences: Count::new(),
        }
    }

    /// Puts a file in. It takes the place of the one that has its name, which must then be found anew; else it
    /// stands behind the others. After want of memory nothing is changed.
    pub fn put(&mut self, name: Text, bytes: Octets) -> Result<(), NoMemory>
        ensures ok { OnOk result
            (self.new ≡ record self.old { files = with_file self.old.files name bytes }) }
        ensures err { OnErr result (self.new ≡ self.old) }
    {
        match place_of(&self.files, name.as_slice()) {
            Some(at) => {
                refill_at(&mut self.files, at, bytes);
                Ok(())
            }
            None => {
                self.files.push(MemFile::new(name, bytes))?;
                Ok(())
            }
        }
    }

    /// Lets the find of that number fail, counted from 0. After want of memory nothing is changed.
    pub fn fail_find(&mut self, call: u32) -> Result<(), NoMemory>
        ensures ok { OnOk result
            (self.new ≡ record self.old { finds = with_failing self.old.finds call }) }
        ensures err { OnErr result (self.new ≡ self.old) }
    {
        self.finds.fail_at(call)
    }

    /// Lets the read of that number fail, counted from 0. After want of memory nothing is changed.
    pub fn fail_read(&mut self, call: u32) -> Result<(), NoMemory>
        ensures ok { OnOk result
            (self.new ≡ record self.old { reads = with_failing self.old.reads call }) }
        ensures err { OnErr result (self.new ≡ self.old) }
    {
        self.reads.fail_at(call)
    }

    /// From now on a read moves at most so many bytes.
    pub fn in_pieces(&mut self, size: u32)
        requires { 0 < size }
        ensures { self.new ≡ record self.old { piece = Some size } }
    {
        self.piece = Some(size);
    }
}

impl Shelf for MemShelf {
    ghost use Rattle.spin_outside.specs.Inner.NoneLeft.{none_left_at};

    ghost seen = { shelf_seen };

    ghost none_left = { λ s file none. none_left_at s.files file none };

    /// Finds the file, in time linear in the number of files. It is `Failed` exactly where the number of the call
    /// is listed.
    fn find(&mut self, name: &Text) -> Result<u32, FindFault>
        ensures found { IfOk result (λ file.
            IsWholeFile (shelf_seen self.old).files name.now ((shelf_seen self.new).left file)) }
        ensures absent { IsErrOf result FindFault.Absent
            → IsLacking (shelf_seen self.old).files name.now }
        ensures others { MatchResult result
            (λ file. OthersKeep (shelf_seen self.old).left (shelf_seen self.new).left file)
            (λ _. AllKeep (shelf_seen self.old).left (shelf_seen self.new).left) }
        ensures named { IfSome (shelf_seen self.old).files (λ _. MatchResult result
            (λ file. ((shelf_seen self.new).found_as file ≡ Some name.now)
            × OthersKeep (shelf_seen self.old).found_as (shelf_seen self.new).found_as file)
            (λ _. AllKeep (shelf_seen self.old).found_as (shelf_seen self.new).found_as)) }
        ensures under { IfSome (shelf_seen self.old).files
            (λ _. AllKeep (shelf_seen self.old).reads (shelf_seen self.new).reads) }
        ensures files { (shelf_seen self.new).files ≡ (shelf_seen self.old).files }
        ensures cause { FindsByCount
            self.old.faults self.new.faults self.old.absences self.new.absences result }
        ensures exactly { FindsByList (next_fails self.old.finds) result }
        ensures piece { self.new.piece ≡ self.old.piece }
        ensures finds { self.new.finds ≡ counted self.old.finds }
        ensures reads { self.new.reads ≡ self.old.reads }
    {
        if self.finds.count() {
            self.faults.raise();
            return Err(FindFault::Failed);
        }
        let Some(at) = place_of(&self.files, name.as_slice()) else {
            self.absences.raise();
            return Err(FindFault::Absent);
        };
        let Ok(file) = u32::try_from(at) else {
            return Err(FindFault::NoMemory);
        };
        open_at(&mut self.files, at);
        Ok(file)
    }

    /// Takes bytes from the front of what is left, as many as there are, fit and are allowed in a call. It fails
    /// exactly where the number of the call is listed.
    fn read(&mut self, file: u32, buf: &mut [u8]) -> Result<usize, Failed>
        requires { 0 < length buf.old }
        ensures some { ReadsAtMost result buf.new }
        ensures taken { ReadConsumes
            ((shelf_seen self.old).left file) ((shelf_seen self.new).left file) result buf.new }
        ensures others { OthersKeep (shelf_seen self.old).left (shelf_seen self.new).left file }
        ensures named { IfSome (shelf_seen self.old).files
            (λ _. AllKeep (shelf_seen self.old).found_as (shelf_seen self.new).found_as) }
        ensures under { IfSome (shelf_seen self.old).files
            (λ _. ReadsUnder (shelf_seen self.old).reads (shelf_seen self.new).reads
            ((shelf_seen self.old).found_as file) result) }
        ensures files { (shelf_seen self.new).files ≡ (shelf_seen self.old).files }
        ensures absences { self.new.absences ≡ self.old.absences }
        ensures cause { FailsByCount self.old.faults self.new.faults result }
        ensures exactly { is_err result ≡ next_fails self.old.reads }
        ensures handed { IfOk result
            (λ n. take n buf.new ≡ handed_at self.old file (length buf.old)) }
        ensures piece { self.new.piece ≡ self.old.piece }
        ensures reads { self.new.reads ≡ counted self.old.reads }
        ensures finds { self.new.finds ≡ self.old.finds }
    {
        if self.reads.count() {
            self.faults.raise();
            return Err(Failed);
        }
        let room = moved_at_most(self.piece, buf.len());
        Ok(read_at(&mut self.files, file as usize, &mut buf[..room]))
    }
}
