//! Shelves: where files are found by name and read.

ghost use Rattle.std.specs.Prelude.{◌≡◌, ◌<◌, ◌≤◌, ◌+◌, ℕ, List, [], ◌∷◌, Option, Some, None};
ghost use Rattle.std.specs.Prelude.{length, IfOk, IfErr, IfSome, MatchResult, take, IsErrOf};
ghost use Rattle.std.specs.Prelude.{OnErr};
ghost use Rattle.std.specs.Io.{ReadsAtMost};
ghost use Rattle.std.specs.Io.KnownBytes.{ReadConsumes};
ghost use Rattle.spin_outside.specs.Counts.{FailsByCount, FindsByCount, TakesByCount};
ghost use Rattle.spin_outside.specs.Files.{IsWholeFile, IsLacking, OthersKeep, AllKeep};
ghost use Rattle.spin_outside.specs.Files.{ReadsUnder, TakesAll};
ghost use Rattle.spin_outside.specs.Seen.{ShelfSeen, TakesFront};

use crate::faults::{Failed, FindFault, TakeFault};
use spin_values::{Octets, Text};
use std::alloc::Global;

/// How many bytes [`read_up_to`] reads at a time.
pub const READ_SIZE: usize = 4096;

/// Files that are found by name, and read by the number that `find` answers. No call changes the files that are
/// held by name.
pub trait Shelf {
    /// What contracts see of the shelf at a moment.
    ghost seen: { Self → ShelfSeen };

    /// Finds the file of a name. What is left under the number that it answers is then the whole file.
    /// `Absent` alone raises the count of absences; where the shelf tells its files it comes only where none has
    /// the name. `Failed` alone raises the count of faults.
    fn find(&mut self, name: &Text) -> Result<u32, FindFault>
        ensures found { IfOk result
            (λ file. IsWholeFile (seen self.old).files name.now ((seen self.new).left file)) }
        ensures absent { IsErrOf result FindFault.Absent
            → IsLacking (seen self.old).files name.now }
        ensures others { MatchResult result
            (λ file. OthersKeep (seen self.old).left (seen self.new).left file)
            (λ _. AllKeep (seen self.old).left (seen self.new).left) }
        ensures named { IfSome (seen self.old).files (λ _. MatchResult result
            (λ file. ((seen self.new).found_as file ≡ Some name.now)
            × OthersKeep (seen self.old).found_as (seen self.new).found_as file)
            (λ _. AllKeep (seen self.old).found_as (seen self.new).found_as)) }
        ensures under { IfSome (seen self.old).files
            (λ _. AllKeep (seen self.old).reads (seen self.new).reads) }
        ensures files { (seen self.new).files ≡ (seen self.old).files }
        ensures cause { FindsByCount (seen self.old).faults (seen self.new).faults
            (seen self.old).absences (seen self.new).absences result };

    /// Takes bytes from the front of what is left under a file number into a buffer that isn't empty, and answers
    /// how many. It takes none only where nothing is left. It fails only where the count of faults rose, and has
    /// then taken nothing.
    fn read(&mut self, file: u32, buf: &mut [u8]) -> Result<usize, Failed>
        requires { 0 < length buf.old }
        ensures some { ReadsAtMost result buf.new }
        ensures taken { ReadConsumes
            ((seen self.old).left file) ((seen self.new).left file) result buf.new }
        ensures others { OthersKeep (seen self.old).left (seen self.new).left file }
        ensures named { IfSome (seen self.old).files
            (λ _. AllKeep (seen self.old).found_as (seen self.new).found_as) }
        ensures under { IfSome (seen self.old).files
            (λ _. ReadsUnder (seen self.old).reads (seen self.new).reads
            ((seen self.old).found_as file) result) }
        ensures files { (seen self.new).files ≡ (seen self.old).files }
        ensures absences { (seen self.new).absences ≡ (seen self.old).absences }
        ensures cause { FailsByCount (seen self.old).faults (seen self.new).faults result };

    /// Where the shelf tells its files, a number that `find` didn't answer has nothing left.
    ghost none_left: { (shelf : Self) (file : ℕ) → (seen shelf).found_as file ≡ None
        → IfSome (seen shelf).files (λ _. (seen shelf).left file ≡ Some []) };
}

/// Takes all that is left under a file number, if that is at most `limit` bytes.
/// `TooLarge` comes only where more bytes are left, and never an `Ok` then; `Failed` only where the shelf's count of
/// faults rose. After a refusal the bytes that it took are no longer left. It is linear in the bytes that it takes,
/// and takes at most 4,096 bytes past the limit.
pub fn read_up_to<F: Shelf>(
    alloc: Global,
    shelf: &mut F,
    file: u32,
    limit: u32,
) -> Result<Octets, TakeFault>
    ensures all { IfOk result
        (TakesAll ((F.seen shelf.old).left file) ((F.seen shelf.new).left file)) }
    ensures small { IfOk result (λ bytes. length bytes ≤ limit) }
    ensures large { IsErrOf result TakeFault.TooLarge
        → IfSome ((F.seen shelf.old).left file) (λ bytes. limit < length bytes) }
    ensures front { TakesFront (F.seen shelf.old) (F.seen shelf.new) file (limit + READ_SIZE) }
    ensures others { OthersKeep (F.seen shelf.old).left (F.seen shelf.new).left file }
    ensures named { IfSome (F.seen shelf.old).files
        (λ _. AllKeep (F.seen shelf.old).found_as (F.seen shelf.new).found_as) }
    ensures files { (F.seen shelf.new).files ≡ (F.seen shelf.old).files }
    ensures absences { (F.seen shelf.new).absences ≡ (F.seen shelf.old).absences }
    ensures cause { TakesByCount
        (F.seen shelf.old).faults (F.seen shelf.new).faults result }
{
    let mut bytes = Octets::new(alloc);
    let mut buf = [0u8; READ_SIZE];
    loop {
        let count = shelf.read(file, &mut buf)?;
        if count == 0 {
            return Ok(bytes);
        }
        if count > limit as usize - bytes.len() {
            return Err(TakeFault::TooLarge);
        }
        bytes.extend_from_slice(&buf[..count])?;
    }
}
