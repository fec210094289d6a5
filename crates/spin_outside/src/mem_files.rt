//! The files of a shelf in memory, found, opened and read by place.

ghost use Rattle.std.specs.Prelude.{◌≡◌, ◌<◌, ◌≤◌, ◌++◌, ℕ, List, [], Option, Some, None, length};
ghost use Rattle.std.specs.Prelude.{IfSome, IfNone, take, get_or, IsTrue};
ghost use Rattle.spin_outside.specs.Files.{content, OthersKeep, AllKeep, ReadsMore};
ghost use Rattle.spin_outside.specs.Shelves.{held, left_at, name_at, reads_under, with_file};
ghost use Rattle.spin_outside.specs.Inner.Apart.{AreNamedApart};

use crate::mem_file::MemFile;
use spin_values::Octets;

fn is_named(file: &MemFile, name: &[u8]) -> bool
    ensures yes { IsTrue result → file.now.name ≡ name.now }
    ensures no { file.now.name ≡ name.now → IsTrue result }
{
    file.name.as_slice() == name
}

/// The place of the first file of that name.
pub fn place_of(files: &[MemFile], name: &[u8]) -> Option<usize>
    ensures bound { IfSome result (λ at. at < length files.now) }
    ensures found { IfSome result (λ at. (file : _)
        × (get_or files.now at file ≡ file)
        × (file.name ≡ name.now)
        × (content (held files.now) name.now ≡ Some file.bytes)) }
    ensures none { IfNone result (content (held files.now) name.now ≡ None) }
{
    for (at, file) in files.iter().enumerate() {
        if is_named(file, name) {
            return Some(at);
        }
    }
    None
}

/// Gives the file at a place other bytes. It has to be found anew.
pub fn refill_at(files: &mut [MemFile], at: usize, bytes: Octets)
    requires there { at < length files.old }
    requires apart { AreNamedApart (held files.old) }
    ensures put { (file : _) → get_or files.old at file ≡ file
        → files.new ≡ with_file files.old file.name bytes }
    ensures apart { AreNamedApart (held files.new) }
    ensures len { length files.new ≡ length files.old }
{
    files[at].refill(bytes);
}

/// Opens the file at a place from its front.
pub fn open_at(files: &mut [MemFile], at: usize)
    requires { at < length files.old }
    ensures held { held files.new ≡ held files.old }
    ensures left { (file : _) → get_or files.old at file ≡ file
        → left_at files.new at ≡ file.bytes }
    ensures named { (file : _) → get_or files.old at file ≡ file
        → name_at files.new at ≡ Some file.name }
    ensures left_others { OthersKeep (left_at files.old) (left_at files.new) at }
    ensures named_others { OthersKeep (name_at files.old) (name_at files.new) at }
    ensures under { AllKeep (reads_under files.old) (reads_under files.new) }
{
    files[at].open();
}

/// Takes bytes from the front of what is left at a place, as many as there are and fit.
pub fn read_at(files: &mut [MemFile], at: usize, buf: &mut [u8]) -> usize
    requires some { 0 < length buf.old }
    requires apart { AreNamedApart (held files.old) }
    ensures bound { result ≤ length buf.new }
    ensures taken { left_at files.old at ≡ take result buf.new ++ left_at files.new at }
    ensures handed { take result buf.new ≡ take (length buf.old) (left_at files.old at) }
    ensures end { result ≡ 0 → left_at files.new at ≡ [] }
    ensures held { held files.new ≡ held files.old }
    ensures left_others { OthersKeep (left_at files.old) (left_at files.new) at }
    ensures named { AllKeep (name_at files.old) (name_at files.new) }
    ensures under { ReadsMore (reads_under files.old) (reads_under files.new)
        (name_at files.old at) result }
{
    if at >= files.len() {
        return 0;
    }
    files[at].take(buf)
}
