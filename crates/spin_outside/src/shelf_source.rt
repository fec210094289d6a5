//! One file of a shelf as a source.

use crate::faults::Failed;
use crate::shelf::Shelf;
use crate::source::Source;

/// The file that a shelf found under a number, from where it stands. The faults are the shelf's. The bytes taken are
/// those that were read under the name of the file, where the shelf tells its files.
#[derive(Drop)]
pub struct ShelfSource<'a, F: Shelf> {
    /// The shelf.
    pub shelf: &'a mut F,
    /// The number of the file.
    pub file: u32,
}

impl<F: Shelf> Source for ShelfSource<'_, F> {
    ghost use Rattle.spin_outside.specs.Sources.{file_seen};

    ghost seen = { λ s. file_seen (F.seen s.shelf.now) s.file s.shelf.ghost_name };

    /// Reads the file.
    fn read(&mut self, buf: &mut [u8]) -> Result<usize, Failed> {
        self.shelf.read(self.file, buf)
    }
}
