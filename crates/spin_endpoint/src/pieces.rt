//! Pieces of bytes in memory that was taken beforehand.

ghost use Rattle.std.specs.Prelude.{◌≡◌, IfOk, if◌then◌else◌};
ghost use Rattle.spin_endpoint.specs.Keeping.{fits, no_piece, with_kept};

use spin_values::NoMemory;
use std::alloc::Global;
use std::marker::Model;

/// Pieces in order, and the room that is left: for so many pieces, with so many bytes in all.
#[derive(Debug, Drop)]
pub struct Pieces {
    bytes: Vec<u8>,
    lens: Vec<usize>,
    pieces_left: u32,
    bytes_left: u32,
}

impl Model for Pieces {
    ghost use Rattle.std.specs.Prelude.{◌≡◌, ◌≤◌, ◌+◌, length, vec_capacity};
    ghost use Rattle.spin_endpoint.specs.Keeping.{PiecesState};
    ghost use Rattle.spin_endpoint.specs.Inner.Cutting.{total, cut};

    ghost Value = { PiecesState };

    ghost view = { λ p. record {
      pieces = cut p.lens.items p.bytes.items;
      pieces_left = p.pieces_left;
      bytes_left = p.bytes_left;
    } };

    ghost invariant = { λ p.
        (total p.lens.items ≡ length p.bytes.items)
        × (length p.lens.items + p.pieces_left ≤ vec_capacity p.lens)
        × (length p.bytes.items + p.bytes_left ≤ vec_capacity p.bytes) };
}

impl Pieces {
    /// No piece, and room for so many with so many bytes in all, for which the memory is taken now.
    pub fn new(alloc: Global, pieces: u32, bytes: u32) -> Result<Pieces, NoMemory>
        ensures { IfOk result (λ kept. kept ≡ no_piece pieces bytes) }
    {
        Ok(Pieces {
            bytes: Vec::with_capacity(alloc, bytes as usize)?,
            lens: Vec::with_capacity(alloc, pieces as usize)?,
            pieces_left: pieces,
            bytes_left: bytes,
        })
    }

    /// Adds the piece, if there is room for it, and answers whether there was. It takes no memory.
    pub fn push(&mut self, piece: &[u8]) -> bool
        ensures fits { result ≡ fits self.old piece.now }
        ensures kept { self.new ≡
            (if fits self.old piece.now then with_kept self.old piece.now else self.old) }
    {
        let len = piece.len();
        if self.pieces_left == 0 || len > self.bytes_left as usize {
            return false;
        }
        match self.lens.push(len) {
            Ok(()) => {}
            Err(_) => return false,
        }
        match self.bytes.extend_from_slice(piece) {
            Ok(()) => {}
            Err(_) => return false,
        }
        self.pieces_left -= 1;
        self.bytes_left -= len as u32;
        true
    }
}
