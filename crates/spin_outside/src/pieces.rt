//! How many bytes a call of an object in memory moves at most.

ghost use Rattle.std.specs.Prelude.{◌≡◌, ◌<◌, ◌≤◌, IfSome};
ghost use Rattle.spin_outside.specs.Sources.{moved_at_most};

/// How many bytes a call moves where so many fit: all of them, or at most a piece where its size is set.
pub fn moved_at_most(piece: Option<u32>, size: usize) -> usize
    requires size { 0 < size }
    requires piece { IfSome piece (λ piece. 0 < piece) }
    ensures most { result ≡ moved_at_most piece size }
    ensures some { 0 < result }
    ensures fits { result ≤ size }
{
    match piece {
        Some(piece) => size.min(piece as usize),
        None => size,
    }
}
