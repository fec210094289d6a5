//! Things that are copied into a buffer of C.

ghost use Rattle.std.specs.Prelude.{◌≡◌, ◌≤◌, length};
ghost use Rattle.spin_c.specs.Tellings.{AreCopied, AreHandedTo, laid_over};

use crate::ask::Outcome;
use crate::told::code_of;

// Copies items to the front of a buffer.
pub(crate) fn put_front<T: Copy>(items: &[T], buffer: &mut [T])
    requires { length items.now ≤ length buffer.old }
    ensures { buffer.new ≡ laid_over items.now buffer.old }
{
    buffer[..items.len()].copy_from_slice(items);
}

// Copies bytes to the front of a buffer, where it has room for them.
pub(crate) fn copy_to(bytes: &[u8], buffer: &mut [u8]) -> u32
    ensures { AreCopied bytes.now buffer.old result buffer.new }
{
    if bytes.len() > buffer.len() {
        return 11;
    }
    put_front(bytes, buffer);
    0
}

// Copies the bytes that are handed out, and tells how many they are.
pub(crate) fn hand_to(outcome: &Outcome, buffer: &mut [u8], wanted: &mut u64) -> u32
    ensures { AreHandedTo outcome.now buffer.old result buffer.new wanted.new }
{
    match outcome {
        Outcome::Bytes(bytes) => {
            *wanted = bytes.len() as u64;
            copy_to(bytes.as_slice(), buffer)
        }
        _ => {
            *wanted = 0;
            code_of(outcome)
        }
    }
}
