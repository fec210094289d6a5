//! What is made from a number.

ghost use Rattle.std.specs.Prelude.{◌≡◌, IfOk};
ghost use Rattle.spin_gen.specs.Texts.{script_of, packets_of};

use crate::capture::capture;
use crate::draws::Draws;
use crate::script::script;
use spin_values::{NoMemory, Octets};
use std::alloc::Global;

/// A script, and the capture that its packet lines take records of.
#[derive(Debug, Drop)]
pub struct Generated {
    /// The canonical text of a script of 17,003 deeds on eight lanes, which declares the endpoint `out0`.
    pub script: Octets,
    /// A capture file with 1,000 records of 50 bytes each.
    pub capture: Octets,
}

/// The script and the capture of that number. One row of numbers is drawn from it, first for the script, in the order
/// of its lines, and then for the capture, in the order of its records.
///
/// [`NoMemory`] is the only refusal. The time is linear in what is made, and the memory for either is taken at once.
pub fn generate(alloc: Global, number: u64) -> Result<Generated, NoMemory>
    ensures script { IfOk result (λ made. made.script ≡ script_of number) }
    ensures capture { IfOk result (λ made. made.capture ≡ packets_of number) }
{
    let mut draws = Draws::new(number);
    let script = script(alloc, &mut draws)?;
    let capture = capture(alloc, &mut draws)?;
    Ok(Generated { script, capture })
}
