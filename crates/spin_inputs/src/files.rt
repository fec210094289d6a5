//! Files that are read whole, and the script among them.

ghost use Rattle.std.specs.Prelude.{◌≤◌, ◌+◌, length, IfOk, IfErr, IsErrOf, ◌≡◌};
ghost use Rattle.spin_outside.specs.Files.{IsLacking};
ghost use Rattle.spin_outside.specs.declared.shelf.TheConstants.{READ_SIZE};
ghost use Rattle.spin_word.specs.declared.command.TheConstants.{MAX_PLACE};
ghost use Rattle.spin_script.specs.States.{natives_seen};
ghost use Rattle.spin_script.specs.Scripts.{script_seen};
ghost use Rattle.spin_script.specs.Segments.{IsOrderly};
ghost use Rattle.spin_script.specs.Soundness.{AreValid, command_lines};
ghost use Rattle.spin_inputs.specs.Loading.{IsContent, IsOver, LoadsByCount, IsLoaded, NoScriptBy, end_by};
ghost use Rattle.spin_inputs.specs.Shelves.{ShelfStood, ReadsFew, ReadsOnly};

use crate::end::{End, Input};
use spin_code::Sincere;
use spin_grammar::Cause;
use spin_objects::{Catalogue, Natives};
use spin_outside::{FindFault, Shelf, TakeFault, read_up_to};
use spin_script::{MAX_TEXT, Script, ScriptFault, read_script};
use spin_values::{Octets, Text};
use std::alloc::Global;
use thiserror::Error;

/// Why a file wasn't loaded.
#[derive(Clone, Copy, Debug, PartialEq, Eq, Error)]
pub enum LoadFault {
    /// The shelf has no file of that name.
    #[error("there is no such file")]
    Absent,
    /// The shelf failed.
    #[error("the shelf failed")]
    Failed,
    /// The file has more bytes than are to be read.
    #[error("the file is too large")]
    TooLarge,
    /// There was no memory for the file.
    #[error("out of memory")]
    NoMemory,
}

/// The bytes of the file of that name, which has at most so many. `TooLarge` comes only where a longer one stands
/// under the name. It takes time linear in the bytes. However it ends, it reads at most 4,096 bytes past the limit, and
/// no other file.
pub fn load<F: Shelf>(
    alloc: Global,
    shelf: &mut F,
    name: &Text,
    limit: u32,
) -> Result<Octets, LoadFault>
    ensures found { IfOk result (λ bytes. IsContent (F.seen shelf.old).files name.now bytes) }
    ensures small { IfOk result (λ bytes. length bytes ≤ limit) }
    ensures large { IsErrOf result LoadFault.TooLarge
        → IsOver limit (F.seen shelf.old).files name.now }
    ensures absent { IsErrOf result LoadFault.Absent
        → IsLacking (F.seen shelf.old).files name.now }
    ensures files { (F.seen shelf.new).files ≡ (F.seen shelf.old).files }
    ensures reads { ReadsOnly (F.seen shelf.old) (F.seen shelf.new) name.now }
    ensures bound { ReadsFew (F.seen shelf.old) (F.seen shelf.new) name.now (limit + READ_SIZE) }
    ensures cause { LoadsByCount (F.seen shelf.old) (F.seen shelf.new) result }
{
    let file = match shelf.find(name) {
        Ok(file) => file,
        Err(FindFault::Absent) => return Err(LoadFault::Absent),
        Err(FindFault::Failed) => return Err(LoadFault::Failed),
        Err(FindFault::NoMemory) => return Err(LoadFault::NoMemory),
    };
    match read_up_to(alloc, shelf, file, limit) {
        Ok(bytes) => Ok(bytes),
        Err(TakeFault::Failed) => Err(LoadFault::Failed),
        Err(TakeFault::TooLarge) => Err(LoadFault::TooLarge),
        Err(TakeFault::NoMemory) => Err(LoadFault::NoMemory),
    }
}

/// The most bytes that a script or a trace may have.
pub const TEXT_LIMIT: u32 = MAX_TEXT as u32;

// The end of a script that isn't read.
fn end_by(fault: ScriptFault) -> End
    ensures { result ≡ end_by fault }
{
    match fault {
        ScriptFault::Bad { line, cause } => End::Refused { line, cause },
        ScriptFault::NoMemory => End::NoMemory,
    }
}

/// The script of that name. No other file is read, and of this one at most 4,096 bytes past its limit.
pub fn script_of<F: Shelf>(
    alloc: Global,
    shelf: &mut F,
    name: &Text,
    natives: Natives,
) -> Result<Script, End>
    requires sincere { ⟦<Natives as Sincere>⟧.sincere natives }
    ensures stood { IfOk result (λ _. ShelfStood (F.seen shelf.old) (F.seen shelf.new)) }
    ensures reads { ReadsOnly (F.seen shelf.old) (F.seen shelf.new) name.now }
    ensures bound { ReadsFew (F.seen shelf.old) (F.seen shelf.new) name.now (TEXT_LIMIT + READ_SIZE) }
    ensures loaded { IfOk result (λ script.
        IsLoaded (natives_seen natives) (F.seen shelf.old).files name.now (script_seen script)) }
    ensures sincere { IfOk result
        (λ script. ⟦<Catalogue as Sincere>⟧.sincere script.setup.catalogue) }
    ensures valid { IfOk result (λ script. AreValid script.segments) }
    ensures few { IfOk result (λ script. command_lines script.segments ≤ MAX_PLACE) }
    ensures orderly { IfOk result (λ script. IsOrderly (script_seen script)) }
    ensures refused { IfErr result
        (NoScriptBy (natives_seen natives) (F.seen shelf.old) (F.seen shelf.new) name.now) }
{
    let text = match load(alloc, shelf, name, TEXT_LIMIT) {
        Ok(text) => text,
        Err(LoadFault::Absent) => return Err(End::Absent(Input::Script)),
        Err(LoadFault::Failed) => return Err(End::Unread(Input::Script)),
        Err(LoadFault::TooLarge) => {
            return Err(End::Refused {
                line: 0,
                cause: Cause::TooLarge as u8,
            });
        }
        Err(LoadFault::NoMemory) => return Err(End::NoMemory),
    };
    match read_script(alloc, text.as_slice(), natives) {
        Ok(script) => Ok(script),
        Err(fault) => Err(end_by(fault)),
    }
}
