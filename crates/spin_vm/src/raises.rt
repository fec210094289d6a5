//! The raises of faults.

ghost use Rattle.std.specs.Prelude.{◌≡◌, IfOk};
ghost use Rattle.spin_table.specs.SetupOf.{data_of};
ghost use Rattle.spin_table.specs.Soundness.{IsSoundVersion};
ghost use Rattle.spin_proto.specs.Replies.{IsDeedReply};
ghost use Rattle.spin_vm.specs.Spaces as specs;
ghost use Rattle.spin_vm.specs.Spaces.{raise_of};

use crate::fault::Fault;
use crate::limits::FRAMES;
use spin_code::Sincere;
use spin_objects::Catalogue;
use spin_proto::{Reply, path};
use spin_raise::Answer;
use spin_table::{Setup, Version};
use spin_values::{Args, NoMemory, Value};
use spin_word::Deed;
use std::alloc::Global;

// The reply to the raise of a fault: that of an access to the page of a space.
pub(crate) fn raise(
    alloc: Global,
    setup: &Setup,
    version: &Version,
    fault: Fault,
    space: u64,
    page: u64,
    write: bool,
) -> Result<Reply, NoMemory>
    requires sincere { ⟦<Catalogue as Sincere>⟧.sincere setup.now.catalogue }
    requires sound { IsSoundVersion (data_of setup.now) version.now }
    ensures { IfOk result
        (IsDeedReply (data_of setup.now) version.now.state (raise_of fault space page write)) }
{
    let mut args = Args::new(alloc);
    args.push(Value::Word(space))?;
    args.push(Value::Word(page))?;
    args.push(Value::Word(u64::from(write)))?;
    let deed = Deed::Raise {
        event: fault.event(),
        args,
    };
    path(alloc, version, setup, &deed)
}

fn frame_if(number: u64) -> Option<u16>
    ensures { result ≡ specs.frame_if number }
{
    if number < FRAMES {
        Some(number as u16)
    } else {
        None
    }
}

// The frame that an answer gives.
fn frame_in(reply: &Reply) -> Option<u16>
    ensures { result ≡ specs.frame_in reply.now }
{
    match reply {
        Reply::Ran { answer, .. } => match answer {
            Answer::Value(number) => frame_if(*number),
            Answer::Default(Some(number)) => frame_if(*number),
            _ => None,
        },
        _ => None,
    }
}

// The frame that the reply to a fault gives: none but to that of a missing page.
pub(crate) fn frame_given(fault: Fault, reply: &Reply) -> Option<u16>
    ensures { result ≡ specs.frame_given fault reply.now }
{
    match fault {
        Fault::PageNotPresent => frame_in(reply),
        _ => None,
    }
}
