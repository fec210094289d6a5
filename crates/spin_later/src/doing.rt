//! The work of tasks, looked up in the batches.

ghost use Rattle.std.specs.Prelude.{All, IfOk, IfSome};
ghost use Rattle.spin_table.specs.SetupOf.{data_of};
ghost use Rattle.spin_later.specs.Batches.{CanDo, IsReplyTo};
ghost use Rattle.spin_later.specs.Inner.Work.{IsRight};

use crate::batch::{Batches, Call};
use spin_code::Sincere;
use spin_objects::Catalogue;
use spin_proto::{Reply, job_path};
use spin_table::Setup;
use spin_values::NoMemory;
use std::alloc::Global;

// The reply to the task of this sender and number.
#[derive(Drop)]
pub(crate) struct Done {
    pub(crate) sender: u8,
    pub(crate) number: u32,
    pub(crate) reply: Reply,
}

// The reply to a call.
pub(crate) fn do_call(alloc: Global, setup: &Setup, call: &Call) -> Result<Reply, NoMemory>
    requires sincere { ⟦<Catalogue as Sincere>⟧.sincere setup.now.catalogue }
    requires can { CanDo (data_of setup.now) call.now }
    ensures { IfOk result (IsReplyTo (data_of setup.now) call.now) }
{
    job_path(alloc, &call.version, setup, &call.call)
}

// Does the call that stands in the batches under this sender and number. A sender or number that they lack is passed
// over.
pub(crate) fn do_task(
    alloc: Global,
    setup: &Setup,
    batches: &Batches,
    sender: u8,
    number: u32,
) -> Result<Option<Done>, NoMemory>
    requires sincere { ⟦<Catalogue as Sincere>⟧.sincere setup.now.catalogue }
    requires can { All (All (CanDo (data_of setup.now))) batches.now }
    ensures { IfOk result (λ done. IfSome done (IsRight (data_of setup.now) batches.now)) }
{
    let Some(batch) = batches.as_slice().get(usize::from(sender)) else {
        return Ok(None);
    };
    let Some(call) = batch.as_slice().get(number as usize) else {
        return Ok(None);
    };
    let reply = do_call(alloc, setup, call)?;
    Ok(Some(Done {
        sender,
        number,
        reply,
    }))
}
