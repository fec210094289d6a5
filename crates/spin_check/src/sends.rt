//! What was sent, by the numbers of the endpoints.

ghost use Rattle.std.specs.Prelude.{◌≡◌, ◌++◌, ◌∷◌, [], OnOk};
ghost use Rattle.std.specs.List.{filter_map};
ghost use Rattle.spin_report.specs.Runs.{sent_by, sends_of_reply, sends_of};
ghost use Rattle.spin_check.specs.Inner.Standings.{numbers_of};

use spin_proto::{Reply, Step};
use spin_report::What;
use spin_values::{NoMemory, Octets};

// Adds the number of the endpoint that a step sends to, if it is a send.
fn add_of_step(sends: &mut Octets, step: &Step) -> Result<(), NoMemory>
    ensures { OnOk result (sends.new ≡ sends.old ++ numbers_of (filter_map sent_by (step.now ∷ []))) }
{
    let Step::Send { endpoint, .. } = step else {
        return Ok(());
    };
    sends.push(*endpoint)?;
    Ok(())
}

// Adds the numbers of the endpoints that steps send to.
fn add_of_trace(sends: &mut Octets, trace: &[Step]) -> Result<(), NoMemory>
    ensures { OnOk result (sends.new ≡ sends.old ++ numbers_of (filter_map sent_by trace.now)) }
{
    for step in trace {
        add_of_step(sends, step)?;
    }
    Ok(())
}

// Adds the numbers of the endpoints that a reply sends to.
pub(crate) fn add_of_reply(sends: &mut Octets, reply: &Reply) -> Result<(), NoMemory>
    ensures { OnOk result (sends.new ≡ sends.old ++ numbers_of (sends_of_reply reply.now)) }
{
    match reply {
        Reply::Ran { trace, .. } => add_of_trace(sends, trace.as_slice()),
        _ => Ok(()),
    }
}

// Adds the numbers of the endpoints that an entry sends to.
pub(crate) fn add_of_entry(sends: &mut Octets, what: &What) -> Result<(), NoMemory>
    ensures { OnOk result (sends.new ≡ sends.old ++ numbers_of (sends_of what.now)) }
{
    match what {
        What::Command(..) => Ok(()),
        What::Deed(_, reply) => add_of_reply(sends, reply),
    }
}
