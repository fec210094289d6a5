//! What is sent.

ghost use Rattle.std.specs.Prelude.{◌≡◌, ◌++◌, ◌∷◌, [], filter, OnOk};
ghost use Rattle.std.specs.List.{filter_map};
ghost use Rattle.spin_report.specs.Runs.{sent_by};
ghost use Rattle.spin_whole.specs.Inner.Flags.{is_set};

use crate::ran::{Sending, Sendings};
use spin_proto::Step;
use spin_values::NoMemory;

// Adds what a step sends, if it sends something.
fn add_step(sends: &mut Sendings, step: &Step) -> Result<(), NoMemory>
    ensures { OnOk result (sends.new ≡ sends.old ++ filter_map sent_by (step.now ∷ [])) }
{
    let Step::Send { endpoint, bytes } = step else {
        return Ok(());
    };
    sends.push(Sending {
        endpoint: *endpoint,
        bytes: bytes.copy()?,
    })
}

// Adds what steps send.
pub(crate) fn add_steps(sends: &mut Sendings, steps: &[Step]) -> Result<(), NoMemory>
    ensures { OnOk result (sends.new ≡ sends.old ++ filter_map sent_by steps.now) }
{
    for step in steps {
        add_step(sends, step)?;
    }
    Ok(())
}

// Whether the flag of the number is there and set.
fn is_set(flags: &[bool], number: u8) -> bool
    ensures { result ≡ is_set flags.now number }
{
    match flags.get(usize::from(number)) {
        Some(flag) => *flag,
        None => false,
    }
}

// Keeps the sends to the endpoints whose flags are set.
pub(crate) fn keep_standing(flags: &[bool], sends: Sendings) -> Sendings
    ensures { result ≡ filter (λ sent. is_set flags.now sent.endpoint) sends }
{
    let mut items = sends.into_vec();
    items.retain(|sent| is_set(flags, sent.endpoint));
    Sendings::from_vec(items)
}
