//! The words of a command and of what became of it.

ghost use Rattle.std.specs.Prelude.{◌≡◌, ◌++◌, take, length, OnOk, OnErr};
ghost use Rattle.spin_text.specs.Words.{spaced};
ghost use Rattle.spin_report.specs.Verdicts.{refusal_told, refusal_words, verdict_words};

use spin_table::{Refusal, Verdicted};
use spin_text::{put_number, put_numbers, put_word};
use spin_values::{NoMemory, Octets};

/// The number of a refusal, from 1 to 12, as the lines of a report tell it.
pub fn refusal_number(refusal: &Refusal) -> u8
    ensures { result ≡ (refusal_told refusal.now).0 }
{
    match refusal {
        Refusal::UnknownEvent => 1,
        Refusal::UnknownModule => 2,
        Refusal::UnknownHandler => 3,
        Refusal::UnknownGuard => 4,
        Refusal::UnknownBinding => 5,
        Refusal::WrongType => 6,
        Refusal::Downward => 7,
        Refusal::WrongMode => 8,
        Refusal::Denied(_) => 9,
        Refusal::TooMany => 10,
        Refusal::Conflict(_) => 11,
        Refusal::ForcedMode(_) => 12,
    }
}

fn refusal_name(refusal: &Refusal) -> &'static [u8]
    ensures { result.now ≡ (refusal_told refusal.now).1 }
{
    match refusal {
        Refusal::UnknownEvent => b"unknown_event",
        Refusal::UnknownModule => b"unknown_module",
        Refusal::UnknownHandler => b"unknown_handler",
        Refusal::UnknownGuard => b"unknown_guard",
        Refusal::UnknownBinding => b"unknown_binding",
        Refusal::WrongType => b"wrong_type",
        Refusal::Downward => b"downward",
        Refusal::WrongMode => b"wrong_mode",
        Refusal::Denied(_) => b"denied",
        Refusal::TooMany => b"too_many",
        Refusal::Conflict(_) => b"conflict",
        Refusal::ForcedMode(_) => b"forced_mode",
    }
}

#[tactic(auto, using(spin_text::proofs::Kept::kept_same, spin_text::proofs::Kept::kept_more, spin_text::proofs::Kept::kept_on))]
fn put_refusal(out: &mut Octets, refusal: &Refusal) -> Result<(), NoMemory>
    ensures ok { OnOk result (out.new ≡ out.old ++ spaced (refusal_words refusal.now)) }
    ensures err { OnErr result (take (length out.old) out.new ≡ out.old) }
{
    put_number(out, u64::from(refusal_number(refusal)))?;
    put_word(out, refusal_name(refusal))?;
    match refusal {
        Refusal::Denied(rule) | Refusal::ForcedMode(rule) => put_number(out, u64::from(*rule)),
        Refusal::Conflict(cycle) => put_numbers(out, cycle.as_slice()),
        _ => Ok(()),
    }
}

// Appends what became of a command.
#[tactic(auto, using(spin_text::proofs::Kept::kept_same, spin_text::proofs::Kept::kept_more, spin_text::proofs::Kept::kept_on))]
pub(crate) fn put_verdict(out: &mut Octets, verdict: &Verdicted) -> Result<(), NoMemory>
    ensures ok { OnOk result (out.new ≡ out.old ++ spaced (verdict_words verdict.now)) }
    ensures err { OnErr result (take (length out.old) out.new ≡ out.old) }
{
    match verdict {
        Verdicted::Accepted => out.extend_from_slice(b" ok"),
        Verdicted::Refused(refusal) => {
            out.extend_from_slice(b" refused")?;
            put_refusal(out, refusal)
        }
    }
}
