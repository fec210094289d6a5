//! To which endpoints sends are lost.

ghost use Rattle.std.specs.Prelude.{◌≡◌, ◌≤◌, ◌++◌, ◌==◌, ℕ, List, OnOk, length, count_by};
ghost use Rattle.spin_endpoint.specs.Named.{NamedEnd};
ghost use Rattle.spin_endpoint.specs.declared.ends.TheConstants.{MAX_ENDPOINTS};
ghost use Rattle.spin_text.specs.Words.{text_of};
ghost use Rattle.spin_report.specs.Histories.{lost_lines};
ghost use Rattle.spin_report.specs.Runs.{lost_counts};
ghost use Rattle.spin_check.specs.Inner.Standings.{AreFlags};

use crate::ran::Sending;
use spin_report::lost_text;
use spin_values::{NoMemory, Octets};

// How many of the sends go to the endpoint of the number.
fn count_of(sends: &[Sending], number: u8) -> u64
    ensures { result ≡ count_by (λ sent. sent.endpoint == number) sends.now }
{
    sends.iter().filter(|sent| sent.endpoint == number).count() as u64
}

// Appends the line of each endpoint to which sends are lost, these being all that are made. It goes over the sends once
// for each endpoint that doesn't stand.
pub(crate) fn lost_all(flags: &[bool], sends: &[Sending], out: &mut Octets) -> Result<(), NoMemory>
    requires { length flags.now ≤ MAX_ENDPOINTS }
    ensures { (names : List (List ℕ)) (ends : List NamedEnd) → AreFlags names ends flags.now
        → OnOk result (out.new ≡ out.old ++ text_of (lost_lines (lost_counts names ends sends.now))) }
{
    for number in 0..flags.len() {
        if flags[number] {
            continue;
        }
        let count = count_of(sends, number as u8);
        if count > 0 {
            lost_text(number as u8, count, out)?;
        }
    }
    Ok(())
}
