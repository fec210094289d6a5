//! Endpoints by number: which of them stand, and to which sends are lost.

ghost use Rattle.std.specs.Prelude.{◌≡◌, ◌<◌, ◌≤◌, ◌++◌, ◌==◌, ℕ, List, All, IfOk, OnOk, length, map, count_by};
ghost use Rattle.spin_endpoint.specs.Named.{NamedEnd};
ghost use Rattle.spin_endpoint.specs.Sends.{SentSeen, all_retired};
ghost use Rattle.spin_endpoint.specs.declared.ends.TheConstants.{MAX_ENDPOINTS};
ghost use Rattle.spin_text.specs.Words.{text_of};
ghost use Rattle.spin_report.specs.Histories.{retire_line, lost_lines};
ghost use Rattle.spin_report.specs.Runs.{retirements, lost_counts};
ghost use Rattle.spin_check.specs.Inner.Standings.{AreFlags, numbers_of};

use spin_report::{lost_text, retire_text};
use spin_values::{NoMemory, Octets};

/// Retires the endpoints of these numbers one after another, and appends the line of each.
pub fn retire_all(flags: &mut [bool], numbers: &[u16], out: &mut Octets) -> Result<(), NoMemory>
    requires { All (λ number. number < length flags.old) numbers.now }
    ensures { (names : List (List ℕ)) (ends : List NamedEnd) → AreFlags names ends flags.old
        → OnOk result ((out.new ≡ out.old ++ text_of (map retire_line (retirements names numbers.now ends)))
        × AreFlags names (all_retired names numbers.now ends) flags.new) }
{
    for number in numbers {
        let at = *number as usize;
        retire_text(*number, flags[at], out)?;
        flags[at] = false;
    }
    Ok(())
}

fn count_of(sends: &[u8], number: u8) -> u64
    ensures { result ≡ count_by (λ n. n == number) sends.now }
{
    sends.iter().filter(|sent| **sent == number).count() as u64
}

// Appends the line of each endpoint to which sends are lost, these being the numbers of all that are sent to. It goes
// over the sends once for each endpoint that doesn't stand.
pub(crate) fn lost_all(flags: &[bool], sends: &[u8], out: &mut Octets) -> Result<(), NoMemory>
    requires { length flags.now ≤ MAX_ENDPOINTS }
    ensures { (names : List (List ℕ)) (ends : List NamedEnd) (sent : List SentSeen) → AreFlags names ends flags.now
        → numbers_of sent ≡ sends.now
        → OnOk result (out.new ≡ out.old ++ text_of (lost_lines (lost_counts names ends sent))) }
{
    for number in 0..flags.len() {
        if flags[number] {
            continue;
        }
        let count = count_of(sends, number as u8);
        if count > 0 {
            lost_text(number as u8, count, out)?;
        }
    }
    Ok(())
}
