//! The key of a plan: the argument, or the field of one, for which most bindings require a constant.

ghost use Rattle.std.specs.Prelude.{◌≡◌, ◌≤◌, ◌<◌, ◌+◌, ◌^◌, length, OnOk, IfOk, IsTrue, if◌then◌else◌, false, Some};
ghost use Rattle.std.specs.List.{All, flat_map, list_all};
ghost use Rattle.std.specs.Option.{option_map};
ghost use Rattle.spin_plan.specs.Next.{IsGuard};
ghost use Rattle.spin_plan.specs.Keys.{IsKey, IsLeader};
ghost use Rattle.spin_plan.specs.Keys as specs;
ghost use Rattle.spin_plan.specs.Planned.{expr_of};
ghost use Rattle.spin_plan.specs.Inner.Reads.{is_read, times_in, binding_reads};
ghost use Rattle.spin_plan.specs.Inner.Counts.{numbers_of, times_counted, goes_ahead};
ghost use Rattle.spin_code.specs.Required.{is_same_read};
ghost use Rattle.spin_code.specs.declared.expr.Expr.{Expr};

use crate::read::{Read, read_of};
use crate::reads::{Reads, reads_of};
use spin_code::{Expr, Guards};
use spin_place::Binding;
use spin_values::{NoMemory, Sequence};
use std::alloc::Global;
use std::collections::HashMap;

// The argument, offset and width of a field, and then 1. An argument as a word counts as offset 0 and width 0, and
// then has 0.
fn numbers(e: &Expr) -> (u8, u16, u8, u8)
    ensures { result ≡ numbers_of e.now }
{
    match e {
        Expr::Arg(arg) => (*arg, 0, 0, 0),
        Expr::Field { arg, offset, width } => (*arg, *offset, *width, 1),
        _ => (0, 0, 0, 0),
    }
}

// Whether the first numbers decide, or else the rest.
fn is_below(a: u16, b: u16, rest: bool) -> bool
    ensures { result ≡ specs.is_below a b rest }
{
    a < b || a == b && rest
}

// Whether the first comes before the second, by argument, offset and width.
fn comes_before(d: &Expr, e: &Expr) -> bool
    ensures { result ≡ specs.comes_before d.now e.now }
{
    let (d, e) = (numbers(d), numbers(e));
    let by_width = is_below(d.2 as u16, e.2 as u16, d.3 < e.3);
    is_below(d.0 as u16, e.0 as u16, is_below(d.1, e.1, by_width))
}

// How often each argument or field was counted, by its numbers.
type Counts = HashMap<(u8, u16, u8, u8), u64>;

// Counts it once more, and answers how often it was counted.
fn count(counts: &mut Counts, e: &Expr) -> Result<u64, NoMemory>
    requires read { IsTrue (is_read e.now) }
    requires room { times_counted counts.old e.now + 1 < 2 ^ 64 }
    ensures counts { OnOk result ((d : Expr) → IsTrue (is_read d)
        → times_counted counts.new d ≡ times_counted counts.old d + (if is_same_read e.now d then 1 else 0)) }
    ensures result { IfOk result (λ times. times ≡ times_counted counts.old e.now + 1) }
{
    let numbers = numbers(e);
    let times = counts.get(&numbers).copied().unwrap_or(0) + 1;
    counts.insert(numbers, times)?;
    Ok(times)
}

// The one that was counted most often so far, and how often.
#[derive(Drop)]
struct Lead {
    leader: Option<Read>,
    times: u64,
}

// Whether one with this count leads before the leader so far and its count.
fn is_ahead(e: &Expr, times: u64, leader: &Option<Read>, most: u64) -> bool
    ensures { result ≡ goes_ahead e.now times (option_map expr_of leader.now) most }
{
    match leader {
        None => times > most,
        Some(leader) => times > most || times == most && comes_before(e, &leader.expr()),
    }
}

// Who leads once this one was counted so often.
fn lead_after(lead: Lead, e: &Expr, times: u64) -> Lead
    requires { IsTrue (is_read e.now) }
    ensures ahead { IsTrue (goes_ahead e.now times (option_map expr_of lead.leader) lead.times)
        → (option_map expr_of result.leader ≡ Some e.now) × (result.times ≡ times) }
    ensures behind { (goes_ahead e.now times (option_map expr_of lead.leader) lead.times ≡ false)
        → (option_map expr_of result.leader ≡ option_map expr_of lead.leader)
        × (result.times ≡ lead.times) }
{
    if is_ahead(e, times, &lead.leader, lead.times) {
        return Lead {
            leader: read_of(e),
            times,
        };
    }
    lead
}

// The one that stands there most often, and of several the one that comes first.
fn leader(alloc: Global, reads: &[Expr]) -> Result<Option<Read>, NoMemory>
    requires { IsTrue (list_all is_read reads.now) }
    ensures { IfOk result (λ leader. IsLeader (times_in reads.now) (option_map expr_of leader)) }
{
    let mut counts = HashMap::new(alloc);
    let mut lead = Lead {
        leader: None,
        times: 0,
    };
    for e in reads {
        let times = count(&mut counts, e)?;
        lead = lead_after(lead, e, times);
    }
    Ok(lead.leader)
}

// What the bindings require to be constants, once for each binding.
fn reads_of_all<C: Guards>(
    alloc: Global,
    guards: &C,
    ordered: &[Binding],
) -> Result<Reads, NoMemory>
    requires own { All (λ b. IsGuard (length (C.tests guards.now)) b.own_guard) ordered.now }
    requires imposed { All (λ b. All (IsGuard (length (C.tests guards.now))) b.imposed) ordered.now }
    ensures { IfOk result
        (λ reads. reads ≡ flat_map (binding_reads (C.tests guards.now)) ordered.now) }
{
    let mut reads = Sequence::new(alloc);
    for binding in ordered {
        let mut more = reads_of(alloc, guards, binding)?;
        reads.append(&mut more)?;
    }
    Ok(reads)
}

// The key of these bindings; `None` where none requires a constant.
pub(crate) fn key_of<C: Guards>(
    alloc: Global,
    guards: &C,
    ordered: &[Binding],
) -> Result<Option<Read>, NoMemory>
    requires own { All (λ b. IsGuard (length (C.tests guards.now)) b.own_guard) ordered.now }
    requires imposed { All (λ b. All (IsGuard (length (C.tests guards.now))) b.imposed) ordered.now }
    ensures { IfOk result (λ key. IsKey (C.tests guards.now) ordered.now (option_map expr_of key)) }
{
    let reads = reads_of_all(alloc, guards, ordered)?;
    leader(alloc, reads.as_slice())
}
