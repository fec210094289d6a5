//! What the bindings of an event say of each other by their numbers, as a list.

ghost use Rattle.std.specs.Prelude.{◌≡◌, ◌+◌, ℕ, IfOk, count_by, sum_by};
ghost use Rattle.std.specs.List.Sorted.{IsNonDecreasingBy};
ghost use Rattle.spin_place.specs.Inner.Links.{names_other, said, times_linked, times_led};

use crate::binding::Binding;
use spin_values::NoMemory;
use spin_word::NO_BINDING;
use std::alloc::Global;

// That the binding of one number goes before that of another.
#[derive(Clone, Copy)]
pub(crate) struct Link {
    pub(crate) earlier: u16,
    pub(crate) later: u16,
}

// Whether what a binding of the first number names is a binding, and not itself.
fn names_other(number: u16, named: u16) -> bool
    ensures { result ≡ names_other number named }
{
    named != NO_BINDING && named != number
}

// Adds a link for each number that the binding names.
fn add_links(links: &mut Vec<Link>, binding: &Binding) -> Result<(), NoMemory>
    ensures { IfOk result (λ _. (m n : ℕ) →
        times_linked links.new.items m n ≡ times_linked links.old.items m n + said m n binding.now) }
{
    for named in &binding.before {
        if names_other(binding.number, *named) {
            links.push(Link {
                earlier: binding.number,
                later: *named,
            })?;
        }
    }
    for named in &binding.after {
        if names_other(binding.number, *named) {
            links.push(Link {
                earlier: *named,
                later: binding.number,
            })?;
        }
    }
    Ok(())
}

// A link for each number that a binding names, in the order of the earlier ones.
pub(crate) fn links(alloc: Global, bindings: &[Binding]) -> Result<Vec<Link>, NoMemory>
    ensures linked { IfOk result (λ links. (m n : ℕ) →
        times_linked links.items m n ≡ sum_by (said m n) bindings.now) }
    ensures sorted { IfOk result (λ links. IsNonDecreasingBy (λ l. l.earlier) links.items) }
{
    let mut links = Vec::new(alloc);
    for binding in bindings {
        add_links(&mut links, binding)?;
    }
    links.sort_unstable_by_key(|link| link.earlier);
    Ok(links)
}

// The links from this number. It takes two binary searches.
pub(crate) fn links_from(links: &[Link], number: u16) -> &[Link]
    requires { IsNonDecreasingBy (λ l. l.earlier) links.now }
    ensures { (n : ℕ) → times_led result.now n ≡ times_linked links.now number n }
{
    let start = links.partition_point(|link| link.earlier < number);
    let rest = &links[start..];
    let size = rest.partition_point(|link| link.earlier <= number);
    &rest[..size]
}
