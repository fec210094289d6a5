//! What tests require, and plans that are asked over guards that count how often they are asked.
//!
//! - `required TEST EXPRESSION`: the one value that the expression has wherever the test holds. A test is `true`, or
//!   `==`, `!=`, `<` or `<=` and two expressions; or `both` or `either` and two of these;
//! - `next GUARDS BINDINGS ARGUMENTS FROM`: the number of the first binding from that position on whose guards hold, and
//!   how often a guard was asked for it. Guards are `==NUMBER` or `<NUMBER`, with commas between them, and compare
//!   argument 0; bindings are `NUMBER:GUARD:IMPOSED`, with commas between them, 0 being no guard.

ghost use Rattle.std.specs.Prelude.{◌≡◌, ◌<◌, ◌≤◌, ◌^◌, length, IfOk, IsTrue};
ghost use Rattle.std.specs.List.{All};
ghost use Rattle.spin_plan.specs.Next.{IsGuard};

use crate::expressions::expr;
use crate::fault::Fault;
use crate::told::tell;
use crate::words::{Words, number};
use spin_code::{Cmp, Expr, Guards, Sincere, Test, holds, required};
use spin_place::Binding;
use spin_plan::Plan;
use spin_values::{Args, Numbers, Sequence, Steps};
use spin_word::{Mode, NO_BINDINGS, Place};
use std::alloc::Global;
use std::marker::Brand;
use std::sync::atomic::{AtomicU64, Ordering};
use std::sync::ledger::{Blank, Ledger};

// What is asked.
#[derive(Clone, Copy)]
enum Kind {
    Required,
    Next,
}

const KINDS: [(&str, Kind); 2] = [("required", Kind::Required), ("next", Kind::Next)];

pub(crate) fn answer(alloc: Global, words: &mut Words, out: &mut String) -> Result<(), Fault> {
    match words.one_of(&KINDS)? {
        Kind::Required => tell(out, &required(&test(alloc, words)?, &expr(words)?)),
        Kind::Next => next(alloc, words, out),
    }
}

// How a test begins.
#[derive(Clone, Copy)]
enum Head {
    True,
    Compare(Cmp),
    Both,
    Either,
}

const HEADS: [(&str, Head); 7] = [
    ("true", Head::True),
    ("==", Head::Compare(Cmp::Eq)),
    ("!=", Head::Compare(Cmp::Ne)),
    ("<", Head::Compare(Cmp::Lt)),
    ("<=", Head::Compare(Cmp::Le)),
    ("both", Head::Both),
    ("either", Head::Either),
];

// A test without parts that are tests.
fn simple_test(words: &mut Words) -> Result<Test, Fault> {
    match words.one_of(&HEADS)? {
        Head::True => Ok(Test::True),
        Head::Compare(cmp) => Ok(Test::Compare(cmp, expr(words)?, expr(words)?)),
        Head::Both | Head::Either => Err(Fault::BadRow),
    }
}

// Two tests without parts that are tests.
fn two_tests(alloc: Global, words: &mut Words) -> Result<(Box<Test>, Box<Test>), Fault> {
    let first = Box::new(alloc, simple_test(words)?)?;
    let second = Box::new(alloc, simple_test(words)?)?;
    Ok((first, second))
}

fn test(alloc: Global, words: &mut Words) -> Result<Test, Fault> {
    match words.one_of(&HEADS)? {
        Head::True => Ok(Test::True),
        Head::Compare(cmp) => Ok(Test::Compare(cmp, expr(words)?, expr(words)?)),
        Head::Both => {
            let (first, second) = two_tests(alloc, words)?;
            Ok(Test::All(first, second))
        }
        Head::Either => {
            let (first, second) = two_tests(alloc, words)?;
            Ok(Test::Any(first, second))
        }
    }
}

// Guards that count how often they are asked.
#[derive(Drop)]
struct CountingGuards {
    tests: Sequence<Test>,
    asked: AtomicU64,
    ghost few: { length tests < 2 ^ 16 },
}

impl Sincere for CountingGuards {
    ghost sincere = { λ _. Unit {0} };
}

impl Guards for CountingGuards {
    ghost tests = { λ g. g.tests };

    ghost counts = { λ _ _. Unit {0} };

    fn count(&self) -> u16 {
        self.tests.len() as u16
    }

    fn test_of(&self, guard: u16) -> &Test {
        self.tests.get(guard as usize - 1)
    }

    fn admits<L: Ledger>(&self, guard: u16, args: &Args, steps: &mut Steps<L>) -> bool {
        self.asked.fetch_add(1, Ordering::SeqCst);
        holds(self.test_of(guard), args, steps)
    }
}

// The guard that a word is.
fn guard(word: &str) -> Result<Test, Fault> {
    let (cmp, behind) = match word.strip_prefix("==") {
        Some(behind) => (Cmp::Eq, behind),
        None => (Cmp::Lt, word.strip_prefix('<').ok_or(Fault::BadRow)?),
    };
    Ok(Test::Compare(cmp, Expr::Arg(0), Expr::Const(number(behind)?)))
}

fn guards_of(alloc: Global, word: &str) -> Result<CountingGuards, Fault> {
    let mut tests = Sequence::new(alloc);
    for item in word.split(',') {
        tests.push(guard(item)?)?;
    }
    if tests.len() > 64 {
        return Err(Fault::BadRow);
    }
    Ok(CountingGuards {
        tests,
        asked: AtomicU64::new(0),
    })
}

/// A binding of handler 1 with this number, own guard and imposed guard, 0 being none.
fn binding(alloc: Global, item: &str) -> Result<Binding, Fault> {
    let mut parts = Words::parts(item);
    let (number, own_guard, guard) = (parts.u16()?, parts.u16()?, parts.u16()?);
    let mut imposed = Numbers::new(alloc);
    if guard != 0 {
        imposed.push(guard)?;
    }
    Ok(Binding {
        number,
        requester: 3,
        handler: 1,
        own_guard,
        imposed,
        place: Place::Free,
        before: NO_BINDINGS,
        after: NO_BINDINGS,
        mode: Mode::Plain,
    })
}

fn bindings_of(alloc: Global, word: &str) -> Result<Sequence<Binding>, Fault> {
    let mut bindings = Sequence::new(alloc);
    for item in word.split(',') {
        bindings.push(binding(alloc, item)?)?;
    }
    Ok(bindings)
}

// Whether the guard is there, or is none.
fn is_guard(guard: u16, count: u16) -> bool
    ensures { IsTrue result → IsGuard count guard }
{
    guard <= count
}

fn are_guards(guards: &[u16], count: u16) -> bool
    ensures { IsTrue result → All (IsGuard count) guards.now }
{
    for guard in guards {
        if !is_guard(*guard, count) {
            return false;
        }
    }
    true
}

fn is_guarded(binding: &Binding, count: u16) -> bool
    ensures own { IsTrue result → IsGuard count binding.now.own_guard }
    ensures imposed { IsTrue result → All (IsGuard count) binding.now.imposed }
{
    is_guard(binding.own_guard, count) && are_guards(binding.imposed.as_slice(), count)
}

// Whether the guards of the bindings are there.
fn are_guarded(bindings: &[Binding], count: u16) -> bool
    ensures own { IsTrue result → All (λ b. IsGuard count b.own_guard) bindings.now }
    ensures imposed { IsTrue result → All (λ b. All (IsGuard count) b.imposed) bindings.now }
{
    for binding in bindings {
        if !is_guarded(binding, count) {
            return false;
        }
    }
    true
}

// The number of the next binding of the plan of these.
fn next_of<L: Ledger>(
    alloc: Global,
    bindings: &[Binding],
    guards: &CountingGuards,
    from: u32,
    args: &Args,
    blank: Blank,
) -> Result<Option<u16>, Fault>
    requires name { blank.name ≡ L.name }
    requires parts { blank.parts ≡ L.parts }
    requires some { 0 < L.parts }
{
    if bindings.len() > 64 || !are_guarded(bindings, guards.count()) {
        return Err(Fault::BadRow);
    }
    let mut steps = Steps::<L>::new(blank);
    let plan = Plan::compile(alloc, bindings, guards, &mut steps)?;
    match plan.next(from, args, guards, &mut steps) {
        Some(at) => Ok(Some(plan.number(at))),
        None => Ok(None),
    }
}

fn next(alloc: Global, words: &mut Words, out: &mut String) -> Result<(), Fault> {
    let guards = guards_of(alloc, words.word()?)?;
    let bindings = bindings_of(alloc, words.word()?)?;
    asked(alloc, bindings.as_slice(), &guards, words, out)
}

// Asks the plan of the bindings, and tells the answer.
fn asked(
    alloc: Global,
    bindings: &[Binding],
    guards: &CountingGuards,
    words: &mut Words,
    out: &mut String,
) -> Result<(), Fault> {
    let args = words.args(alloc)?;
    let from = words.u32()?;
    let next = next_of::<Brand>(alloc, bindings, guards, from, &args, Blank::new(1))?;
    tell(out, &next)?;
    tell(out, &guards.asked.load(Ordering::SeqCst))
}
