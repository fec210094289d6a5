//! Lines, by their kinds: what the words behind the first say.

ghost use Rattle.std.specs.Prelude.{◌≡◌, ◌<◌, ◌^◌, [], ℕ, length, Ok, Err, IfOk, OnOk, MatchResult};
ghost use Rattle.spin_grammar.specs.Grammar.{reads};
ghost use Rattle.spin_grammar.specs.Lines.{GivesLine, IsInRange};
ghost use Rattle.spin_grammar.specs.Inner.Fronts.{GivesFront};
ghost use Rattle.spin_grammar.specs.declared.kind.Kind.TheVariants as kind;

use crate::act::{read_merge, read_steps};
use crate::cause::Cause;
use crate::fault::Fault;
use crate::kind::Kind;
use crate::limits::{
    LAST_ENDPOINT, LAST_EVENT, LAST_GUARD, LAST_HANDLER, LAST_LANE, LAST_MODULE, MAX_MODULES,
};
use crate::names::{guard_body, handler_body, read_name, read_signature};
use crate::rule::read_rule;
use crate::test::read_test;
use crate::tokens::number_from;
use crate::words::Words;
use crate::work::read_work;
use spin_code::{MAX_DEPTH, Merge, Steplist, Test};
use spin_policy::Rule;
use spin_values::{EventType, Text};
use spin_word::Work;
use std::alloc::Global;

/// What a line says. What is too deep to be kept is `None`.
#[derive(Drop, Debug)]
pub enum Statement {
    /// The number of modules.
    Modules(u16),
    /// An event.
    Event {
        /// Its number.
        number: u8,
        /// Its owner.
        owner: u8,
        /// Its signature.
        sig: EventType,
        /// Its merge, if that isn't too deep.
        merge: Option<Merge>,
    },
    /// An endpoint.
    Endpoint {
        /// Its number.
        number: u8,
        /// Its name.
        name: Text,
    },
    /// A handler.
    Handler {
        /// Its number.
        number: u16,
        /// Its signature.
        sig: EventType,
        /// Its steps, if none is too deep.
        steps: Option<Steplist>,
    },
    /// A native handler.
    NativeHandler {
        /// Its number.
        number: u16,
        /// The native's name.
        name: Text,
    },
    /// A guard.
    Guard {
        /// Its number.
        number: u16,
        /// Its signature.
        sig: EventType,
        /// Its test, if that isn't too deep.
        test: Option<Test>,
    },
    /// A native guard.
    NativeGuard {
        /// Its number.
        number: u16,
        /// The native's name.
        name: Text,
    },
    /// The next rule of an event's policy.
    Rule {
        /// The event.
        event: u8,
        /// The rule.
        rule: Rule,
    },
    /// A native authoriser of an event.
    Authoriser {
        /// The event.
        event: u8,
        /// The native's name.
        name: Text,
    },
    /// An event's first default.
    Default {
        /// The event.
        event: u8,
        /// The handler.
        handler: u16,
    },
    /// A deed of a lane.
    Lane {
        /// The lane.
        lane: u8,
        /// What it asks for.
        work: Work,
    },
    /// The end of a segment.
    Barrier,
    /// An endpoint that is retired, by number.
    Retire(u16),
}

#[tactic(auto, using(crate::proofs::ReadingParts::failing))]
fn modules_line(words: &mut Words) -> Result<Statement, Fault>
    ensures gives { (version : ℕ) → GivesFront version kind.Modules result words.old words.new }
    ensures ranges { IfOk result IsInRange }
{
    Ok(Statement::Modules(number_from(words, 1, MAX_MODULES)? as u16))
}

#[tactic(auto, using(crate::proofs::ReadingParts::failing))]
fn event_line(alloc: Global, words: &mut Words) -> Result<Statement, Fault>
    requires { length words.old < 2 ^ 31 }
    ensures gives { (version : ℕ) → GivesFront version kind.Event result words.old words.new }
    ensures ranges { IfOk result IsInRange }
{
    let number = number_from(words, 0, LAST_EVENT)? as u8;
    let owner = number_from(words, 0, LAST_MODULE)? as u8;
    let sig = read_signature(alloc, words)?;
    let merge = read_merge(alloc, words)?;
    Ok(Statement::Event {
        number,
        owner,
        sig,
        merge,
    })
}

#[tactic(auto, using(crate::proofs::ReadingParts::failing))]
fn endpoint_line(alloc: Global, words: &mut Words) -> Result<Statement, Fault>
    ensures gives { (version : ℕ) → GivesFront version kind.Endpoint result words.old words.new }
    ensures ranges { IfOk result IsInRange }
{
    let number = number_from(words, 0, LAST_ENDPOINT)? as u8;
    let name = read_name(alloc, words)?;
    Ok(Statement::Endpoint { number, name })
}

#[tactic(auto, using(crate::proofs::ReadingParts::failing))]
fn handler_line(alloc: Global, words: &mut Words) -> Result<Statement, Fault>
    requires { length words.old < 2 ^ 31 }
    ensures gives { (version : ℕ) → GivesFront version kind.Handler result words.old words.new }
    ensures ranges { IfOk result IsInRange }
{
    let number = number_from(words, 1, LAST_HANDLER)? as u16;
    match handler_body(alloc, words)? {
        None => {
            let name = read_name(alloc, words)?;
            Ok(Statement::NativeHandler { number, name })
        }
        Some(sig) => {
            let steps = read_steps(alloc, words)?;
            Ok(Statement::Handler { number, sig, steps })
        }
    }
}

#[tactic(auto, using(crate::proofs::ReadingParts::failing))]
fn guard_line(alloc: Global, words: &mut Words) -> Result<Statement, Fault>
    requires { length words.old < 2 ^ 31 }
    ensures gives { (version : ℕ) → GivesFront version kind.Guard result words.old words.new }
    ensures ranges { IfOk result IsInRange }
{
    let number = number_from(words, 1, LAST_GUARD)? as u16;
    match guard_body(alloc, words)? {
        None => {
            let name = read_name(alloc, words)?;
            Ok(Statement::NativeGuard { number, name })
        }
        Some(sig) => {
            let test = read_test(alloc, words, MAX_DEPTH)?;
            Ok(Statement::Guard { number, sig, test })
        }
    }
}

#[tactic(auto, using(crate::proofs::ReadingParts::failing))]
fn rule_line(alloc: Global, words: &mut Words, version: u8) -> Result<Statement, Fault>
    ensures gives { GivesFront version kind.Rule result words.old words.new }
    ensures ranges { IfOk result IsInRange }
{
    let event = number_from(words, 0, LAST_EVENT)? as u8;
    let rule = read_rule(alloc, words, version)?;
    Ok(Statement::Rule { event, rule })
}

#[tactic(auto, using(crate::proofs::ReadingParts::failing))]
fn authoriser_line(alloc: Global, words: &mut Words) -> Result<Statement, Fault>
    ensures gives { (version : ℕ) → GivesFront version kind.Authoriser result words.old words.new }
    ensures ranges { IfOk result IsInRange }
{
    let event = number_from(words, 0, LAST_EVENT)? as u8;
    let name = read_name(alloc, words)?;
    Ok(Statement::Authoriser { event, name })
}

#[tactic(auto, using(crate::proofs::ReadingParts::failing))]
fn default_line(words: &mut Words) -> Result<Statement, Fault>
    ensures gives { (version : ℕ) → GivesFront version kind.Default result words.old words.new }
    ensures ranges { IfOk result IsInRange }
{
    let event = number_from(words, 0, LAST_EVENT)? as u8;
    let handler = number_from(words, 1, LAST_HANDLER)? as u16;
    Ok(Statement::Default { event, handler })
}

#[tactic(auto, using(crate::proofs::ReadingParts::failing))]
fn lane_line(alloc: Global, words: &mut Words, version: u8) -> Result<Statement, Fault>
    ensures gives { GivesFront version kind.Lane result words.old words.new }
    ensures ranges { IfOk result IsInRange }
{
    let lane = number_from(words, 0, LAST_LANE)? as u8;
    let work = read_work(alloc, words, version, lane)?;
    Ok(Statement::Lane { lane, work })
}

#[tactic(auto, using(crate::proofs::ReadingParts::failing))]
fn retire_line(words: &mut Words) -> Result<Statement, Fault>
    ensures gives { (version : ℕ) → GivesFront version kind.Retire result words.old words.new }
    ensures ranges { IfOk result IsInRange }
{
    Ok(Statement::Retire(number_from(words, 0, LAST_ENDPOINT)? as u16))
}

// Reads a line of this kind up to what it has to say.
fn read_front(alloc: Global, words: &mut Words, version: u8, kind: Kind) -> Result<Statement, Fault>
    requires { length words.old < 2 ^ 31 }
    ensures gives { GivesFront version kind result words.old words.new }
    ensures ranges { IfOk result IsInRange }
{
    match kind {
        Kind::Modules => modules_line(words),
        Kind::Event => event_line(alloc, words),
        Kind::Endpoint => endpoint_line(alloc, words),
        Kind::Handler => handler_line(alloc, words),
        Kind::Guard => guard_line(alloc, words),
        Kind::Rule => rule_line(alloc, words, version),
        Kind::Authoriser => authoriser_line(alloc, words),
        Kind::Default => default_line(words),
        Kind::Lane => lane_line(alloc, words, version),
        Kind::Barrier => Ok(Statement::Barrier),
        Kind::Retire => retire_line(words),
    }
}

// The end of a line.
#[tactic(auto, unfolding(crate::specs::Grammar::reads))]
fn finish(words: &mut Words) -> Result<(), Cause>
    ensures reads { MatchResult result (λ _. reads [] words.old ≡ Ok [])
        (λ c. reads [] words.old ≡ Err c) }
    ensures end { OnOk result (words.new ≡ []) }
{
    match words.next() {
        None => Ok(()),
        Some(_) => Err(Cause::End),
    }
}

/// Reads the words behind the first of a line of this kind, in a script of this version.
///
/// The refusal is the cause of the first word that can't stand at its place, or of the line's end. Where the line is
/// read no word is left. It takes time and memory linear in the line, and no stack that grows with it.
pub fn read_line(
    alloc: Global,
    words: &mut Words,
    version: u8,
    kind: Kind,
) -> Result<Statement, Fault>
    requires { length words.old < 2 ^ 31 }
    ensures gives { GivesLine version kind words.old result }
    ensures ranges { IfOk result IsInRange }
    ensures end { OnOk result (words.new ≡ []) }
{
    let said = read_front(alloc, words, version, kind)?;
    match finish(words) {
        Ok(()) => Ok(said),
        Err(cause) => Err(Fault::Bad(cause)),
    }
}
