//! Why no setup is made, which no script comes to: what would be wrong with a setup is wrong with a line before.
//!
//! - `build MODULES LIVE KIND OWNER MERGED DEFAULT GUARD UP`: why there is no setup of one event. Its parameter is a
//!   `word` or `bytes`; argument MERGED is merged; DEFAULT is its first default; its one rule imposes GUARD, or it has
//!   none where that is 0. There are one handler of a word and one guard of bytes, and the handler raises event UP with
//!   nothing where that is no more than 63;
//! - `native NUMBER`: what is answered where this native is added as a guard, and there is none;
//! - `imposes LIST`: what is answered to a rule that imposes these guards.

ghost use Rattle.std.specs.Prelude.{IfOk};

use crate::fault::Fault;
use crate::told::{tell, tell_word};
use crate::words::Words;
use spin_code::{Act, ActStep, Expr, Merge, Parts, Sincere, Steplist, Test};
use spin_objects::{Body, Catalogue, Check, Natives};
use spin_policy::{Effect, OpMatch, Policy, Rule};
use spin_table::{Authority, EventDef, EventList, Setup};
use spin_values::{EventType, Kind, Numbers, Param, Params};
use std::alloc::Global;

// What is tried.
#[derive(Clone, Copy)]
enum Tried {
    Build,
    Native,
    Imposes,
}

const ALL_TRIED: [(&str, Tried); 3] = [
    ("build", Tried::Build),
    ("native", Tried::Native),
    ("imposes", Tried::Imposes),
];

pub(crate) fn answer(alloc: Global, words: &mut Words, out: &mut String) -> Result<(), Fault> {
    match words.one_of(&ALL_TRIED)? {
        Tried::Build => build(alloc, words, out),
        Tried::Native => add_native(alloc, words.u16()?, out),
        Tried::Imposes => add_rule(alloc, words.numbers(alloc)?, out),
    }
}

// The signature of one parameter.
fn sig(alloc: Global, kind: Kind) -> Result<EventType, Fault> {
    let mut params = Params::new(alloc);
    params.push(Param { kind, var: false })?;
    Ok(EventType {
        params,
        gives: false,
    })
}

// A handler of a word, which raises this event with nothing where it is no more than 63.
fn handler(alloc: Global, event: u8) -> Result<Body, Fault> {
    let mut steps = Steplist::new(alloc);
    if event <= 63 {
        let parts = Parts::new(alloc);
        steps.push(ActStep::Up { event, parts })?;
    }
    Ok(Body::Coded(sig(alloc, Kind::Word)?, Act { steps }))
}

// One handler of a word and one guard of bytes.
fn units(alloc: Global, natives: Natives, up: u8) -> Result<Catalogue, Fault>
    requires { ⟦<Natives as Sincere>⟧.sincere natives }
    ensures { IfOk result (λ catalogue. ⟦<Catalogue as Sincere>⟧.sincere catalogue) }
{
    let mut catalogue = Catalogue::new(alloc, natives);
    catalogue
        .add_handler(handler(alloc, up)?)
        .or(Err(Fault::BadRow))?;
    catalogue
        .add_guard(Check::Coded(sig(alloc, Kind::Bytes)?, Test::True))
        .or(Err(Fault::BadRow))?;
    Ok(catalogue)
}

// The rule that imposes these guards on all.
fn imposes(guards: Numbers) -> Rule {
    Rule {
        low: 0,
        high: 255,
        op: OpMatch::Any,
        handler: None,
        own_only: false,
        effect: Effect::Impose(guards),
    }
}

// The policy of one rule, which imposes this guard; of none where it is 0.
fn policy(alloc: Global, guard: u16) -> Result<Policy, Fault> {
    let mut policy = Policy::new(alloc);
    if guard != 0 {
        policy
            .push(imposes(Numbers::from_slice(alloc, &[guard])?))
            .or(Err(Fault::BadRow))?;
    }
    Ok(policy)
}

const KINDS: [(&str, Kind); 2] = [("word", Kind::Word), ("bytes", Kind::Bytes)];

// The one event of the setup.
fn events(alloc: Global, words: &mut Words) -> Result<EventList, Fault> {
    let kind = words.one_of(&KINDS)?;
    let (owner, merged) = (words.u8()?, words.u8()?);
    let (first_default, guard) = (words.u16()?, words.u16()?);
    let event = EventDef {
        sig: sig(alloc, kind)?,
        owner,
        merge: Merge::Fold(Expr::Arg(merged)),
        first_default,
        authority: Authority::Rules(policy(alloc, guard)?),
    };
    Ok(EventList::from_vec(vec![in alloc; event]?))
}

fn build(alloc: Global, words: &mut Words, out: &mut String) -> Result<(), Fault> {
    let (modules, live) = (words.u16()?, words.u16()?);
    let events = events(alloc, words)?;
    let units = units(alloc, Natives::new(alloc), words.u8()?)?;
    match Setup::build(modules, live, events, units) {
        Ok(_) => tell_word(out, "built"),
        Err(fault) => tell(out, &fault),
    }
}

fn add_native(alloc: Global, native: u16, out: &mut String) -> Result<(), Fault> {
    let mut catalogue = Catalogue::new(alloc, Natives::new(alloc));
    tell(out, &catalogue.add_guard(Check::Native(native)))
}

fn add_rule(alloc: Global, guards: Numbers, out: &mut String) -> Result<(), Fault> {
    let mut policy = Policy::new(alloc);
    tell(out, &policy.push(imposes(guards)))
}
