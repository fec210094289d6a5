//! The lines of rules and authorisers.

ghost use Rattle.std.specs.Prelude.{◌≡◌, ◌++◌, ◌∷◌, [], map, IsTrue, OnOk};
ghost use Rattle.std.specs.List.{flat_map, enumerate_from};
ghost use Rattle.spin_objects.specs.Units.{policies_of};
ghost use Rattle.spin_table.specs.Setups.{has_authority};
ghost use Rattle.spin_table.specs.SetupOf.{data_of};
ghost use Rattle.spin_grammar.specs.Forms.{op_word, op_match_word, own_word, forced_word, apart_word};
ghost use Rattle.spin_grammar.specs.Forms.{counted_form, handler_or_any, effect_form, rule_form};
ghost use Rattle.spin_grammar.specs.Lines as said;
ghost use Rattle.spin_script.specs.States.{natives_seen};
ghost use Rattle.spin_script.specs.Canonical.{spoken, line_text, text_of_lines, authority_lines};

use crate::write::words::put_name;
use spin_objects::{NativeKind, Natives};
use spin_policy::{Effect, Forced, OpMatch, Rule};
use spin_table::{Authority, Setup};
use spin_text::{end_line, put_number, put_numbers, put_word};
use spin_values::{NoMemory, Octets, Text};
use spin_word::Op;

/// The word by which scripts and reports tell what a command does.
pub fn op_word(op: Op) -> &'static [u8]
    ensures { result.now ≡ op_word op }
{
    match op {
        Op::Install => b"install",
        Op::Remove => b"remove",
        Op::Replace => b"replace",
        Op::Default => b"default",
        Op::NoDefault => b"nodefault",
    }
}

fn op_match_word(op: OpMatch) -> &'static [u8]
    ensures { result.now ≡ op_match_word op }
{
    match op {
        OpMatch::Any => b"any",
        OpMatch::One(op) => op_word(op),
    }
}

fn own_word(own_only: bool) -> &'static [u8]
    ensures { result.now ≡ own_word own_only }
{
    if own_only { b"own" } else { b"all" }
}

fn forced_word(place: Forced) -> &'static [u8]
    ensures { result.now ≡ forced_word place }
{
    match place {
        Forced::Keep => b"keep",
        Forced::First => b"first",
        Forced::Last => b"last",
    }
}

fn apart_word(apart: bool) -> &'static [u8]
    ensures { result.now ≡ apart_word apart }
{
    if apart { b"async" } else { b"keep" }
}

// Appends numbers behind their count.
pub(super) fn put_counted(out: &mut Octets, numbers: &[u16]) -> Result<(), NoMemory>
    ensures { OnOk result (out.new ≡ out.old ++ spoken (counted_form numbers.now)) }
{
    put_number(out, numbers.len() as u64)?;
    put_numbers(out, numbers)
}

fn put_handler_or_any(out: &mut Octets, handler: Option<u16>) -> Result<(), NoMemory>
    ensures { OnOk result (out.new ≡ out.old ++ spoken (handler_or_any handler ∷ [])) }
{
    match handler {
        None => put_word(out, b"any"),
        Some(handler) => put_number(out, u64::from(handler)),
    }
}

fn put_effect(out: &mut Octets, effect: &Effect) -> Result<(), NoMemory>
    ensures { OnOk result (out.new ≡ out.old ++ spoken (effect_form effect.now)) }
{
    match effect {
        Effect::Allow => put_word(out, b"allow"),
        Effect::Deny => put_word(out, b"deny"),
        Effect::Quota(most) => {
            put_word(out, b"quota")?;
            put_number(out, u64::from(*most))
        }
        Effect::Impose(guards) => {
            put_word(out, b"impose")?;
            put_counted(out, guards.as_slice())
        }
        Effect::Force {
            guards,
            place,
            apart,
        } => {
            put_word(out, b"force")?;
            put_counted(out, guards.as_slice())?;
            put_word(out, forced_word(*place))?;
            put_word(out, apart_word(*apart))
        }
    }
}

fn put_rule_words(out: &mut Octets, rule: &Rule) -> Result<(), NoMemory>
    ensures { OnOk result (out.new ≡ out.old ++ spoken (rule_form rule.now)) }
{
    put_number(out, u64::from(rule.low))?;
    put_number(out, u64::from(rule.high))?;
    put_word(out, op_match_word(rule.op))?;
    put_handler_or_any(out, rule.handler)?;
    put_word(out, own_word(rule.own_only))?;
    put_effect(out, &rule.effect)
}

fn put_rule(out: &mut Octets, event: u8, rule: &Rule) -> Result<(), NoMemory>
    ensures { OnOk result (out.new ≡ out.old ++ line_text (said.Rules event rule.now)) }
{
    out.extend_from_slice(b"rule")?;
    put_number(out, u64::from(event))?;
    put_rule_words(out, rule)?;
    end_line(out)
}

fn put_rules(out: &mut Octets, event: u8, rules: &[Rule]) -> Result<(), NoMemory>
    ensures { OnOk result (out.new ≡ out.old ++ text_of_lines (map (said.Rules event) rules.now)) }
{
    for rule in rules {
        put_rule(out, event, rule)?;
    }
    Ok(())
}

fn put_authoriser(out: &mut Octets, event: u8, name: &Text) -> Result<(), NoMemory>
    ensures { OnOk result (out.new ≡ out.old ++ line_text (said.Authoriser event name.now)) }
{
    out.extend_from_slice(b"authoriser")?;
    put_number(out, u64::from(event))?;
    put_name(out, name)?;
    end_line(out)
}

// Appends the lines of who answers for the owner of an event.
fn put_authority(
    out: &mut Octets,
    event: u8,
    natives: &Natives,
    authority: &Authority,
) -> Result<(), NoMemory>
    requires { IsTrue (has_authority (policies_of natives.now) authority.now) }
    ensures { OnOk result (out.new ≡ out.old
        ++ text_of_lines (authority_lines (natives_seen natives.now) event authority.now)) }
{
    match authority {
        Authority::Rules(policy) => put_rules(out, event, policy.as_slice()),
        Authority::Native(native) => {
            let name = natives.name_of(NativeKind::Authoriser, *native);
            put_authoriser(out, event, name)
        }
    }
}

// Appends the lines of who answers for the owners of all events.
pub(super) fn put_authorities(out: &mut Octets, setup: &Setup) -> Result<(), NoMemory>
    ensures { OnOk result (out.new ≡ out.old
        ++ text_of_lines (flat_map (λ p.
        authority_lines (natives_seen setup.now.catalogue.natives) p.0 p.1.authority)
        (enumerate_from 0 (data_of setup.now).events))) }
{
    for event in 0..setup.events() {
        let def = setup.event(event);
        put_authority(out, event, setup.catalogue().natives(), &def.authority)?;
    }
    Ok(())
}
