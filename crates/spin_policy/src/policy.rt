//! Lists of rules, and their answer.

ghost use Rattle.std.specs.Prelude.{◌≡◌, ◌<◌, ◌≤◌, ◌++◌, ◌-◌, [], ◌∷◌, length, slice_get};
ghost use Rattle.std.specs.Prelude.{Some, Err, OnOk, OnErr, IfErr, MatchOption, position};
ghost use Rattle.spin_policy.specs.Verdicts.{matches, verdict_of, push_fault};
ghost use Rattle.std.specs.Option.{option_copied, option_map_or};
ghost use Rattle.spin_values.specs.First.{numbered};
ghost use Rattle.spin_policy.specs.Imposed.{allowing_effect, imposed_guards, forced_place, forces_apart};

use crate::rule::{Effect, Forced, Request, Rule, Verdict};
use spin_values::{NoMemory, Sequence};
use std::alloc::Global;
use std::marker::Model;
use thiserror::Error;

/// The greatest number of rules of a policy.
pub const MAX_RULES: usize = 16;

/// Why a rule isn't added.
#[derive(Clone, Copy, PartialEq, Eq, Debug, Error)]
pub enum PolicyFault {
    /// The policy has [`MAX_RULES`] rules.
    #[error("the policy has all the rules it may have")]
    TooMany,
    /// The rule imposes too many guards, or it imposes and has none.
    #[error("the rule imposes too many guards, or none")]
    TooManyGuards,
    /// There was no memory for the rule.
    #[error("out of memory")]
    NoMemory,
}

impl From<NoMemory> for PolicyFault {
    ghost use Rattle.spin_policy.specs.declared.policy.PolicyFault.TheVariants as fault;

    ghost from_gives = { λ _ e. e ≡ fault.NoMemory };

    fn from(_: NoMemory) -> PolicyFault {
        PolicyFault::NoMemory
    }
}

/// Rules in order, numbered from 1, at most [`MAX_RULES`]. Contracts see the list of them.
#[derive(Drop, Debug)]
pub struct Policy {
    rules: Sequence<Rule>,
}

impl Model for Policy {
    ghost use Rattle.std.specs.Prelude.{List, length, ◌≤◌};
    ghost use Rattle.spin_policy.specs.declared.rule.Rule.{Rule};
    ghost use Rattle.spin_policy.specs.declared.policy.TheConstants.{MAX_RULES};

    ghost Value = { List Rule };

    ghost view = { λ p. p.rules };

    ghost invariant = { λ p. length p.rules ≤ MAX_RULES };
}

impl Policy {
    /// No rule.
    pub fn new(alloc: Global) -> Policy
        ensures { result ≡ [] }
    {
        Policy {
            rules: Sequence::new(alloc),
        }
    }

    /// Adds the rule at the end.
    ///
    /// The answer is [`PolicyFault::TooMany`] exactly at [`MAX_RULES`] rules, and else
    /// [`PolicyFault::TooManyGuards`] exactly where an `Impose` has no guard or more than
    /// [`MAX_GUARDS`](crate::MAX_GUARDS), or a `Force` has more. After a refusal the policy is unchanged.
    pub fn push(&mut self, rule: Rule) -> Result<(), PolicyFault>
        ensures ok { OnOk result (self.new ≡ self.old ++ rule ∷ []) }
        ensures err { OnErr result (self.new ≡ self.old) }
        ensures fault { MatchOption (push_fault self.old rule)
            (IfErr result (λ fault. fault ≡ PolicyFault.NoMemory))
            (λ fault. result ≡ Err fault) }
    {
        if self.rules.len() >= MAX_RULES {
            return Err(PolicyFault::TooMany);
        }
        if rule.effect.has_wrong_guards() {
            return Err(PolicyFault::TooManyGuards);
        }
        self.rules.push(rule)?;
        Ok(())
    }

    /// The number of rules.
    pub fn len(&self) -> u8
        ensures len { result ≡ length self.now }
        ensures few { result ≤ MAX_RULES }
    {
        self.rules.len() as u8
    }

    /// The rule of a number that is there, counted from 1.
    pub fn rule(&self, number: u8) -> &Rule
        requires first { 0 < number }
        requires last { number ≤ length self.now }
        ensures { slice_get self.now (number - 1) ≡ Some result.now }
    {
        self.rules.get(number as usize - 1)
    }

    /// All rules in order.
    pub fn as_slice(&self) -> &[Rule]
        ensures { result.now ≡ self.now }
    {
        self.rules.as_slice()
    }

    /// The guards that come with a verdict of this policy, beside the binding's own. It takes no memory.
    pub fn imposed(&self, verdict: Verdict) -> &[u16]
        ensures { result.now ≡ imposed_guards self.now verdict }
    {
        match self.allowing_rule(verdict) {
            Some(rule) => rule.effect.guards(),
            None => &[],
        }
    }

    /// The place that comes with a verdict of this policy. It takes no memory.
    pub fn forced(&self, verdict: Verdict) -> Forced
        ensures { result ≡ forced_place self.now verdict }
    {
        match self.allowing_rule(verdict) {
            Some(rule) => rule.effect.place(),
            None => Forced::Keep,
        }
    }

    /// Whether a verdict of this policy forces asynchronous running. It takes no memory.
    pub fn runs_apart(&self, verdict: Verdict) -> bool
        ensures { result ≡ forces_apart self.now verdict }
    {
        match self.allowing_rule(verdict) {
            Some(rule) => rule.effect.is_apart(),
            None => false,
        }
    }

    // The rule that allows with something, by this verdict.
    fn allowing_rule(&self, verdict: Verdict) -> Option<&Rule>
        ensures { option_map_or (λ rule. rule.now.effect) result Effect.Allow
            ≡ allowing_effect self.now verdict }
    {
        match verdict {
            Verdict::Impose(number) | Verdict::Force(number) => self.numbered(number),
            Verdict::Allow | Verdict::Deny(_) => None,
        }
    }

    // The rule of that number, counted from 1, if it is there.
    fn numbered(&self, number: u8) -> Option<&Rule>
        ensures { option_copied result ≡ numbered self.now number }
    {
        if number == 0 || number > self.len() {
            return None;
        }
        Some(self.rule(number))
    }

    // The place of the first rule that matches.
    fn first_match(&self, request: &Request) -> Option<usize>
        ensures { result ≡ position (λ rule. matches rule request.now) self.now }
    {
        self.rules.iter().position(|rule| rule.matches(request))
    }
}

/// The answer of the first rule that matches, and [`Verdict::Deny`] of 0 where none does. It takes no memory.
pub fn judge(policy: &Policy, request: &Request) -> Verdict
    ensures { result ≡ verdict_of policy.now request.now }
{
    match policy.first_match(request) {
        None => Verdict::Deny(0),
        Some(at) => policy.rules.get(at).answer(at as u8 + 1, request),
    }
}
