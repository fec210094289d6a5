//! One rule of a policy: which requests it speaks of, and what it decides.

ghost use Rattle.std.specs.Prelude.{◌≡◌};
ghost use Rattle.spin_policy.specs.Imposed.{effect_guards, effect_place, effect_apart};
ghost use Rattle.spin_policy.specs.Verdicts.{is_of_op, is_of_handler, is_own, matches, rule_answer, has_wrong_guards};

use spin_values::Numbers;
use spin_word::Op;

/// The greatest number of guards that a rule may impose.
pub const MAX_GUARDS: usize = 4;

/// The place that a rule forces on a binding.
#[derive(Clone, Copy, PartialEq, Eq, Debug)]
pub enum Forced {
    /// The place that the command asks for.
    Keep,
    /// Before all bindings that aren't first.
    First,
    /// After all bindings that aren't last.
    Last,
}

/// The ops that a rule speaks of.
#[derive(Clone, Copy, PartialEq, Eq, Debug)]
pub enum OpMatch {
    /// Every op.
    Any,
    /// This op alone.
    One(Op),
}

impl OpMatch {
    fn is_met(self, op: Op) -> bool
        ensures { result ≡ is_of_op self op }
    {
        match self {
            OpMatch::Any => true,
            OpMatch::One(wanted) => wanted as u8 == op as u8,
        }
    }
}

/// What a rule decides.
#[derive(PartialEq, Drop, Debug)]
pub enum Effect {
    /// The request is allowed.
    Allow,
    /// The request is denied.
    Deny,
    /// An install is denied where the requester has this many live bindings of the event or more; every other
    /// request is allowed.
    Quota(u16),
    /// An install or a replace is allowed with these guards beside its own; every other request is allowed.
    Impose(Numbers),
    /// An install or a replace is allowed with these guards beside its own, an install moreover at this place
    /// and, where `apart` is set, asynchronously; every other request is allowed.
    Force {
        /// The guards beside its own, by number; there may be none.
        guards: Numbers,
        /// The place of an installed binding.
        place: Forced,
        /// Whether an installed binding runs asynchronously.
        apart: bool,
    },
}

impl Effect {
    /// The guards that it imposes beside a binding's own.
    pub fn guards(&self) -> &[u16]
        ensures { result.now ≡ effect_guards self.now }
    {
        match self {
            Effect::Impose(guards) => guards.as_slice(),
            Effect::Force { guards, .. } => guards.as_slice(),
            _ => &[],
        }
    }

    /// The place that it forces on a binding.
    pub fn place(&self) -> Forced
        ensures { result ≡ effect_place self.now }
    {
        match self {
            Effect::Force { place, .. } => *place,
            _ => Forced::Keep,
        }
    }

    /// Whether it forces asynchronous running.
    pub fn is_apart(&self) -> bool
        ensures { result ≡ effect_apart self.now }
    {
        match self {
            Effect::Force { apart, .. } => *apart,
            _ => false,
        }
    }

    // Whether it imposes more guards than [`MAX_GUARDS`], or is an [`Effect::Impose`] of none.
    pub(crate) fn has_wrong_guards(&self) -> bool
        ensures { result ≡ has_wrong_guards self.now }
    {
        match self {
            Effect::Impose(guards) => guards.is_empty() || guards.len() > MAX_GUARDS,
            Effect::Force { guards, .. } => guards.len() > MAX_GUARDS,
            _ => false,
        }
    }
}

/// A rule of a policy. It matches a request where each of its conditions is met.
#[derive(PartialEq, Drop, Debug)]
pub struct Rule {
    /// The least requester that it speaks of.
    pub low: u8,
    /// The greatest requester that it speaks of.
    pub high: u8,
    /// The ops that it speaks of.
    pub op: OpMatch,
    /// The one handler that it speaks of, if it doesn't speak of all.
    pub handler: Option<u16>,
    /// Whether it speaks only of a requester's own bindings: of a request that changes a binding, only where the
    /// requester installed it.
    pub own_only: bool,
    /// What it decides.
    pub effect: Effect,
}

/// What a module asks of an event that another module owns.
#[derive(Clone, Copy, PartialEq, Eq, Debug)]
pub struct Request {
    /// What is to be done.
    pub op: Op,
    /// The module that asks.
    pub requester: u8,
    /// The handler that the op uses, 0 where it uses none.
    pub handler: u16,
    /// The module that installed the binding to be removed or replaced; none for every other op.
    pub target_owner: Option<u8>,
    /// How many live bindings of the event the requester has.
    pub live: u16,
}

/// The answer to a request. It names the rule that decided by its number, counted from 1.
#[derive(Clone, Copy, PartialEq, Eq, Debug)]
pub enum Verdict {
    /// The request is allowed as it is.
    Allow,
    /// It is allowed with the guards of this rule.
    Impose(u8),
    /// It is allowed with the guards, the place and the mode of this rule.
    Force(u8),
    /// It is denied by this rule, or by none where the number is 0.
    Deny(u8),
}

fn is_met(wanted: Option<u16>, handler: u16) -> bool
    ensures { result ≡ is_of_handler wanted handler }
{
    match wanted {
        None => true,
        Some(wanted) => wanted == handler,
    }
}

fn is_requesters(target_owner: Option<u8>, requester: u8) -> bool
    ensures { result ≡ is_own target_owner requester }
{
    match target_owner {
        None => true,
        Some(owner) => owner == requester,
    }
}

impl Rule {
    // Whether the rule speaks of the request.
    pub(crate) fn matches(&self, request: &Request) -> bool
        ensures { result ≡ matches self.now request.now }
    {
        self.low <= request.requester
            && request.requester <= self.high
            && self.op.is_met(request.op)
            && is_met(self.handler, request.handler)
            && (!self.own_only || is_requesters(request.target_owner, request.requester))
    }

    // What the rule decides, under its number.
    pub(crate) fn answer(&self, number: u8, request: &Request) -> Verdict
        ensures { result ≡ rule_answer self.now.effect number request.now }
    {
        match (&self.effect, request.op) {
            (Effect::Deny, _) => Verdict::Deny(number),
            (Effect::Quota(most), Op::Install) if request.live >= *most => Verdict::Deny(number),
            (Effect::Impose(_), Op::Install | Op::Replace) => Verdict::Impose(number),
            (Effect::Force { .. }, Op::Install | Op::Replace) => Verdict::Force(number),
            _ => Verdict::Allow,
        }
    }
}
