//! The natives that the program hands in, and what each is declared as.

ghost use Rattle.std.specs.Prelude.{◌≡◌, [], None, Ok, IfOk, OnOk};
ghost use Rattle.spin_objects.specs.Adding.{IsNativeBy};
ghost use Rattle.spin_objects.specs.Units.{native_handlers, native_guards, native_authorisers};
ghost use Rattle.spin_script.specs.States.{natives_seen};
ghost use Rattle.spin_natives.specs.Natives as specs;

use spin_code::{Act, ActStep, Cmp, Expr, Sincere, Steplist, Test, value};
use spin_objects::{Guard, Handler, NativeFault, Natives, Outcome, run_act};
use spin_policy::{Authoriser, Effect, OpMatch, Policy, Request, Rule, Verdict, judge};
use spin_values::{Args, EventType, Kind, NoMemory, Param, Params, Text};
use std::alloc::Global;

/// Does this act.
#[derive(Drop)]
pub struct Doer {
    act: Act,
}

impl Handler for Doer {
    ghost does = { λ o. o.act };

    fn run(&self, alloc: Global, args: &mut Args, out: &mut Outcome) -> Result<(), NoMemory> {
        run_act(alloc, &self.act, args, out)
    }
}

/// Admits frames of Ethernet that say that they hold an IPv4 packet.
#[derive(Drop)]
pub struct IsIpv4;

impl Guard for IsIpv4 {
    ghost asks = { λ _. specs.is_ipv4 };

    fn admits(&self, args: &Args) -> bool {
        value(&ether_type(), args) == IPV4
    }
}

/// Answers by this policy.
#[derive(Drop)]
pub struct Follower {
    policy: Policy,
}

impl Authoriser for Follower {
    ghost follows = { λ o. o.policy };

    fn judge(&self, request: &Request) -> Verdict {
        judge(&self.policy, request)
    }
}

// The type of an Ethernet frame that holds an IPv4 packet (RFC 894).
const IPV4: u64 = 0x0800;

// The type of an Ethernet frame, which stands behind its two addresses.
fn ether_type() -> Expr
    ensures { result ≡ specs.ether_type }
{
    Expr::Field {
        arg: 0,
        offset: 12,
        width: 2,
    }
}

// The signature of one parameter of bytes, which no handler may change.
fn of_bytes(alloc: Global, gives: bool) -> Result<EventType, NoMemory>
    ensures { IfOk result (λ sig. sig ≡ specs.of_bytes gives) }
{
    let mut params = Params::new(alloc);
    params.push(Param {
        kind: Kind::Bytes,
        var: false,
    })?;
    Ok(EventType { params, gives })
}

// What `first_word` does: it gives the first eight bytes of argument 0 as a number, 0 where there are fewer.
fn first_word(alloc: Global) -> Result<Act, NoMemory>
    ensures { IfOk result (λ act. act ≡ specs.first_word) }
{
    let mut steps = Steplist::new(alloc);
    steps.push(ActStep::Result(Expr::Field {
        arg: 0,
        offset: 0,
        width: 8,
    }))?;
    Ok(Act { steps })
}

// The object that is handed in as `first_word`.
fn first_word_object(alloc: Global) -> Result<Doer, NoMemory>
    ensures { IfOk result (λ doer. doer.act ≡ specs.first_word) }
{
    Ok(Doer {
        act: first_word(alloc)?,
    })
}

// What `own_two` follows: each module may have two bindings, and change its own.
fn own_two(alloc: Global) -> Result<Policy, NoMemory>
    ensures { IfOk result (λ policy. policy ≡ specs.own_two) }
{
    let mut policy = Policy::new(alloc);
    let rule = Rule {
        low: 0,
        high: 255,
        op: OpMatch::Any,
        handler: None,
        own_only: true,
        effect: Effect::Quota(2),
    };
    match policy.push(rule) {
        Ok(()) => Ok(policy),
        Err(_) => Err(NoMemory),
    }
}

// The object that is handed in as `own_two`.
fn own_two_object(alloc: Global) -> Result<Follower, NoMemory>
    ensures { IfOk result (λ follower. follower.policy ≡ specs.own_two) }
{
    Ok(Follower {
        policy: own_two(alloc)?,
    })
}

/// The objects that are handed in, each in its box: the handler, the guard and the authoriser.
pub fn boxed_objects(alloc: Global) -> Result<(Box<Doer>, Box<IsIpv4>, Box<Follower>), NoMemory>
    ensures handler { IfOk result (λ objects. objects.0.value.act ≡ specs.first_word) }
    ensures authoriser { IfOk result (λ objects. objects.2.value.policy ≡ specs.own_two) }
{
    let handler = Box::new(alloc, first_word_object(alloc)?)?;
    let guard = Box::new(alloc, IsIpv4)?;
    let authoriser = Box::new(alloc, own_two_object(alloc)?)?;
    Ok((handler, guard, authoriser))
}

// The answer to a native that nothing but want of memory refuses.
fn unrefused(added: Result<(), NativeFault>) -> Result<(), NoMemory>
    requires { IsNativeBy None added }
    ensures { OnOk result (added ≡ Ok tt) }
{
    match added {
        Ok(()) => Ok(()),
        Err(NativeFault::NoMemory) => Err(NoMemory),
        Err(NativeFault::SameName) => unreachable!(),
        Err(NativeFault::Bad(_)) => unreachable!(),
        Err(NativeFault::TooMany) => unreachable!(),
    }
}

// Adds a handler that does what `first_word` does, as the first native handler.
fn add_first_word(
    alloc: Global,
    natives: &mut Natives,
    object: Box<dyn Handler + Send + Sync>,
) -> Result<(), NoMemory>
    requires object { does object ≡ specs.first_word }
    requires none { native_handlers natives.old ≡ [] }
    requires sincere { ⟦<Natives as Sincere>⟧.sincere natives.old }
    ensures sincere { ⟦<Natives as Sincere>⟧.sincere natives.new }
    ensures added { OnOk result (native_handlers natives.new ≡ specs.natives.handlers) }
    ensures guards { native_guards natives.new ≡ native_guards natives.old }
    ensures authorisers { native_authorisers natives.new ≡ native_authorisers natives.old }
{
    let name = Text::from_bytes(alloc, b"first_word")?;
    unrefused(natives.add_handler(name, of_bytes(alloc, true)?, first_word(alloc)?, object))
}

// Adds a guard that asks what `is_ipv4` asks, as the first native guard.
fn add_is_ipv4(
    alloc: Global,
    natives: &mut Natives,
    object: Box<dyn Guard + Send + Sync>,
) -> Result<(), NoMemory>
    requires object { asks object ≡ specs.is_ipv4 }
    requires none { native_guards natives.old ≡ [] }
    requires sincere { ⟦<Natives as Sincere>⟧.sincere natives.old }
    ensures sincere { ⟦<Natives as Sincere>⟧.sincere natives.new }
    ensures added { OnOk result (native_guards natives.new ≡ specs.natives.guards) }
    ensures handlers { native_handlers natives.new ≡ native_handlers natives.old }
    ensures authorisers { native_authorisers natives.new ≡ native_authorisers natives.old }
{
    let name = Text::from_bytes(alloc, b"is_ipv4")?;
    let sig = of_bytes(alloc, false)?;
    let test = Test::Compare(Cmp::Eq, ether_type(), Expr::Const(IPV4));
    unrefused(natives.add_guard(name, sig, test, object))
}

// Adds an authoriser that follows what `own_two` follows, as the first native authoriser.
fn add_own_two(
    alloc: Global,
    natives: &mut Natives,
    object: Box<dyn Authoriser + Send + Sync>,
) -> Result<(), NoMemory>
    requires object { follows object ≡ specs.own_two }
    requires none { native_authorisers natives.old ≡ [] }
    requires sincere { ⟦<Natives as Sincere>⟧.sincere natives.old }
    ensures sincere { ⟦<Natives as Sincere>⟧.sincere natives.new }
    ensures added { OnOk result (native_authorisers natives.new ≡ specs.natives.authorisers) }
    ensures handlers { native_handlers natives.new ≡ native_handlers natives.old }
    ensures guards { native_guards natives.new ≡ native_guards natives.old }
{
    let name = Text::from_bytes(alloc, b"own_two")?;
    unrefused(natives.add_authoriser(name, own_two(alloc)?, object))
}

// Adds the three natives, of these objects, to none.
fn add_all(
    alloc: Global,
    natives: &mut Natives,
    handler: Box<dyn Handler + Send + Sync>,
    guard: Box<dyn Guard + Send + Sync>,
    authoriser: Box<dyn Authoriser + Send + Sync>,
) -> Result<(), NoMemory>
    requires handler { does handler ≡ specs.first_word }
    requires guard { asks guard ≡ specs.is_ipv4 }
    requires authoriser { follows authoriser ≡ specs.own_two }
    requires no_handlers { native_handlers natives.old ≡ [] }
    requires no_guards { native_guards natives.old ≡ [] }
    requires no_authorisers { native_authorisers natives.old ≡ [] }
    requires sincere { ⟦<Natives as Sincere>⟧.sincere natives.old }
    ensures sincere { ⟦<Natives as Sincere>⟧.sincere natives.new }
    ensures seen { OnOk result (natives_seen natives.new ≡ specs.natives) }
{
    add_first_word(alloc, natives, handler)?;
    add_is_ipv4(alloc, natives, guard)?;
    add_own_two(alloc, natives, authoriser)
}

/// The natives of the program, of these objects: exactly the handler `first_word`, the guard `is_ipv4` and the
/// authoriser `own_two`.
pub fn natives_of(
    alloc: Global,
    handler: Box<dyn Handler + Send + Sync>,
    guard: Box<dyn Guard + Send + Sync>,
    authoriser: Box<dyn Authoriser + Send + Sync>,
) -> Result<Natives, NoMemory>
    requires handler { does handler ≡ specs.first_word }
    requires guard { asks guard ≡ specs.is_ipv4 }
    requires authoriser { follows authoriser ≡ specs.own_two }
    ensures sincere { IfOk result (λ natives. ⟦<Natives as Sincere>⟧.sincere natives) }
    ensures seen { IfOk result (λ natives. natives_seen natives ≡ specs.natives) }
{
    let mut natives = Natives::new(alloc);
    add_all(alloc, &mut natives, handler, guard, authoriser)?;
    Ok(natives)
}
