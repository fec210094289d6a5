//! A logger, as a host of one thread: what is raised is logged where a guard of the host's own admits it, and an
//! authoriser of the host's own imposes that guard on whoever binds.
//!
//! It writes a line for each raise that is logged. Its status is 0 where all was raised, 2 where the script is refused,
//! 3 where a native or the binding is, 5 where writing failed, and 7 where there was no memory.
#![tactic(auto)]

ghost use Rattle.std.specs.Prelude.{◌≡◌, ◌++◌, IfOk, OnOk};
ghost use Rattle.std.specs.List.{flat_map};
ghost use Rattle.spin.specs.Pens.{IsSamePen};
ghost use Rattle.spin.specs.SetupOf.{data_of};
ghost use Rattle.spin.specs.Seats.{IsSeatOf};
ghost use Rattle.host_logger.specs.Logging as specs;

use spin::{
    Args, Authoriser, Catalogue, Cmp, Command, Deed, Effect, EventType, Expr, Guard, Hub, Kind,
    NativeFault, Natives, NoMemory, Numbers, Octets, Op, OpMatch, Param, Params, Policy,
    PolicyFault, Refusal, Reply, Request, Rule, Script, ScriptFault, Seat, SeatFault, Sincere,
    Sink, StdSink, Step, Test, Text, Value, Verdict, Verdicted, argument_word, read_script,
    write_all,
};
use std::alloc::Global;
use std::io::{self, Print};
use std::process::ExitCode;

// Module 0 owns the event of what happens: how grave it is, and a text. Module 1 binds handler 1, which sends the text.
const SCRIPT: &[u8] = b"spin 1
modules 2
event 0 0 wb last
endpoint 0 log
handler 1 wb send 0 1 0
guard 1 native is_grave
authoriser 0 imposer
";

// What happens.
const EVENTS: [(u64, &[u8]); 5] = [
    (1, b"a door opens"),
    (4, b"a disk is nearly full"),
    (2, b"a door shuts"),
    (3, b"a fan stands still"),
    (9, b"a disk is full"),
];

// How grave it is from what the logger logs on.
const GRAVE: u64 = 3;

// Why not all was logged.
#[derive(Drop)]
enum Fault {
    Script { line: u32, cause: u8 },
    Native(NativeFault),
    Refused(Refusal),
    Full,
    Unwritten,
    NoMemory,
}

impl From<NoMemory> for Fault {
    fn from(_: NoMemory) -> Fault {
        Fault::NoMemory
    }
}

// Admits what is as grave as this, or graver.
#[derive(Drop)]
struct AtLeast {
    level: u64,
}

impl Guard for AtLeast {
    ghost asks = { λ guard. specs.is_at_least guard.level };

    fn admits(&self, args: &Args) -> bool {
        self.level <= argument_word(args, 0)
    }
}

// Imposes guard 1 on whoever binds, and lets nobody change what another has bound.
#[derive(Drop)]
struct Imposer;

impl Authoriser for Imposer {
    ghost follows = { λ _. specs.imposing };

    fn judge(&self, request: &Request) -> Verdict {
        let Request {
            op,
            requester,
            target_owner,
            ..
        } = *request;
        match (op, target_owner) {
            (_, Some(owner)) if owner != requester => Verdict::Deny(0),
            (Op::Install | Op::Replace, _) => Verdict::Impose(1),
            _ => Verdict::Allow,
        }
    }
}

// The parameters of the event: a word and bytes.
fn parameters(alloc: Global) -> Result<Params, NoMemory> {
    let mut params = Params::new(alloc);
    params.push(Param {
        kind: Kind::Word,
        var: false,
    })?;
    params.push(Param {
        kind: Kind::Bytes,
        var: false,
    })?;
    Ok(params)
}

// The policy that an `Imposer` follows.
fn imposing(alloc: Global) -> Result<Policy, NoMemory>
    ensures { IfOk result (λ policy. policy ≡ specs.imposing) }
{
    let mut guards = Numbers::new(alloc);
    guards.push(1)?;
    let rule = Rule {
        low: 0,
        high: 255,
        op: OpMatch::Any,
        handler: None,
        own_only: true,
        effect: Effect::Impose(guards),
    };
    let mut policy = Policy::new(alloc);
    match policy.push(rule) {
        Ok(()) => Ok(policy),
        Err(_) => Err(NoMemory),
    }
}

// Adds the guard and the authoriser of the host.
fn add_natives(
    alloc: Global,
    natives: &mut Natives,
    guard: Box<dyn Guard + Send + Sync>,
    authoriser: Box<dyn Authoriser + Send + Sync>,
) -> Result<(), Fault>
    requires guard { asks guard ≡ specs.is_at_least specs.grave }
    requires authoriser { follows authoriser ≡ specs.imposing }
    requires sincere { ⟦<Natives as Sincere>⟧.sincere natives.old }
    ensures { ⟦<Natives as Sincere>⟧.sincere natives.new }
{
    let (params, gives) = (parameters(alloc)?, false);
    let test = Test::Compare(Cmp::Le, Expr::Const(GRAVE), Expr::Arg(0));
    let name = Text::from_bytes(alloc, b"is_grave")?;
    natives
        .add_guard(name, EventType { params, gives }, test, guard)
        .map_err(Fault::Native)?;
    let name = Text::from_bytes(alloc, b"imposer")?;
    natives
        .add_authoriser(name, imposing(alloc)?, authoriser)
        .map_err(Fault::Native)
}

// The hub of the script, and its one seat.
fn open(alloc: Global, natives: Natives) -> Result<(Hub, Seat), Fault>
    requires sincere { ⟦<Natives as Sincere>⟧.sincere natives }
    ensures sincere { IfOk result (λ made. ⟦<Catalogue as Sincere>⟧.sincere made.0.setup.catalogue) }
    ensures log { IfOk result (λ made. made.1.pen.log ≡ made.0.log.id) }
    ensures seat { IfOk result (λ made. IsSeatOf (data_of made.0.setup) made.1) }
    ensures lane { IfOk result (λ made. made.1.pen.lane ≡ 0) }
{
    let script = match read_script(alloc, SCRIPT, natives) {
        Ok(script) => script,
        Err(ScriptFault::Bad { line, cause }) => return Err(Fault::Script { line, cause }),
        Err(ScriptFault::NoMemory) => return Err(Fault::NoMemory),
    };
    let Script { setup, .. } = script;
    let (hub, mut seats) = Hub::new(alloc, setup, 1)?;
    let Some(seat) = seats.take_first() else {
        unreachable!()
    };
    Ok((hub, seat))
}

// Module 1 binds handler 1, with no guard of its own choice.
fn bind(alloc: Global, hub: &Hub, seat: &mut Seat) -> Result<(), Fault>
    requires sincere { ⟦<Catalogue as Sincere>⟧.sincere hub.now.setup.catalogue }
    requires log { seat.old.pen.log ≡ hub.now.log.id }
    requires seat { IsSeatOf (data_of hub.now.setup) seat.old }
    requires lane { seat.old.pen.lane ≡ 0 }
    ensures seat { IsSeatOf (data_of hub.now.setup) seat.new }
    ensures same { IsSamePen seat.old.pen seat.new.pen }
{
    let install = Command {
        handler: 1,
        ..Command::bare(Op::Install, 0, 0, 1)
    };
    match seat.command(alloc, hub, &install) {
        Ok(judged) => match judged.verdict {
            Verdicted::Accepted => Ok(()),
            Verdicted::Refused(refusal) => Err(Fault::Refused(refusal)),
        },
        Err(SeatFault::Full) => Err(Fault::Full),
        Err(SeatFault::NoMemory) => Err(Fault::NoMemory),
    }
}

// Appends the line of a step, if it sends.
fn log_step(lines: &mut Octets, step: &Step) -> Result<(), NoMemory>
    ensures { OnOk result (lines.new ≡ lines.old ++ specs.line_of step.now) }
{
    let Step::Send { bytes, .. } = step else {
        return Ok(());
    };
    lines.extend_from_slice(bytes.as_slice())?;
    lines.push(b'\n')
}

// Appends the lines of steps.
fn log_trace(lines: &mut Octets, trace: &[Step]) -> Result<(), NoMemory>
    ensures { OnOk result (lines.new ≡ lines.old ++ flat_map specs.line_of trace.now) }
{
    for step in trace {
        log_step(lines, step)?;
    }
    Ok(())
}

// Appends the lines of a reply.
fn log(lines: &mut Octets, reply: &Reply) -> Result<(), NoMemory>
    ensures { OnOk result (lines.new ≡ lines.old ++ specs.lines_of reply.now) }
{
    match reply {
        Reply::Ran { trace, .. } => log_trace(lines, trace.as_slice()),
        _ => Ok(()),
    }
}

// The arguments of a raise.
fn arguments(alloc: Global, level: u64, text: &[u8]) -> Result<Args, NoMemory> {
    let mut args = Args::new(alloc);
    args.push(Value::Word(level))?;
    args.push(Value::Bytes(Octets::from_bytes(alloc, text)?))?;
    Ok(args)
}

// Raises what happens, and answers the lines that are logged.
fn raise_all(alloc: Global, hub: &Hub, mut seat: Seat) -> Result<Octets, NoMemory>
    requires sincere { ⟦<Catalogue as Sincere>⟧.sincere hub.now.setup.catalogue }
    requires log { seat.pen.log ≡ hub.now.log.id }
    requires seat { IsSeatOf (data_of hub.now.setup) seat }
{
    let mut lines = Octets::new(alloc);
    for happened in EVENTS {
        let (level, text) = happened;
        let (event, args) = (0, arguments(alloc, level, text)?);
        let raised = seat.raise(alloc, hub, &Deed::Raise { event, args })?;
        log(&mut lines, &raised.reply)?;
    }
    Ok(lines)
}

// Raises what happens, and writes the lines that are logged.
fn run<K: Sink>(
    alloc: Global,
    mut natives: Natives,
    guard: Box<dyn Guard + Send + Sync>,
    authoriser: Box<dyn Authoriser + Send + Sync>,
    out: &mut K,
) -> Result<(), Fault>
    requires guard { asks guard ≡ specs.is_at_least specs.grave }
    requires authoriser { follows authoriser ≡ specs.imposing }
    requires sincere { ⟦<Natives as Sincere>⟧.sincere natives }
{
    add_natives(alloc, &mut natives, guard, authoriser)?;
    let (hub, mut seat) = open(alloc, natives)?;
    bind(alloc, &hub, &mut seat)?;
    let lines = raise_all(alloc, &hub, seat)?;
    write_all(out, lines.as_slice()).map_err(|_| Fault::Unwritten)
}

// Tells why not all was logged.
fn tell<R: Print>(rt: &R, fault: &Fault) {
    let _ = match fault {
        Fault::Script { line, cause } => println!(rt; "line {line} of the script: cause {cause}"),
        Fault::Native(fault) => println!(rt; "a native is refused: {fault:?}"),
        Fault::Refused(refusal) => println!(rt; "the binding is refused: {refusal:?}"),
        Fault::Full => println!(rt; "there is no room for the binding"),
        Fault::Unwritten => println!(rt; "the lines can't be written"),
        Fault::NoMemory => println!(rt; "out of memory"),
    };
}

// The status of a run that ends so.
fn status(ended: &Result<(), Fault>) -> u8
    ensures { result ≡ specs.status_of ended.now }
{
    match ended {
        Ok(()) => 0,
        Err(Fault::Script { .. }) => 2,
        Err(Fault::Native(_) | Fault::Refused(_) | Fault::Full) => 3,
        Err(Fault::Unwritten) => 5,
        Err(Fault::NoMemory) => 7,
    }
}

fn main(rt: HostRuntime) -> Result<ExitCode, NoMemory> {
    let alloc = rt.alloc();
    let guard: Box<dyn Guard + Send + Sync> = Box::new(alloc, AtLeast { level: GRAVE })?;
    let authoriser: Box<dyn Authoriser + Send + Sync> = Box::new(alloc, Imposer)?;
    let mut out = StdSink::new(io::writer(&rt));
    let ended = run(alloc, Natives::new(alloc), guard, authoriser, &mut out);
    if let Err(fault) = &ended {
        tell(&rt, fault);
    }
    Ok(ExitCode::from(status(&ended)))
}
