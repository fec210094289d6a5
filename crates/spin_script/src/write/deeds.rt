//! The words of what a lane is told to do.

ghost use Rattle.std.specs.Prelude.{◌≡◌, ◌==◌, ◌++◌, ◌∷◌, [], map, position, OnOk};
ghost use Rattle.spin_word.specs.Commands.{no_number};
ghost use Rattle.spin_grammar.specs.Grammar.{Fixed, Numeral};
ghost use Rattle.spin_grammar.specs.Forms.{op_word, place_word, mode_word, spot_form, value_atom, task_form};
ghost use Rattle.spin_script.specs.Canonical.{spoken, narrow_spot, spot_of, command_task, deed_task, task_of};
ghost use Rattle.spin_script.specs.Canonical as specs;

use crate::write::rules::{op_word, put_counted};
use crate::write::words::put_bytes;
use spin_text::{put_number, put_word};
use spin_values::{NoMemory, Octets, Value};
use spin_word::{Command, Deed, Mode, NO_BINDING, Op, Place, Work};

fn place_word(place: Place) -> &'static [u8]
    ensures { result.now ≡ place_word place }
{
    match place {
        Place::Free => b"free",
        Place::First => b"first",
        Place::Last => b"last",
    }
}

fn mode_word(mode: Mode) -> &'static [u8]
    ensures { result.now ≡ mode_word mode }
{
    match mode {
        Mode::Plain => b"plain",
        Mode::Filter => b"filter",
        Mode::Async => b"async",
    }
}

// The place of the first number that is no binding's.
fn first_none(bindings: &[u16]) -> Option<usize>
    ensures { result ≡ position (λ number. number == no_number) bindings.now }
{
    bindings.iter().position(|number| *number == NO_BINDING)
}

// The bindings that are named, behind which there is none.
#[tactic(auto, using(crate::proofs::WrittenParts::named_all, crate::proofs::WrittenParts::named_some))]
fn named(bindings: &[u16]) -> &[u16]
    ensures { result.now ≡ specs.named bindings.now }
{
    match first_none(bindings) {
        None => bindings,
        Some(count) => &bindings[..count],
    }
}

// Appends a place that names one other binding at most.
fn put_narrow_spot(out: &mut Octets, place: Place, before: u16, after: u16) -> Result<(), NoMemory>
    ensures { OnOk result
        (out.new ≡ out.old ++ spoken (spot_form (narrow_spot place before after))) }
{
    if before != NO_BINDING {
        put_word(out, b"before")?;
        return put_number(out, u64::from(before));
    }
    if after != NO_BINDING {
        put_word(out, b"after")?;
        return put_number(out, u64::from(after));
    }
    put_word(out, place_word(place))
}

// Appends where a binding goes, in a script of this version.
fn put_spot(out: &mut Octets, version: u8, command: &Command) -> Result<(), NoMemory>
    ensures { OnOk result (out.new ≡ out.old ++ spoken (spot_form (spot_of version command.now))) }
{
    if version != 3 {
        return put_narrow_spot(out, command.place, command.before[0], command.after[0]);
    }
    put_word(out, place_word(command.place))?;
    put_word(out, b"before")?;
    put_counted(out, named(&command.before))?;
    put_word(out, b"after")?;
    put_counted(out, named(&command.after))
}

// Appends an op, and the event and the module that each command names.
fn put_front(out: &mut Octets, command: &Command) -> Result<(), NoMemory>
    ensures { OnOk result (out.new ≡ out.old
        ++ spoken (Fixed (op_word command.now.op) ∷ Numeral command.now.event
        ∷ Numeral command.now.requester ∷ [])) }
{
    put_word(out, op_word(command.op))?;
    put_number(out, u64::from(command.event))?;
    put_number(out, u64::from(command.requester))
}

// Appends a command, in a script of this version.
fn put_command(out: &mut Octets, version: u8, command: &Command) -> Result<(), NoMemory>
    ensures { OnOk result (out.new ≡ out.old
        ++ spoken (task_form (command_task version command.now.op command.now))) }
{
    put_front(out, command)?;
    match command.op {
        Op::Install => {
            put_number(out, u64::from(command.handler))?;
            put_number(out, u64::from(command.guard))?;
            put_spot(out, version, command)?;
            put_word(out, mode_word(command.mode))
        }
        Op::Remove => put_number(out, u64::from(command.target)),
        Op::Replace => {
            put_number(out, u64::from(command.target))?;
            put_number(out, u64::from(command.handler))?;
            put_number(out, u64::from(command.guard))
        }
        Op::Default => put_number(out, u64::from(command.handler)),
        Op::NoDefault => Ok(()),
    }
}

fn put_value(out: &mut Octets, value: &Value) -> Result<(), NoMemory>
    ensures { OnOk result (out.new ≡ out.old ++ spoken (value_atom value.now ∷ [])) }
{
    match value {
        Value::Word(word) => put_number(out, *word),
        Value::Bytes(bytes) => put_bytes(out, bytes.as_slice()),
    }
}

fn put_values(out: &mut Octets, values: &[Value]) -> Result<(), NoMemory>
    ensures { OnOk result (out.new ≡ out.old ++ spoken (map value_atom values.now)) }
{
    for value in values {
        put_value(out, value)?;
    }
    Ok(())
}

fn put_deed(out: &mut Octets, deed: &Deed) -> Result<(), NoMemory>
    ensures { OnOk result (out.new ≡ out.old ++ spoken (task_form (deed_task deed.now))) }
{
    match deed {
        Deed::Raise { event, args } => {
            put_word(out, b"raise")?;
            put_number(out, u64::from(*event))?;
            put_values(out, args.as_slice())
        }
        Deed::Later { event, args } => {
            put_word(out, b"later")?;
            put_number(out, u64::from(*event))?;
            put_values(out, args.as_slice())
        }
    }
}

// Appends what a lane is told to do, in a script of this version.
pub(super) fn put_work(out: &mut Octets, version: u8, work: &Work) -> Result<(), NoMemory>
    ensures { OnOk result (out.new ≡ out.old ++ spoken (task_form (task_of version work.now))) }
{
    match work {
        Work::Command(command) => put_command(out, version, command),
        Work::Deed(deed) => put_deed(out, deed),
        Work::Packet { event, count } => {
            put_word(out, b"packet")?;
            put_number(out, u64::from(*event))?;
            put_number(out, u64::from(*count))
        }
    }
}
