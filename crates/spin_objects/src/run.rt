//! The doing of acts.

ghost use Rattle.std.specs.Prelude.{◌≡◌, ◌++◌, [], ◌∷◌, OnOk, IfOk, map};
ghost use Rattle.std.specs.List.{cons_option};
ghost use Rattle.spin_code.specs.Value.{value_of, bytes_from};
ghost use Rattle.spin_objects.specs.Doing.{part_of, up_or_dropped, step_args, step_items, args_after, items_of, IsDone};
ghost use Rattle.spin_objects.specs.Layers.{layer_args};

use crate::item::{Item, Outcome};
use crate::layer::read_layer;
use spin_code::{Act, ActStep, Layer, Part, argument_bytes, value};
use spin_values::{Args, NoMemory, Octets, Value, set};
use std::alloc::Global;

// The bytes of an argument from a place on: none where that lies past the end.
fn bytes_after(alloc: Global, args: &Args, arg: u8, from: u16) -> Result<Octets, NoMemory>
    ensures { IfOk result (λ octets. octets ≡ bytes_from args.now arg from) }
{
    let bytes = argument_bytes(args, arg);
    let from = usize::from(from).min(bytes.len());
    Octets::from_bytes(alloc, &bytes[from..])
}

// The argument that a part makes.
fn part_value(alloc: Global, part: &Part, args: &Args) -> Result<Value, NoMemory>
    ensures { IfOk result (λ v. v ≡ part_of args.now part.now) }
{
    match part {
        Part::Word(e) => Ok(Value::Word(value(e, args))),
        Part::Bytes { arg, from } => Ok(Value::Bytes(bytes_after(alloc, args, *arg, *from)?)),
    }
}

// The arguments that parts make.
fn part_values(alloc: Global, parts: &[Part], args: &Args) -> Result<Args, NoMemory>
    ensures { IfOk result (λ made. made ≡ map (part_of args.now) parts.now) }
{
    let mut made = Args::with_capacity(alloc, parts.len())?;
    for part in parts {
        made.push(part_value(alloc, part, args)?)?;
    }
    Ok(made)
}

// What a layer step gives.
fn layer_item(alloc: Global, layer: Layer, event: u8, args: &Args) -> Result<Item, NoMemory>
    ensures { IfOk result (λ item. item ≡ up_or_dropped event (layer_args layer args.now)) }
{
    match read_layer(alloc, layer, args)? {
        Ok(args) => Ok(Item::Up { event, args }),
        Err(fault) => Ok(Item::Dropped(fault)),
    }
}

/// Does one step of an act on the arguments as they stand: changes them, and answers what the step gives, if anything.
/// Each step does as [`run_act`] says. After want of memory nothing is known of the arguments.
#[inline]
pub fn run_step(alloc: Global, step: &ActStep, args: &mut Args) -> Result<Option<Item>, NoMemory>
    ensures args { OnOk result (args.new ≡ step_args step.now args.old) }
    ensures item { IfOk result (λ item. cons_option item [] ≡ step_items step.now args.old) }
{
    match step {
        ActStep::Set { arg, to } => {
            let word = value(to, args);
            // where there is no such word, nothing is changed
            let _ = set(args, *arg, word);
            Ok(None)
        }
        ActStep::Send {
            endpoint,
            arg,
            from,
        } => {
            let bytes = bytes_after(alloc, args, *arg, *from)?;
            Ok(Some(Item::Send {
                endpoint: *endpoint,
                bytes,
            }))
        }
        ActStep::Result(e) => Ok(Some(Item::Result(value(e, args)))),
        ActStep::Up { event, parts } => {
            let args = part_values(alloc, parts.as_slice(), args)?;
            Ok(Some(Item::Up {
                event: *event,
                args,
            }))
        }
        ActStep::Layer { kind, event } => Ok(Some(layer_item(alloc, *kind, *event, args)?)),
    }
}

/// Does an act, step by step, each on the arguments as earlier steps left them: changes the arguments, and appends
/// what the act gives.
///
/// - `Set` replaces a word, and changes nothing where there is none.
/// - `Send` appends the bytes of an argument from a place on, none where that lies past the end.
/// - `Result` appends a value.
/// - `Up` appends a raise upwards, with an argument for each part.
/// - `Layer` reads headers, and appends a raise upwards where they are valid, and else their first fault.
///
/// An argument that isn't there, or is of the other kind, counts as by [`value`]. After want of memory nothing is
/// known of the arguments and the outcome, and the caller lets both go. It takes time linear in the act's nodes and
/// in the bytes that it copies or sums.
#[inline]
pub fn run_act(alloc: Global, act: &Act, args: &mut Args, out: &mut Outcome) -> Result<(), NoMemory>
    ensures done { OnOk result (IsDone act.now args.old out.old args.new out.new) }
{
    for step in act.steps.as_slice() {
        if let Some(item) = run_step(alloc, step, args)? {
            out.push(item)?;
        }
    }
    Ok(())
}
