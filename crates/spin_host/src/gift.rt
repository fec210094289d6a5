//! What a host's own handler gives.

ghost use Rattle.std.specs.Prelude.{◌≡◌, ◌<◌, ◌++◌, ◌∷◌, ◌&&◌, not, [], length, slice_set, OnOk, IfOk};
ghost use Rattle.std.specs.List.{list_all, list_any};
ghost use Rattle.spin_objects.specs.Doing.{last_result};
ghost use Rattle.spin_host.specs.Gifts as specs;
ghost use Rattle.spin_host.specs.Gifts.{items_given, args_given};

use crate::spare::Spare;
use spin_objects::{Item, Outcome};
use spin_raise::last_of;
use spin_values::{Args, EventType, NoMemory, Octets, Param, Sequence, Value};
use spin_word::Mode;
use std::mem;
use thiserror::Error;

/// One thing that a host's own handler gives.
#[derive(PartialEq, Drop, Debug)]
pub enum Given {
    /// A result. The last one is the handler's.
    Result(u64),
    /// An argument becomes this value for the handlers after this one.
    Change {
        /// The number of the argument, counted from 0.
        arg: u8,
        /// What it becomes.
        to: Value,
    },
    /// Bytes are sent.
    Send {
        /// The number of the endpoint.
        endpoint: u8,
        /// What is sent.
        bytes: Octets,
    },
}

/// What a host's own handler gives, in order.
pub type Gift = Sequence<Given>;

/// Why what a host's own handler gives is refused. Of several the first of these in this order is told.
#[derive(Clone, Copy, PartialEq, Eq, Debug, Error)]
pub enum GiftFault {
    /// Something is given by what runs apart: the raise doesn't wait for it.
    #[error("what runs apart gives the raise nothing")]
    RunsApart,
    /// There is a result, and the event gives none.
    #[error("the event gives no result")]
    NoResult,
    /// An argument is changed by what is no filter.
    #[error("only a filter changes arguments")]
    NoFilter,
    /// An argument is changed that the event hasn't.
    #[error("there is no argument of that number")]
    NoArgument,
    /// A word is put in the place of bytes, or the reverse.
    #[error("an argument is of the wrong kind")]
    WrongKind,
    /// An argument is changed whose parameter may not be changed.
    #[error("an argument is changed that may not be")]
    Fixed,
}

impl GiftFault {
    /// Its number, from 1, in the order in which they are told.
    pub fn number(self) -> u32
        ensures { result ≡ specs.number_of self }
    {
        match self {
            GiftFault::RunsApart => 1,
            GiftFault::NoResult => 2,
            GiftFault::NoFilter => 3,
            GiftFault::NoArgument => 4,
            GiftFault::WrongKind => 5,
            GiftFault::Fixed => 6,
        }
    }
}

#[inline]
pub(crate) fn runs_apart(mode: Mode) -> bool
    ensures { result ≡ specs.runs_apart mode }
{
    matches!(mode, Mode::Async)
}

#[inline]
fn is_filter(mode: Mode) -> bool
    ensures { result ≡ specs.is_filter mode }
{
    matches!(mode, Mode::Filter)
}

#[inline]
fn is_result(given: &Given) -> bool
    ensures { result ≡ specs.is_result given.now }
{
    matches!(given, Given::Result(_))
}

#[inline]
fn is_change(given: &Given) -> bool
    ensures { result ≡ specs.is_change given.now }
{
    matches!(given, Given::Change { .. })
}

// Whether what it changes is there.
#[inline]
fn is_known(given: &Given, params: &[Param]) -> bool
    ensures { result ≡ specs.is_known params.now given.now }
{
    match given {
        Given::Change { arg, .. } => usize::from(*arg) < params.len(),
        _ => true,
    }
}

// Whether what it changes stays of its kind.
#[inline]
fn is_right(given: &Given, params: &[Param]) -> bool
    ensures { result ≡ specs.is_right params.now given.now }
{
    match given {
        Given::Change { arg, to } => match params.get(usize::from(*arg)) {
            None => false,
            Some(param) => param.kind == to.kind(),
        },
        _ => true,
    }
}

// Whether what it changes may be changed.
#[inline]
fn sets_var(given: &Given, params: &[Param]) -> bool
    ensures { result ≡ specs.sets_var params.now given.now }
{
    match given {
        Given::Change { arg, .. } => match params.get(usize::from(*arg)) {
            None => false,
            Some(param) => param.var,
        },
        _ => true,
    }
}

// Whether something is given by what runs apart.
fn gives_apart(mode: Mode, gift: &[Given]) -> bool
    ensures { result ≡ specs.gives_apart mode gift.now }
{
    runs_apart(mode) && !gift.is_empty()
}

fn gives_result(gift: &[Given]) -> bool
    ensures { result ≡ list_any specs.is_result gift.now }
{
    gift.iter().any(|given| is_result(given))
}

fn changes(gift: &[Given]) -> bool
    ensures { result ≡ list_any specs.is_change gift.now }
{
    gift.iter().any(|given| is_change(given))
}

// Whether there is a result, and the event gives none.
fn gives_too_much(sig: &EventType, gift: &[Given]) -> bool
    ensures { result ≡ (not sig.now.gives && list_any specs.is_result gift.now) }
{
    !sig.gives && gives_result(gift)
}

// Whether what is no filter changes an argument.
fn changes_amiss(mode: Mode, gift: &[Given]) -> bool
    ensures { result ≡ (not (specs.is_filter mode) && list_any specs.is_change gift.now) }
{
    !is_filter(mode) && changes(gift)
}

fn are_known(gift: &[Given], params: &[Param]) -> bool
    ensures { result ≡ list_all (specs.is_known params.now) gift.now }
{
    gift.iter().all(|given| is_known(given, params))
}

fn are_right(gift: &[Given], params: &[Param]) -> bool
    ensures { result ≡ list_all (specs.is_right params.now) gift.now }
{
    gift.iter().all(|given| is_right(given, params))
}

fn set_only_vars(gift: &[Given], params: &[Param]) -> bool
    ensures { result ≡ list_all (specs.sets_var params.now) gift.now }
{
    gift.iter().all(|given| sets_var(given, params))
}

/// Why this is refused of a handler that runs so for an event of this type. It takes no memory, and time linear in what
/// is given.
pub fn gift_fault(sig: &EventType, mode: Mode, gift: &[Given]) -> Option<GiftFault>
    ensures { result ≡ specs.gift_fault sig.now mode gift.now }
{
    let params = sig.params.as_slice();
    if gives_apart(mode, gift) {
        return Some(GiftFault::RunsApart);
    }
    if gives_too_much(sig, gift) {
        return Some(GiftFault::NoResult);
    }
    if changes_amiss(mode, gift) {
        return Some(GiftFault::NoFilter);
    }
    if !are_known(gift, params) {
        return Some(GiftFault::NoArgument);
    }
    if !are_right(gift, params) {
        return Some(GiftFault::WrongKind);
    }
    if !set_only_vars(gift, params) {
        return Some(GiftFault::Fixed);
    }
    None
}

// Puts a value in the place of one that is there, which is answered.
fn swap(values: &mut [Value], at: usize, to: Value) -> Value
    requires { at < length values.old }
    ensures { values.new ≡ slice_set values.old at to }
{
    mem::replace(&mut values[at], to)
}

// Puts a value in the place of an argument that is there, which is answered.
fn put(args: &mut Args, at: usize, to: Value) -> Value
    requires { at < length args.old }
    ensures { args.new ≡ slice_set args.old at to }
{
    let none = Args::new(args.allocator());
    let mut values = mem::replace(args, none).into_vec();
    let before = swap(values.as_mut_slice(), at, to);
    *args = Args::from_vec(values);
    before
}

// Takes over one thing that was given.
#[inline]
fn take_over(
    given: Given,
    args: &mut Args,
    out: &mut Outcome,
    spare: &mut Spare,
) -> Result<(), NoMemory>
    ensures args { OnOk result (args.new ≡ specs.changed args.old given) }
    ensures out { OnOk result (out.new ≡ out.old ++ specs.item_of given) }
{
    match given {
        Given::Result(word) => out.push(Item::Result(word)),
        Given::Send { endpoint, bytes } => out.push(Item::Send { endpoint, bytes }),
        Given::Change { arg, to } => {
            let at = usize::from(arg);
            if at < args.len() {
                spare.keep_value(put(args, at, to));
            }
            Ok(())
        }
    }
}

// Takes over what was given, in order, and leaves nothing of it.
fn take_all(
    gift: &mut Gift,
    args: &mut Args,
    out: &mut Outcome,
    spare: &mut Spare,
) -> Result<(), NoMemory>
    ensures args { OnOk result (args.new ≡ args_given args.old gift.old) }
    ensures out { OnOk result (out.new ≡ out.old ++ items_given gift.old) }
    ensures gift { OnOk result (gift.new ≡ []) }
{
    // turned round, so that each is taken by `pop` in its turn
    gift.reverse();
    while let Some(given) = gift.pop() {
        take_over(given, args, out, spare)?;
    }
    Ok(())
}

// Takes over what the host's own handler gave in the place of a handler's act, under the number of a binding, 0 being
// the default: appends the number and then what was given, changes the arguments, and answers the last result.
pub(crate) fn run_gift(
    number: u16,
    gift: &mut Gift,
    args: &mut Args,
    out: &mut Outcome,
    spare: &mut Spare,
) -> Result<Option<u64>, NoMemory>
    ensures result { IfOk result (λ r. r ≡ last_result (items_given gift.old)) }
    ensures out { OnOk result (out.new ≡ out.old ++ (Item.Ran number ∷ items_given gift.old)) }
    ensures args { OnOk result (args.new ≡ args_given args.old gift.old) }
    ensures gift { OnOk result (gift.new ≡ []) }
{
    out.push(Item::Ran(number))?;
    let before = out.len();
    take_all(gift, args, out, spare)?;
    Ok(last_of(&out.as_slice()[before..]))
}
