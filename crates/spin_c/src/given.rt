//! Arguments as C hands them in.

ghost use Rattle.std.specs.Prelude.{◌≡◌, ◌↔◌, ◌+◌, ◌≤◌, IfOk, IsTrue, MatchResult, drop, length, map, take};
ghost use Rattle.std.specs.List.{All};
ghost use Rattle.spin_c.specs.Given.{IsGiven, IsUngiven, value_of};

use crate::ask::Outcome;
use spin_host::Spare;
use spin_values::{Args, NoMemory, Octets, Value};
use std::alloc::Global;

/// An argument: a word, or a range of the bytes that are handed in beside it.
#[repr(C)]
#[derive(Clone, Copy, PartialEq, Eq, Debug)]
pub struct SpinArg {
    /// What it is: 0 a word, 1 bytes.
    pub kind: u64,
    /// The word; or where the bytes begin.
    pub at: u64,
    /// How many bytes.
    pub length: u64,
}

// Whether a range is within these bytes.
pub(crate) fn is_range(bytes: &[u8], at: u64, count: u64) -> bool
    ensures { IsTrue result ↔ (at + count ≤ length bytes.now) }
{
    let all = bytes.len() as u64;
    count <= all && at <= all - count
}

// Whether it is a word, or a range of these bytes.
fn is_given(bytes: &[u8], arg: &SpinArg) -> bool
    ensures { IsTrue result ↔ IsGiven bytes.now arg.now }
{
    match arg.kind {
        0 => true,
        1 => is_range(bytes, arg.at, arg.length),
        _ => false,
    }
}

// A copy of these bytes, in room that raises have left.
pub(crate) fn spare_bytes(
    alloc: Global,
    spare: &mut Spare,
    bytes: &[u8],
) -> Result<Octets, NoMemory>
    ensures { IfOk result (λ copy. copy ≡ bytes.now) }
{
    let mut copy = spare.take_bytes(alloc);
    copy.extend_from_slice(bytes)?;
    Ok(copy)
}

// The same of a range of them.
pub(crate) fn spare_range(
    alloc: Global,
    spare: &mut Spare,
    bytes: &[u8],
    at: u64,
    count: u64,
) -> Result<Octets, NoMemory>
    requires { at + count ≤ length bytes.now }
    ensures { IfOk result (λ copy. copy ≡ take count (drop at bytes.now)) }
{
    let start = at as usize;
    let end = start + count as usize;
    spare_bytes(alloc, spare, &bytes[start..end])
}

// Whether all are words, or ranges of these bytes.
pub(crate) fn are_given(bytes: &[u8], args: &[SpinArg]) -> bool
    ensures { IsTrue result ↔ All (IsGiven bytes.now) args.now }
{
    args.iter().all(|arg| is_given(bytes, arg))
}

// The value that an argument is, in room that raises have left.
fn value_of(
    alloc: Global,
    spare: &mut Spare,
    bytes: &[u8],
    arg: &SpinArg,
) -> Result<Value, NoMemory>
    requires { IsGiven bytes.now arg.now }
    ensures { IfOk result (λ v. v ≡ value_of bytes.now arg.now) }
{
    if arg.kind == 0 {
        return Ok(Value::Word(arg.at));
    }
    let octets = spare_range(alloc, spare, bytes, arg.at, arg.length)?;
    Ok(Value::Bytes(octets))
}

// The values that these arguments are, which are given, in room that raises have left.
pub(crate) fn values_in(
    alloc: Global,
    spare: &mut Spare,
    bytes: &[u8],
    given: &[SpinArg],
) -> Result<Args, NoMemory>
    requires { All (IsGiven bytes.now) given.now }
    ensures { IfOk result (λ args. args ≡ map (value_of bytes.now) given.now) }
{
    let mut args = spare.take_args(alloc);
    args.reserve(given.len())?;
    for arg in given {
        args.push(value_of(alloc, spare, bytes, arg)?)?;
    }
    Ok(args)
}

// The values that these arguments are, or why there are none.
pub(crate) fn given_of(alloc: Global, bytes: &[u8], given: &[SpinArg]) -> Result<Args, Outcome>
    ensures { MatchResult result
        (λ args. All (IsGiven bytes.now) given.now × (args ≡ map (value_of bytes.now) given.now))
        (IsUngiven bytes.now given.now) }
{
    if !are_given(bytes, given) {
        return Err(Outcome::NoArgument);
    }
    match values_in(alloc, &mut Spare::new(alloc), bytes, given) {
        Ok(args) => Ok(args),
        Err(NoMemory) => Err(Outcome::NoMemory),
    }
}
