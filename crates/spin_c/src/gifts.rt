//! What a host's own handler gives, as C hands it in.

ghost use Rattle.std.specs.Prelude.{◌≡◌, ◌↔◌, IfOk, IsTrue, map};
ghost use Rattle.std.specs.List.{All};
ghost use Rattle.spin_c.specs.Gifts.{IsGift, gift_of};

use crate::given::{is_range, spare_range};
use spin_host::{Gift, Given, Spare};
use spin_values::{NoMemory, Value};
use std::alloc::Global;

/// What a host's own handler gives: a result, an argument that is changed, or a range of the bytes that is sent.
#[repr(C)]
#[derive(Clone, Copy, PartialEq, Eq, Debug)]
pub struct SpinGift {
    /// What it is: 0 a result, 1 an argument that becomes a word, 2 one that becomes bytes, 3 bytes that are sent.
    pub kind: u64,
    /// The number of the argument, or of the endpoint.
    pub index: u64,
    /// The result, or the word; or where the bytes begin.
    pub at: u64,
    /// How many bytes.
    pub length: u64,
}

// Whether it is a gift of one of these kinds, whose number fits and whose range is one of these bytes.
fn is_gift(bytes: &[u8], gift: &SpinGift) -> bool
    ensures { IsTrue result ↔ IsGift bytes.now gift.now }
{
    let fits = gift.index <= 255;
    match gift.kind {
        0 => true,
        1 => fits,
        2 | 3 => fits && is_range(bytes, gift.at, gift.length),
        _ => false,
    }
}

// Whether all are gifts.
pub(crate) fn are_gifts(bytes: &[u8], gifts: &[SpinGift]) -> bool
    ensures { IsTrue result ↔ All (IsGift bytes.now) gifts.now }
{
    gifts.iter().all(|gift| is_gift(bytes, gift))
}

// What one gift gives.
fn gift_of(
    alloc: Global,
    spare: &mut Spare,
    bytes: &[u8],
    gift: &SpinGift,
) -> Result<Given, NoMemory>
    requires { IsGift bytes.now gift.now }
    ensures { IfOk result (λ given. given ≡ gift_of bytes.now gift.now) }
{
    if gift.kind == 0 {
        return Ok(Given::Result(gift.at));
    }
    let number = gift.index as u8;
    match gift.kind {
        1 => Ok(Given::Change {
            arg: number,
            to: Value::Word(gift.at),
        }),
        2 => Ok(Given::Change {
            arg: number,
            to: Value::Bytes(spare_range(alloc, spare, bytes, gift.at, gift.length)?),
        }),
        _ => Ok(Given::Send {
            endpoint: number,
            bytes: spare_range(alloc, spare, bytes, gift.at, gift.length)?,
        }),
    }
}

// What these gifts give, in room that raises have left.
pub(crate) fn gifts_of(
    alloc: Global,
    spare: &mut Spare,
    bytes: &[u8],
    gifts: &[SpinGift],
) -> Result<Gift, NoMemory>
    requires { All (IsGift bytes.now) gifts.now }
    ensures { IfOk result (λ given. given ≡ map (gift_of bytes.now) gifts.now) }
{
    let mut given = spare.take_gift(alloc);
    for gift in gifts {
        given.push(gift_of(alloc, spare, bytes, gift)?)?;
    }
    Ok(given)
}
