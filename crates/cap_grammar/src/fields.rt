//! Fields at the front of bytes, each read with the bytes after it: numbers, flags, a text's bytes, amounts.
ghost use Rattle.std.specs.Prelude.{◌≡◌, ◌≤◌, ◌<◌, ◌^◌, IfOk};
ghost use Rattle.std.specs.Int.{w16, w32, w64};
ghost use Rattle.cap_base.specs.Limits.{resources};
ghost use Rattle.cap_vector.specs.Vector.{amount_max, IsResource};
ghost use Rattle.cap_grammar.specs.Shown.{shown_amounts};
ghost use Rattle.cap_grammar.specs.Versions.{amounts_in};
ghost use Rattle.cap_grammar.specs.Fields.{Gives, byte_at, flag_at, number_at, text_at, amount_at, amounts_at};

use crate::fault::MessageFault;
use crate::head::VERSION_1;
use cap_base::RESOURCES;
use cap_vector::{AMOUNT_MAX, Amounts};

pub(crate) fn byte_of(bytes: &[u8]) -> Result<(u8, &[u8]), MessageFault>
    ensures { Gives (λ x. (x.0, x.1.now)) result (byte_at bytes.now) }
{
    match bytes {
        [] => Err(MessageFault::Bad),
        [byte, rest @ ..] => Ok((*byte, rest)),
    }
}

// A byte that is 1 or 0.
pub(crate) fn flag_of(bytes: &[u8]) -> Result<(bool, &[u8]), MessageFault>
    ensures { Gives (λ x. (x.0, x.1.now)) result (flag_at bytes.now) }
{
    let (byte, rest) = byte_of(bytes)?;
    match byte {
        0 => Ok((false, rest)),
        1 => Ok((true, rest)),
        _ => Err(MessageFault::Bad),
    }
}

pub(crate) fn u16_of(bytes: &[u8]) -> Result<(u16, &[u8]), MessageFault>
    ensures { Gives (λ x. (x.0, x.1.now)) result (number_at w16 bytes.now) }
{
    if bytes.len() < 2 {
        return Err(MessageFault::Bad);
    }
    let (front, rest) = bytes.split_at(2);
    let number = u16::from_be_bytes([front[0], front[1]]);
    Ok((number, rest))
}

pub(crate) fn u32_of(bytes: &[u8]) -> Result<(u32, &[u8]), MessageFault>
    ensures { Gives (λ x. (x.0, x.1.now)) result (number_at w32 bytes.now) }
{
    if bytes.len() < 4 {
        return Err(MessageFault::Bad);
    }
    let (front, rest) = bytes.split_at(4);
    let number = u32::from_be_bytes([front[0], front[1], front[2], front[3]]);
    Ok((number, rest))
}

pub(crate) fn u64_of(bytes: &[u8]) -> Result<(u64, &[u8]), MessageFault>
    ensures { Gives (λ x. (x.0, x.1.now)) result (number_at w64 bytes.now) }
{
    if bytes.len() < 8 {
        return Err(MessageFault::Bad);
    }
    let (front, rest) = bytes.split_at(8);
    let number = u64::from_be_bytes([
        front[0], front[1], front[2], front[3], front[4], front[5], front[6], front[7],
    ]);
    Ok((number, rest))
}

// A text's bytes, whichever they are.
pub(crate) fn text_of(bytes: &[u8]) -> Result<(&[u8], &[u8]), MessageFault>
    ensures { Gives (λ x. (x.0.now, x.1.now)) result (text_at bytes.now) }
{
    let (len, rest) = byte_of(bytes)?;
    let len = len as usize;
    if rest.len() < len {
        return Err(MessageFault::Bad);
    }
    Ok(rest.split_at(len))
}

#[tactic(auto, unfolding(crate::specs::Fields::amount_at))]
fn amount_of(bytes: &[u8]) -> Result<(u64, &[u8]), MessageFault>
    ensures gives { Gives (λ x. (x.0, x.1.now)) result (amount_at amount_max bytes.now) }
    ensures small { IfOk result (λ x. x.0 ≤ amount_max) }
{
    let (amount, rest) = u64_of(bytes)?;
    if amount > AMOUNT_MAX {
        return Err(MessageFault::Bad);
    }
    Ok((amount, rest))
}

// The amounts that a version spells, and 0 of what it does not: memory and vcores, and in version 2 GPUs.
#[tactic(auto, unfolding(crate::specs::Fields::amounts_at))]
pub(crate) fn amounts_of(
    version: u8,
    bytes: &[u8],
) -> Result<([u64; RESOURCES], &[u8]), MessageFault>
    ensures gives { Gives (λ x. (x.0, x.1.now)) result
        (amounts_at resources (amounts_in version) amount_max bytes.now) }
    ensures vector { IfOk result (λ x. IsResource resources x.0) }
{
    let (memory, rest) = amount_of(bytes)?;
    let (vcores, rest) = amount_of(rest)?;
    if version == VERSION_1 {
        return Ok(([memory, vcores, 0], rest));
    }
    let (gpus, rest) = amount_of(rest)?;
    Ok(([memory, vcores, gpus], rest))
}

/// The numbers in place of amounts that a version spells, and 0 of what it does not.
pub(crate) fn numbers_in(
    version: u8,
    bytes: &[u8],
) -> Result<([u64; RESOURCES], &[u8]), MessageFault>
    ensures { IfOk result (λ x. shown_amounts (amounts_in version) x.0 ≡ x.0) }
{
    let (first, rest) = u64_of(bytes)?;
    let (second, rest) = u64_of(rest)?;
    if version == VERSION_1 {
        return Ok(([first, second, 0], rest));
    }
    let (third, rest) = u64_of(rest)?;
    Ok(([first, second, third], rest))
}

/// The vector of these amounts, each at most `MAX`.
pub(crate) fn vector_of<const MAX: u64>(
    amounts: [u64; RESOURCES],
) -> Result<Amounts<RESOURCES, MAX>, MessageFault>
    ensures { IfOk result (λ v. v ≡ amounts) }
{
    match Amounts::new(amounts) {
        Some(vector) => Ok(vector),
        None => Err(MessageFault::Bad),
    }
}
