//! Lists at the front of bytes, each with its length before it: asks, container numbers, and the bytes of property lines.
ghost use Rattle.std.specs.Prelude.{◌≡◌, ◌≤◌, nat_le, IfOk, IsErrOf};
ghost use Rattle.std.specs.Int.{w16, w32, w64};
ghost use Rattle.cap_grammar.specs.Fields.{Gives, counted_at, byte_at, number_at, passing_at};
ghost use Rattle.cap_grammar.specs.Bodies.{HasItemsAt, an_ask, lines};
ghost use Rattle.cap_grammar.specs.Reading.{GivesInMemory};
ghost use Rattle.cap_grammar.specs.Versions.{amounts_in};
ghost use Rattle.cap_base.specs.Limits.{asks_max, numbers_max, resources, text_max};

use crate::fault::MessageFault;
use crate::fields::{amounts_of, text_of, u16_of, u32_of, u64_of};
use crate::texts::place_from;
use cap_base::{NoMemory, RESOURCES};
use cap_model::{Ask, Asks, Key, List, Numbers, SettingsText};
use cap_vector::Resource;
use std::alloc::Global;

/// The most asks of one request.
const ASKS_MAX: u16 = 256;

/// The most releases, or ended containers, of one request.
const NUMBERS_MAX: u16 = 1024;

/// The most bytes of property lines of one request.
const TEXT_MAX: u32 = 65_526;

// The length of a list, at most so long.
fn length_of(most: u16, bytes: &[u8]) -> Result<(u16, &[u8]), MessageFault>
    ensures gives { Gives (λ x. (x.0, x.1.now)) result
        (passing_at (λ n. nat_le n most) (number_at w16) bytes.now) }
    ensures few { IfOk result (λ x. x.0 ≤ most) }
{
    let (length, rest) = u16_of(bytes)?;
    if length > most {
        return Err(MessageFault::Bad);
    }
    Ok((length, rest))
}

// Container numbers.
pub(crate) fn numbers_of(alloc: Global, bytes: &[u8]) -> Result<(Numbers, &[u8]), MessageFault>
    ensures gives { GivesInMemory (λ x. (x.0, x.1.now))
        result (counted_at (number_at w16) numbers_max (number_at w64) bytes.now) }
    ensures memory { IsErrOf result MessageFault.NoMemory → HasItemsAt w16 0 bytes.now }
{
    let Ok((length, mut rest)) = length_of(NUMBERS_MAX, bytes) else {
        return Err(MessageFault::Bad);
    };
    if length == 0 {
        return Ok((List::empty(), rest));
    }
    let Ok(mut numbers) = Vec::with_capacity(alloc, length as usize) else {
        return Err(MessageFault::NoMemory);
    };
    for i in 0..length {
        let Ok((number, after)) = u64_of(rest) else {
            return Err(MessageFault::Bad);
        };
        let Ok(()) = numbers.push(number) else {
            return Err(MessageFault::NoMemory);
        };
        rest = after;
    }
    match List::of(alloc, numbers) {
        Ok(numbers) => Ok((numbers, rest)),
        Err(NoMemory) => Err(MessageFault::NoMemory),
    }
}

// Asks.
pub(crate) fn asks_of(
    alloc: Global,
    version: u8,
    bytes: &[u8],
) -> Result<(Asks<RESOURCES>, &[u8]), MessageFault>
    ensures gives { GivesInMemory (λ x. (x.0, x.1.now))
        result (counted_at (number_at w16) asks_max (an_ask resources (amounts_in version)).read bytes.now) }
    ensures memory { IsErrOf result MessageFault.NoMemory → HasItemsAt w16 0 bytes.now }
{
    let Ok((length, mut rest)) = length_of(ASKS_MAX, bytes) else {
        return Err(MessageFault::Bad);
    };
    if length == 0 {
        return Ok((List::empty(), rest));
    }
    let Ok(mut asks) = Vec::with_capacity(alloc, length as usize) else {
        return Err(MessageFault::NoMemory);
    };
    for i in 0..length {
        let Ok(read) = ask_of(version, rest) else {
            return Err(MessageFault::Bad);
        };
        let Ok(()) = asks.push(read.0) else {
            return Err(MessageFault::NoMemory);
        };
        rest = read.1;
    }
    match List::of(alloc, asks) {
        Ok(asks) => Ok((asks, rest)),
        Err(NoMemory) => Err(MessageFault::NoMemory),
    }
}

// How many bytes of property lines there are, at most so many.
fn size_of(bytes: &[u8]) -> Result<(u32, &[u8]), MessageFault>
    ensures gives { Gives (λ x. (x.0, x.1.now)) result
        (passing_at (λ n. nat_le n text_max) (number_at w32) bytes.now) }
    ensures few { IfOk result (λ x. x.0 ≤ text_max) }
{
    let (size, rest) = u32_of(bytes)?;
    if size > TEXT_MAX {
        return Err(MessageFault::Bad);
    }
    Ok((size, rest))
}

// Property lines.
pub(crate) fn lines_of(alloc: Global, bytes: &[u8]) -> Result<(SettingsText, &[u8]), MessageFault>
    ensures gives { GivesInMemory (λ x. (x.0, x.1.now)) result (lines.read bytes.now) }
    ensures memory { IsErrOf result MessageFault.NoMemory → HasItemsAt w32 0 bytes.now }
{
    let Ok((size, rest)) = size_of(bytes) else {
        return Err(MessageFault::Bad);
    };
    let size = size as usize;
    if rest.len() < size {
        return Err(MessageFault::Bad);
    }
    let (lines, rest) = rest.split_at(size);
    if size == 0 {
        return Ok((List::empty(), rest));
    }
    let mut text = Vec::new(alloc);
    let Ok(()) = text.extend_from_slice(lines) else {
        return Err(MessageFault::NoMemory);
    };
    match List::of(alloc, text) {
        Ok(text) => Ok((text, rest)),
        Err(NoMemory) => Err(MessageFault::NoMemory),
    }
}

// One ask: priority, request id, count, resource and place.
#[tactic(auto, unfolding(crate::specs::Bodies::an_ask))]
fn ask_of(version: u8, bytes: &[u8]) -> Result<(Ask<RESOURCES>, &[u8]), MessageFault>
    ensures { Gives (λ x. (x.0, x.1.now)) result
        ((an_ask resources (amounts_in version)).read bytes.now) }
{
    let (priority, rest) = u32_of(bytes)?;
    let (request, rest) = u64_of(rest)?;
    let (count, rest) = u32_of(rest)?;
    let (amounts, rest) = amounts_of(version, rest)?;
    let Some(resource) = Resource::new(amounts) else {
        return Err(MessageFault::Bad);
    };
    let (place, rest) = text_of(rest)?;
    let place = place_from(place)?;
    let ask = Ask::new(&Key { priority, request }, count, &resource, &place);
    Ok((ask, rest))
}
