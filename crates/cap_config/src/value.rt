//! The value that the bytes of a property line give its key: amounts, a number, a state or a list of names (`value_of`).
ghost use Rattle.std.specs.Prelude.{◌≡◌, find, length, nat_eq, true, IfOk, IfSome};
ghost use Rattle.std.specs.List.{starts_with};
ghost use Rattle.std.specs.Option.{option_map};
ghost use Rattle.cap_text.specs.Pieces.{trimmed_bytes};
ghost use Rattle.cap_base.specs.properties.Values.{value_of, listed_names, as_amounts, number_within, state_of, amounts_of, amounts_in, pieces_of, part, gpus_in, in_brackets, resource};

use crate::names::{commas, names_for};
use cap_base::properties::{Key, Setting, Value};
use cap_base::{PathText, RESOURCES};
use cap_text::{number_of, trimmed};
use cap_vector::{AMOUNT_MAX, Resource};
use std::alloc::{AllocError, Global};

/// The greatest number of digits that a number may have.
const DIGITS_MAX: usize = 13;

/// The greatest user limit factor.
const FACTOR_MAX: u64 = 1000;

/// The greatest number of active applications that may be set.
const APPLICATIONS_MAX: u64 = 1_000_000;

/// The value that these bytes give a key. None where they have another form or range.
#[tactic(auto, unfolding(cap_base::specs::properties::Values::value_at))]
pub fn value_of<'t>(
    alloc: Global,
    key: &Key,
    bytes: &'t [u8],
) -> Result<Option<Value<'t>>, AllocError>
    ensures { IfOk result (λ value. value ≡ value_of key.now bytes.now) }
{
    match key.setting {
        Setting::Queues => listed(alloc, &key.queue, bytes),
        Setting::Capacity | Setting::MaximumCapacity => Ok(as_amounts(amounts_of(bytes))),
        Setting::UserLimitFactor => Ok(number_within(bytes, 1, FACTOR_MAX)),
        Setting::State => Ok(state_of(bytes)),
        Setting::MaximumApplications => Ok(number_within(bytes, 1, APPLICATIONS_MAX)),
        Setting::MinimumMemory
        | Setting::MinimumVcores
        | Setting::MaximumMemory
        | Setting::MaximumVcores => Ok(number_within(bytes, 1, AMOUNT_MAX)),
        Setting::MinimumGpu | Setting::MaximumGpu => Ok(number_within(bytes, 0, AMOUNT_MAX)),
    }
}

/// The names that a queue's list has.
fn listed<'t>(
    alloc: Global,
    queue: &Option<PathText>,
    bytes: &'t [u8],
) -> Result<Option<Value<'t>>, AllocError>
    ensures { IfOk result (λ value. value ≡ listed_names queue.now bytes.now) }
{
    let Some(path) = queue else {
        return Ok(None);
    };
    match names_for(alloc, path.as_bytes(), bytes)? {
        Some(names) => Ok(Some(Value::Names(names))),
        None => Ok(None),
    }
}

fn as_amounts<'t>(amounts: Option<Resource<RESOURCES>>) -> Option<Value<'t>>
    ensures { result ≡ as_amounts amounts }
{
    match amounts {
        Some(amounts) => Some(Value::Amounts(amounts)),
        None => None,
    }
}

/// A number from `least` to `most`.
#[tactic(auto, unfolding(cap_base::specs::properties::Values::number_within))]
fn number_within<'t>(bytes: &[u8], least: u64, most: u64) -> Option<Value<'t>>
    ensures { result ≡ number_within least most bytes.now }
{
    match number_of(bytes, DIGITS_MAX) {
        Some(number) if least <= number && number <= most => Some(Value::Number(number)),
        _ => None,
    }
}

#[tactic(auto, unfolding(cap_base::specs::properties::Values::state_of))]
fn state_of<'t>(bytes: &[u8]) -> Option<Value<'t>>
    ensures { result ≡ state_of bytes.now }
{
    if bytes == b"RUNNING".as_slice() {
        Some(Value::Running(true))
    } else if bytes == b"STOPPED".as_slice() {
        Some(Value::Running(false))
    } else {
        None
    }
}

/// `[memory=N,vcores=N]`, or the same with a third part `yarn.io/gpu=N`: in any order, with spaces allowed round each.
#[tactic(auto, unfolding(cap_base::specs::properties::Values::amounts_of))]
fn amounts_of(bytes: &[u8]) -> Option<Resource<RESOURCES>>
    ensures { result ≡ amounts_of bytes.now }
{
    match in_brackets(bytes) {
        Some(inner) => amounts_in(inner),
        None => None,
    }
}

/// The bytes between brackets.
#[tactic(auto, unfolding(cap_base::specs::properties::Values::in_brackets))]
fn in_brackets(bytes: &[u8]) -> Option<&[u8]>
    ensures { option_map (λ inner. inner.now) result ≡ in_brackets bytes.now }
{
    match bytes {
        [b'[', inner @ .., b']'] => Some(inner),
        _ => None,
    }
}

/// Memory, vcores and perhaps GPUs, with commas between them.
#[tactic(auto, unfolding(cap_base::specs::properties::Values::amounts_in))]
fn amounts_in(bytes: &[u8]) -> Option<Resource<RESOURCES>>
    ensures { result ≡ amounts_in (pieces_of bytes.now) }
{
    let memory = part(b"memory=", bytes);
    let vcores = part(b"vcores=", bytes);
    let gpus = part(b"yarn.io/gpu=", bytes);
    resource(memory, vcores, gpus_in(pieces(bytes), gpus))
}

/// The number after a name, in the first piece between commas that begins with it.
#[tactic(auto, unfolding(cap_base::specs::properties::Values::part))]
fn part(name: &[u8], bytes: &[u8]) -> Option<u64>
    ensures { result ≡ part name.now (pieces_of bytes.now) }
{
    match piece_with(name, bytes) {
        Some(piece) => number_of(&trimmed(piece)[name.len()..], DIGITS_MAX),
        None => None,
    }
}

/// The first piece between commas that begins with a name, spaces before it aside.
fn piece_with<'a>(name: &[u8], bytes: &'a [u8]) -> Option<&'a [u8]>
    ensures first { option_map (λ piece. trimmed_bytes piece.now) result ≡
        find (λ piece. starts_with nat_eq piece name.now) (pieces_of bytes.now) }
    ensures begins { IfSome result
        (λ piece. starts_with nat_eq (trimmed_bytes piece.now) name.now ≡ true) }
{
    let mut pieces = bytes.split(|byte| *byte == b',');
    pieces.find(|piece| trimmed(piece).starts_with(name))
}

/// How many pieces there are between commas.
fn pieces(bytes: &[u8]) -> usize
    ensures { result ≡ length (pieces_of bytes.now) }
{
    commas(bytes) + 1
}

/// The GPUs of a resource in so many pieces: those of its third piece, or 0 where memory and vcores stand alone.
#[tactic(auto, unfolding(cap_base::specs::properties::Values::gpus_in))]
fn gpus_in(pieces: usize, gpus: Option<u64>) -> Option<u64>
    ensures { result ≡ gpus_in pieces gpus }
{
    match gpus {
        Some(gpus) if pieces == 3 => Some(gpus),
        None if pieces == 2 => Some(0),
        _ => None,
    }
}

/// A resource of these amounts, each at most the greatest.
#[tactic(auto, unfolding(cap_base::specs::properties::Values::resource))]
fn resource(
    memory: Option<u64>,
    vcores: Option<u64>,
    gpus: Option<u64>,
) -> Option<Resource<RESOURCES>>
    ensures { result ≡ resource memory vcores gpus }
{
    match (memory, vcores, gpus) {
        (Some(memory), Some(vcores), Some(gpus)) => Resource::new([memory, vcores, gpus]),
        _ => None,
    }
}
