//! One line of words for the first fault of property lines: its line, its key, and what is wrong (`describe`).
ghost use Rattle.std.specs.Prelude.{◌≡◌, ◌++◌, IfOk, OnOk, string_bytes};
ghost use Rattle.std.specs.Option.{option_map};
ghost use Rattle.cap_words.specs.Faults.{Describes, heading, line_words, key_words, form_words, limit_words, each_over, detail_words};
ghost use Rattle.cap_config.specs.LineKeys.{line_key};

use crate::amounts::{put_number, put_over};
use crate::text::text_of;
use cap_base::{NoMemory, RESOURCES};
use cap_config::{Detail, DetailedFault, Limit, Setting, line_key};
use std::alloc::{AllocError, Global};

/// One line of words for the first fault of these property lines, without a line feed: the number of its line, the key
/// there, and what is wrong. Where amounts are over a limit, it has each in MiB, vcores or GPUs and the limit.
///
/// A fault without a line has no number, and a line whose key is missing or not printable has no key. Any fault has words,
/// also one of another text. `NoMemory` if an allocation fails.
pub fn describe(alloc: Global, text: &[u8], found: &DetailedFault) -> Result<String, NoMemory>
    ensures { IfOk result (λ words. Describes text.now found.now (string_bytes words)) }
{
    match described(alloc, text, found) {
        Ok(words) => Ok(words),
        Err(_) => Err(NoMemory),
    }
}

fn described(alloc: Global, text: &[u8], found: &DetailedFault) -> Result<String, AllocError>
    ensures { IfOk result (λ words. Describes text.now found.now (string_bytes words)) }
{
    let kind = found.fault.kind;
    let general = format!(in alloc; "{kind}")?;
    let mut words = heading(alloc, text, found.fault.line)?;
    put_detail(&mut words, general.as_str(), &found.detail)?;
    Ok(words)
}

/// The number of a line and its key, each where there is one.
#[tactic(auto, unfolding(crate::specs::Faults::heading))]
fn heading(alloc: Global, text: &[u8], line: usize) -> Result<String, AllocError>
    ensures { IfOk result (λ words. string_bytes words ≡ heading text.now line) }
{
    let mut words = String::new(alloc);
    put_line(&mut words, line)?;
    put_key(&mut words, line_key(text, line))?;
    Ok(words)
}

fn put_line(words: &mut String, line: usize) -> Result<(), AllocError>
    ensures { OnOk result (string_bytes words.new ≡ string_bytes words.old ++ line_words line) }
{
    if line == 0 {
        return Ok(());
    }
    words.push_str("line ")?;
    put_number(words, line)?;
    words.push_str(": ")
}

fn put_key(words: &mut String, key: Option<&str>) -> Result<(), AllocError>
    ensures { OnOk result (string_bytes words.new ≡ string_bytes words.old
        ++ key_words (option_map (λ key. key.now) key.entry)) }
{
    match key {
        Some(key) => {
            words.push_str(key)?;
            words.push_str(": ")
        }
        None => Ok(()),
    }
}

/// Adds what there is to say of a fault, or the general words where there is nothing beyond its kind.
fn put_detail(words: &mut String, general: &str, detail: &Detail) -> Result<(), AllocError>
    ensures { OnOk result (string_bytes words.new ≡ string_bytes words.old
        ++ detail_words general.now detail.now) }
{
    match detail {
        Detail::Plain => words.push_str(general),
        Detail::Earlier(line) => {
            words.push_str("line ")?;
            put_number(words, *line)?;
            words.push_str(" sets the same property: keep one of the two lines")
        }
        Detail::Form(setting) => words.push_str(form_words(*setting)),
        Detail::Unlisted(path) => {
            words.push_str(text_of(path))?;
            words.push_str(" is not listed by the .queues line of the queue above it")
        }
        Detail::Over {
            limit,
            amounts,
            most,
        } => {
            words.push_str(limit_words(*limit))?;
            put_each_over(words, *amounts, *most)
        }
    }
}

/// What a value of a property must be.
#[tactic(auto, unfolding(crate::specs::Faults::form_words))]
fn form_words(setting: Setting) -> &'static str
    ensures { result.now ≡ form_words setting }
{
    match setting {
        Setting::Queues => {
            "the value must be names with commas between them, each of 1 to 64 letters, digits, _ or -, none of them twice, and no queue's path over 255 bytes"
        }
        Setting::Capacity | Setting::MaximumCapacity => {
            "the value must be [memory=N,vcores=N] or [memory=N,vcores=N,yarn.io/gpu=N], each N a number from 0 to 1099511627776"
        }
        Setting::UserLimitFactor => "the value must be a number from 1 to 1000",
        Setting::State => "the value must be RUNNING or STOPPED",
        Setting::MaximumApplications => "the value must be a number from 1 to 1000000",
        Setting::MinimumMemory
        | Setting::MinimumVcores
        | Setting::MaximumMemory
        | Setting::MaximumVcores => "the value must be a number from 1 to 1099511627776",
        Setting::MinimumGpu | Setting::MaximumGpu => {
            "the value must be a number from 0 to 1099511627776"
        }
    }
}

/// What is over a limit.
#[tactic(auto, unfolding(crate::specs::Faults::limit_words))]
fn limit_words(limit: Limit) -> &'static str
    ensures { result.now ≡ limit_words limit }
{
    match limit {
        Limit::MaximumAllocation => "the minimum allocation is more than the maximum",
        Limit::OwnMaximum => "more than the queue's maximum-capacity",
        Limit::InheritedMaximum => "more than the maximum-capacity that the queue inherits",
        Limit::MaximumAbove => "more than the maximum-capacity of the queue above",
        Limit::OwnCapacity => {
            "the capacities of the queues below add up to more than the queue's capacity"
        }
    }
}

/// Adds each amount that is over, and its limit.
#[tactic(auto, unfolding(crate::specs::Faults::each_over))]
fn put_each_over(
    words: &mut String,
    amounts: [u64; RESOURCES],
    most: [u64; RESOURCES],
) -> Result<(), AllocError>
    ensures { OnOk result (string_bytes words.new
        ≡ string_bytes words.old ++ each_over amounts most) }
{
    put_over(words, ", memory ", amounts[0], most[0])?;
    put_over(words, ", vcores ", amounts[1], most[1])?;
    put_over(words, ", yarn.io/gpu ", amounts[2], most[2])
}
