//! What is printed: lines of words, numbers and frames.
//! Where an allocation fails nothing of a line is printed: it is put together beside what was printed before, or taken back.
ghost use Rattle.std.specs.Prelude.{◌≡◌, ◌+◌, ◌*◌, ◌++◌, ◌<◌, ◌∷◌, [], length, IfSome, OnOk, OnErr, decimal, take, drop};
ghost use Rattle.hex.specs.Hex.{encode_lower};
ghost use Rattle.cap_model.specs.Admission.{reason_number};
ghost use Rattle.cap_replay.specs.Print.{number_line, fault_line, frame_line, blanked, choice_line, proposal_words, gpus_words, verdict_line, made_words, reason_words};

use cap_base::RESOURCES;
use cap_model::{Event, Proposal, Reason, Verdict};
use itoa::{Buffer, Integer};
use std::alloc::AllocError;

/// Prints a line of words that end with a blank, and a number in decimal.
pub(crate) fn print_number<I: Integer>(
    printed: &mut Vec<u8>,
    words: &[u8],
    number: I,
) -> Result<(), AllocError>
    ensures ok { OnOk result (printed.new.items
        ≡ printed.old.items ++ number_line words.now (I.text number)) }
    ensures err { OnErr result (printed.new.items ≡ printed.old.items) }
{
    let mut line = Vec::new(*printed.allocator());
    put_number(&mut line, words, number)?;
    printed.extend_from_slice(&line)
}

/// Puts words that end with a blank, a number in decimal and the end of the line.
fn put_number<I: Integer>(line: &mut Vec<u8>, words: &[u8], number: I) -> Result<(), AllocError>
    ensures { OnOk result (line.new.items
        ≡ line.old.items ++ number_line words.now (I.text number)) }
{
    let mut buffer = Buffer::new();
    line.extend_from_slice(words)?;
    line.extend_from_slice(buffer.format(number).as_bytes())?;
    line.extend_from_slice(b"\n")
}

/// Prints the line of a fault of the settings.
pub(crate) fn print_fault(printed: &mut Vec<u8>, line: usize, kind: u8) -> Result<(), AllocError>
    ensures ok { OnOk result (printed.new.items ≡ printed.old.items ++ fault_line line kind) }
    ensures err { OnErr result (printed.new.items ≡ printed.old.items) }
{
    let mut words = Vec::new(*printed.allocator());
    put_fault(&mut words, line, kind)?;
    printed.extend_from_slice(&words)
}

/// Puts the line of a fault of the settings.
fn put_fault(words: &mut Vec<u8>, line: usize, kind: u8) -> Result<(), AllocError>
    ensures { OnOk result (words.new.items ≡ words.old.items ++ fault_line line kind) }
{
    let mut buffer = Buffer::new();
    words.extend_from_slice(b"config ")?;
    words.extend_from_slice(buffer.format(line).as_bytes())?;
    put_number(words, b" ", kind)
}

/// Puts words, and numbers in decimal with a blank before each.
fn put_numbers(line: &mut Vec<u8>, words: &[u8], numbers: &[u64]) -> Result<(), AllocError>
    ensures { OnOk result (line.new.items
        ≡ line.old.items ++ words.now ++ blanked numbers.now) }
{
    let mut buffer = Buffer::new();
    line.extend_from_slice(words)?;
    for number in numbers {
        line.extend_from_slice(b" ")?;
        line.extend_from_slice(buffer.format(*number).as_bytes())?;
    }
    Ok(())
}

/// Prints the line of what a worker proposes.
pub(crate) fn print_choice(
    printed: &mut Vec<u8>,
    worker: u32,
    choice: Option<Proposal<RESOURCES>>,
) -> Result<(), AllocError>
    ensures ok { OnOk result (printed.new.items ≡ printed.old.items ++ choice_line worker choice) }
    ensures err { OnErr result (printed.new.items ≡ printed.old.items) }
{
    let mut line = Vec::new(*printed.allocator());
    put_choice(&mut line, worker, choice)?;
    printed.extend_from_slice(&line)
}

/// Puts the line of what a worker proposes.
fn put_choice(
    line: &mut Vec<u8>,
    worker: u32,
    choice: Option<Proposal<RESOURCES>>,
) -> Result<(), AllocError>
    ensures { OnOk result (line.new.items ≡ line.old.items ++ choice_line worker choice) }
{
    put_numbers(line, b"proposed", &[u64::from(worker)])?;
    match choice {
        Some(proposal) => put_proposal(line, &proposal)?,
        None => line.extend_from_slice(b" none")?,
    }
    line.extend_from_slice(b"\n")
}

/// Puts a proposal: its kind, application, priority, allocation request id and node, and its MiB, vcores and GPUs, without the GPUs
/// where there are none.
fn put_proposal(line: &mut Vec<u8>, proposal: &Proposal<RESOURCES>) -> Result<(), AllocError>
    ensures { OnOk result (line.new.items
        ≡ line.old.items ++ proposal_words proposal.now) }
{
    let kind: &[u8] = if proposal.is_grant() {
        b" grant"
    } else {
        b" reserve"
    };
    let key = proposal.key();
    let amounts = proposal.resource().amounts();
    let numbers = [
        proposal.app(),
        u64::from(key.priority),
        key.request,
        proposal.node(),
        amounts[0],
        amounts[1],
    ];
    put_numbers(line, kind, &numbers)?;
    put_gpus(line, amounts[2])
}

/// Puts the GPUs of a proposal, where there are any.
#[tactic(auto, unfolding(crate::specs::Print::gpus_words))]
fn put_gpus(line: &mut Vec<u8>, gpus: u64) -> Result<(), AllocError>
    ensures { OnOk result (line.new.items ≡ line.old.items ++ gpus_words gpus) }
{
    if gpus == 0 {
        return Ok(());
    }
    put_numbers(line, b"", &[gpus])
}

/// Prints the line of what a worker's commit came to.
pub(crate) fn print_verdict(
    printed: &mut Vec<u8>,
    worker: u32,
    verdict: &Verdict<RESOURCES>,
) -> Result<(), AllocError>
    ensures ok { OnOk result (printed.new.items
        ≡ printed.old.items ++ verdict_line worker verdict.now) }
    ensures err { OnErr result (printed.new.items ≡ printed.old.items) }
{
    let mut line = Vec::new(*printed.allocator());
    put_verdict(&mut line, worker, verdict)?;
    printed.extend_from_slice(&line)
}

/// Puts the line of what a worker's commit came to.
fn put_verdict(
    line: &mut Vec<u8>,
    worker: u32,
    verdict: &Verdict<RESOURCES>,
) -> Result<(), AllocError>
    ensures { OnOk result (line.new.items
        ≡ line.old.items ++ verdict_line worker verdict.now) }
{
    match verdict {
        Verdict::Done(event) => {
            put_numbers(line, b"done", &[u64::from(worker)])?;
            put_made(line, event)?;
        }
        Verdict::Rejected(reason) => {
            put_numbers(line, b"rejected", &[u64::from(worker)])?;
            put_reason(line, *reason)?;
        }
    }
    line.extend_from_slice(b"\n")
}

/// Puts the event of a proposal that was made.
fn put_made(line: &mut Vec<u8>, event: &Event<RESOURCES>) -> Result<(), AllocError>
    ensures { OnOk result (line.new.items ≡ line.old.items ++ made_words event.now) }
{
    match event {
        Event::Grant { container } => put_numbers(line, b" grant", &[container.number()]),
        Event::Reserve { .. } => line.extend_from_slice(b" reserve"),
        Event::Call { .. } => Ok(()),
    }
}

/// Puts the number of a reason, and of a maximum that would be passed its level.
fn put_reason(line: &mut Vec<u8>, reason: Reason) -> Result<(), AllocError>
    ensures { OnOk result (line.new.items ≡ line.old.items ++ reason_words reason) }
{
    match reason {
        Reason::OverMaximum { level } => {
            put_numbers(line, b"", &[u64::from(number_of(reason)), level as u64])
        }
        _ => put_numbers(line, b"", &[u64::from(number_of(reason))]),
    }
}

/// The number of a reason, in the order in which they are looked for.
fn number_of(reason: Reason) -> u8
    ensures { result ≡ reason_number reason }
{
    match reason {
        Reason::NoApp => 1,
        Reason::NoAsk => 2,
        Reason::OtherAsk => 3,
        Reason::NoNode => 4,
        Reason::WrongPlace => 5,
        Reason::ReservedByOther => 6,
        Reason::NoRoom => 7,
        Reason::OverMaximum { .. } => 8,
        Reason::OverUser => 9,
        Reason::TooManyLive => 10,
        Reason::FitsNow => 11,
        Reason::NeverFits => 12,
        Reason::NumbersSpent => 13,
    }
}

/// Prints a line for each frame of the output of a connection, in hexadecimal with its length. Where an allocation fails the lines before it
/// stay.
pub(crate) fn print_frames(
    printed: &mut Vec<u8>,
    number: u32,
    output: &[u8],
) -> Result<(), AllocError> {
    let mut rest = output;
    while let Some((frame, after)) = first_frame(rest) {
        print_frame(printed, number, frame)?;
        rest = after;
    }
    Ok(())
}

/// The room for what a line of a frame says beside its bytes: `out`, the number of the connection, blanks and the end of the line.
const WORDS_ROOM: usize = 16;

/// Prints the line of a frame. Its room is taken at once.
fn print_frame(printed: &mut Vec<u8>, number: u32, frame: &[u8]) -> Result<(), AllocError>
    ensures ok { OnOk result
        (printed.new.items ≡ printed.old.items ++ frame_line number frame.now) }
    ensures err { OnErr result (printed.new.items ≡ printed.old.items) }
{
    let before = printed.len();
    printed.reserve(frame.len().saturating_mul(2).saturating_add(WORDS_ROOM))?;
    match put_frame(printed, number, frame) {
        Ok(()) => Ok(()),
        Err(error) => {
            printed.truncate(before);
            Err(error)
        }
    }
}

/// Puts the line of a frame. Where an allocation fails a part of it is there, behind what was there before.
fn put_frame(line: &mut Vec<u8>, number: u32, frame: &[u8]) -> Result<(), AllocError>
    ensures ok { OnOk result (line.new.items ≡ line.old.items ++ frame_line number frame.now) }
    ensures err { OnErr result
        (take (length line.old.items) line.new.items ≡ line.old.items) }
{
    let mut buffer = Buffer::new();
    line.extend_from_slice(b"out ")?;
    line.extend_from_slice(buffer.format(number).as_bytes())?;
    line.extend_from_slice(b" ")?;
    put_hex(line, frame)?;
    line.extend_from_slice(b"\n")
}

/// Puts bytes in hexadecimal.
fn put_hex(line: &mut Vec<u8>, bytes: &[u8]) -> Result<(), AllocError>
    ensures ok { OnOk result (line.new.items ≡ line.old.items ++ encode_lower bytes.now) }
    ensures err { OnErr result (line.new.items ≡ line.old.items) }
{
    let start = line.len();
    let Some(end) = bytes
        .len()
        .checked_mul(2)
        .and_then(|n| n.checked_add(start))
    else {
        return Err(AllocError);
    };
    line.resize(end, 0)?;
    let Ok(()) = hex::encode_to_slice(bytes, &mut line.as_mut_slice()[start..]) else {
        unreachable!()
    };
    Ok(())
}

/// The first frame with its length, and what follows it.
fn first_frame(output: &[u8]) -> Option<(&[u8], &[u8])>
    ensures less { IfSome result (λ cut. length cut.1.now < length output.now) }
{
    let length = u32::from_be_bytes(*output.first_chunk::<4>()?) as usize;
    if output.len() - 4 < length {
        return None;
    }
    Some(output.split_at(4 + length))
}
