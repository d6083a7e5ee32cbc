//! Lines of an audit file, put behind what was put before (`put_event`, `put_epoch`, `put_closed`, `put_property`).
ghost use Rattle.std.specs.Prelude.{◌≡◌, ◌++◌, ◌∷◌, IfErr, OnOk};
ghost use Rattle.hex.specs.Hex.{encode_lower};
ghost use Rattle.cap_grammar.specs.Spelling.{FitsRequest, IsOfKind, kind_of};
ghost use Rattle.cap_journal.specs.declared.fault.LineFault.TheVariants.{NoMemory as out_of_memory};
ghost use Rattle.cap_journal.specs.Lines.{call_words, closed_words, epoch_words, event_words, grant_words, property_words, reserve_words};

use crate::fault::LineFault;
use crate::kinds::is_of_kind;
use crate::words::{put_hex, put_numbers};
use cap_base::RESOURCES;
use cap_grammar::{
    Head, Out, REPLY_ROOM, REQUEST_ROOM, has_spelling, kind, write_reply, write_request,
};
use cap_model::{Container, Event, ReplyView, Request, Reservation};
use std::alloc::{AllocError, Global};

/// The head of all messages in an audit file.
pub const HEAD: Head = Head {
    version: 2,
    call_id: 0,
};

/// Puts the line of a property line of the settings, without its end.
pub fn put_property(line: &mut Vec<u8>, property: &[u8]) -> Result<(), AllocError>
    ensures { OnOk result (line.new.items ≡ line.old.items ++ property_words property.now) }
{
    line.extend_from_slice(b"conf ")?;
    line.extend_from_slice(property)
}

/// Puts the line with which an epoch of this number begins, without its end.
pub fn put_epoch(line: &mut Vec<u8>, number: u64) -> Result<(), AllocError>
    ensures { OnOk result (line.new.items ≡ line.old.items ++ epoch_words number) }
{
    put_numbers(line, b"epoch", &[number])
}

/// Puts the line with which an epoch of so many entries ends, without its end.
pub fn put_closed(line: &mut Vec<u8>, entries: u64) -> Result<(), AllocError>
    ensures { OnOk result (line.new.items ≡ line.old.items ++ closed_words entries) }
{
    put_numbers(line, b"closed", &[entries])
}

/// Puts the line of a call and its reply, without its end. `NoSpelling` where the request has no spelling in version 2, or the reply
/// is none to it. Where it fails a part of the line may have been put. Both are written into `message` first, whose room stays.
pub fn put_call(
    message: &mut Out,
    line: &mut Vec<u8>,
    by: u32,
    request: &Request<RESOURCES>,
    reply: &ReplyView<'_, RESOURCES>,
) -> Result<(), LineFault>
    ensures put { OnOk result (line.new.items
        ≡ line.old.items ++ call_words by request.now reply.now) }
    ensures spelled { FitsRequest 2 request.now → IsOfKind (kind_of request.now) reply.now
        → IfErr result (λ fault. fault ≡ out_of_memory) }
{
    let kind = kind(request);
    if !has_spelling(HEAD.version, request) || !is_of_kind(kind, reply) {
        return Err(LineFault::NoSpelling);
    }
    put_numbers(line, b"call", &[u64::from(by)])?;
    message.clear();
    message.reserve(REQUEST_ROOM)?;
    write_request(HEAD, request, message);
    put_message(line, message)?;
    message.clear();
    message.reserve(REPLY_ROOM)?;
    write_reply(HEAD, kind, reply, message);
    put_message(line, message)?;
    Ok(())
}

/// Puts a blank, and the bytes of a message in hexadecimal.
fn put_message(line: &mut Vec<u8>, message: &Out) -> Result<(), AllocError>
    ensures { OnOk result (line.new.items
        ≡ line.old.items ++ 32 ∷ encode_lower message.now.items) }
{
    line.extend_from_slice(b" ")?;
    put_hex(line, message.as_slice())
}

/// Puts the line of a grant, without its end.
pub fn put_grant(line: &mut Vec<u8>, container: &Container<RESOURCES>) -> Result<(), AllocError>
    ensures { OnOk result (line.new.items ≡ line.old.items ++ grant_words container.now) }
{
    let key = container.key();
    let [memory, vcores, gpus] = container.resource().amounts();
    put_numbers(
        line,
        b"grant",
        &[
            container.number(),
            container.app(),
            u64::from(key.priority),
            key.request,
            container.node(),
            memory,
            vcores,
            gpus,
        ],
    )
}

/// Puts the line of a reservation, without its end.
pub fn put_reserve(
    line: &mut Vec<u8>,
    reservation: &Reservation<RESOURCES>,
) -> Result<(), AllocError>
    ensures { OnOk result (line.new.items ≡ line.old.items ++ reserve_words reservation.now) }
{
    let key = reservation.key();
    let [memory, vcores, gpus] = reservation.resource().amounts();
    put_numbers(
        line,
        b"reserve",
        &[
            reservation.app(),
            u64::from(key.priority),
            key.request,
            reservation.node(),
            memory,
            vcores,
            gpus,
        ],
    )
}

/// Puts the line of an event, without its end. `NoSpelling` and `message` as of `put_call`. Where it fails a part of the line may have
/// been put.
pub fn put_event(
    alloc: Global,
    message: &mut Out,
    line: &mut Vec<u8>,
    event: &Event<RESOURCES>,
) -> Result<(), LineFault>
    ensures { OnOk result (line.new.items ≡ line.old.items ++ event_words event.now) }
{
    match event {
        Event::Call { by, request, reply } => {
            let Ok(request) = request.request(alloc) else {
                return Err(LineFault::NoMemory);
            };
            put_call(message, line, *by, &request, &reply.view())
        }
        Event::Grant { container } => Ok(put_grant(line, container)?),
        Event::Reserve { reservation } => Ok(put_reserve(line, reservation)?),
    }
}
