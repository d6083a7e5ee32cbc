//! Which bytes are a host, a rack, a queue's path, a user or a place, and the text of them.
ghost use Rattle.cap_grammar.specs.Texts.{is_host, is_rack, is_path, is_user, is_place};
ghost use Rattle.cap_grammar.specs.Fields.{Gives, what_passes};

use crate::fault::MessageFault;
use cap_model::{PathText, ShortText};

// A host: a text that is neither `*` nor begins with `/`, since those name any place and a rack.
pub(crate) fn host_from(bytes: &[u8]) -> Result<ShortText, MessageFault>
    ensures { Gives (λ host. host) result (what_passes is_host bytes.now) }
{
    let Some(host) = ShortText::new(bytes) else {
        return Err(MessageFault::Bad);
    };
    if bytes[0] == b'/' || (bytes.len() == 1 && bytes[0] == b'*') {
        return Err(MessageFault::Bad);
    }
    Ok(host)
}

// A rack: a text that begins with `/`.
pub(crate) fn rack_from(bytes: &[u8]) -> Result<ShortText, MessageFault>
    ensures { Gives (λ rack. rack) result (what_passes is_rack bytes.now) }
{
    let Some(rack) = ShortText::new(bytes) else {
        return Err(MessageFault::Bad);
    };
    if bytes[0] != b'/' {
        return Err(MessageFault::Bad);
    }
    Ok(rack)
}

// The path of a queue: any text. Whether a queue has it is the engine's to say.
pub(crate) fn path_from(bytes: &[u8]) -> Result<PathText, MessageFault>
    ensures { Gives (λ path. path) result (what_passes is_path bytes.now) }
{
    let Some(path) = PathText::new(bytes) else {
        return Err(MessageFault::Bad);
    };
    Ok(path)
}

// The user of an application: any text.
pub(crate) fn user_from(bytes: &[u8]) -> Result<ShortText, MessageFault>
    ensures { Gives (λ user. user) result (what_passes is_user bytes.now) }
{
    let Some(user) = ShortText::new(bytes) else {
        return Err(MessageFault::Bad);
    };
    Ok(user)
}

// Where an ask may be met: any text.
pub(crate) fn place_from(bytes: &[u8]) -> Result<ShortText, MessageFault>
    ensures { Gives (λ place. place) result (what_passes is_place bytes.now) }
{
    let Some(place) = ShortText::new(bytes) else {
        return Err(MessageFault::Bad);
    };
    Ok(place)
}
