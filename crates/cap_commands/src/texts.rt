//! The commands `check` and `explain`: the settings in an input are checked, or its lines explained.
ghost use Rattle.std.specs.Prelude.{◌≡◌, ◌<◌};
ghost use Rattle.cap_session.specs.Counted.{state_of, CanCount};

use crate::input::read_all;
use cap_config::{ConfigFaultKind, DetailedFault, read_detailed};
use cap_explain::explain;
use cap_session::{Counted, write_out};
use cap_words::{describe, queue_table};
use std::alloc::Global;
use std::io::{Read, Write};

/// Reads an operator's property lines and writes a table of their queues. The result is the exit status: 0 for settings without a
/// fault; 1 if a stream failed; 2 for a fault, whose words are left in `complaint`; 3 if an allocation failed.
pub(crate) fn check_settings<R: Read, W: Write>(
    alloc: Global,
    reader: &mut Counted<R>,
    writer: &mut Counted<W>,
    complaint: &mut String,
) -> u8
    requires reader { CanCount (state_of reader.old) }
    requires writer { CanCount (state_of writer.old) }
    ensures status { result < 4 }
    ensures failed { (state_of writer.old).failures < (state_of writer.new).failures → result ≡ 1 }
{
    let text = match read_all(alloc, reader) {
        Ok(text) => text,
        Err(unread) => return unread.status(),
    };
    match read_detailed(alloc, &text) {
        Ok(config) => match queue_table(alloc, &config) {
            Ok(table) => print(writer, table.as_bytes()),
            Err(_) => 3,
        },
        Err(found) => complain(alloc, &text, &found, complaint),
    }
}

/// Leaves the words for a fault of the settings in `complaint`.
pub fn complain(alloc: Global, text: &[u8], found: &DetailedFault, complaint: &mut String) -> u8
    ensures { result < 4 }
{
    if found.fault.kind == ConfigFaultKind::NoMemory {
        return 3;
    }
    let Ok(words) = describe(alloc, text, found) else {
        return 3;
    };
    match (complaint.push_str(words.as_str()), complaint.push_str("\n")) {
        (Ok(()), Ok(())) => 2,
        _ => 3,
    }
}

/// Reads a script, or what `replay` prints, and writes its lines with words under them. The result is the exit status: 0 done; 1 if a
/// stream failed; 3 if an allocation failed.
pub(crate) fn explain_lines<R: Read, W: Write>(
    alloc: Global,
    reader: &mut Counted<R>,
    writer: &mut Counted<W>,
) -> u8
    requires reader { CanCount (state_of reader.old) }
    requires writer { CanCount (state_of writer.old) }
    ensures status { result < 4 }
    ensures failed { (state_of writer.old).failures < (state_of writer.new).failures → result ≡ 1 }
{
    let text = match read_all(alloc, reader) {
        Ok(text) => text,
        Err(unread) => return unread.status(),
    };
    match explain(alloc, &text) {
        Ok(explained) => print(writer, &explained),
        Err(_) => 3,
    }
}

/// Writes the bytes. The result is the exit status: 0, or 1 if the writer failed.
pub fn print<W: Write>(writer: &mut Counted<W>, bytes: &[u8]) -> u8
    requires { CanCount (state_of writer.old) }
    ensures status { result < 4 }
    ensures failed { (state_of writer.old).failures < (state_of writer.new).failures → result ≡ 1 }
{
    match write_out(writer, bytes) {
        Ok(()) => 0,
        Err(_) => 1,
    }
}

/// Prints that an allocation failed. The result is the exit status: 3, or 1 if the writer failed.
pub fn no_memory<W: Write>(writer: &mut Counted<W>) -> u8
    requires { CanCount (state_of writer.old) }
    ensures status { result < 4 }
    ensures failed { (state_of writer.old).failures < (state_of writer.new).failures → result ≡ 1 }
{
    match print(writer, b"no memory\n") {
        0 => 3,
        failed => failed,
    }
}
