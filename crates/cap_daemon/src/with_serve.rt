//! The words of the command line with `serve` among them, to an exit status (`run`).
ghost use Rattle.std.specs.Prelude.{◌≡◌, ◌<◌};
ghost use Rattle.cap_session.specs.Counted.{state_of, CanCount};

use crate::serve::{serve, serve_command};
use cap_commands::{Counted, command_line, explain_failure, no_memory, perform, report};
use clap::Command;
use std::alloc::{AllocError, Global};
use std::convert::AsStr;
use std::fs::File;
use std::io::{Input, Read, Write};
use std::net::{Net, TcpListener, TcpStream};
use std::rt::Files;
use std::sync::Wait;
use std::thread::Threads;
use std::time::Clock;

/// Runs the program on the words of its command line, as `cap_commands::run` does: `serve` is the daemon besides. The exit status
/// and what is left in `complaint` are as there.
pub fn run<
    'a,
    H: Net<Listener = TcpListener, Stream = TcpStream>
        + Threads
        + Wait
        + Clock
        + Eprint
        + Input
        + Files<File = File>
        + AllocGlobal
        + Sync,
    S: AsStr,
    R: Read,
    W: Write,
>(
    rt: &H,
    words: &'a [S],
    reader: &mut Counted<R>,
    writer: &mut Counted<W>,
    complaint: &mut String,
) -> u8
    requires reader { CanCount (state_of reader.old) }
    requires writer { CanCount (state_of writer.old) }
    ensures status { result < 4 }
    ensures failed { (state_of writer.old).failures < (state_of writer.new).failures → result ≡ 1 }
{
    let alloc = rt.alloc();
    let Ok(command) = with_serve(alloc) else {
        return no_memory(writer);
    };
    let status = match command.try_get_matches_from(words) {
        Ok(matches) => match matches.subcommand() {
            Some(("serve", matches)) => serve(rt, matches, writer, complaint),
            _ => perform(alloc, &matches, reader, writer, complaint),
        },
        Err(error) => report(alloc, &error, writer, complaint),
    };
    explain_failure(alloc, status, reader, writer, complaint);
    status
}

/// The command line of the program, with `serve`.
fn with_serve<'a>(alloc: Global) -> Result<Command<'a>, AllocError> {
    let serve = match serve_command(alloc) {
        Ok(serve) => serve,
        Err(error) => return Err(error),
    };
    command_line(alloc, Some(serve))
}
