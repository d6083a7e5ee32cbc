//! The words of the command line, read by `clap`, to an exit status (`run`).
ghost use Rattle.std.specs.Prelude.{◌≡◌, ◌<◌};
ghost use Rattle.cap_session.specs.Counted.{state_of, CanCount};

use crate::streams::explain_streams;
use crate::texts::{check_settings, explain_lines, no_memory, print};
use cap_audit::audit;
use cap_replay::replay_with_words;
use cap_session::Counted;
use clap::error::ErrorKind;
use clap::{ArgMatches, Command, Error};
use std::alloc::{AllocError, Global};
use std::convert::AsStr;
use std::io::{Read, Write};

/// Runs the program on the words of its command line, of which the first is its own name: `replay` plays a script, `check` looks at
/// property lines, `explain` puts words under the lines of a script or of what `replay` printed, `audit` plays an audit file. The
/// result is the exit status: 0 done; 1 a stream failed; 2 bad words, a bad line of a script, a fault of its settings or a false
/// audit file; 3 an allocation failed, which is printed where the words found no memory. What was wrong is left in words in `complaint`, for
/// the error stream: with status 2, but for an audit, and with status 1 the stream and the system's error. Help and the version are written to
/// the writer.
pub fn run<'a, S: AsStr, R: Read, W: Write>(
    alloc: Global,
    words: &'a [S],
    reader: &mut Counted<R>,
    writer: &mut Counted<W>,
    complaint: &mut String,
) -> u8
    requires reader { CanCount (state_of reader.old) }
    requires writer { CanCount (state_of writer.old) }
    ensures status { result < 4 }
    ensures failed { (state_of writer.old).failures < (state_of writer.new).failures → result ≡ 1 }
{
    let Ok(command) = command_line(alloc, None) else {
        return no_memory(writer);
    };
    let status = match command.try_get_matches_from(words) {
        Ok(matches) => perform(alloc, &matches, reader, writer, complaint),
        Err(error) => report(alloc, &error, writer, complaint),
    };
    explain_failure(alloc, status, reader, writer, complaint);
    status
}

/// Does what the words say, which name one of the four commands. The result is the exit status, as of `run`.
pub fn perform<R: Read, W: Write>(
    alloc: Global,
    matches: &ArgMatches<'_>,
    reader: &mut Counted<R>,
    writer: &mut Counted<W>,
    complaint: &mut String,
) -> u8
    requires reader { CanCount (state_of reader.old) }
    requires writer { CanCount (state_of writer.old) }
    ensures status { result < 4 }
    ensures failed { (state_of writer.old).failures < (state_of writer.new).failures → result ≡ 1 }
{
    match matches.subcommand() {
        Some(("check", _)) => check_settings(alloc, reader, writer, complaint),
        Some(("explain", _)) => explain_lines(alloc, reader, writer),
        Some(("audit", _)) => audit(alloc, reader, writer),
        _ => replay_with_words(alloc, reader, writer, complaint),
    }
}

/// Leaves in `complaint` which stream failed and the system's error, where the exit status is 1 and nothing was said of it yet. If an
/// allocation fails, only a part of it may stand there.
pub fn explain_failure<R: Read, W: Write>(
    alloc: Global,
    status: u8,
    reader: &Counted<R>,
    writer: &Counted<W>,
    complaint: &mut String,
) {
    if status == 1 && complaint.is_empty() {
        let _explained = explain_streams(alloc, reader, writer, complaint);
    }
}

/// The command line of the program: the four commands, and between them one that a caller has besides.
pub fn command_line<'a>(
    alloc: Global,
    besides: Option<Command<'a>>,
) -> Result<Command<'a>, AllocError> {
    let mut command = program(alloc).subcommand(replay_command(alloc))?;
    if let Some(besides) = besides {
        command = command.subcommand(besides)?;
    }
    command
        .subcommand(check_command(alloc))?
        .subcommand(explain_command(alloc))?
        .subcommand(audit_command(alloc))
}

/// The program, with none of its commands yet.
fn program<'a>(alloc: Global) -> Command<'a> {
    Command::new(alloc, "capsched")
        .version("0.1.0")
        .about("The allocation engine of a YARN cluster: a proved Capacity Scheduler")
        .subcommand_required(true)
}

/// The command `replay`.
fn replay_command<'a>(alloc: Global) -> Command<'a> {
    Command::new(alloc, "replay").about(
        "Plays a script of connections from standard input, and prints what they are answered",
    )
}

/// The command `check`.
fn check_command<'a>(alloc: Global) -> Command<'a> {
    Command::new(alloc, "check").about(
        "Reads property lines from standard input, and prints a table of their queues",
    )
}

/// The command `explain`.
fn explain_command<'a>(alloc: Global) -> Command<'a> {
    Command::new(alloc, "explain").about(
        "Reads a script or what replay printed from standard input, and puts words under its lines",
    )
}

/// The command `audit`.
fn audit_command<'a>(alloc: Global) -> Command<'a> {
    Command::new(alloc, "audit").about(
        "Plays an audit file from standard input on one cluster, and says whether it is true",
    )
}

/// Writes help and the version to the writer, and leaves the text for bad words in `complaint`. Prints `no memory` where an allocation failed. The
/// result is the exit status.
pub fn report<W: Write>(
    alloc: Global,
    error: &Error,
    writer: &mut Counted<W>,
    complaint: &mut String,
) -> u8
    requires { CanCount (state_of writer.old) }
    ensures status { result < 4 }
    ensures failed { (state_of writer.old).failures < (state_of writer.new).failures → result ≡ 1 }
{
    if error.kind() == ErrorKind::OutOfMemory {
        return no_memory(writer);
    }
    let Ok(text) = error.to_string(alloc) else {
        return no_memory(writer);
    };
    if error.use_stderr() {
        return match complaint.push_str(text.as_str()) {
            Ok(()) => 2,
            Err(_) => no_memory(writer),
        };
    }
    print(writer, text.as_bytes())
}
