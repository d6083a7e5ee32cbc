//! Why a script was played no further, as it is printed, and the exit status (`finish`).
ghost use Rattle.std.specs.Prelude.{◌≡◌, ◌≢◌, ◌↔◌, ◌<◌, ◌≤◌, ◌+◌, Ok, Err, IsOk, OnOk, OnErr};
ghost use Rattle.cap_session.specs.Counted.{state_of, CanCount};
ghost use Rattle.cap_replay.specs.Streams.{input_failures, output_failures, MayWrite, IsRefused};

use crate::script::Script;
use crate::stop::Stop;
use cap_session::{Counted, write_out};
use std::io::Write;

/// Prints why a script was played no further, and says the exit status.
pub(crate) fn finish<W: Write>(
    played: Result<(), Stop>,
    script: &mut Script,
    writer: &mut Counted<W>,
) -> u8
    requires { MayWrite played (state_of writer.old) }
    ensures status { result < 4 }
    ensures done { result ≡ 0 → IsOk played }
    ensures refused { result ≡ 2 → IsRefused played }
    ensures failed { result ≡ 1 ↔ ((state_of writer.old).failures
        < (state_of writer.new).failures + input_failures played + output_failures played) }
    ensures counted { (state_of writer.old).failures ≤ (state_of writer.new).failures }
{
    let status = match played {
        Err(Stop::Output) => return 1,
        Ok(()) => 0,
        Err(Stop::Input) => 1,
        Err(Stop::NoMemory) => 3,
        Err(Stop::BadLine(line)) => refused(script.print_bad_line(line)),
        Err(Stop::Config(fault)) => refused(script.print_fault(fault)),
    };
    write_end(status, script, writer)
}

/// The status of a script that is refused for what it says, where there was memory to print why.
fn refused(printed: Result<(), Stop>) -> u8
    ensures ok { OnOk printed (result ≡ 2) }
    ensures err { OnErr printed (result ≡ 3) }
{
    match printed {
        Ok(()) => 2,
        Err(_) => 3,
    }
}

/// Writes out what was printed, and after it that memory was refused, where that is the status. The status is 1 where this fails.
fn write_end<W: Write>(status: u8, script: &mut Script, writer: &mut Counted<W>) -> u8
    requires { CanCount (state_of writer.old) }
    ensures written { (state_of writer.new).failures ≡ (state_of writer.old).failures
        → result ≡ status }
    ensures failed { (state_of writer.new).failures ≢ (state_of writer.old).failures
        → ((state_of writer.new).failures ≡ (state_of writer.old).failures + 1) × (result ≡ 1) }
{
    match script.write_out(writer) {
        Ok(()) => {}
        Err(_) => return 1,
    }
    if status != 3 {
        return status;
    }
    match write_out(writer, b"no memory\n") {
        Ok(()) => 3,
        Err(_) => 1,
    }
}
