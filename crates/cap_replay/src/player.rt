//! A script played from a reader to a writer, to an exit status (`replay`, `replay_with_words`).
ghost use Rattle.std.specs.Prelude.{◌≡◌, ◌<◌, ◌+◌, ◌++◌, [], ℕ, true, length, Err, OnOk, IfOk, IfErr, None};
ghost use Rattle.cap_text.specs.Pieces.{lacks};
ghost use Rattle.cap_base.specs.declared.properties.fault.ConfigFault.{ConfigFault};
ghost use Rattle.cap_replay.specs.declared.stop.Stop.TheVariants.{BadLine, Config as bad_config, Input as read_failed};
ghost use Rattle.cap_replay.specs.Script.{HasBadLine};
ghost use Rattle.cap_replay.specs.Settings.{HasSettingsFault};
ghost use Rattle.cap_replay.specs.Progress.{IsPlayed, ForPlayed, PlaysLine, MayNotFollow, FailsAtStep, whole_line, IsPlayedOut};
ghost use Rattle.cap_session.specs.Counted.{state_of, CanCount};
ghost use Rattle.cap_replay.specs.Status.{IsReplayed};
ghost use Rattle.cap_replay.specs.Streams.{misses, IsRead, HasEnded, GaveText, GaveWholeText, after_bytes, CountsReads, MayWrite, input_failures, output_failures, IsOfScript};

use crate::complaint::explain_end;
use crate::finish::finish;
use crate::script::Script;
use crate::stop::Stop;
use cap_session::{Counted, Got};
use cap_text::{split_once, without_return};
use std::alloc::{AllocError, Global};
use std::io::{Read, Write};

/// How many bytes are read at once.
const CHUNK: usize = 65536;

/// How many reads are made at most.
const READS_MAX: u64 = 1 << 32;

/// Plays the script that the reader gives, one step of a world a line, and writes what its connections are answered. What was
/// printed is written out before each read. The result is the exit status: 0 done; 1 the reader or the writer failed, a reader
/// also where it was quiet, or where the input did not end within 2^32 reads; 2 after a line `bad line N`, or `config LINE NUMBER`
/// for the first fault of the settings; 3 after a line `no memory`. What was printed before stays.
pub fn replay<R: Read, W: Write>(
    alloc: Global,
    reader: &mut Counted<R>,
    writer: &mut Counted<W>,
) -> u8
    requires reader { CanCount (state_of reader.old) }
    requires writer { CanCount (state_of writer.old) }
    ensures { IsReplayed R.remaining reader.old reader.new writer.old writer.new result }
{
    replay_with_words(alloc, reader, writer, &mut String::new(alloc))
}

/// Plays a script as `replay` does, and adds a line of words where the exit status is 2: for a bad line its number and what is
/// expected there; for a fault of the settings the number of its line among the `conf` lines, its key and what is wrong. If an
/// allocation for the words fails, they may be cut off or missing, and nothing else changes.
pub fn replay_with_words<R: Read, W: Write>(
    alloc: Global,
    reader: &mut Counted<R>,
    writer: &mut Counted<W>,
    words: &mut String,
) -> u8
    requires reader { CanCount (state_of reader.old) }
    requires writer { CanCount (state_of writer.old) }
    ensures { IsReplayed R.remaining reader.old reader.new writer.old writer.new result }
{
    let mut script = Script::new(alloc);
    let played = play_all(alloc, reader, writer, &mut script);
    let _explained = explain_end(alloc, &script, played, words);
    finish(played, &mut script, writer)
}

/// Plays all lines of the input.
fn play_all<R: Read, W: Write>(
    alloc: Global,
    reader: &mut Counted<R>,
    writer: &mut Counted<W>,
    script: &mut Script,
) -> Result<(), Stop>
    requires reader { CanCount (state_of reader.old) }
    requires writer { CanCount (state_of writer.old) }
    requires settings { script.old.simulation.settings ≡ None }
    requires world { script.old.simulation.world ≡ None }
    ensures done { OnOk result (GaveWholeText R.remaining reader.old reader.new
        (λ text. IsPlayedOut text script.new.simulation)) }
    ensures bad { (n : ℕ) → result ≡ Err (BadLine n)
        → GaveText R.remaining reader.old reader.new HasBadLine }
    ensures fault { (fault : ConfigFault) → result ≡ Err (bad_config fault)
        → GaveText R.remaining reader.old reader.new
        (λ text. HasSettingsFault text (HasEnded R.remaining reader.old reader.new) fault) }
    ensures reads { CountsReads result (state_of reader.old) (state_of reader.new) }
    ensures writes { (state_of writer.new).failures
        ≡ (state_of writer.old).failures + output_failures result }
    ensures counts { MayWrite result (state_of writer.new) }
{
    let mut chunk = [0u8; CHUNK];
    let mut begun = Vec::new(alloc);
    for _reads in 0..READS_MAX {
        match script.write_out(writer) {
            Ok(()) => {}
            Err(stop) => return Err(stop),
        }
        let piece = match read_piece(reader, &mut chunk) {
            Ok(piece) => piece,
            Err(stop) => return Err(stop),
        };
        if piece.is_empty() {
            return play_last(&begun, script);
        }
        match play_lines(piece, &mut begun, script) {
            Ok(()) => {}
            Err(stop) => return Err(stop),
        }
    }
    Err(Stop::Input)
}

/// The next bytes of the input; none where it has ended.
fn read_piece<'a, R: Read>(
    reader: &mut Counted<R>,
    chunk: &'a mut [u8; CHUNK],
) -> Result<&'a [u8], Stop>
    requires { CanCount (state_of reader.old) }
    ensures read { IfOk result (λ piece. IsRead R.remaining reader.old reader.new piece.now) }
    ensures ended { IfOk result (λ piece. length piece.now ≡ 0
        → HasEnded R.remaining reader.old reader.new) }
    ensures failed { IfErr result (λ stop. stop ≡ read_failed) }
    ensures reads { misses (state_of reader.new)
        ≡ misses (state_of reader.old) + input_failures result }
    ensures more { IfOk result (λ piece. 0 < length piece.now
        → state_of reader.new ≡ after_bytes (state_of reader.old) piece.now) }
{
    match reader.read(chunk) {
        Got::Bytes(n) => Ok(&chunk[..n]),
        Got::End => Ok(&chunk[..0]),
        Got::Quiet | Got::Fault => Err(Stop::Input),
    }
}

/// Plays the lines that end in these bytes, the first with what was begun before, and keeps what is begun of the next.
fn play_lines(bytes: &[u8], begun: &mut Vec<u8>, script: &mut Script) -> Result<(), Stop>
    requires { lacks 10 begun.old.items ≡ true }
    ensures begun { OnOk result (lacks 10 begun.new.items ≡ true) }
    ensures good { OnOk result (ForPlayed begun.old.items script.old.simulation
        (λ text. IsPlayed (text ++ bytes.now) begun.new.items script.new.simulation)) }
    ensures bad { (n : ℕ) → result ≡ Err (BadLine n)
        → ForPlayed begun.old.items script.old.simulation (λ text. HasBadLine (text ++ bytes.now)) }
    ensures fault { (fault : ConfigFault) → result ≡ Err (bad_config fault)
        → ForPlayed begun.old.items script.old.simulation
        (λ text. HasSettingsFault (text ++ bytes.now) ⊥ fault) }
    ensures only { IfErr result IsOfScript }
{
    let mut rest = bytes;
    while let Some((front, after)) = split_once(rest, b'\n') {
        match play_line(front, begun, script) {
            Ok(()) => {}
            Err(stop) => return Err(stop),
        }
        rest = after;
    }
    begun.extend_from_slice(rest)?;
    Ok(())
}

/// Plays the line that a line feed ends: what was begun of it before, and its last bytes. Then nothing is begun.
fn play_line(last: &[u8], begun: &mut Vec<u8>, script: &mut Script) -> Result<(), Stop>
    ensures cleared { OnOk result (begun.new.items ≡ []) }
    ensures good { OnOk result (PlaysLine (whole_line begun.old.items last.now)
        script.old.simulation script.new.simulation) }
    ensures bad { (n : ℕ) → result ≡ Err (BadLine n)
        → MayNotFollow (whole_line begun.old.items last.now) script.old.simulation }
    ensures fault { (fault : ConfigFault) → result ≡ Err (bad_config fault)
        → FailsAtStep (whole_line begun.old.items last.now) script.old.simulation fault }
    ensures only { IfErr result IsOfScript }
{
    if begun.is_empty() {
        return script.play(without_return(last));
    }
    begun.extend_from_slice(last)?;
    match script.play(without_return(begun)) {
        Ok(()) => {
            end_line(begun);
            Ok(())
        }
        Err(stop) => Err(stop),
    }
}

/// Nothing is begun any more: the line has ended. Its room stays.
fn end_line(begun: &mut Vec<u8>)
    ensures { begun.new.items ≡ [] }
{
    begun.clear();
}

/// Plays a last line that no line feed ends, if there is one. Settings that no step has read are read now.
fn play_last(line: &[u8], script: &mut Script) -> Result<(), Stop>
    requires { lacks 10 line.now ≡ true }
    ensures good { OnOk result (ForPlayed line.now script.old.simulation
        (λ text. IsPlayedOut text script.new.simulation)) }
    ensures bad { (n : ℕ) → result ≡ Err (BadLine n)
        → ForPlayed line.now script.old.simulation HasBadLine }
    ensures fault { (fault : ConfigFault) → result ≡ Err (bad_config fault)
        → ForPlayed line.now script.old.simulation
        (λ text. HasSettingsFault text (Unit {0}) fault) }
    ensures only { IfErr result IsOfScript }
{
    if line.is_empty() {
        return script.begin();
    }
    match script.play(line) {
        Ok(()) => script.begin(),
        Err(stop) => Err(stop),
    }
}
