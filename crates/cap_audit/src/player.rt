//! The lines of an input, played one after the other, and what is said of them (`audit`).
ghost use Rattle.std.specs.Prelude.{◌≡◌, ℕ, ◌<◌, ◌++◌, List, [], length, true, Some, IfErr, IfOk, OnOk};
ghost use Rattle.std.specs.Str.Lines.{lines};
ghost use Rattle.cap_text.specs.Pieces.{lacks};
ghost use Rattle.cap_session.specs.Counted.{inner_of, state_of, CanCount};
ghost use Rattle.cap_audit.specs.declared.stop.Stop.TheVariants.{Input as no_input};
ghost use Rattle.cap_audit.specs.Audit.{IsTrueFile, PlaysLine, StartsAnew};
ghost use Rattle.cap_audit.specs.Onward.{IfFalse, IsFalseBeginning, IsFalseText, LeadsNowhere, LeadsOn, Tells};
ghost use Rattle.cap_audit.specs.Input.{ForPlayed, GaveWholeText, HasEnded, IsFalseInput, IsPlayed, IsRead, after_bytes, whole_line};

use crate::auditor::Auditor;
use crate::stop::Stop;
use crate::words::finish;
use cap_session::{Counted, Got};
use cap_text::{split_once, without_return};
use std::alloc::Global;
use std::io::{Read, Write};

/// How many bytes are read at once.
const CHUNK: usize = 65536;

/// How many reads are made at most.
const READS_MAX: u64 = 1 << 32;

/// Audits the file that the reader gives: plays its lines on the cluster that its settings open, and writes `audited epochs=E
/// entries=T calls=C grants=G reservations=R`, or `line N: WHY` for the first line that is false. The result is the exit status: 0
/// where the file is true: its lines spell events that are one run of the cluster; 1 the reader or the writer failed, a reader also
/// where it was quiet, or where the input did not end within 2^32 reads, or before a number of epochs or entries was at its end;
/// 2 the file is false: a line is, the settings have a fault, or the file ends in an epoch; 3 an allocation failed. No true file is
/// answered 2, whatever becomes of memory and streams.
pub fn audit<R: Read, W: Write>(
    alloc: Global,
    reader: &mut Counted<R>,
    writer: &mut Counted<W>,
) -> u8
    requires reader { CanCount (state_of reader.old) }
    requires writer { CanCount (state_of writer.old) }
    ensures status { result < 4 }
    ensures is_true { result ≡ 0 → GaveWholeText R.remaining reader.old reader.new
        (λ text. IsTrueFile (lines text)) }
    ensures is_false { result ≡ 2 → (whole : List ℕ)
        → R.remaining (inner_of reader.old) ≡ Some whole → ¬ IsTrueFile (lines whole) }
    ensures failed { (state_of writer.old).failures < (state_of writer.new).failures → result ≡ 1 }
{
    let mut auditor = Auditor::new(alloc);
    let played = play_all(alloc, reader, &mut auditor);
    finish(alloc, played, &auditor, writer)
}

/// Plays all lines of the input, up to its end.
fn play_all<R: Read>(
    alloc: Global,
    reader: &mut Counted<R>,
    auditor: &mut Auditor,
) -> Result<(), Stop>
    requires reader { CanCount (state_of reader.old) }
    requires anew { StartsAnew auditor.old }
    ensures good { OnOk result (GaveWholeText R.remaining reader.old reader.new
        (λ text. IsTrueFile (lines text))) }
    ensures bad { IfErr result (λ stop. IfFalse stop (IsFalseInput R.remaining reader.old)) }
{
    let mut chunk = [0u8; CHUNK];
    let mut begun = Vec::new(alloc);
    for _reads in 0..READS_MAX {
        let piece = match read_piece(reader, &mut chunk) {
            Ok(piece) => piece,
            Err(stop) => return Err(stop),
        };
        if piece.is_empty() {
            return play_last(&begun, auditor);
        }
        match play_piece(piece, &mut begun, auditor) {
            Ok(()) => {}
            Err(stop) => return Err(stop),
        }
    }
    Err(Stop::Input)
}

/// The next bytes of the input; none where it has ended.
fn read_piece<'a, R: Read>(
    reader: &mut Counted<R>,
    chunk: &'a mut [u8; CHUNK],
) -> Result<&'a [u8], Stop>
    requires { CanCount (state_of reader.old) }
    ensures read { IfOk result (λ piece. IsRead R.remaining reader.old reader.new piece.now) }
    ensures ended { IfOk result (λ piece. length piece.now ≡ 0
        → HasEnded R.remaining reader.old reader.new) }
    ensures more { IfOk result (λ piece. 0 < length piece.now
        → state_of reader.new ≡ after_bytes (state_of reader.old) piece.now) }
    ensures failed { IfErr result (λ stop. stop ≡ no_input) }
{
    match reader.read(chunk) {
        Got::Bytes(n) => Ok(&chunk[..n]),
        Got::End => Ok(&chunk[..0]),
        Got::Quiet | Got::Fault => Err(Stop::Input),
    }
}

/// Plays the lines that end in these bytes, the first with what was begun before, and keeps what is begun of the next.
fn play_piece(piece: &[u8], begun: &mut Vec<u8>, auditor: &mut Auditor) -> Result<(), Stop>
    requires { lacks 10 begun.old.items ≡ true }
    ensures begun { OnOk result (lacks 10 begun.new.items ≡ true) }
    ensures good { OnOk result (ForPlayed begun.old.items auditor.old
        (λ text. IsPlayed (text ++ piece.now) begun.new.items auditor.new)) }
    ensures bad { IfErr result (λ stop. IfFalse stop (ForPlayed begun.old.items auditor.old
        (λ text. IsFalseBeginning (text ++ piece.now)))) }
{
    let mut rest = piece;
    while let Some((last, after)) = split_once(rest, b'\n') {
        match play_ended(last, begun, auditor) {
            Ok(()) => {}
            Err(stop) => return Err(stop),
        }
        rest = after;
    }
    begun.extend_from_slice(rest)?;
    Ok(())
}

/// Plays the line that a line feed ends: what was begun of it before, and its last bytes. Then nothing is begun.
fn play_ended(last: &[u8], begun: &mut Vec<u8>, auditor: &mut Auditor) -> Result<(), Stop>
    ensures cleared { OnOk result (begun.new.items ≡ []) }
    ensures good { OnOk result
        (PlaysLine (whole_line begun.old.items last.now) auditor.old auditor.new) }
    ensures only { Tells result
        (LeadsOn (whole_line begun.old.items last.now) auditor.old auditor.new)
        (LeadsNowhere (whole_line begun.old.items last.now) auditor.old) }
{
    begun.extend_from_slice(last)?;
    match auditor.play(without_return(begun)) {
        Ok(()) => {
            begun.clear();
            Ok(())
        }
        Err(stop) => Err(stop),
    }
}

/// Plays a last line that no line feed ends, if there is one. Settings that no line has read are read now.
fn play_last(line: &[u8], auditor: &mut Auditor) -> Result<(), Stop>
    requires { lacks 10 line.now ≡ true }
    ensures good { OnOk result
        (ForPlayed line.now auditor.old (λ text. IsTrueFile (lines text))) }
    ensures bad { IfErr result
        (λ stop. IfFalse stop (ForPlayed line.now auditor.old IsFalseText)) }
{
    if line.is_empty() {
        return auditor.end();
    }
    match auditor.play(line) {
        Ok(()) => auditor.end(),
        Err(stop) => Err(stop),
    }
}
