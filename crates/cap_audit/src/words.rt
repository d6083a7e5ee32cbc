//! What is said of a file, and the exit status (`finish`).
ghost use Rattle.std.specs.Prelude.{◌≡◌, ◌⊎◌, ◌<◌, IsOk};
ghost use Rattle.cap_session.specs.Counted.{state_of, CanCount};
ghost use Rattle.cap_audit.specs.Onward.{IsFoundFalse};

use crate::auditor::Auditor;
use crate::stop::{Stop, Why};
use cap_config::read_detailed;
use cap_model::Reason;
use cap_session::{Counted, write_out};
use cap_words::describe;
use std::alloc::{AllocError, Global};
use std::io::Write;

/// Writes what is to be said of a file that was played so far. The result is the exit status.
pub(crate) fn finish<W: Write>(
    alloc: Global,
    played: Result<(), Stop>,
    auditor: &Auditor,
    writer: &mut Counted<W>,
) -> u8
    requires { CanCount (state_of writer.old) }
    ensures status { result < 4 }
    ensures done { result ≡ 0 → IsOk played }
    ensures found { result ≡ 2 → IsFoundFalse played }
    ensures failed { (state_of writer.old).failures < (state_of writer.new).failures → result ≡ 1 }
{
    let said = match played {
        Ok(()) => (0, say_totals(alloc, auditor)),
        Err(Stop::False(why)) => (2, say_false(alloc, auditor, why)),
        Err(Stop::Settings) => (2, say_settings(alloc, auditor)),
        Err(Stop::NoMemory) => (3, Err(AllocError)),
        Err(Stop::Input | Stop::Output) => return 1,
    };
    match said {
        (status, Ok(words)) => write_end(status, words.as_bytes(), writer),
        (_, Err(_)) => write_end(3, b"no memory\n", writer),
    }
}

/// Writes the words. The result is the exit status: the one that is given, or 1 where the writer failed.
fn write_end<W: Write>(status: u8, words: &[u8], writer: &mut Counted<W>) -> u8
    requires writer { CanCount (state_of writer.old) }
    ensures status { (result ≡ 1) ⊎ (result ≡ status) }
    ensures failed { (state_of writer.old).failures < (state_of writer.new).failures → result ≡ 1 }
{
    match write_out(writer, words) {
        Ok(()) => status,
        Err(_) => 1,
    }
}

/// How many epochs, entries, calls, grants and reservations a true file has.
fn say_totals(alloc: Global, auditor: &Auditor) -> Result<String, AllocError> {
    let counts = auditor.counts();
    format!(in alloc;
        "audited epochs={} entries={} calls={} grants={} reservations={}\n",
        auditor.epochs(),
        counts.entries(),
        counts.calls,
        counts.grants,
        counts.reservations
    )
}

/// Which line is false, and why.
fn say_false(alloc: Global, auditor: &Auditor, why: Why) -> Result<String, AllocError> {
    let mut words = format!(in alloc; "line {}: ", auditor.lines())?;
    put_why(&mut words, why)?;
    words.push_str("\n")?;
    Ok(words)
}

/// What is false about a line.
fn put_why(words: &mut String, why: Why) -> Result<(), AllocError> {
    match why {
        Why::NoLine => words.push_str("it is no line of an audit file"),
        Why::LateProperty => words.push_str("a property line stands before all epochs"),
        Why::NotClosed => words.push_str("the epoch before is not closed"),
        Why::NoEpoch => words.push_str("it stands in no epoch"),
        Why::OtherEpoch(next) => write!(words, "the next epoch is {next}"),
        Why::OtherCount(entries) => write!(words, "the epoch has {entries} entries"),
        Why::OtherReply => words.push_str("the cluster gives another reply"),
        Why::Inadmissible(reason) => put_reason(words, reason),
        Why::OtherContainer(next) => write!(words, "the next container is {next}"),
        Why::Unfinished => words.push_str("the file ends in an epoch"),
    }
}

/// Why a proposal is not admissible.
fn put_reason(words: &mut String, reason: Reason) -> Result<(), AllocError> {
    let why = match reason {
        Reason::NoApp => "no registered application has this number",
        Reason::NoAsk => "the application wants no container for the key",
        Reason::OtherAsk => "the ask is for another resource",
        Reason::NoNode => "no present node has this number",
        Reason::WrongPlace => "the ask names another place",
        Reason::ReservedByOther => "the node holds a reservation",
        Reason::NoRoom => "the node has no room for it",
        Reason::OverMaximum { level } => {
            return write!(
                words,
                "not admissible: a queue of level {level} would pass its maximum capacity"
            );
        }
        Reason::OverUser => "the user would pass the user limit of the leaf queue",
        Reason::TooManyLive => "65536 containers are live",
        Reason::FitsNow => "the reservation fits the node, so it can be granted",
        Reason::NeverFits => "the reservation does not fit the whole node",
        Reason::NumbersSpent => "all numbers of containers are used",
    };
    write!(words, "not admissible: {why}")
}

/// The fault of the settings, with its line among the property lines, which are the first lines of the file.
fn say_settings(alloc: Global, auditor: &Auditor) -> Result<String, AllocError> {
    let text = auditor.settings();
    let Err(found) = read_detailed(alloc, text) else {
        return Err(AllocError);
    };
    let Ok(described) = describe(alloc, text, &found) else {
        return Err(AllocError);
    };
    let described = described.as_str();
    if found.fault.line > 0 {
        return format!(in alloc; "{described}\n");
    }
    format!(in alloc; "line {}: {described}\n", auditor.lines())
}
