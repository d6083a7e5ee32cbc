//! The command `serve`: its words, its settings file and its port.
ghost use Rattle.std.specs.Prelude.{◌≡◌, ◌<◌, Err, IfSome, IfErr, OnOk};
ghost use Rattle.cap_server.specs.Bounds.{IsAllowed};
ghost use Rattle.cap_session.specs.Counted.{state_of, CanCount};

use cap_base::RESOURCES;
use cap_commands::{complain, no_memory, print};
use cap_config::{Config, ConfigFaultKind, DetailedFault, read_detailed};
use cap_records::AuditFile;
use cap_server::{Opened, Scheduling, Sizes, serve_on};
use cap_session::Counted;
use cap_workers::Tally;
use clap::builder::ValueParser;
use clap::{Arg, ArgAction, ArgMatches, Command};
use std::alloc::{AllocError, Global};
use std::fs::{self, File};
use std::io::{self, ErrorKind, Input, Write};
use std::net::{Net, TcpListener, TcpStream};
use std::rt::Files;
use std::sync::Wait;
use std::thread::Threads;
use std::time::Clock;

/// How many entries an epoch's journal has, if no other number is given.
const JOURNAL: &str = "4096";

/// How many proposals wait for the committer, if no other number is given.
const LANES: &str = "64";

/// How workers see the cluster, if nothing else is said.
const SCHEDULING: &str = "follow";

/// For how many seconds connections are served on once standard input has ended, if no other number is given.
const DRAIN: &str = "10";

/// What is said of lanes that can't hold the end of each worker.
const FEW_LANES: &str = "error: --lanes is 0, or a number from 8 to 1024\n";

/// What the words of `serve` say.
#[derive(Drop)]
struct Words<'a> {
    port: u16,
    config: &'a str,
    audit: Option<&'a str>,
    sizes: Sizes,
}

/// A settings file.
#[derive(Drop)]
struct Settings {
    text: Vec<u8>,
    config: Config<RESOURCES>,
}

/// The command and its words.
pub(crate) fn serve_command<'a>(alloc: Global) -> Result<Command<'a>, AllocError> {
    Command::new(alloc, "serve")
        .about("Serves connections on a port of 127.0.0.1, and schedules, until all have ended")
        .arg(number(alloc, "port", 1, 65535, "The port").required(true))?
        .arg(number(alloc, "workers", 1, 8, "How many threads schedule").required(true))?
        .arg(text(alloc, "config", "The file of property lines").required(true))?
        .arg(number(
            alloc,
            "connections",
            1,
            128,
            "How many connections are accepted; with --renew, how many are served at once",
        )
        .required(true))?
        .arg(number(
            alloc,
            "journal",
            1,
            1_000_000,
            "How many calls, grants and reservations an epoch has",
        )
        .default_value(JOURNAL))?
        .arg(number(
            alloc,
            "lanes",
            0,
            1024,
            "How many proposals wait for the committer, at least 8; 0: each worker commits its own",
        )
        .default_value(LANES))?
        .arg(
            text(
                alloc,
                "scheduling",
                "Whether workers follow the journal, each with a cluster of its own, or copy the cluster",
            )
            .value_parser(["follow", "copy"].as_slice())
            .default_value(SCHEDULING),
        )?
        .arg(flag(
            alloc,
            "renew",
            "The place of a connection that has ended is given to the next, until standard input ends",
        ))?
        .arg(number(
            alloc,
            "drain",
            0,
            3600,
            "For how many seconds connections are served on then",
        )
        .default_value(DRAIN))?
        .arg(number(
            alloc,
            "stats",
            1,
            3600,
            "Each how many seconds standard error is told what was done since the beginning",
        ))?
        .arg(text(
            alloc,
            "audit",
            "The file that epochs are written to as they are closed",
        ))
}

/// A word without a value.
fn flag<'a>(alloc: Global, name: &'a str, help: &'a str) -> Arg<'a> {
    Arg::new(alloc, name)
        .long(name)
        .action(ArgAction::SetTrue)
        .help(help)
}

/// A word that is a number within bounds.
fn number<'a>(alloc: Global, name: &'a str, least: u64, most: u64, help: &'a str) -> Arg<'a> {
    text(alloc, name, help).value_parser(ValueParser::Unsigned(least, most))
}

/// A word of any text.
fn text<'a>(alloc: Global, name: &'a str, help: &'a str) -> Arg<'a> {
    Arg::new(alloc, name)
        .long(name)
        .action(ArgAction::Set)
        .help(help)
}

/// What the words say. `None` if one is missing or is no number within its bounds.
fn read_words<'a>(matches: &ArgMatches<'a>) -> Option<Words<'a>>
    ensures { IfSome result (λ words. IsAllowed words.sizes) }
{
    let lanes: usize = matches.get_one("lanes")?;
    let drain: u32 = matches.get_one("drain")?;
    let words = Words {
        port: matches.get_one("port")?,
        config: matches.get_str("config")?,
        audit: matches.get_str("audit"),
        sizes: Sizes {
            workers: matches.get_one("workers")?,
            scheduling: scheduling(matches.get_str("scheduling")?),
            connections: matches.get_one("connections")?,
            journal: matches.get_one("journal")?,
            lanes: if lanes == 0 { None } else { Some(lanes) },
            drain: if matches.get_flag("renew") {
                Some(drain)
            } else {
                None
            },
            stats: matches.get_one("stats"),
        },
    };
    if !words.sizes.is_allowed() {
        return None;
    }
    Some(words)
}

/// How workers see the cluster, by its word.
fn scheduling(word: &str) -> Scheduling {
    match word {
        "copy" => Scheduling::Copy,
        _ => Scheduling::Follow,
    }
}

/// Serves connections on a port of 127.0.0.1, over a cluster with the queues of a settings file. The result is the exit status: 0 done; 1
/// if the writer, the settings file, the listener or the audit file failed; 2 for bad words, or a fault of the settings, which is printed; 3 if an allocation failed or
/// a thread could not be made, which is printed as `no memory`.
/// What was wrong is left in words in `complaint`, except of the writer, and how many proposals were made and rejected. Standard error is told at
/// once of what fails while the daemon runs.
pub(crate) fn serve<
    H: Net<Listener = TcpListener, Stream = TcpStream>
        + Threads
        + Wait
        + Clock
        + Eprint
        + Input
        + Files<File = File>
        + AllocGlobal
        + Sync,
    W: Write,
>(rt: &H, matches: &ArgMatches<'_>, writer: &mut Counted<W>, complaint: &mut String) -> u8
    requires writer { CanCount (state_of writer.old) }
    ensures status { result < 4 }
    ensures failed { (state_of writer.old).failures < (state_of writer.new).failures → result ≡ 1 }
{
    let Some(words) = read_words(matches) else {
        return match complaint.push_str(FEW_LANES) {
            Ok(()) => 2,
            Err(_) => no_memory(writer),
        };
    };
    match read_settings(rt, words.config, writer, complaint) {
        Ok(settings) => serve_settings(rt, &words, &settings, writer, complaint),
        Err(status) => status,
    }
}

/// A settings file. The error is the exit status.
fn read_settings<H: Files + AllocGlobal, W: Write>(
    rt: &H,
    path: &str,
    writer: &mut Counted<W>,
    complaint: &mut String,
) -> Result<Settings, u8>
    requires writer { CanCount (state_of writer.old) }
    ensures status { IfErr result (λ status. status < 4) }
    ensures failed { (state_of writer.old).failures < (state_of writer.new).failures
        → result ≡ Err 1 }
    ensures same { OnOk result (state_of writer.new ≡ state_of writer.old) }
{
    let alloc = rt.alloc();
    let text = match fs::read(rt, path) {
        Ok(text) => text,
        Err(error) if error.kind() == ErrorKind::OutOfMemory => return Err(no_memory(writer)),
        Err(error) => return Err(refuse(alloc, "settings file", error, complaint)),
    };
    match read_detailed(alloc, &text) {
        Ok(config) => Ok(Settings { text, config }),
        Err(found) => Err(refuse_settings(alloc, &text, &found, writer, complaint)),
    }
}

/// Serves connections over a cluster with the queues of these settings. The result is the exit status.
fn serve_settings<
    H: Net<Listener = TcpListener, Stream = TcpStream>
        + Threads
        + Wait
        + Clock
        + Eprint
        + Input
        + Files<File = File>
        + AllocGlobal
        + Sync,
    W: Write,
>(
    rt: &H,
    words: &Words<'_>,
    settings: &Settings,
    writer: &mut Counted<W>,
    complaint: &mut String,
) -> u8
    requires sizes { IsAllowed words.now.sizes }
    requires writer { CanCount (state_of writer.old) }
    ensures status { result < 4 }
    ensures failed { (state_of writer.old).failures < (state_of writer.new).failures → result ≡ 1 }
{
    let alloc = rt.alloc();
    let listener = match TcpListener::bind(rt, ("127.0.0.1", words.port)) {
        Ok(listener) => listener,
        Err(error) => return refuse(alloc, "listener", error, complaint),
    };
    let audit = match open_audit(rt, words.audit, &settings.text) {
        Ok(audit) => audit,
        Err(error) if error.kind() == ErrorKind::OutOfMemory => return no_memory(writer),
        Err(error) => return refuse(alloc, "audit file", error, complaint),
    };
    let (opened, tally) = (Opened { listener, audit }, Tally::new());
    let config = &settings.config;
    let status = serve_on(rt, alloc, opened, &words.sizes, config, &tally, writer);
    report(alloc, &tally, complaint);
    status
}

/// Makes the audit file, if there is to be one, and writes the property lines of the settings to it.
fn open_audit<H: Files<File = File> + AllocGlobal>(
    rt: &H,
    path: Option<&str>,
    settings: &[u8],
) -> io::Result<Option<AuditFile<File>>> {
    let Some(path) = path else {
        return Ok(None);
    };
    let file = File::create(rt, path)?;
    Ok(Some(AuditFile::begin(rt.alloc(), file, settings)?))
}

/// Leaves in `complaint` how many proposals were made and rejected.
fn report(alloc: Global, tally: &Tally, complaint: &mut String) {
    let (made, rejected) = (tally.made(), tally.rejected());
    if let Ok(line) = format!(in alloc; "proposals: {made} made, {rejected} rejected\n") {
        let _kept = complaint.push_str(line.as_str());
    }
}

/// Leaves in `complaint` what failed, with the system's error. The result is the exit status 1.
fn refuse(alloc: Global, what: &str, error: io::Error, complaint: &mut String) -> u8
    ensures { result ≡ 1 }
{
    if let Ok(line) = format!(in alloc; "{what}: {error}\n") {
        let _kept = complaint.push_str(line.as_str());
    }
    1
}

/// Prints a fault of the settings, and leaves its words in `complaint`. The result is the exit status.
fn refuse_settings<W: Write>(
    alloc: Global,
    text: &[u8],
    found: &DetailedFault,
    writer: &mut Counted<W>,
    complaint: &mut String,
) -> u8
    requires writer { CanCount (state_of writer.old) }
    ensures status { result < 4 }
    ensures failed { (state_of writer.old).failures < (state_of writer.new).failures → result ≡ 1 }
{
    let fault = &found.fault;
    if fault.kind == ConfigFaultKind::NoMemory {
        return no_memory(writer);
    }
    let Ok(line) = format!(in alloc; "config {} {}\n", fault.line, fault.kind.number()) else {
        return no_memory(writer);
    };
    match print(writer, line.as_bytes()) {
        0 => complain(alloc, text, found, complaint),
        failed => failed,
    }
}
