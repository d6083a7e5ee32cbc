//! The connections that were ever opened, by number, and the steps on them: they open, bring bytes, and end.
ghost use Rattle.std.specs.Prelude.{◌≡◌, ℕ, List, Ok};
ghost use Rattle.cap_base.specs.Limits.{resources};
ghost use Rattle.cap_model.specs.declared.event.Event.{Event};
ghost use Rattle.cap_model.specs.Flat.{Flat};
ghost use Rattle.cap_world.specs.Worker.{WorkerState};
ghost use Rattle.cap_world.specs.World.{connection_at, is_open_connection, output_from};
ghost use Rattle.cap_world.specs.Steps.{StepOutcome};

use crate::connection::{Connection, Standing};
use crate::step::{Did, Step};
use cap_base::RESOURCES;
use cap_commit::Cluster;
use cap_model::{Event, NoMemory};
use indexmap::IndexMap;
use std::alloc::Global;

pub(crate) type Connections = IndexMap<u32, Connection>;

/// Whether the connection is open.
pub(crate) fn is_open(connections: &Connections, number: u32) -> bool
    ensures { result ≡ is_open_connection (connection_at number connections.now.entries) }
{
    match connections.get(&number) {
        Some(connection) => connection.is_open(),
        None => false,
    }
}

/// All bytes ever answered on the connection.
pub(crate) fn output(connections: &Connections, number: u32) -> &[u8]
    ensures { result.now ≡ output_from (connection_at number connections.now.entries) }
{
    match connections.get(&number) {
        Some(connection) => connection.output(),
        None => &[],
    }
}

/// All bytes ever answered on the connection, and whether it is open.
pub(crate) fn answers(connections: &Connections, number: u32) -> (&[u8], bool)
    ensures output { result.0.now ≡ output_from (connection_at number connections.now.entries) }
    ensures open { result.1 ≡ is_open_connection (connection_at number connections.now.entries) }
{
    match connections.get(&number) {
        Some(connection) => (connection.output(), connection.is_open()),
        None => (&[], false),
    }
}

/// Opens a connection, if its number was never opened.
pub(crate) fn open(
    alloc: Global,
    connections: &mut Connections,
    number: u32,
) -> Result<Did, NoMemory>
    ensures { (cluster : Flat resources) (workers : List (ℕ × WorkerState))
        (events : List (Event resources)) →
        StepOutcome (Step.Open number) result
        (record { cluster = cluster; connections = connections.old.entries; workers = workers })
        (record { cluster = cluster; connections = connections.new.entries; workers = workers })
        events events }
{
    if connections.contains_key(&number) {
        return Ok(Did::Idle);
    }
    let connection = Connection::open(alloc)?;
    match connections.insert(number, connection) {
        Ok(_) => Ok(Did::Done),
        Err(_) => Err(NoMemory),
    }
}

/// Ends a connection, if it is open.
pub(crate) fn end(connections: &mut Connections, number: u32) -> Did
    ensures { (cluster : Flat resources) (workers : List (ℕ × WorkerState))
        (events : List (Event resources)) →
        StepOutcome (Step.End number) (Ok result)
        (record { cluster = cluster; connections = connections.old.entries; workers = workers })
        (record { cluster = cluster; connections = connections.new.entries; workers = workers })
        events events }
{
    let Some(connection) = connections.get_mut(&number) else {
        return Did::Idle;
    };
    if !connection.is_open() {
        return Did::Idle;
    }
    connection.end();
    Did::Done
}

/// Brings a piece of bytes on a connection, if it is open.
pub(crate) fn feed(
    alloc: Global,
    connections: &mut Connections,
    number: u32,
    piece: &[u8],
    cluster: &mut Cluster<RESOURCES>,
    events: &mut Vec<Event<RESOURCES>>,
) -> Result<Did, NoMemory>
    ensures { (workers : List (ℕ × WorkerState)) → StepOutcome (Step.Bytes number piece.entry)
        result
        (record {
          cluster = cluster.old.flat;
          connections = connections.old.entries;
          workers = workers;
        })
        (record {
          cluster = cluster.new.flat;
          connections = connections.new.entries;
          workers = workers;
        })
        events.old.items events.new.items }
{
    let Some(connection) = connections.get_mut(&number) else {
        return Ok(Did::Idle);
    };
    if !connection.is_open() {
        return Ok(Did::Idle);
    }
    match connection.feed(alloc, number, piece, cluster, events) {
        Standing::Starved => Err(NoMemory),
        _ => Ok(Did::Done),
    }
}
