//! What a line of standard input asks for: how large the cluster is, and what is done in it (`Work`).

use cap_text::number_of;

/// Room for 65,536 containers, in MiB.
const WIDE: u64 = 1 << 26;

/// What a container has, in MiB.
const CONTAINER: u64 = 1024;

/// Which call is made again and again.
#[derive(Clone, Copy)]
pub enum Kind {
    /// With 20 asks.
    Allocate,
    Heartbeat,
    RegisterNode,
    /// With the lines of all queues.
    Refresh,
}

/// Who makes calls.
#[derive(Clone, Copy, PartialEq, Eq)]
pub enum By {
    /// One that has the cluster alone, without a lock.
    Caller,
    /// A replica, after they were made of a shared cluster.
    Replica,
}

/// Where all asks of the applications want containers.
#[derive(Clone, Copy, PartialEq, Eq)]
pub enum Place {
    Anywhere,
    /// On a host that is not there.
    Host,
    /// On a rack that is not there.
    Rack,
    /// On a host that comes after all applications have asked.
    LateHost,
}

impl Place {
    /// It as an ask spells it.
    pub fn spelling(self) -> &'static [u8] {
        match self {
            Place::Anywhere => b"*",
            Place::Rack => b"/gone",
            Place::Host | Place::LateHost => b"gone",
        }
    }
}

/// What is done in the cluster.
#[derive(Clone, Copy)]
pub enum Task {
    /// So many turns of a worker that follows.
    Turns(u64),
    /// So many holds in which so many entries are taken as news, always the same.
    Looks { entries: u64, looks: u64 },
    /// So many rounds of 16 calls.
    Rounds { kind: Kind, by: By, rounds: u64 },
}

/// How many nodes and leaf queues the cluster has, how many applications with how many asks each, and what is done in it.
/// A node has `node` MiB, a user may have `guarantee` MiB in a leaf queue, and an ask is for containers of `size` MiB at
/// a place. The applications are of so many users. Where `beside` is not 0 one more, in a wide leaf queue of its own, has
/// one ask for small containers.
#[derive(Clone, Copy)]
pub struct Work {
    pub nodes: u64,
    pub leaves: u64,
    pub applications: u64,
    pub asks: usize,
    pub node: u64,
    pub guarantee: u64,
    pub size: u64,
    pub place: Place,
    pub users: u64,
    pub beside: u64,
    pub task: Task,
}

/// The work that a line says: at most 256 asks for each application, and at most 256 entries in each look.
pub fn read_work(line: &str) -> Option<Work> {
    let (word, rest) = line.split_once(' ')?;
    let work = match word {
        "follow" => read_wide(rest)?,
        "pass" => read_narrow(rest)?,
        "news" => read_looks(rest)?,
        "again" => read_rounds(rest)?,
        _ => return None,
    };
    if work.asks > 256 {
        return None;
    }
    Some(work)
}

/// A cluster in which all asks of one user may be granted.
fn wide(nodes: u64, leaves: u64, task: Task) -> Work {
    Work {
        nodes,
        leaves,
        applications: 1,
        asks: 0,
        node: WIDE,
        guarantee: WIDE,
        size: CONTAINER,
        place: Place::Anywhere,
        users: 1,
        beside: 0,
        task,
    }
}

/// The work of these five numbers: all asks of one user may be granted.
fn read_wide(rest: &str) -> Option<Work> {
    let mut words = rest.split(' ');
    let (nodes, leaves) = (number(words.next())?, number(words.next())?);
    let (applications, asks) = (number(words.next())?, number(words.next())?);
    Some(Work {
        applications,
        asks: asks as usize,
        ..wide(nodes, leaves, Task::Turns(number(words.next())?))
    })
}

/// The work of these ten numbers and of the word behind them, if any.
fn read_narrow(rest: &str) -> Option<Work> {
    let mut words = rest.split(' ');
    Some(Work {
        nodes: number(words.next())?,
        leaves: number(words.next())?,
        applications: number(words.next())?,
        asks: number(words.next())? as usize,
        task: Task::Turns(number(words.next())?),
        node: number(words.next())?,
        guarantee: number(words.next())?,
        size: number(words.next())?,
        users: number(words.next())?,
        beside: number(words.next())?,
        place: read_place(words.next())?,
    })
}

fn read_place(word: Option<&str>) -> Option<Place> {
    match word {
        None => Some(Place::Anywhere),
        Some("host") => Some(Place::Host),
        Some("rack") => Some(Place::Rack),
        Some("late") => Some(Place::LateHost),
        Some(_) => None,
    }
}

/// The looks of these three numbers: nodes, entries and looks.
fn read_looks(rest: &str) -> Option<Work> {
    let mut words = rest.split(' ');
    let nodes = number(words.next())?;
    let (entries, looks) = (number(words.next())?, number(words.next())?);
    if entries > 256 {
        return None;
    }
    Some(wide(nodes, 1, Task::Looks { entries, looks }))
}

/// The rounds of a kind, of who makes them, and of two numbers: leaf queues and rounds.
fn read_rounds(rest: &str) -> Option<Work> {
    let mut words = rest.split(' ');
    let kind = match words.next()? {
        "allocate" => Kind::Allocate,
        "heartbeat" => Kind::Heartbeat,
        "node" => Kind::RegisterNode,
        "refresh" => Kind::Refresh,
        _ => return None,
    };
    let by = match words.next()? {
        "alone" => By::Caller,
        "replica" => By::Replica,
        _ => return None,
    };
    let leaves = number(words.next())?;
    let rounds = number(words.next())?;
    Some(wide(1, leaves, Task::Rounds { kind, by, rounds }))
}

/// The number that 1 to 6 digits of a word spell.
fn number(word: Option<&str>) -> Option<u64> {
    number_of(word?.as_bytes(), 6)
}
