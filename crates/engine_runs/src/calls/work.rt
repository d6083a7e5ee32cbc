//! What a line of standard input asks for: which calls, by how many threads, how many each (`Work`).

use cap_text::number_of;

/// Which call is made.
#[derive(Clone, Copy)]
pub enum Kind {
    ClusterInfo,
    /// With 20 asks.
    Allocate,
    /// An Allocate with 256 asks and 1,024 releases.
    Lists,
    /// With 65,526 bytes of lines.
    Refresh,
}

/// How many threads make how many calls each. With no thread the calls are made without a lock.
#[derive(Clone, Copy)]
pub struct Work {
    pub kind: Kind,
    pub threads: u32,
    pub calls: u32,
}

/// The work that a line says: at most 64 threads, and at most 500,000 calls in all.
pub fn read_work(line: &str) -> Option<Work> {
    let mut words = line.split(' ');
    let kind = match words.next()? {
        "info" => Kind::ClusterInfo,
        "allocate" => Kind::Allocate,
        "lists" => Kind::Lists,
        "refresh" => Kind::Refresh,
        _ => return None,
    };
    let threads = number(words.next()?, 64)?;
    let calls = number(words.next()?, 500_000)?;
    if threads.max(1) as u64 * calls as u64 > 500_000 {
        return None;
    }
    Some(Work {
        kind,
        threads,
        calls,
    })
}

/// The number that 1 to 6 digits of a word spell, if it is at most this.
fn number(word: &str, most: u32) -> Option<u32> {
    let number = number_of(word.as_bytes(), 6)?;
    if number > most as u64 {
        return None;
    }
    Some(number as u32)
}
