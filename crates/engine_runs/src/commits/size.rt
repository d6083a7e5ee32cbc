//! The numbers of a line of standard input (`Size`).

use cap_text::number_of;

/// How much there is of what, how many grants and ends are made, how many times the cluster's parts are then copied, how often so many bytes
/// are copied, and of how many copies of the parts snapshots are made.
#[derive(Clone, Copy)]
pub struct Size {
    pub nodes: u64,
    pub leaves: u64,
    pub applications: u64,
    pub grants: u64,
    pub ends: u64,
    pub parts: u64,
    pub copies: u64,
    pub bytes: u64,
    pub snapshots: u64,
}

/// The size that the numbers of a line say, of which the last four may be left out for 0.
pub fn read_size(line: &str) -> Option<Size> {
    let mut words = line.split(' ');
    let size = Size {
        nodes: number(words.next())?,
        leaves: number(words.next())?,
        applications: number(words.next())?,
        grants: number(words.next())?,
        ends: number(words.next())?,
        parts: number_or_0(words.next())?,
        copies: number_or_0(words.next())?,
        bytes: number_or_0(words.next())?,
        snapshots: number_or_0(words.next())?,
    };
    Some(size)
}

/// The number that 1 to 9 digits of a word spell.
fn number(word: Option<&str>) -> Option<u64> {
    number_of(word?.as_bytes(), 9)
}

/// The same, and 0 where there is no word.
fn number_or_0(word: Option<&str>) -> Option<u64> {
    match word {
        Some(_) => number(word),
        None => Some(0),
    }
}
