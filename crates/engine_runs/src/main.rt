//! Does what each line of standard input asks for, and prints what comes of it.
//! Five numbers are nodes, leaf queues, applications, grants and ends: so many grants are made, and then some of their
//! containers end by heartbeats. It prints how many were made, and what becomes of one more grant, of a reservation
//! that fits, and of one that never fits. Four more numbers may follow: how many times the cluster's parts are then copied
//! in an arena, one copy after the other; how often how many bytes are copied there; and of how many copies of the parts
//! snapshots are made. It prints how many bytes the last copy of the parts takes.
//! The word `info`, `allocate`, `lists` or `refresh` and two numbers are calls of one kind on one cluster: how many threads make them (0 for
//! none and no lock), and how many each makes. It prints how many calls were not refused.
//! The word `follow` and five numbers are nodes, leaf queues, applications, asks of each, and turns of a worker that follows the
//! journal. It prints how many containers they granted.
//! The word `pass` and ten numbers are the same five, then MiB of a node, of what a user may have in a leaf queue, and of a container
//! that is asked for, how many users the applications have, and whether one more application stands beside them that is served.
//! The word `host`, `rack` or `late` may follow: all asks are for a host that is not there, for such a rack, or for a
//! host that comes after them.
//! The word `news` and three numbers are nodes, entries, and looks: so many Allocates of 20 asks are entered, and so many holds take them as news, always the
//! same. It prints how many entries were taken in all.
//! The word `again`, a kind of call (`allocate`, `heartbeat`, `node`, `refresh`), who makes it and two numbers are leaf queues and rounds of 16 calls, which are
//! made of a cluster `alone`, or of a shared one and, after each round, again by a `replica`. It prints how many calls were made.
//! The word `echo` and two numbers are a port of 127.0.0.1 and how many connections are accepted there, once `listening`
//! and the port are printed: each frame that comes on one is written back to it, in a thread for each, until all have ended.
#![tactic(auto)]

mod calls;
mod commits;
mod echo;
mod following;

use std::io::{self, Read};

/// Whether a line asks for something that is done with a worker or a replica that follows.
fn is_of_following(line: &str) -> bool {
    match line.split(' ').next() {
        Some(word) => matches!(word, "follow" | "pass" | "news" | "again"),
        None => false,
    }
}

fn main(rt: HostRuntime) -> io::Result<()> {
    let mut text = String::new(rt.alloc());
    let _ = rt.reader().read_to_string(&mut text)?;
    for line in text.lines() {
        if line.starts_with("echo ") {
            echo::print(&rt, rt.alloc(), line)?;
        } else if is_of_following(line) {
            following::print(&rt, rt.alloc(), line)?;
        } else if matches!(line.as_bytes().first(), Some(b'0'..=b'9')) {
            commits::print(&rt, rt.alloc(), line)?;
        } else {
            calls::print(&rt, rt.alloc(), line)?;
        }
    }
    Ok(())
}
