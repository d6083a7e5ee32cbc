//! Calls of one kind on one cluster, without a lock or by threads that share the cluster (`print`).

mod making;
mod run;
mod work;

use crate::calls::run::run;
use crate::calls::work::read_work;
use std::alloc::Global;
use std::io;
use std::sync::Wait;
use std::thread::Threads;

/// Prints how many of the calls that a line asks for were not refused.
pub fn print<H: Print + Threads + Wait + Sync>(
    rt: &H,
    alloc: Global,
    line: &str,
) -> io::Result<()> {
    let Some(work) = read_work(line) else {
        return println!(rt; "a kind of call and two numbers are wanted");
    };
    match run(rt, alloc, work) {
        Some(answered) => println!(rt; "{answered} answered"),
        None => println!(rt; "no memory"),
    }
}
