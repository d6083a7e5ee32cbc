//! Grants and ends on one cluster, and snapshots of it (`print`).

pub mod cluster;
mod size;
mod snapshots;
mod work;

use crate::commits::size::read_size;
use crate::commits::work::run;
use std::alloc::Global;
use std::io;

/// Prints what becomes of the grants, ends and copies that a line asks for.
pub fn print(rt: &impl Print, alloc: Global, line: &str) -> io::Result<()> {
    let Some(size) = read_size(line) else {
        return println!(rt; "five to nine numbers are wanted");
    };
    match run(alloc, &size) {
        Some(done) => println!(rt;
            "{} granted, {} ended; then {:?}; {} bytes a copy",
            done.granted, done.ended, done.reasons, done.bytes
        ),
        None => println!(rt; "no memory"),
    }
}
