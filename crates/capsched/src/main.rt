//! The program: words in, exit status out.
#![tactic(auto)]

use cap_daemon::{Counted, run};
use std::env;
use std::io::{self, ErrorKind, Write};
use std::process::ExitCode;

/// The words of the command line. `None` if an allocation failed.
fn words_of(rt: &HostRuntime) -> io::Result<Option<Vec<String>>> {
    match env::args(rt) {
        Ok(words) => Ok(words.collect(rt.alloc()).ok()),
        Err(error) if error.kind() == ErrorKind::OutOfMemory => Ok(None),
        Err(error) => Err(error),
    }
}

fn main(rt: HostRuntime) -> anyhow::Result<ExitCode> {
    let Some(words) = words_of(&rt)? else {
        io::writer(&rt).write_all(b"no memory\n")?;
        return Ok(ExitCode::from(3));
    };
    let mut complaint = String::new(rt.alloc());
    let status = run(
        &rt,
        words.as_slice(),
        &mut Counted::new(rt.reader()),
        &mut Counted::new(io::writer(&rt)),
        &mut complaint,
    );
    rt.eprint(complaint.as_str())?;
    Ok(ExitCode::from(status))
}
