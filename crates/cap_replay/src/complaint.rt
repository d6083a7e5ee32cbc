//! Words for why a script was played no further (`explain_end`).

use crate::script::Script;
use crate::stop::Stop;
use cap_config::{ConfigFaultKind, read_detailed};
use cap_model::NoMemory;
use cap_words::describe;
use std::alloc::{AllocError, Global};

/// Adds a line of words, where the script itself is why it was played no further: for a bad line its number and what is expected
/// there, for a fault of the settings the number of its line among the `conf` lines, its key and what is wrong. If an allocation
/// fails, a part of the words may have been added.
pub(crate) fn explain_end(
    alloc: Global,
    script: &Script,
    played: Result<(), Stop>,
    words: &mut String,
) -> Result<(), AllocError> {
    match played {
        Err(Stop::BadLine(line)) => {
            let expected = script.expected().words();
            let text = format!(in alloc; "line {line}: {expected}\n")?;
            words.push_str(text.as_str())
        }
        Err(Stop::Config(_)) => explain_fault(alloc, script.settings_text(), words),
        Ok(()) | Err(Stop::NoMemory | Stop::Input | Stop::Output) => Ok(()),
    }
}

/// Adds the words for the fault of the settings. They are read once more, since a `Stop` comes back from each line and keeps no
/// detail.
fn explain_fault(alloc: Global, text: &[u8], words: &mut String) -> Result<(), AllocError> {
    let Err(found) = read_detailed(alloc, text) else {
        return Ok(());
    };
    if found.fault.kind == ConfigFaultKind::NoMemory {
        return Err(AllocError);
    }
    let described = match describe(alloc, text, &found) {
        Ok(described) => described,
        Err(NoMemory) => return Err(AllocError),
    };
    if found.fault.line > 0 {
        words.push_str("conf ")?;
    }
    words.push_str(described.as_str())?;
    words.push_str("\n")
}
