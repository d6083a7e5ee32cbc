//! Byte strings that were seen: the keys of earlier lines, the names of a list.
ghost use Rattle.std.specs.Prelude.{◌≡◌, ℕ, List, IfOk, OnOk, not, ◌||◌};
ghost use Rattle.std.specs.Str.{bytes_eq};
ghost use Rattle.cap_base.specs.properties.Seen.{has};

use std::alloc::AllocError;
use std::collections::HashMap;

/// Adds bytes to those that were seen. False where they were seen before.
pub fn add_new<'a>(seen: &mut HashMap<&'a [u8], ()>, bytes: &'a [u8]) -> Result<bool, AllocError>
    ensures new { IfOk result (λ new. new ≡ not (has seen.old bytes.now)) }
    ensures after { OnOk result ((q : List ℕ) → has seen.new q ≡
        (has seen.old q || bytes_eq bytes.now q)) }
{
    let old = seen.insert(bytes, ())?;
    Ok(old.is_none())
}
