//! The line of an entry that was looked for (`line_of`).
ghost use Rattle.std.specs.Prelude.{◌≡◌};
ghost use Rattle.std.specs.Option.{option_map, option_copied};

use cap_base::properties::Entry;

/// The line of an entry that was found.
pub fn line_of(entry: Option<&Entry>) -> Option<usize>
    ensures { result ≡ option_map (λ entry. entry.line) (option_copied entry.entry) }
{
    match entry {
        Some(entry) => Some(entry.line),
        None => None,
    }
}
