//! What a line of the script asks for (`Command`, `command_of`).
ghost use Rattle.std.specs.Prelude.{◌≡◌, ◌++◌, ℕ, List, codes, IfSome, IfNone, IsSome};
ghost use Rattle.cap_replay.specs.declared.command.Command.{Command};
ghost use Rattle.cap_replay.specs.Script.{IsCommand, IsNumber, HasNoNumberAlone};

use cap_text::split_once;

/// The greatest number of digits that a number may have.
const DIGITS_MAX: usize = 10;

/// What a line of the script asks for.
#[derive(Clone, Copy)]
pub(crate) enum Command<'a> {
    /// An empty line, or a comment.
    Nothing,
    /// A property line of the settings.
    Conf(&'a [u8]),
    Open(u32),
    /// A piece in hexadecimal, which is not looked at yet.
    Bytes(u32, &'a [u8]),
    End(u32),
    Copy(u32),
    /// A worker, and the node from which it looks.
    Propose(u32, u32),
    Commit(u32),
}

/// The command of a line, where it has one.
pub(crate) fn command_of(line: &[u8]) -> Option<Command<'_>>
    ensures found { IfSome result (λ command. IsCommand line.now command) }
    ensures only { (command : Command) → IsCommand line.now command → IsSome result }
{
    if line.is_empty() || line[0] == b'#' {
        return Some(Command::Nothing);
    }
    if let Some(rest) = line.strip_prefix(b"bytes ") {
        return piece_of(rest);
    }
    if let Some(property) = line.strip_prefix(b"conf ") {
        return Some(Command::Conf(property));
    }
    if let Some(rest) = line.strip_prefix(b"propose ") {
        return proposal_of(rest);
    }
    numbered_of(line)
}

/// The command of a line with a piece, by what follows its word and a blank.
fn piece_of(rest: &[u8]) -> Option<Command<'_>>
    ensures found { IfSome result (λ command. IsCommand (codes "bytes " ++ rest.now) command) }
    ensures only { (command : Command) → IsCommand (codes "bytes " ++ rest.now) command
        → IsSome result }
{
    let (number, piece) = split_once(rest, b' ')?;
    match number_of(number) {
        Some(number) => Some(Command::Bytes(number, piece)),
        None => None,
    }
}

/// The command of a line that proposes, by what follows its word and a blank.
fn proposal_of(rest: &[u8]) -> Option<Command<'_>>
    ensures found { IfSome result (λ command. IsCommand (codes "propose " ++ rest.now) command) }
    ensures only { (command : Command) → IsCommand (codes "propose " ++ rest.now) command
        → IsSome result }
{
    let (worker, start) = split_once(rest, b' ')?;
    Some(Command::Propose(number_of(worker)?, number_of(start)?))
}

/// The command of a line that is a word, a blank and a number.
fn numbered_of(line: &[u8]) -> Option<Command<'_>>
    ensures found { IfSome result (λ command. IsCommand line.now command) }
    ensures only { IfNone result ((command : Command) → IsCommand line.now command
        → HasNoNumberAlone command) }
{
    if let Some(number) = number_after(line, b"open ") {
        return Some(Command::Open(number));
    }
    if let Some(number) = number_after(line, b"end ") {
        return Some(Command::End(number));
    }
    if let Some(number) = number_after(line, b"copy ") {
        return Some(Command::Copy(number));
    }
    match number_after(line, b"commit ") {
        Some(number) => Some(Command::Commit(number)),
        None => None,
    }
}

/// The number that a line has after this beginning.
fn number_after(line: &[u8], beginning: &[u8]) -> Option<u32>
    ensures found { IfSome result (λ n. (digits : List ℕ)
        × (line.now ≡ beginning.now ++ digits) × IsNumber digits n) }
    ensures none { IfNone result ((digits : List ℕ) (n : ℕ)
        → line.now ≡ beginning.now ++ digits → IsNumber digits n → ⊥) }
{
    match line.strip_prefix(beginning) {
        Some(digits) => number_of(digits),
        None => None,
    }
}

/// The number that 1 to 10 decimal digits spell, where it fits a u32.
fn number_of(digits: &[u8]) -> Option<u32>
    ensures found { IfSome result (λ n. IsNumber digits.now n) }
    ensures only { (n : ℕ) → IsNumber digits.now n → IsSome result }
{
    match cap_text::number_of(digits, DIGITS_MAX) {
        Some(number) if number <= u64::from(u32::MAX) => Some(number as u32),
        _ => None,
    }
}
