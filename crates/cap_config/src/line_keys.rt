//! The key that a line shows, whatever its bytes are (`line_key`).
ghost use Rattle.std.specs.Prelude.{◌≡◌};
ghost use Rattle.std.specs.List.{list_all};
ghost use Rattle.std.specs.Option.{option_map};
ghost use Rattle.cap_config.specs.LineKeys.{shown, shown_first, key_shown, nth_line, line_key};
ghost use Rattle.cap_text.specs.Pieces.{parts_at};

use crate::first_pass::{all_printable, is_passed_over};
use cap_text::{split_once, trimmed};
use std::str;

/// The key in the line with this number, counted from 1: the bytes before its first `=`, without spaces round them. None
/// where there is no such line, the line is a comment or empty, or the key has no byte or one that is not printable.
#[tactic(auto, unfolding(crate::specs::LineKeys::line_key))]
pub fn line_key(text: &[u8], number: usize) -> Option<&str>
    ensures { option_map (λ key. key.now) result ≡ line_key text.now number }
{
    match nth_line(text, number) {
        Some(line) => key_shown(line),
        None => None,
    }
}

/// The line with this number, counted from 1, up to its line feed.
#[tactic(auto, unfolding(crate::specs::LineKeys::nth_line))]
fn nth_line(text: &[u8], number: usize) -> Option<&[u8]>
    ensures { option_map (λ line. line.now) result ≡ nth_line text.now number }
{
    if number == 0 {
        return None;
    }
    text.split(|byte| *byte == b'\n').nth(number - 1)
}

/// The key that a line shows.
#[tactic(auto, unfolding(crate::specs::LineKeys::key_shown))]
fn key_shown(line: &[u8]) -> Option<&str>
    ensures { option_map (λ key. key.now) result ≡ key_shown line.now }
{
    if is_passed_over(line) {
        return None;
    }
    match split_once(line, b'=') {
        Some((key, _)) => shown(trimmed(key)),
        None => None,
    }
}

/// These bytes, where there is one at least and all are printable.
#[tactic(auto, unfolding(crate::specs::LineKeys::shown))]
fn shown(bytes: &[u8]) -> Option<&str>
    ensures { option_map (λ shown. shown.now) result ≡ shown bytes.now }
{
    if bytes.is_empty() || !all_printable(bytes) {
        return None;
    }
    let Ok(shown) = str::from_utf8(bytes) else {
        unreachable!()
    };
    Some(shown)
}
