//! Bytes cut at the first of a separator (`split_once`).
ghost use Rattle.std.specs.Prelude.{◌≡◌, ◌==◌, true, IfSome, IfNone};
ghost use Rattle.std.specs.List.{position};
ghost use Rattle.std.specs.Option.{option_map};
ghost use Rattle.cap_text.specs.Pieces.{parts_at, IsCut, lacks};

use memchr::memchr;

/// The bytes before the first `separator` and those after it. None where there is no such byte.
pub fn split_once(bytes: &[u8], separator: u8) -> Option<(&[u8], &[u8])>
    ensures parts { option_map (λ p. (p.0.now, p.1.now)) result ≡ parts_at separator bytes.now }
    ensures found { IfSome result (λ p. IsCut separator bytes.now p.0.now p.1.now) }
    ensures none { IfNone result (lacks separator bytes.now ≡ true) }
{
    match position_of(bytes, separator) {
        Some(at) => Some((&bytes[..at], &bytes[at + 1..])),
        None => None,
    }
}

/// The index of the first `separator`.
fn position_of(bytes: &[u8], separator: u8) -> Option<usize>
    ensures { result ≡ position (λ b. b == separator) bytes.now }
{
    memchr(separator, bytes)
}
