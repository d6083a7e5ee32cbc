//! Bytes without the spaces at both ends (`trimmed`).
ghost use Rattle.std.specs.Prelude.{◌≡◌};
ghost use Rattle.cap_text.specs.Pieces.{trimmed_bytes, from_first_word, to_last_word};

/// The bytes without the spaces at both ends.
#[tactic(auto, unfolding(crate::specs::Pieces::trimmed_bytes))]
pub fn trimmed(bytes: &[u8]) -> &[u8]
    ensures { result.now ≡ trimmed_bytes bytes.now }
{
    to_last_word(from_first_word(bytes))
}

fn from_first_word(bytes: &[u8]) -> &[u8]
    ensures { result.now ≡ from_first_word bytes.now }
{
    let mut start = 0;
    while start < bytes.len() && bytes[start] == b' ' {
        start += 1;
    }
    &bytes[start..]
}

fn to_last_word(bytes: &[u8]) -> &[u8]
    ensures { result.now ≡ to_last_word bytes.now }
{
    let mut end = bytes.len();
    while end > 0 && bytes[end - 1] == b' ' {
        end -= 1;
    }
    &bytes[..end]
}
