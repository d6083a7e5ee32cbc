//! The number that decimal digits spell (`number_of`).
ghost use Rattle.std.specs.Prelude.{◌≡◌, ◌≤◌, length, true};
ghost use Rattle.std.specs.List.{list_all};
ghost use Rattle.cap_text.specs.Numbers.{number_of, decimal, is_digit};

/// The number that 1 to `digits_max` decimal digits spell, any leading zeros among them. None for other bytes. A u64 has
/// room for any 19 digits.
#[tactic(auto, unfolding(crate::specs::Numbers::number_of))]
pub fn number_of(bytes: &[u8], digits_max: usize) -> Option<u64>
    requires { digits_max ≤ 19 }
    ensures { result ≡ number_of digits_max bytes.now }
{
    if bytes.is_empty() || bytes.len() > digits_max || !all_digits(bytes) {
        return None;
    }
    Some(decimal(bytes))
}

fn all_digits(bytes: &[u8]) -> bool
    ensures { result ≡ list_all is_digit bytes.now }
{
    bytes.iter().all(|byte| b'0' <= *byte && *byte <= b'9')
}

fn decimal(digits: &[u8]) -> u64
    requires short { length digits.now ≤ 19 }
    requires digits { list_all is_digit digits.now ≡ true }
    ensures { result ≡ decimal digits.now }
{
    let mut number = 0;
    for digit in digits {
        number = 10 * number + (*digit - b'0') as u64;
    }
    number
}
