//! Words with numbers in decimal, and bytes in hexadecimal (`put_numbers`, `put_hex`).
ghost use Rattle.std.specs.Prelude.{◌≡◌, ◌++◌, OnOk};
ghost use Rattle.hex.specs.Hex.{encode_lower};
ghost use Rattle.cap_journal.specs.Lines.{blanked};

use itoa::Buffer;
use std::alloc::AllocError;

/// Puts words, and numbers in decimal with a blank before each.
pub(crate) fn put_numbers(
    line: &mut Vec<u8>,
    words: &[u8],
    numbers: &[u64],
) -> Result<(), AllocError>
    ensures { OnOk result (line.new.items
        ≡ line.old.items ++ words.now ++ blanked numbers.now) }
{
    let mut buffer = Buffer::new();
    line.extend_from_slice(words)?;
    for number in numbers {
        line.extend_from_slice(b" ")?;
        line.extend_from_slice(buffer.format(*number).as_bytes())?;
    }
    Ok(())
}

/// Puts bytes in hexadecimal.
pub(crate) fn put_hex(line: &mut Vec<u8>, bytes: &[u8]) -> Result<(), AllocError>
    ensures { OnOk result (line.new.items ≡ line.old.items ++ encode_lower bytes.now) }
{
    let digits = hex::encode(*line.allocator(), bytes)?;
    line.extend_from_slice(digits.as_bytes())
}
