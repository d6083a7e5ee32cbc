//! Numbers and amounts in words, also those over a limit.
ghost use Rattle.std.specs.Prelude.{◌≡◌, ◌++◌, OnOk, string_bytes};
ghost use Rattle.cap_words.specs.Amounts.{amounts_words, gpus_words, over_words};

use cap_base::RESOURCES;
use itoa::{Buffer, Integer};
use std::alloc::AllocError;

/// Adds a number in decimal.
pub(crate) fn put_number<I: Integer>(words: &mut String, number: I) -> Result<(), AllocError>
    ensures { OnOk result (string_bytes words.new ≡ string_bytes words.old ++ I.text number) }
{
    let mut buffer = Buffer::new();
    words.push_str(buffer.format(number))
}

/// Adds amounts in MiB, vcores and GPUs as property lines have them, without the brackets. The GPUs are left out where there
/// are as many as `unsaid`.
#[tactic(auto, unfolding(crate::specs::Amounts::amounts_words))]
pub(crate) fn put_amounts(
    words: &mut String,
    unsaid: u64,
    amounts: [u64; RESOURCES],
) -> Result<(), AllocError>
    ensures { OnOk result (string_bytes words.new
        ≡ string_bytes words.old ++ amounts_words unsaid amounts) }
{
    words.push_str("memory=")?;
    put_number(words, amounts[0])?;
    words.push_str(",vcores=")?;
    put_number(words, amounts[1])?;
    put_gpus(words, unsaid, amounts[2])
}

#[tactic(auto, unfolding(crate::specs::Amounts::gpus_words))]
fn put_gpus(words: &mut String, unsaid: u64, gpus: u64) -> Result<(), AllocError>
    ensures { OnOk result (string_bytes words.new
        ≡ string_bytes words.old ++ gpus_words unsaid gpus) }
{
    if gpus == unsaid {
        return Ok(());
    }
    words.push_str(",yarn.io/gpu=")?;
    put_number(words, gpus)
}

/// Adds an amount of a resource and the limit that it is over. Nothing where it is not.
#[tactic(auto, unfolding(crate::specs::Amounts::over_words))]
pub(crate) fn put_over(
    words: &mut String,
    resource: &str,
    amount: u64,
    most: u64,
) -> Result<(), AllocError>
    ensures { OnOk result (string_bytes words.new
        ≡ string_bytes words.old ++ over_words resource.now amount most) }
{
    if amount <= most {
        return Ok(());
    }
    words.push_str(resource)?;
    put_number(words, amount)?;
    words.push_str(" over ")?;
    put_number(words, most)
}
