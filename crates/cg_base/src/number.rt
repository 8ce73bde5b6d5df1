ghost use Rattle.std.specs.Prelude.{◌≡◌, ℕ, ◌^◌, ◌<◌, ◌≤◌, pos, Some, IfOk};
ghost use Rattle.std.specs.Fmt.{signed_decimal};
ghost use Rattle.cg_base.specs.Numerals.{number_in, number_written, hex_text};

use crate::{NoMemory, Text};
use std::alloc::Global;

/// The decimal digits of a number, without zeros in front, behind a `-` where it is below 0.
pub fn decimal(alloc: Global, value: i128) -> Result<Text, NoMemory>
    ensures text { IfOk result (λ text. text ≡ signed_decimal value) }
    ensures reads_back { IfOk result
        (λ text. (n : ℕ) → value ≡ pos n → n < 2 ^ 64 → number_written text ≡ Some n) }
{
    let digits = format!(in alloc; "{value}")?;
    Text::of(alloc, digits.as_bytes())
}

/// `0x` and the hexadecimal digits of a number, in lower case and without zeros in front: `0x0`
/// for 0.
pub fn hex(alloc: Global, value: u64) -> Result<Text, NoMemory>
    ensures text { IfOk result (λ text. text ≡ hex_text value) }
    ensures reads_back { IfOk result (λ text. number_written text ≡ Some value) }
{
    let digits = format!(in alloc; "0x{value:x}")?;
    Text::of(alloc, digits.as_bytes())
}

/// The number that a text writes: decimal digits, or `0x` and hexadecimal digits of either case
/// (docs/LANGUAGE.md, "Operations"). None exactly where the text is neither, or the number is
/// above 2^64 - 1.
pub fn read_number(text: &[u8]) -> Option<u64>
    ensures { result ≡ number_written text.now }
{
    match text {
        [b'0', b'x', digits @ ..] => read_digits(16, digits),
        digits => read_digits(10, digits),
    }
}

/// The number that digits of a base from 2 to 36 write, above 10 with letters of either case.
/// None exactly where there are none, another byte stands among them, or the number is above
/// 2^64 - 1.
pub fn read_digits(base: u32, digits: &[u8]) -> Option<u64>
    requires low { 2 ≤ base }
    requires high { base ≤ 36 }
    ensures { result ≡ number_in base digits.now }
{
    if digits.is_empty() {
        return None;
    }
    let mut value: u64 = 0;
    for byte in digits {
        let digit = char::from(*byte).to_digit(base)?;
        value = value
            .checked_mul(u64::from(base))?
            .checked_add(u64::from(digit))?;
    }
    Some(value)
}
