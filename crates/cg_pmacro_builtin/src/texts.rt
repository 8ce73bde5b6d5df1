ghost use Rattle.std.specs.Prelude.{◌≡◌, false, IfOk};
ghost use Rattle.std.specs.Fmt.{digits};
ghost use Rattle.cg_pmacro_builtin.specs.BuiltIns.{last_digits as the_last};

use cg_base::{NoMemory, Text};
use std::alloc::Global;

/// The digits of a number to the base 16, in lower case and without zeros in front.
pub fn hex_digits(alloc: Global, number: u64) -> Result<Text, NoMemory>
    ensures { IfOk result (λ text. text ≡ digits 16 false number) }
{
    let digits = format!(in alloc; "{number:x}")?;
    Text::of(alloc, digits.as_bytes())
}

/// The last of these digits, so many, with zeros in front of them.
pub fn last_digits(alloc: Global, count: u8, number: u64) -> Result<Text, NoMemory>
    ensures { IfOk result (λ text. text ≡ the_last count number) }
{
    let digits = hex_digits(alloc, number)?;
    let zeros = vec![in alloc; b'0'; count as usize]?;
    let mut text = Text::of(alloc, zeros.as_slice())?;
    text.append(digits.as_slice())?;
    Text::of(alloc, &text.as_slice()[digits.len()..])
}
